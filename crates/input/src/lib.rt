// What the log program reads: a first line with the number of a label set, then frames; in pieces that end anywhere.
#![tactic(auto)]

ghost use Rattle.std.specs.Prelude.{◌≡◌, [], ◌≤◌, length};
ghost use Rattle.machine.specs.State.{reset_state};
ghost use Rattle.controller.specs.Controller.{state_of};
ghost use Rattle.logline.specs.LogLine.{refusal, line_room};
ghost use Rattle.output.specs.Wrote.{Wrote};
ghost use Rattle.frame_log.specs.Results.{begun_of};
ghost use Rattle.input.specs.declared.Reading.TheVariants.{FirstLine};
ghost use Rattle.input.specs.declared.SetLine.TheVariants.{Nothing};
ghost use Rattle.input.specs.Input.{refusal_after, chosen_in, has_set, heard};
ghost use Rattle.input.specs.Results.{PassedBy, FeedPromised, FinishPromised};

use controller::Controller;
use frame_log::{NoRoom, Stream};
use logline::LINE_ROOM;

// The byte that ends a line.
const LF: u8 = b'\n';

// What has come of the set line: nothing, a digit, both of them.
#[derive(Clone, Copy, Debug, PartialEq, Eq)]
pub enum SetLine {
    Nothing,
    Digit(u8),
    Number(u32),
}

// How far the reading has come: in the first line; frames, under a set; over, since the set is unknown.
#[derive(Clone, Copy, Debug, PartialEq, Eq)]
pub enum Reading {
    FirstLine(SetLine),
    Frames(u32),
    Over,
}

#[derive(Clone, Copy)]
pub struct Input {
    pub reading: Reading,
    pub stream: Stream,
}

// An input after a piece, and the log of the piece.
#[derive(Clone, Copy)]
pub struct FeedResult {
    pub input: Input,
    pub log: Result<usize, NoRoom>,
}

// An input at its end, and the log of its last line.
#[derive(Clone, Copy)]
pub struct FinishResult {
    pub reading: Reading,
    pub controller: Controller,
    pub log: Result<usize, NoRoom>,
}

// An input that has not begun, on a controller from reset.
pub fn start() -> Input
    ensures { (result.reading ≡ FirstLine Nothing) × (state_of result.stream.controller ≡ reset_state) × (begun_of result.stream ≡ []) }
{
    Input {
        reading: Reading::FirstLine(SetLine::Nothing),
        stream: frame_log::start(),
    }
}

// ---- the set line

// The first digit: some set's number begins with it, or the set is unknown.
fn first_digit(b: u8) -> Reading
    ensures { result ≡ heard Nothing b }
{
    match hex_digits::digit_number(b) {
        Some(high) if logline::is_set(16 * u32::from(high)) => {
            Reading::FirstLine(SetLine::Digit(high))
        }
        _ => Reading::Over,
    }
}

// The second digit: with the first it is a set's number, or the set is unknown.
fn second_digit(high: u8, b: u8) -> Reading
    ensures { result ≡ heard (SetLine.Digit high) b }
{
    if let Some(low) = hex_digits::digit_number(b) {
        let set = 16 * u32::from(high) + u32::from(low);
        if logline::is_set(set) {
            return Reading::FirstLine(SetLine::Number(set));
        }
    }
    Reading::Over
}

// A byte of the set line, after what has come of it.
fn byte_heard(line: SetLine, b: u8) -> Reading
    ensures { result ≡ heard line b }
{
    match line {
        SetLine::Nothing => first_digit(b),
        SetLine::Digit(high) => second_digit(high, b),
        SetLine::Number(set) if b == LF => Reading::Frames(set),
        SetLine::Number(_) => Reading::Over,
    }
}

// How far a reading comes, and the place past the bytes that it took for the set line.
#[derive(Clone, Copy)]
pub struct Passed {
    pub reading: Reading,
    pub next: usize,
}

// The bytes of a piece that belong to the set line are passed.
pub fn set_line_passed(reading: Reading, piece: &[u8]) -> Passed
    ensures { PassedBy reading piece.now result }
{
    let mut reading = reading;
    for (next, b) in piece.iter().enumerate() {
        let Reading::FirstLine(line) = reading else {
            return Passed { reading, next };
        };
        reading = byte_heard(line, *b);
    }
    Passed {
        reading,
        next: piece.len(),
    }
}

// The set that the first line of a whole input chooses, ended by LF or by the end of the input.
pub fn set_of(input: &[u8]) -> Option<u32>
    ensures { result ≡ chosen_in input.now }
{
    match set_line_passed(Reading::FirstLine(SetLine::Nothing), input).reading {
        Reading::FirstLine(line) => match line {
            SetLine::Number(set) => Some(set),
            _ => None,
        },
        Reading::Frames(set) => Some(set),
        Reading::Over => None,
    }
}

// ---- a piece

// Where the piece has ended a reading that had not ended before, writes the line that refuses an unknown set, with its English label;
// answers the place past it.
fn put_refusal_after(out: &mut [u8], before: Reading) -> usize
    requires { line_room ≤ length out.old }
    ensures { Wrote out.old 0 (refusal_after before) result out.new }
{
    match before {
        Reading::FirstLine(_) => logline::put_unknown_set(out),
        _ => 0,
    }
}

// One piece: what it answers stands at the output's start. Each byte of the piece could end a line, and a refusal is one more:
// where the output has not 41 bytes for each, nothing is done.
pub fn feed(i: Input, memory: &mut [u32], start: u32, piece: &[u8], out: &mut [u8]) -> FeedResult
    ensures { FeedPromised i start memory.old piece.now out.old result memory.new out.new }
{
    if out.len() / LINE_ROOM <= piece.len() {
        return FeedResult {
            input: i,
            log: Err(NoRoom),
        };
    }
    let passed = set_line_passed(i.reading, piece);
    let mut stream = i.stream;
    let log = match passed.reading {
        Reading::FirstLine(_) => Ok(0),
        Reading::Frames(set) => {
            let fed = frame_log::feed(stream, memory, start, &piece[passed.next..], out, set);
            stream = fed.stream;
            fed.log
        }
        Reading::Over => Ok(put_refusal_after(out, i.reading)),
    };
    FeedResult {
        input: Input {
            reading: passed.reading,
            stream,
        },
        log,
    }
}

// ---- the end of the input

// Whether the end of the input ends a set line.
pub fn has_set(line: SetLine) -> bool
    ensures { result ≡ has_set line }
{
    matches!(line, SetLine::Number(_))
}

// The end of the input: what it answers stands at the output's start. Where the output has not 41 bytes for each line that may
// still be answered, nothing is done.
pub fn finish(i: Input, memory: &mut [u32], start: u32, out: &mut [u8]) -> FinishResult
    ensures { FinishPromised i start memory.old out.old result memory.new out.new }
{
    let mut reading = i.reading;
    let mut controller = i.stream.controller;
    let log = match reading {
        Reading::FirstLine(_) if out.len() < LINE_ROOM => Err(NoRoom),
        Reading::FirstLine(line) if has_set(line) => Ok(0),
        Reading::FirstLine(_) => {
            reading = Reading::Over;
            Ok(logline::put_unknown_set(out))
        }
        Reading::Frames(set) => {
            let ran = frame_log::finish(i.stream, memory, start, out, set);
            controller = ran.controller;
            ran.log
        }
        Reading::Over => Ok(0),
    };
    FinishResult {
        reading,
        controller,
        log,
    }
}
