// The log of a text, and of a text that comes in pieces.
#![tactic(auto)]

ghost use Rattle.std.specs.Prelude.{◌≡◌, ◌+◌, ◌*◌, ◌%◌, ◌^◌, ◌<◌, ◌≤◌, [], length, if◌then◌else◌};
ghost use Rattle.machine.specs.State.{State, reset_state};
ghost use Rattle.machine.specs.Step.{not_aframe};
ghost use Rattle.controller.specs.Controller.{state_of};
ghost use Rattle.step.specs.Outcome.{outcome_of};
ghost use Rattle.bank.specs.Words.{state_of_words};
ghost use Rattle.refusal.specs.Codes.{form_code};
ghost use Rattle.step.specs.Parts.{outcome_in};
ghost use Rattle.lines.specs.Lines.{lines_from};
ghost use Rattle.frame.specs.Frame.{framed_outcome};
ghost use Rattle.logline.specs.LogLine.{line_room};
ghost use Rattle.frame_log.specs.Log.{line_outcome, lines_outcome, piece_outcome};
ghost use Rattle.frame_log.specs.Results.{RunPromised, TextLogged, begun_of, begun_at, TurnPromised, LinePromised, PieceLogged, FeedPromised};
ghost use Rattle.frame_log.specs.Counts.{is_done_cycle, count_of, end_count_of, counted_outcome};

mod progress;

use controller::Controller;
use logline::LINE_ROOM;
use machine::{Answer, Refusal, Step, StepKind, codes};
use progress::Progress;
use std::fmt;
use step::Stepped;

// ---- a line

// The answer to a line that is no frame: code 14, with the lines of INTCSR and AINT.
fn not_a_frame(intcsr: u32, aint: u32) -> Answer
    ensures { (st : State) → st.intcsr ≡ intcsr → st.aint ≡ aint → result ≡ not_aframe st }
{
    Answer {
        code: u32::from(Refusal::NotAFrameLine),
        line: interrupts::line(intcsr),
        addon_line: interrupts::line(aint),
        ..Answer::default()
    }
}

// One line: a step, or code 14.
pub fn answer_line(c: Controller, memory: &mut [u32], start: u32, line: &[u8]) -> Stepped
    ensures { outcome_of result memory.new ≡ line_outcome (state_of c) start memory.old line.now }
{
    match frame::frame(line) {
        Some(s) => step::step(c, memory, start, s),
        None => Stepped {
            controller: c,
            answer: not_a_frame(c.intcsr, c.aint),
        },
    }
}

// Why a log is not written: the output has too little room for it.
#[derive(Clone, Copy, Debug, PartialEq, Eq)]
pub struct NoRoom;

impl fmt::Display for NoRoom {
    fn fmt<W: fmt::Write>(&self, f: &mut fmt::Formatter<W>) -> fmt::Result {
        f.write_str("no room for the log")
    }
}

// ---- a text in pieces, which end anywhere

// What is carried from piece to piece: the controller, and of the line that has not ended the first bytes, at most 14. They are
// enough, since a line of 14 bytes is no frame.
#[derive(Clone, Copy)]
pub struct Stream {
    pub controller: Controller,
    pub bytes: [u8; 14],
    pub len: usize,
}

// A stream after a piece, and how many bytes of log stand at the output's start.
#[derive(Clone, Copy)]
pub struct Streamed {
    pub stream: Stream,
    pub log: Result<usize, NoRoom>,
}

// A stream after a piece, and the place past the log.
#[derive(Clone, Copy)]
struct Streaming {
    stream: Stream,
    next: usize,
}

// The stream of a text that has not begun.
#[tactic(auto, unfolding(crate::specs::Results::begun_of))]
fn not_begun(controller: Controller) -> Stream
    ensures { (state_of result.controller ≡ state_of controller) × (begun_of result ≡ []) }
{
    Stream {
        controller,
        bytes: [0; 14],
        len: 0,
    }
}

// The same, from reset.
pub fn start() -> Stream
    ensures { (state_of result.controller ≡ reset_state) × (begun_of result ≡ []) }
{
    not_begun(controller::reset())
}

impl Progress {
    // The start of a piece, after what a stream carries.
    fn begin(s: &Stream) -> Progress
        ensures { (result.at ≡ 0) × (begun_at result ≡ begun_of s.now) }
    {
        let bytes = s.bytes;
        Progress {
            at: 0,
            bytes,
            len: s.len.min(14),
        }
    }

    // What is carried to the next piece, with the controller as words.
    #[tactic(auto, unfolding(crate::specs::Results::begun_of))]
    fn end(self, words: [u32; 38]) -> Stream
        ensures { (state_of result.controller ≡ state_of_words words) × (begun_of result ≡ begun_at self) }
    {
        let controller = bank::controller_of(words);
        let bytes = self.bytes;
        Stream {
            controller,
            bytes,
            len: self.len,
        }
    }

    // The next byte: LF ends the line, and what it says is told; any other is carried while there is room.
    fn take_byte(&mut self, piece: &[u8]) -> Option<Option<Step>>
        requires { self.old.at < length piece.now }
        ensures { TurnPromised self.old piece.now result self.new }
    {
        let x = piece[self.at];
        self.at += 1;
        if x == b'\n' {
            let said = frame::frame(&self.bytes[..self.len]);
            self.len = 0;
            return Some(said);
        }
        if self.len < 14 {
            self.bytes[self.len] = x;
            self.len += 1;
        }
        None
    }

    // A turn: a line that stands in the piece whole is read where it stands; of any other, byte by byte, the first bytes are carried.
    // What is told is what a line says that has ended, if one has.
    fn turn(&mut self, piece: &[u8]) -> Option<Option<Step>>
        requires { self.old.at < length piece.now }
        ensures { TurnPromised self.old piece.now result self.new }
    {
        if self.len != 0 {
            return self.take_byte(piece);
        }
        if let Some(s) = frame::frame_at(piece, self.at) {
            self.at += 14;
            return Some(Some(s));
        }
        let line = lines::line_at(piece, self.at);
        let end = self.at + line.len();
        if end < piece.len() {
            self.at = end + 1;
            return Some(frame::frame(line));
        }
        self.take_byte(piece)
    }

    // What the next line says that ends in the piece; none if no other does, and then the piece is read to its end.
    fn next_line(&mut self, piece: &[u8]) -> Option<Option<Step>>
        ensures { LinePromised self.old piece.now result self.new }
    {
        while self.at < piece.len() {
            if let Some(said) = self.turn(piece) {
                return Some(said);
            }
        }
        None
    }
}

// What a line says is answered, on a controller's words: a step, or code 14. Codes 1 and 2 are tested already, and stay as they are.
fn answer_words(
    words: &mut [u32; 38],
    memory: &mut [u32],
    start: u32,
    form: u32,
    said: Option<Step>,
) -> Answer
    requires { form ≡ form_code (state_of_words words.old) start (length memory.old) }
    ensures { outcome_in words.new memory.new result ≡ framed_outcome said (state_of_words words.old) start memory.old }
{
    match said {
        Some(s) => step::in_words(words, memory, start, form, s),
        None => not_a_frame(words[bank::INTCSR], words[bank::AINT]),
    }
}

// A piece, with room for its log from a place on: each line that ends in it is answered, and has its log line.
fn feed_bytes(
    s: Stream,
    memory: &mut [u32],
    start: u32,
    piece: &[u8],
    out: &mut [u8],
    at: usize,
    set: u32,
) -> Streaming
    requires { at + line_room * length (piece_outcome (state_of s.controller) start memory.old (begun_of s) piece.now).answers ≤ length out.old }
    ensures { PieceLogged set (piece_outcome (state_of s.controller) start memory.old (begun_of s) piece.now) result memory.new out.old at out.new }
{
    let mut words = bank::words_of(s.controller);
    let form = codes::code(refusal::form(bank::bank_in(&words), start, memory.len()));
    let mut progress = Progress::begin(&s);
    let mut next = at;
    while let Some(said) = progress.next_line(piece) {
        let a = answer_words(&mut words, memory, start, form, said);
        next = logline::put_line(out, next, a, set);
    }
    Streaming {
        stream: progress.end(words),
        next,
    }
}

// One piece: the log of the lines that end in it stands at the output's start, with the labels of a set. Where the output has
// fewer than 41 bytes for each byte of the piece, nothing is done.
pub fn feed(
    s: Stream,
    memory: &mut [u32],
    start: u32,
    piece: &[u8],
    out: &mut [u8],
    set: u32,
) -> Streamed
    ensures { FeedPromised set s start memory.old piece.now out.old result memory.new out.new }
{
    if out.len() / LINE_ROOM < piece.len() {
        return Streamed {
            stream: s,
            log: Err(NoRoom),
        };
    }
    let fed = feed_bytes(s, memory, start, piece, out, 0, set);
    Streamed {
        stream: fed.stream,
        log: Ok(fed.next),
    }
}

// ---- a text

// The controller after a text, and how many bytes of log stand at the output's start.
#[derive(Clone, Copy)]
pub struct Ran {
    pub controller: Controller,
    pub log: Result<usize, NoRoom>,
}

// The end of a text ends a line that isn't empty, as an LF does.
fn end_line(
    s: Stream,
    memory: &mut [u32],
    start: u32,
    out: &mut [u8],
    at: usize,
    set: u32,
) -> Streaming
    requires { at + line_room * length (lines_outcome (state_of s.controller) start memory.old (lines_from (begun_of s) [])).answers ≤ length out.old }
    ensures { TextLogged set (lines_outcome (state_of s.controller) start memory.old (lines_from (begun_of s) [])) result memory.new out.old at out.new }
{
    if s.len == 0 {
        return Streaming {
            stream: s,
            next: at,
        };
    }
    feed_bytes(s, memory, start, b"\n", out, at, set)
}

// A text from a controller and memory on: the log stands at the output's start, with the labels of a set. Where the output has
// fewer than 41 bytes for each line, nothing is done.
pub fn run(
    c: Controller,
    memory: &mut [u32],
    start: u32,
    text: &[u8],
    out: &mut [u8],
    set: u32,
) -> Ran
    ensures { RunPromised set c start memory.old text.now out.old result memory.new out.new }
{
    let n = lines::line_count(text);
    if out.len() / LINE_ROOM < n {
        return Ran {
            controller: c,
            log: Err(NoRoom),
        };
    }
    let fed = feed_bytes(not_begun(c), memory, start, text, out, 0, set);
    let ended = end_line(fed.stream, memory, start, out, fed.next, set);
    Ran {
        controller: ended.stream.controller,
        log: Ok(ended.next),
    }
}

// The end of the text: the line that has not ended is run as a text.
pub fn finish(s: Stream, memory: &mut [u32], start: u32, out: &mut [u8], set: u32) -> Ran
    ensures { RunPromised set s.controller start memory.old (begun_of s) out.old result memory.new out.new }
{
    let bytes = s.bytes;
    let len = s.len.min(14);
    run(s.controller, memory, start, &bytes[..len], out, set)
}

// ---- the cycles of a text, counted

// How many write cycles and read cycles are done, modulo 2^32.
#[derive(Clone, Copy, Debug, Default, PartialEq, Eq)]
pub struct Cycles {
    pub writes: u32,
    pub reads: u32,
}

impl Cycles {
    // With a line more: a done cycle is one more of its kind.
    fn with_line(self, said: Option<Step>, a: Answer) -> Cycles
        ensures writes { result.writes ≡ (self.writes + (if is_done_cycle 4 said a then 1 else 0)) % 2 ^ 32 }
        ensures reads { result.reads ≡ (self.reads + (if is_done_cycle 5 said a then 1 else 0)) % 2 ^ 32 }
    {
        let Some(s) = said else {
            return self;
        };
        if a.code != codes::DONE {
            return self;
        }
        match StepKind::try_from(s.kind) {
            Ok(StepKind::WriteCycle) => Cycles {
                writes: self.writes.wrapping_add(1),
                ..self
            },
            Ok(StepKind::ReadCycle) => Cycles {
                reads: self.reads.wrapping_add(1),
                ..self
            },
            _ => self,
        }
    }
}

// A stream after a piece, and the done cycles so far.
#[derive(Clone, Copy)]
pub struct Counted {
    pub stream: Stream,
    pub cycles: Cycles,
}

// One piece: the done cycles among the lines that end in it, besides those of the pieces before it. No log is written.
pub fn count(s: Stream, memory: &mut [u32], start: u32, piece: &[u8], before: Cycles) -> Counted
    ensures { counted_outcome result memory.new ≡ count_of (state_of s.controller) start memory.old (begun_of s) piece.now before.writes before.reads }
{
    let mut words = bank::words_of(s.controller);
    let form = codes::code(refusal::form(bank::bank_in(&words), start, memory.len()));
    let mut progress = Progress::begin(&s);
    let mut cycles = before;
    while let Some(said) = progress.next_line(piece) {
        let a = answer_words(&mut words, memory, start, form, said);
        cycles = cycles.with_line(said, a);
    }
    Counted {
        stream: progress.end(words),
        cycles,
    }
}

// The end of the text ends a line that isn't empty, as an LF does; nothing is carried any more.
pub fn count_end(s: Stream, memory: &mut [u32], start: u32, before: Cycles) -> Counted
    ensures { counted_outcome result memory.new ≡ end_count_of (state_of s.controller) start memory.old (begun_of s) before.writes before.reads }
{
    if s.len == 0 {
        return Counted {
            stream: s,
            cycles: before,
        };
    }
    count(s, memory, start, b"\n", before)
}
