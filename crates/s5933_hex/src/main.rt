// The HEX program: a controller fresh from reset over 4,096 words of zeros from address 0, a HEX text loaded before its frames, or
// the memory exported after them. Standard input has at most 1,048,576 bytes: the set line; a mode line, `E`, or `L` or `B` and the
// length of a HEX text in eight digits; after `L` and `B` that text; frames. After `B` the memory is exported in place of the log. Which
// set a first line chooses, and what a text and a piece of frames do, is proved of `input`, `hex_load`, `hex_export` and `frame_log`; that they
// come in this order is read here and tested.
#![tactic(auto)]

ghost use Rattle.std.specs.Prelude.{◌≡◌, true};
ghost use Rattle.frame_log.specs.Results.{is_within};

use frame_log::NoRoom;
use machine::Refusal;
use std::io;
use std::io::Read;
use std::process::ExitCode;
use streams::Stop;

const INPUT_MOST: usize = 1048576;

// How many bytes of frames are answered at a time.
const PIECE: usize = 16384;

// ---- writing

// What a message about a write that failed begins with.
const WRITE: &str = "s5933_hex: write";

fn write<R: Print + Eprint>(rt: &R, out: &[u8]) -> Result<(), Stop> {
    streams::written(rt, WRITE, rt.write_all(out))
}

// Says what an input should have been.
fn misused<R: Eprint>(rt: &R, message: &str) -> Stop {
    let _ = rt.eprintln(format_args!("s5933_hex: {message}"));
    Stop::Misused
}

// The log that stands at the output's start.
fn log_in(log: Result<usize, NoRoom>, out: &[u8]) -> Result<&[u8], Stop>
    requires { is_within log out.now ≡ true }
{
    match log {
        Ok(n) => Ok(&out[..n]),
        Err(NoRoom) => Err(Stop::Failed),
    }
}

// ---- a run

// What a run works on: the memory, the room for what is written at a time, and the set of labels.
#[derive(Drop)]
struct Run {
    memory: [u32; 4096],
    // 41 bytes for each byte of a piece of 16,384, and for one line more: 16,385 times 41
    out: [u8; 671785],
    set: u32,
}

impl Run {
    // Writes the line that refuses a HEX text.
    fn refuse<R: Print + Eprint>(&mut self, rt: &R, refusal: Refusal) -> Result<(), Stop> {
        let n = logline::put_refusal(&mut self.out, u32::from(refusal), self.set);
        write(rt, &self.out[..n])?;
        Err(Stop::Refused)
    }

    // Answers frames from reset on, piece by piece, and shows each piece's log.
    fn answer<F: Fn(&[u8]) -> Result<(), Stop>>(
        &mut self,
        frames: &[u8],
        show: F,
    ) -> Result<(), Stop>
        requires { F.IsAlwaysCallable show }
    {
        let mut s = frame_log::start();
        for piece in frames.chunks(PIECE) {
            let r = frame_log::feed(s, &mut self.memory, 0, piece, &mut self.out, self.set);
            s = r.stream;
            show(log_in(r.log, &self.out)?)?;
        }
        let r = frame_log::finish(s, &mut self.memory, 0, &mut self.out, self.set);
        show(log_in(r.log, &self.out)?)
    }

    // Answers frames, and writes their log.
    fn log<R: Print + Eprint>(&mut self, rt: &R, frames: &[u8]) -> Result<(), Stop> {
        self.answer(frames, |log| write(rt, log))
    }

    // Answers frames, and writes the memory after them as HEX in place of their log.
    fn export<R: Print + Eprint>(&mut self, rt: &R, frames: &[u8]) -> Result<(), Stop> {
        self.answer(frames, |_| Ok(()))?;
        match hex_export::export(&self.memory, 0, &mut self.out) {
            Ok(n) => write(rt, &self.out[..n]),
            Err(refusal) => self.refuse(rt, refusal),
        }
    }

    // Loads the first n bytes as a HEX text, and gives the frames behind them. A refusal is written, and its line said on standard error.
    fn load<'a, R: Print + Eprint>(
        &mut self,
        rt: &R,
        rest: &'a [u8],
        n: usize,
    ) -> Result<&'a [u8], Stop> {
        let Some((text, frames)) = rest.split_at_checked(n) else {
            return Err(misused(rt, "the HEX text is shorter than its length says"));
        };
        if let Err(refusal) = hex_load::load(&mut self.memory, 0, text) {
            tell_line(rt, self.memory.len(), text);
            self.refuse(rt, refusal)?;
        }
        Ok(frames)
    }

    // The input past the set line.
    fn run<R: Print + Eprint>(&mut self, rt: &R, input: &[u8]) -> Result<(), Stop> {
        let (line, rest) = first_line(input);
        match mode_in(line) {
            Some(Mode::Export) => self.export(rt, rest),
            Some(Mode::Load(n)) => {
                let frames = self.load(rt, rest, n)?;
                self.log(rt, frames)
            }
            Some(Mode::Both(n)) => {
                let frames = self.load(rt, rest, n)?;
                self.export(rt, frames)
            }
            None => Err(misused(
                rt,
                "the second line is neither E nor L or B and eight digits",
            )),
        }
    }
}

// Says on standard error at which line of a HEX text its load is refused.
fn tell_line<R: Eprint>(rt: &R, words: usize, text: &[u8]) {
    let at = hex_load::refused_at(words, 0, text);
    let line = lines::line_count(&text[..at]) as u64 + 1;
    let _ = rt.eprintln(format_args!("s5933_hex: refused at line {line} of the HEX text"));
}

// ---- the input

// What a mode line asks for: an export, a load of a text of so many bytes, or both.
enum Mode {
    Export,
    Load(usize),
    Both(usize),
}

// A length in eight digits.
fn length_in(digits: &[u8]) -> Option<usize> {
    let n = eight::number(<[u8; 8]>::try_from(digits).ok()?)?;
    Some(n as usize)
}

fn mode_in(line: &[u8]) -> Option<Mode> {
    let (letter, digits) = line.split_first()?;
    match letter {
        b'E' if digits.is_empty() => Some(Mode::Export),
        b'L' => length_in(digits).map(Mode::Load),
        b'B' => length_in(digits).map(Mode::Both),
        _ => None,
    }
}

// The first line of a text, and what follows it.
fn first_line(text: &[u8]) -> (&[u8], &[u8]) {
    (lines::line_at(text, 0), &text[lines::past_line(text, 0)..])
}

// Answers a whole input.
fn answer<R: Print + Eprint>(rt: &R, input: &[u8]) -> Result<(), Stop> {
    let Some(set) = input::set_of(input) else {
        return streams::refuse_set(rt, WRITE);
    };
    let mut run = Run {
        memory: [0; 4096],
        out: [0; 671785],
        set,
    };
    run.run(rt, first_line(input).1)
}

// That the input ended after so many bytes. A read that failed does so again.
fn has_ended<R: Eprint, I: Read>(rt: &R, reader: &mut I, n: usize) -> Result<(), Stop> {
    if INPUT_MOST < n {
        let _ = rt.eprintln("s5933_hex: the input is longer than 1048576 bytes");
        return Err(Stop::Failed);
    }
    let error = match reader.read(&mut [0u8; 1]) {
        Ok(0) => return Ok(()),
        Ok(_) => io::Error::other("a read failed"),
        Err(e) => e,
    };
    Err(streams::fail(rt, "s5933_hex: read", error))
}

fn read_and_answer<R: Print + Eprint, I: Read>(
    rt: &R,
    reader: &mut I,
    text: &mut [u8],
) -> Result<(), Stop> {
    let n = streams::read_full(reader, text);
    has_ended(rt, reader, n)?;
    answer(rt, &text[..n])
}

fn main(rt: HostRuntime) -> ExitCode {
    let mut text = [0u8; 1048577];
    let ended = read_and_answer(&rt, &mut rt.reader(), &mut text);
    streams::tell_end(&rt, ended)
}
