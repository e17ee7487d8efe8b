// What the programs share over the system's streams: to feed a program its input, to fill a buffer, and to say what failed and how it all
// ended.
#![tactic(auto)]

ghost use Rattle.std.specs.Prelude.{◌≡◌, ◌≢◌, ◌≤◌, ◌↔◌, List, ℕ, length, IfErr, IsOk, IsErr, OnOk, IsNone, Ok, Err};
ghost use Rattle.std.specs.IoError.{error_kind};
ghost use Rattle.std.specs.Process.{exit_status};
ghost use Rattle.streams.specs.Fed.{RunsOver};

use std::fs::OpenOptions;
use std::io::{ErrorKind, Read, Write};
use std::process::ExitCode;
use std::rt::Files;
use std::{io, str};

// Where a program says how it ended: descriptor 3, which std opens by this name alone.
const STATUS: &str = "/dev/fd/3";

// The exit status where nobody reads the output any more, as a shell has it of a program that SIGPIPE ended. Else it is 0.
pub const UNREAD: u8 = 141;

// What ends a run before the whole input is answered: a read or a write failed, or the input is not as it has to be, as a message has
// said; the label set is unknown, or a HEX text is refused, as the output says; nobody reads the output any more.
#[derive(Debug, Clone, Copy, PartialEq, Eq)]
pub enum Stop {
    Failed,
    Misused,
    UnknownSet,
    Refused,
    Unread,
}

// ---- reading

// A program that takes its input in pieces, as they come.
pub trait Program {
    // Whether one state may come of another by a piece, and by the end of the input.
    ghost fed: { Self → List ℕ → Self → Type 0 };

    ghost ended: { Self → Self → Type 0 };

    fn feed<R: Print + Eprint>(&mut self, rt: &R, piece: &[u8]) -> Result<(), Stop>
        ensures { OnOk result (fed self.old piece.now self.new) };

    fn finish<R: Print + Eprint>(&mut self, rt: &R) -> Result<(), Stop>
        ensures { OnOk result (ended self.old self.new) };
}

// Feeds a program what comes of its input, piece by piece, and then tells it that the input has ended. A proved loop has to end, and
// nothing says that the input does. So the loop has a number of turns that no run uses up.
pub fn run<R: Print + Eprint, I: Read, P: Program>(
    rt: &R,
    what: &str,
    reader: &mut I,
    program: &mut P,
) -> Result<(), Stop>
    ensures { OnOk result (RunsOver P.fed P.ended (I.remaining reader.old) program.old program.new) }
{
    let mut bytes = [0u8; 16384];
    for _ in 0..u64::MAX {
        let n = reader.read(&mut bytes).map_err(|e| fail(rt, what, e))?;
        if n == 0 {
            return program.finish(rt);
        }
        program.feed(rt, &bytes[..n])?;
    }
    Err(Stop::Failed)
}

// Reads until the buffer is full, the input ends or a read fails, and returns how many bytes it put at the buffer's start.
pub fn read_full<R: Read>(reader: &mut R, buffer: &mut [u8]) -> usize
    ensures { result ≤ length buffer.new }
{
    let mut done = 0;
    while done < buffer.len() {
        let n = reader.read(&mut buffer[done..]).unwrap_or(0);
        if n == 0 {
            break;
        }
        done += n;
    }
    done
}

// ---- saying what failed

// Writes a line to standard error: what failed, a colon and the system's words for it, without the number that std puts behind them.
pub fn fail<R: Eprint>(rt: &R, what: &str, error: io::Error) -> Stop
    ensures { result ≡ Stop.Failed }
{
    let mut text = [0u8; 256];
    let mut rest = &mut text[..];
    let _ = write!(rest, "{error}");
    let said = str::from_utf8(&text).unwrap_or("").trim_end_matches('\0');
    let words = said
        .split_once(" (os error ")
        .map_or(said, |(words, _)| words);
    let _ = rt.eprintln(format_args!("{what}: {words}"));
    Stop::Failed
}

// What a write answered, with a message where it failed. A pipe that nobody reads any more needs none.
pub fn written<R: Eprint>(rt: &R, what: &str, tried: io::Result<()>) -> Result<(), Stop>
    ensures whole { IsOk result ↔ IsOk tried }
    ensures unread { IfErr tried (λ e. error_kind e ≡ ErrorKind.BrokenPipe → result ≡ Err Stop.Unread) }
    ensures failed { IfErr tried (λ e. error_kind e ≢ ErrorKind.BrokenPipe → result ≡ Err Stop.Failed) }
{
    tried.map_err(|e| match e.kind() {
        ErrorKind::BrokenPipe => Stop::Unread,
        _ => fail(rt, what, e),
    })
}

// Writes the line that refuses an unknown label set.
pub fn refuse_set<R: Print + Eprint>(rt: &R, what: &str) -> Result<(), Stop>
    ensures { IsErr result }
{
    let mut out = [0u8; 41];
    let n = logline::put_unknown_set(&mut out);
    written(rt, what, rt.write_all(&out[..n]))?;
    Err(Stop::UnknownSet)
}

// ---- the end

// The digit that says how a run ended; none where nobody reads the output.
fn digit(ended: Result<(), Stop>) -> Option<u8>
    ensures { IsNone result ↔ ended ≡ Err Stop.Unread }
{
    match ended {
        Ok(()) => Some(b'0'),
        Err(Stop::Failed) => Some(b'1'),
        Err(Stop::Misused) => Some(b'2'),
        Err(Stop::UnknownSet) => Some(b'3'),
        Err(Stop::Refused) => Some(b'4'),
        Err(Stop::Unread) => None,
    }
}

// Says by a digit on descriptor 3 how a program ended, and gives its exit status. Nothing is said where nobody has opened the descriptor.
pub fn tell<R: Files>(rt: &R, digit: u8) -> ExitCode
    ensures { exit_status result ≡ 0 }
{
    if let Ok(mut status) = OpenOptions::new().read(true).append(true).open(rt, STATUS) {
        let _ = status.write_all(&[digit]);
    }
    ExitCode::SUCCESS
}

// Says how a run ended, and gives the exit status. Where nobody reads the output, nothing is said.
pub fn tell_end<R: Files>(rt: &R, ended: Result<(), Stop>) -> ExitCode
    ensures unread { ended ≡ Err Stop.Unread → exit_status result ≡ 141 }
    ensures told { ended ≢ Err Stop.Unread → exit_status result ≡ 0 }
{
    match digit(ended) {
        Some(digit) => tell(rt, digit),
        None => ExitCode::from(UNREAD),
    }
}
