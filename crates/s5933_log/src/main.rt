// The log program: standard input, of any length, on a controller fresh from reset over 4,096 words of zeros, and its log to
// standard output. What a piece is answered is proved of `input`, and what the loop feeds, of `streams`; that the pieces are those of
// standard input, and fed at start 0, is read here and tested.
#![tactic(auto)]

ghost use Rattle.std.specs.Prelude.{◌≡◌, true};
ghost use Rattle.frame_log.specs.Results.{is_within};
ghost use Rattle.input.specs.declared.FeedResult.{FeedResult};
ghost use Rattle.input.specs.declared.FinishResult.{FinishResult};
ghost use Rattle.input.specs.Results.{FeedPromised, FinishPromised};

use frame_log::NoRoom;
use input::{Input, Reading};
use std::process::ExitCode;
use streams::{Program, Stop};

// An input, the memory that its frames work on, and the room for the log of a piece.
#[derive(Drop)]
struct Log {
    input: Input,
    memory: [u32; 4096],
    // 41 bytes for each byte of a piece of 16,384, and for one line more: 16,385 times 41
    out: [u8; 671785],
}

impl Program for Log {
    ghost fed = { λ p piece q. (r : FeedResult) × FeedPromised p.input 0 p.memory piece p.out r q.memory q.out × (r.input ≡ q.input) };

    ghost ended = { λ p q. (r : FinishResult) × FinishPromised p.input 0 p.memory p.out r q.memory q.out };

    // Answers a piece, and writes its log. After a failure nothing more is written: a line that was cut off is not the line that was sent.
    fn feed<R: Print + Eprint>(&mut self, rt: &R, piece: &[u8]) -> Result<(), Stop> {
        let r = input::feed(self.input, &mut self.memory, 0, piece, &mut self.out);
        self.input = r.input;
        write(rt, r.log, &self.out)?;
        known(r.input.reading)
    }

    fn finish<R: Print + Eprint>(&mut self, rt: &R) -> Result<(), Stop> {
        let r = input::finish(self.input, &mut self.memory, 0, &mut self.out);
        write(rt, r.log, &self.out)?;
        known(r.reading)
    }
}

// Writes the log that stands at the output's start.
fn write<R: Print + Eprint>(rt: &R, log: Result<usize, NoRoom>, out: &[u8]) -> Result<(), Stop>
    requires { is_within log out.now ≡ true }
{
    match log {
        Ok(n) => streams::written(rt, "s5933_log: write", rt.write_all(&out[..n])),
        Err(e) => {
            let _ = rt.eprintln(format_args!("s5933_log: {e}"));
            Err(Stop::Failed)
        }
    }
}

// A reading is over where its label set is unknown.
fn known(reading: Reading) -> Result<(), Stop> {
    match reading {
        Reading::Over => Err(Stop::UnknownSet),
        _ => Ok(()),
    }
}

fn main(rt: HostRuntime) -> ExitCode {
    let mut log = Log {
        input: input::start(),
        memory: [0; 4096],
        out: [0; 671785],
    };
    let ended = streams::run(&rt, "s5933_log: read", &mut rt.reader(), &mut log);
    streams::tell_end(&rt, ended)
}
