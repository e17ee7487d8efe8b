// The counting program: standard input, of any length, as the log program reads it, on a controller fresh from reset over 4,096 words
// of zeros, and one line: the done write cycles and the done read cycles of its frames. What pieces come to is proved of `tally`, and
// what the loop feeds, of `streams`; that the pieces are those of standard input, and fed at start 0, is read here and tested.
#![tactic(auto)]

ghost use Rattle.std.specs.Prelude.{◌≡◌, Option};
ghost use Rattle.frame_log.specs.declared.Cycles.{Cycles};
ghost use Rattle.tally.specs.Tally.{tally_of, fed_tally, ended_tally};

use input::Reading;
use std::process::ExitCode;
use streams::{Program, Stop};
use tally::Tally;

// What a message about a write that failed begins with.
const WRITE: &str = "s5933_count: write";

// What has been counted, and the memory that the frames work on.
#[derive(Drop)]
struct Count {
    tally: Tally,
    memory: [u32; 4096],
}

impl Program for Count {
    ghost fed = { λ p piece q. tally_of q.tally q.memory ≡ fed_tally (tally_of p.tally p.memory) 0 piece };

    ghost ended = { λ p q. (t : Option Cycles) × record { total = t; memory = q.memory } ≡ ended_tally (tally_of p.tally p.memory) 0 };

    // Counts a piece; an unknown set is refused as soon as it is known.
    fn feed<R: Print + Eprint>(&mut self, rt: &R, piece: &[u8]) -> Result<(), Stop> {
        self.tally = tally::feed(self.tally, &mut self.memory, 0, piece);
        match self.tally.reading {
            Reading::Over => streams::refuse_set(rt, WRITE),
            _ => Ok(()),
        }
    }

    // Writes the line of what the input comes to.
    fn finish<R: Print + Eprint>(&mut self, rt: &R) -> Result<(), Stop> {
        match tally::finish(self.tally, &mut self.memory, 0) {
            Some(cycles) => write(rt, &tally::line(cycles)),
            None => streams::refuse_set(rt, WRITE),
        }
    }
}

fn write<R: Print + Eprint>(rt: &R, line: &[u8]) -> Result<(), Stop> {
    streams::written(rt, WRITE, rt.write_all(line))
}

fn main(rt: HostRuntime) -> ExitCode {
    let mut count = Count {
        tally: tally::start(),
        memory: [0; 4096],
    };
    let ended = streams::run(&rt, "s5933_count: read", &mut rt.reader(), &mut count);
    streams::tell_end(&rt, ended)
}
