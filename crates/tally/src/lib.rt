// What the counting program answers to an input: how many write cycles and how many read cycles its frames do, behind a set line.
#![tactic(auto)]

ghost use Rattle.std.specs.Prelude.{◌≡◌, []};
ghost use Rattle.machine.specs.State.{reset_state};
ghost use Rattle.controller.specs.Controller.{state_of};
ghost use Rattle.frame_log.specs.Results.{begun_of};
ghost use Rattle.input.specs.declared.Reading.TheVariants.{FirstLine};
ghost use Rattle.input.specs.declared.SetLine.TheVariants.{Nothing};
ghost use Rattle.tally.specs.Tally.{total_line, tally_of, fed_tally, ended_tally};

use frame_log::{Cycles, Stream};
use input::{Reading, SetLine};

// How far the reading has come, the frames so far, and the done cycles among them.
#[derive(Clone, Copy)]
pub struct Tally {
    pub reading: Reading,
    pub stream: Stream,
    pub cycles: Cycles,
}

// An input that has not begun, on a controller from reset.
pub fn start() -> Tally
    ensures { (result.reading ≡ FirstLine Nothing) × (state_of result.stream.controller ≡ reset_state) × (begun_of result.stream ≡ []) × (result.cycles ≡ record { writes = 0; reads = 0 }) }
{
    Tally {
        reading: Reading::FirstLine(SetLine::Nothing),
        stream: frame_log::start(),
        cycles: Cycles::default(),
    }
}

// One piece: past the set line, the done cycles of the lines that end in it are counted.
pub fn feed(t: Tally, memory: &mut [u32], start: u32, piece: &[u8]) -> Tally
    ensures { tally_of result memory.new ≡ fed_tally (tally_of t memory.old) start piece.now }
{
    let passed = input::set_line_passed(t.reading, piece);
    match passed.reading {
        Reading::Frames(_) => {
            let counted = frame_log::count(
                t.stream,
                memory,
                start,
                &piece[passed.next..],
                t.cycles,
            );
            Tally {
                reading: passed.reading,
                stream: counted.stream,
                cycles: counted.cycles,
            }
        }
        _ => Tally {
            reading: passed.reading,
            ..t
        },
    }
}

// What the end of the input comes to, its done cycles, or none where its label set is unknown: a set line that is not whole is unknown, a
// last line without LF is one.
pub fn finish(t: Tally, memory: &mut [u32], start: u32) -> Option<Cycles>
    ensures { record { total = result; memory = memory.new } ≡ ended_tally (tally_of t memory.old) start }
{
    match t.reading {
        Reading::FirstLine(line) => input::has_set(line).then_some(t.cycles),
        Reading::Frames(_) => {
            let counted = frame_log::count_end(t.stream, memory, start, t.cycles);
            Some(counted.cycles)
        }
        Reading::Over => None,
    }
}

// The line of two numbers: eight digits each, one space between, LF.
pub fn line(c: Cycles) -> [u8; 18]
    ensures { result ≡ total_line c.writes c.reads }
{
    let mut line = [b' '; 18];
    line[..8].copy_from_slice(&eight::digits(c.writes));
    line[9..17].copy_from_slice(&eight::digits(c.reads));
    line[17] = b'\n';
    line
}
