// A test of the count of cycles past its edge: the frames of standard input, counted on from two write cycles and one read cycle below
// 2^32, and the line of what they come to.
#![tactic(auto)]

use frame_log::Cycles;
use tally::Tally;

fn write_total<R: Print>(rt: &R, total: Option<Cycles>) {
    let _ = match total {
        Some(cycles) => rt.write_all(&tally::line(cycles)),
        None => rt.write_all(b"unknown label set\n"),
    };
}

fn main(rt: HostRuntime) {
    let mut memory = [0u32; 4096];
    let mut bytes = [0u8; 4096];
    let mut reader = rt.reader();
    let n = streams::read_full(&mut reader, &mut bytes);
    let cycles = Cycles {
        writes: 0xFFFF_FFFE,
        reads: 0xFFFF_FFFF,
    };
    let t = Tally {
        cycles,
        ..tally::start()
    };
    let fed = tally::feed(t, &mut memory, 0, &bytes[..n]);
    let total = tally::finish(fed, &mut memory, 0);
    write_total(&rt, total);
}
