// A controller as 38 words, one after the other: in an array, or in the memory of whoever keeps it. A bank has its numbers by value.
#![tactic(auto)]

mod places;

ghost use Rattle.std.specs.Prelude.{◌≡◌, true, length, get_or};
ghost use Rattle.controller.specs.Controller.{lane_of, state_of};
ghost use Rattle.bank.specs.Bank.{lane_with};
ghost use Rattle.bank.specs.Words.{with_lane, number_in, lane_by, bank_in, state_of_words, has_rights};

use controller::{ByteCount, Controller, Lane};
use fifo::{Fifo, WordFill};
use machine::{Addon, Pci};
pub use places::Places;

// The numbers of a lane, all but what stands in its FIFO's places.
#[derive(Clone, Copy)]
pub struct LaneBank {
    pub address: u32,
    pub count: ByteCount,
    pub head: u32,
    pub fill: WordFill,
    pub right: bool,
}

// The numbers of a controller. Read cycles work on the lane from PCI, write cycles on the one from the Add-On.
#[derive(Clone, Copy)]
pub struct Bank {
    pub marks: u32,
    pub intcsr: u32,
    pub mcsr: u32,
    pub aint: u32,
    pub from_pci: LaneBank,
    pub from_addon: LaneBank,
}

// All the words of a controller. From 0 on stand the mailbox words, by their offset / 4.
pub type Words = [u32; 38];

// How many words there are.
pub const WORDS: usize = 38;

// Where the numbers stand that are of no side; those of a side are in `places`.
pub const MARKS: usize = 24;

pub const INTCSR: usize = 25;

pub const MCSR: usize = 26;

pub const AINT: usize = 27;

// The word at a place, zero where there is none.
fn number(words: &[u32], at: usize) -> u32
    ensures { result ≡ get_or words.now at 0 }
{
    words.get(at).copied().unwrap_or(0)
}

// The numbers of a lane among the words.
fn lane_among<S: Places>(words: &[u32]) -> LaneBank
    ensures { result ≡ lane_by S.side (number_in words.now) }
{
    LaneBank {
        address: number(words, S::ADDRESS_AT),
        count: ByteCount(number(words, S::COUNT_AT)),
        head: number(words, S::HEAD_AT),
        fill: WordFill(number(words, S::FILL_AT)),
        right: number(words, S::RIGHT_AT) != 0,
    }
}

// The numbers among the words.
pub fn bank_in(words: &[u32]) -> Bank
    ensures { result ≡ bank_in words.now }
{
    Bank {
        marks: number(words, MARKS),
        intcsr: number(words, INTCSR),
        mcsr: number(words, MCSR),
        aint: number(words, AINT),
        from_pci: lane_among::<Pci>(words),
        from_addon: lane_among::<Addon>(words),
    }
}

// Eight words, put in the place of eight. (As an array, and not by `copy_from_slice`: the copy of a slice keeps what it copies in memory, and
// a controller that is passed by value is copied there by `memcpy`, which the archive for C does not ask for.)
fn put_run(place: &mut [u32], run: [u32; 8])
    requires { length place.old ≡ 8 }
    ensures { place.new ≡ run }
{
    if let Some(place) = place.as_mut_array::<8>() {
        *place = run;
    }
}

// A lane, put among the words of a controller.
fn put_lane<S: Places>(words: &mut Words, lane: Lane)
    ensures { words.new ≡ with_lane S.side lane words.old }
{
    let run = lane.fifo.words;
    put_run(&mut words[S::FIFO_AT..S::FIFO_AT + 8], run);
    words[S::ADDRESS_AT] = lane.address;
    words[S::COUNT_AT] = lane.count.0;
    words[S::HEAD_AT] = lane.fifo.head;
    words[S::FILL_AT] = lane.fifo.fill.0;
    words[S::RIGHT_AT] = u32::from(lane.right);
}

// The words of a controller.
pub fn words_of(c: Controller) -> Words
    ensures { (length result ≡ 38) × ((has_rights result ≡ true) × (state_of_words result ≡ state_of c)) }
{
    let mut words = [0; 38];
    let run = c.mail;
    put_run(&mut words[..8], run);
    words[MARKS] = c.marks;
    words[INTCSR] = c.intcsr;
    words[MCSR] = c.mcsr;
    words[AINT] = c.aint;
    put_lane::<Pci>(&mut words, c.from_pci);
    put_lane::<Addon>(&mut words, c.from_addon);
    words
}

// A lane of its numbers and its FIFO's places.
fn lane_of(b: LaneBank, places: [u32; 8]) -> Lane
    ensures { lane_of result ≡ lane_with b places }
{
    Lane {
        fifo: Fifo {
            words: places,
            head: b.head,
            fill: b.fill,
        },
        address: b.address,
        count: b.count,
        right: b.right,
    }
}

// The controller of these words.
pub fn controller_of(words: Words) -> Controller
    ensures { state_of result ≡ state_of_words words }
{
    let b = bank_in(&words);
    let (runs, _) = words.as_chunks::<8>();
    Controller {
        mail: runs[0],
        marks: b.marks,
        from_pci: lane_of(b.from_pci, runs[1]),
        from_addon: lane_of(b.from_addon, runs[2]),
        intcsr: b.intcsr,
        mcsr: b.mcsr,
        aint: b.aint,
    }
}
