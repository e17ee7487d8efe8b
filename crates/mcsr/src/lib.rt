// The control registers, MCSR of PCI and AGCSTS of the Add-On: what MCSR keeps, and the status that both show.
#![tactic(auto)]

ghost use Rattle.std.specs.Prelude.{◌≡◌, ◌<◌, cond, List, ℕ, length};
ghost use Rattle.machine.specs.Access.{access_of};
ghost use Rattle.machine.specs.Mcsr.{fifo_status, mcsr_after, mcsr_read, agcsts_read};
ghost use Rattle.bank.specs.Bank.{state_in};

use bank::Bank;
use fifo::WordFill;
use machine::{Addon, Pci, Side, Step, offsets};

// The bits that it keeps: 15 to 8 without 11.
pub const KEPT: u32 = 0x0000_F700;

// Status: the counts, then one FIFO above the other, each empty, four or more, full.
const WRITE_COUNT_ZERO: u32 = 0x80;

const READ_COUNT_ZERO: u32 = 0x40;

const EMPTY: u32 = 0x04;

const FOUR: u32 = 0x02;

const FULL: u32 = 0x01;

// How far above the other the status of a FIFO stands: three bits.
const ABOVE: u32 = 8;

// MCSR after a done step.
#[tactic(auto, unfolding(machine::specs::Mcsr::mcsr_after))]
pub fn mcsr_after(s: Step, old: u32) -> u32
    ensures { result ≡ mcsr_after (access_of s) old }
{
    if s.kind == Pci::WRITE && s.offset == offsets::CONTROL {
        return word::written(KEPT, old, s.value, s.enables);
    }
    old
}

// The word `one`, if on.
fn flag(on: bool, one: u32) -> u32
    ensures { result ≡ cond on one 0 }
{
    if on { one } else { 0 }
}

// The status of the FIFO that a side feeds, by its fill.
#[tactic(auto, unfolding(machine::specs::Mcsr::fifo_status, machine::specs::Words::flag))]
fn fifo_status<S: Side>(fill: WordFill) -> u32
    ensures three_bits { result < 8 }
    ensures status { (words : List ℕ) → length words ≡ fill.0 → result ≡ fifo_status S.side words }
{
    flag(fifo::is_empty(fill), EMPTY)
        | flag(fifo::has_amount::<S>(fill, true), FOUR)
        | flag(fifo::is_full(fill), FULL)
}

// MCSR as it is read.
#[tactic(auto, using(fifo::proofs::Ring::length_from), unfolding(bank::specs::Bank::state_in, machine::specs::Mcsr::mcsr_read, machine::specs::Mcsr::mcsr_status, machine::specs::Words::flag))]
pub fn mcsr_read(b: Bank) -> u32
    ensures { (mail pci addon : List ℕ) → result ≡ mcsr_read (state_in b mail pci addon) }
{
    let write_zero = flag(count::is_zero(b.from_addon.count), WRITE_COUNT_ZERO);
    let read_zero = flag(count::is_zero(b.from_pci.count), READ_COUNT_ZERO);
    let from_addon = fifo_status::<Addon>(b.from_addon.fill);
    let from_pci = fifo_status::<Pci>(b.from_pci.fill);
    b.mcsr | (write_zero | read_zero | (from_addon * ABOVE | from_pci))
}

// AGCSTS as it is read: the two FIFOs the other way round.
#[tactic(auto, using(fifo::proofs::Ring::length_from), unfolding(bank::specs::Bank::state_in, machine::specs::Mcsr::agcsts_read))]
pub fn agcsts_read(b: Bank) -> u32
    ensures { (mail pci addon : List ℕ) → result ≡ agcsts_read (state_in b mail pci addon) }
{
    let from_pci = fifo_status::<Pci>(b.from_pci.fill);
    let from_addon = fifo_status::<Addon>(b.from_addon.fill);
    from_pci * ABOVE | from_addon
}
