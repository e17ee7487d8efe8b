// The interrupt registers, INTCSR of PCI and AINT of the Add-On: what they keep, the events, the interrupt lines.
#![tactic(auto)]

ghost use Rattle.std.specs.Prelude.{◌≡◌, cond, eqb};
ghost use Rattle.machine.specs.Words.{raised};
ghost use Rattle.machine.specs.Cycles.{runs_out};
ghost use Rattle.machine.specs.Interrupts.{interrupts_written, outgoing_event, incoming_event, notified, count_bit, interrupts_aborted, line_of, interrupts_read, abort_in};

use controller::ByteCount;
use machine::{Side, Step, offsets};

// The enables of the events and of the line.
const OUTGOING_ENABLE: u32 = 4;

const INCOMING_ENABLE: u32 = 12;

// Where the choice of the incoming byte begins, and how many bytes there are to choose from in each half of the status.
const INCOMING_CHOICE: u32 = 8;

const HALF: u32 = 16;

// How far a flag stands above its enable, and the enables as words.
const OUTGOING_DOWN: u32 = 12;

const OUTGOING_ENABLED: u32 = 0x0000_0010;

const INCOMING_DOWN: u32 = 5;

const INCOMING_ENABLED: u32 = 0x0000_1000;

const COUNTS_DOWN: u32 = 4;

const COUNTS_ENABLED: u32 = 0x0000_C000;

// The flags 20 and 21.
const ABORTS: u32 = 0x0030_0000;

// The flags, and the word with the lowest one: every word below it has none.
pub const LOWEST_FLAG: u32 = 0x0001_0000;

const OUTGOING_FLAG: u32 = 16;

const INCOMING_FLAG: u32 = 17;

const MASTER_ABORT: u32 = 20;

const TARGET_ABORT: u32 = 21;

const LINE: u32 = 23;

// The outgoing event: it is enabled, and the mark of the chosen byte is among those that changed.
#[tactic(auto, unfolding(machine::specs::Interrupts::outgoing_event))]
fn outgoing_event(i: u32, changed: u32) -> bool
    ensures { result ≡ outgoing_event i changed }
{
    word::bit(i, OUTGOING_ENABLE) & word::bit(changed, i % HALF)
}

// The incoming event: the same with the upper half.
#[tactic(auto, unfolding(machine::specs::Interrupts::incoming_event))]
fn incoming_event(i: u32, changed: u32) -> bool
    ensures { result ≡ incoming_event i changed }
{
    word::bit(i, INCOMING_ENABLE) & word::bit(changed, HALF + (i >> INCOMING_CHOICE) % HALF)
}

// A side's register after a write of its party: at its offset the kept bits are stored, and a one written to a flag clears it.
#[tactic(auto, unfolding(machine::specs::Interrupts::interrupts_written))]
pub fn written<S: Side>(i: u32, s: Step) -> u32
    ensures { result ≡ cond (eqb s.offset 0x38) (interrupts_written S.side i s.value s.enables) i }
{
    if s.offset == offsets::INTERRUPTS {
        return word::written(S::KEPT, i, s.value, s.enables)
            | word::cleared(i & S::FLAGS, word::shown(s.value, s.enables));
    }
    i
}

// Either after an access of the other side, by the marks that it changed.
#[tactic(auto, using(laws::proofs::Bits::bit_zero), unfolding(machine::specs::Interrupts::notified, machine::specs::Interrupts::outgoing_event, machine::specs::Interrupts::incoming_event, machine::specs::Words::raised))]
pub fn notified(i: u32, changed: u32) -> u32
    ensures { result ≡ notified i changed }
{
    if changed == 0 {
        return i;
    }
    let one = word::raised(i, outgoing_event(i, changed), OUTGOING_FLAG);
    word::raised(one, incoming_event(i, changed), INCOMING_FLAG)
}

// Either after a cycle on a side's lane, by the count that it finds: the flag of that lane is set if the count runs out.
pub fn after_cycle<S: Side>(i: u32, count: ByteCount) -> u32
    ensures { result ≡ raised i (runs_out count.0) (count_bit S.side) }
{
    word::raised(i, count::runs_out(count), S::COUNT_FLAG)
}

// Whether an abort stands.
pub fn is_abort_in(i: u32) -> bool
    ensures { result ≡ abort_in i }
{
    word::bit(i, MASTER_ABORT) | word::bit(i, TARGET_ABORT)
}

// A side's register after code 13.
#[tactic(auto, unfolding(machine::specs::Interrupts::interrupts_aborted))]
pub fn aborted<S: Side>(i: u32) -> u32
    ensures { result ≡ interrupts_aborted S.side i }
{
    word::raised(i, true, S::ABORT)
}

// The interrupt line of a side, by its register: each flag from 16 to 19 is brought to the place of its enable, 4, 12, 14 and 15, and both stand there; or an abort.
#[tactic(auto, using(crate::proofs::Lines::line_stands))]
pub fn line(i: u32) -> bool
    ensures { result ≡ line_of i }
{
    let raised = (i >> OUTGOING_DOWN) & OUTGOING_ENABLED
        | (i >> INCOMING_DOWN) & INCOMING_ENABLED
        | (i >> COUNTS_DOWN) & COUNTS_ENABLED;
    (raised & i | i & ABORTS) != 0
}

// Either as it is read: the line at bit 23.
#[tactic(auto, using(crate::proofs::Lines::none_below), unfolding(machine::specs::Interrupts::interrupts_read, machine::specs::Words::raised))]
pub fn read(i: u32) -> u32
    ensures { result ≡ interrupts_read i }
{
    if i < LOWEST_FLAG {
        return i;
    }
    word::raised(i, line(i), LINE)
}
