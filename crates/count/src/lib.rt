// The count registers, and the bytes that a cycle moves.
#![tactic(auto)]

ghost use Rattle.std.specs.Prelude.{◌≡◌, cond, eqb, ltb};
ghost use Rattle.machine.specs.Words.{written};
ghost use Rattle.machine.specs.Cycles.{moved, low_enables, count_kept, count_left, runs_out};

use controller::ByteCount;
use machine::{Step, WORD_BYTES};

// The bits that a count keeps, 25 to 0, and so the largest count in form.
const KEPT: u32 = 0x03FF_FFFF;

// The number that its register shows.
pub fn shown(count: ByteCount) -> u32
    ensures { result ≡ count.0 }
{
    count.0
}

// Whether nothing is left to move.
pub fn is_zero(count: ByteCount) -> bool
    ensures { result ≡ eqb count.0 0 }
{
    count.0 == 0
}

// A count above 03FFFFFF.
pub fn is_out_of_form(count: ByteCount) -> bool
    ensures { result ≡ ltb 0x03FF_FFFF count.0 }
{
    KEPT < count.0
}

// The bytes that a cycle moves: four, or the count where it is less.
fn moved(count: ByteCount) -> ByteCount
    ensures { result.0 ≡ moved count.0 }
{
    ByteCount(count.0.min(WORD_BYTES))
}

// The enables of those bytes.
#[tactic(auto, unfolding(machine::specs::Cycles::low_enables))]
pub fn low_enables(count: ByteCount) -> u32
    ensures { result ≡ low_enables count.0 }
{
    (1 << moved(count).0) - 1
}

// The count after a cycle.
pub fn count_left(count: ByteCount) -> ByteCount
    ensures { result.0 ≡ count_left count.0 }
{
    ByteCount(count.0 - moved(count).0)
}

// Whether a cycle brings the count to zero.
pub fn runs_out(count: ByteCount) -> bool
    ensures { result ≡ runs_out count.0 }
{
    count_left(count).0 == 0
}

// The count register at an offset after a PCI write.
pub fn written(at: u32, s: Step, old: ByteCount) -> ByteCount
    ensures { result.0 ≡ cond (eqb s.offset at) (written count_kept old.0 s.value s.enables) old.0 }
{
    if s.offset == at {
        return ByteCount(word::written(KEPT, old.0, s.value, s.enables));
    }
    old
}
