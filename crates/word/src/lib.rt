// 32-bit words: single bits, and the bytes that take part in an access.
#![tactic(auto)]

ghost use Rattle.std.specs.Prelude.{◌≡◌, ◌%◌};
ghost use Rattle.machine.specs.Words.{bit, mask, cleared, raised, shown, merged, written, only};

// The bits of a word.
const BITS: u32 = 32;

// Whether bit k of x is set.
#[tactic(auto, unfolding(machine::specs::Words::bit))]
pub fn bit(x: u32, k: u32) -> bool
    ensures { result ≡ bit x k }
{
    k < BITS && (x >> k) % 2 == 1
}

// Ones at the enabled bytes.
#[tactic(auto, using(crate::proofs::Masks::mask_of_low), unfolding(machine::specs::Words::bit, machine::specs::Words::mask, machine::specs::Words::byte_mask))]
fn mask(enables: u32) -> u32
    ensures { result ≡ mask enables }
{
    let low = enables % 16;
    match low {
        0 => 0x0000_0000,
        1 => 0x0000_00FF,
        2 => 0x0000_FF00,
        3 => 0x0000_FFFF,
        4 => 0x00FF_0000,
        5 => 0x00FF_00FF,
        6 => 0x00FF_FF00,
        7 => 0x00FF_FFFF,
        8 => 0xFF00_0000,
        9 => 0xFF00_00FF,
        10 => 0xFF00_FF00,
        11 => 0xFF00_FFFF,
        12 => 0xFFFF_0000,
        13 => 0xFFFF_00FF,
        14 => 0xFFFF_FF00,
        _ => 0xFFFF_FFFF,
    }
}

// x with zeros where y has ones.
#[tactic(auto, unfolding(machine::specs::Words::cleared))]
pub fn cleared(x: u32, y: u32) -> u32
    ensures { result ≡ cleared x y }
{
    x & !y
}

// x with bit k set, k counted modulo 32, if on.
#[tactic(auto, unfolding(machine::specs::Words::raised))]
pub fn raised(x: u32, on: bool, k: u32) -> u32
    ensures { result ≡ raised x on (k % 32) }
{
    if on { x | 1 << (k % BITS) } else { x }
}

// The enabled bytes of x, zero at the others.
#[tactic(auto, unfolding(machine::specs::Words::shown))]
pub fn shown(x: u32, enables: u32) -> u32
    ensures { result ≡ shown x enables }
{
    x & mask(enables)
}

// The enabled bytes of new, the others of old.
#[tactic(auto, unfolding(machine::specs::Words::merged))]
pub fn merged(old: u32, new: u32, enables: u32) -> u32
    ensures { result ≡ merged old new enables }
{
    cleared(old, mask(enables)) | shown(new, enables)
}

// A write to a register that keeps the bits where keeps has ones.
#[tactic(auto, unfolding(machine::specs::Words::written))]
pub fn written(keeps: u32, old: u32, new: u32, enables: u32) -> u32
    ensures { result ≡ written keeps old new enables }
{
    merged(old, new, enables) & keeps
}

// Whether x has no ones but those of y.
#[tactic(auto, unfolding(machine::specs::Words::only))]
pub fn is_only(y: u32, x: u32) -> bool
    ensures { result ≡ only y x }
{
    (x & y) == x
}
