// The address registers.
#![tactic(auto)]

ghost use Rattle.std.specs.Prelude.{◌≡◌, if◌then◌else◌, nat_eq};
ghost use Rattle.machine.specs.Words.{written};
ghost use Rattle.machine.specs.Cycles.{address_kept, next_address};

use machine::{Step, WORD_BYTES};

// The bits that an address keeps: 31 to 2.
const KEPT: u32 = 0xFFFF_FFFC;

// The next word's address; past the highest one comes 0.
pub fn next_address(address: u32) -> u32
    ensures { result ≡ next_address address }
{
    std::num::wrapping_add_u32(address, WORD_BYTES)
}

// The address register at an offset after a PCI write.
pub fn written(at: u32, s: Step, old: u32) -> u32
    ensures { result ≡ (if nat_eq s.offset at then written address_kept old s.value s.enables else old) }
{
    if s.offset == at {
        return word::written(KEPT, old, s.value, s.enables);
    }
    old
}
