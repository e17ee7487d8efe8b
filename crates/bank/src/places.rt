// Where the words of a side stand among a controller's, as numbers that differ by side.
ghost use Rattle.std.specs.Prelude.{◌≡◌, ℕ, refl};
ghost use Rattle.machine.specs.Sides as sides;
ghost use Rattle.bank.specs.Bank.{lane_in};
ghost use Rattle.bank.specs.Places.{fifo_place, address_place, count_place, head_place, fill_place, right_place, interrupts_place};

use crate::{Bank, LaneBank};
use machine::{Addon, Pci, Side};

// The places of a side's words, and its lane among a bank's numbers.
pub trait Places: Side {
    // Of its lane the first of the FIFO's places, the address, the count, the place of the FIFO's front, its fill, and the right.
    const FIFO_AT: usize;

    const ADDRESS_AT: usize;

    const COUNT_AT: usize;

    const HEAD_AT: usize;

    const FILL_AT: usize;

    const RIGHT_AT: usize;

    // Its interrupt register.
    const INTERRUPTS_AT: usize;

    ghost FIFO_AT: { ℕ };

    ghost ADDRESS_AT: { ℕ };

    ghost COUNT_AT: { ℕ };

    ghost HEAD_AT: { ℕ };

    ghost FILL_AT: { ℕ };

    ghost RIGHT_AT: { ℕ };

    ghost INTERRUPTS_AT: { ℕ };

    // The numbers of its lane.
    fn lane(b: Bank) -> LaneBank
        ensures { result ≡ lane_in Self.side b };

    ghost fifo_at_is: { FIFO_AT ≡ fifo_place Self.side };

    ghost address_at_is: { ADDRESS_AT ≡ address_place Self.side };

    ghost count_at_is: { COUNT_AT ≡ count_place Self.side };

    ghost head_at_is: { HEAD_AT ≡ head_place Self.side };

    ghost fill_at_is: { FILL_AT ≡ fill_place Self.side };

    ghost right_at_is: { RIGHT_AT ≡ right_place Self.side };

    ghost interrupts_at_is: { INTERRUPTS_AT ≡ interrupts_place Self.side };
}

impl Places for Pci {
    const FIFO_AT: usize = 8;

    const ADDRESS_AT: usize = 28;

    const COUNT_AT: usize = 29;

    const HEAD_AT: usize = 30;

    const FILL_AT: usize = 31;

    const RIGHT_AT: usize = 36;

    const INTERRUPTS_AT: usize = 25;

    ghost FIFO_AT = { 8 };

    ghost ADDRESS_AT = { 28 };

    ghost COUNT_AT = { 29 };

    ghost HEAD_AT = { 30 };

    ghost FILL_AT = { 31 };

    ghost RIGHT_AT = { 36 };

    ghost INTERRUPTS_AT = { 25 };

    fn lane(b: Bank) -> LaneBank {
        b.from_pci
    }

    ghost fifo_at_is = { refl };

    ghost address_at_is = { refl };

    ghost count_at_is = { refl };

    ghost head_at_is = { refl };

    ghost fill_at_is = { refl };

    ghost right_at_is = { refl };

    ghost interrupts_at_is = { refl };
}

impl Places for Addon {
    const FIFO_AT: usize = 16;

    const ADDRESS_AT: usize = 32;

    const COUNT_AT: usize = 33;

    const HEAD_AT: usize = 34;

    const FILL_AT: usize = 35;

    const RIGHT_AT: usize = 37;

    const INTERRUPTS_AT: usize = 27;

    ghost FIFO_AT = { 16 };

    ghost ADDRESS_AT = { 32 };

    ghost COUNT_AT = { 33 };

    ghost HEAD_AT = { 34 };

    ghost FILL_AT = { 35 };

    ghost RIGHT_AT = { 37 };

    ghost INTERRUPTS_AT = { 27 };

    fn lane(b: Bank) -> LaneBank {
        b.from_addon
    }

    ghost fifo_at_is = { refl };

    ghost address_at_is = { refl };

    ghost count_at_is = { refl };

    ghost head_at_is = { refl };

    ghost fill_at_is = { refl };

    ghost right_at_is = { refl };

    ghost interrupts_at_is = { refl };
}
