// The numbers in which the rules of the two sides differ. What a rule says of a side is written once, over a type that stands for it.
ghost use Rattle.std.specs.Prelude.{◌≡◌, ℕ, Bool, true, false, refl};
ghost use Rattle.machine.specs.Sides as sides;
ghost use Rattle.machine.specs.BySide.{read_kind, write_kind, counts_room, has_transfers, owns_outgoing};
ghost use Rattle.machine.specs.Commands.{clear_bit};
ghost use Rattle.machine.specs.Offsets.{address_at, count_at};
ghost use Rattle.machine.specs.Mcsr.{enable_bit, four_bit};
ghost use Rattle.machine.specs.Interrupts.{interrupts_kept, flags, count_bit, abort_bit};

// A side of the chip; a lane and its FIFO are those of the side that feeds them.
pub trait Side {
    ghost side: { sides.Side };

    // The kinds of its party's read and write.
    const READ: u32;

    const WRITE: u32;

    // The offsets of its lane's address and count.
    const ADDRESS: u32;

    const COUNT: u32;

    // The bits of MCSR that let the cycle go, and make it wait for four.
    const ENABLE: u32;

    const FOUR: u32;

    // Whether four counts the room in its FIFO, not the words.
    const COUNTS_ROOM: bool;

    // The bits of MCSR and of AGCSTS that clear its FIFO.
    const CLEARED_BY_PCI: u32;

    const CLEARED_BY_ADDON: u32;

    // Of its interrupt register the bits that are kept, the flags, and the flag of an abort; in both the flag of its lane's count.
    const KEPT: u32;

    const FLAGS: u32;

    const ABORT: u32;

    const COUNT_FLAG: u32;

    // Whether its bus has the registers of addresses and counts, and whether its party owns the outgoing mailboxes.
    const HAS_TRANSFERS: bool;

    const OWNS_OUTGOING: bool;

    ghost READ: { ℕ };

    ghost WRITE: { ℕ };

    ghost ADDRESS: { ℕ };

    ghost COUNT: { ℕ };

    ghost ENABLE: { ℕ };

    ghost FOUR: { ℕ };

    ghost COUNTS_ROOM: { Bool };

    ghost CLEARED_BY_PCI: { ℕ };

    ghost CLEARED_BY_ADDON: { ℕ };

    ghost KEPT: { ℕ };

    ghost FLAGS: { ℕ };

    ghost ABORT: { ℕ };

    ghost COUNT_FLAG: { ℕ };

    ghost HAS_TRANSFERS: { Bool };

    ghost OWNS_OUTGOING: { Bool };

    ghost read_is: { READ ≡ read_kind side };

    ghost write_is: { WRITE ≡ write_kind side };

    ghost address_is: { ADDRESS ≡ address_at side };

    ghost count_is: { COUNT ≡ count_at side };

    ghost enable_is: { ENABLE ≡ enable_bit side };

    ghost four_is: { FOUR ≡ four_bit side };

    ghost counts_room_is: { COUNTS_ROOM ≡ counts_room side };

    ghost cleared_by_pci_is: { CLEARED_BY_PCI ≡ clear_bit sides.pci side };

    ghost cleared_by_addon_is: { CLEARED_BY_ADDON ≡ clear_bit sides.addon side };

    ghost kept_is: { KEPT ≡ interrupts_kept side };

    ghost flags_is: { FLAGS ≡ flags side };

    ghost abort_is: { ABORT ≡ abort_bit side };

    ghost count_flag_is: { COUNT_FLAG ≡ count_bit side };

    ghost has_transfers_is: { HAS_TRANSFERS ≡ has_transfers side };

    ghost owns_outgoing_is: { OWNS_OUTGOING ≡ owns_outgoing side };
}

// PCI, and the lane that read cycles work on.
pub struct Pci;

// The Add-On bus, and the lane that write cycles work on.
pub struct Addon;

impl Side for Pci {
    ghost side = { sides.pci };

    const READ: u32 = 0;

    const WRITE: u32 = 1;

    const ADDRESS: u32 = 0x2C;

    const COUNT: u32 = 0x30;

    const ENABLE: u32 = 14;

    const FOUR: u32 = 13;

    const COUNTS_ROOM: bool = true;

    const CLEARED_BY_PCI: u32 = 25;

    const CLEARED_BY_ADDON: u32 = 26;

    const KEPT: u32 = 0x0000_DF1F;

    const FLAGS: u32 = 0x003F_0000;

    const ABORT: u32 = 20;

    const COUNT_FLAG: u32 = 19;

    const HAS_TRANSFERS: bool = true;

    const OWNS_OUTGOING: bool = true;

    ghost READ = { 0 };

    ghost WRITE = { 1 };

    ghost ADDRESS = { 0x2C };

    ghost COUNT = { 0x30 };

    ghost ENABLE = { 14 };

    ghost FOUR = { 13 };

    ghost COUNTS_ROOM = { true };

    ghost CLEARED_BY_PCI = { 25 };

    ghost CLEARED_BY_ADDON = { 26 };

    ghost KEPT = { 0x0000_DF1F };

    ghost FLAGS = { 0x003F_0000 };

    ghost ABORT = { 20 };

    ghost COUNT_FLAG = { 19 };

    ghost HAS_TRANSFERS = { true };

    ghost OWNS_OUTGOING = { true };

    ghost read_is = { refl };

    ghost write_is = { refl };

    ghost address_is = { refl };

    ghost count_is = { refl };

    ghost enable_is = { refl };

    ghost four_is = { refl };

    ghost counts_room_is = { refl };

    ghost cleared_by_pci_is = { refl };

    ghost cleared_by_addon_is = { refl };

    ghost kept_is = { refl };

    ghost flags_is = { refl };

    ghost abort_is = { refl };

    ghost count_flag_is = { refl };

    ghost has_transfers_is = { refl };

    ghost owns_outgoing_is = { refl };
}

impl Side for Addon {
    ghost side = { sides.addon };

    const READ: u32 = 2;

    const WRITE: u32 = 3;

    const ADDRESS: u32 = 0x24;

    const COUNT: u32 = 0x28;

    const ENABLE: u32 = 10;

    const FOUR: u32 = 9;

    const COUNTS_ROOM: bool = false;

    const CLEARED_BY_PCI: u32 = 26;

    const CLEARED_BY_ADDON: u32 = 25;

    const KEPT: u32 = 0x0000_DF1F;

    const FLAGS: u32 = 0x002F_0000;

    const ABORT: u32 = 21;

    const COUNT_FLAG: u32 = 18;

    const HAS_TRANSFERS: bool = false;

    const OWNS_OUTGOING: bool = false;

    ghost READ = { 2 };

    ghost WRITE = { 3 };

    ghost ADDRESS = { 0x24 };

    ghost COUNT = { 0x28 };

    ghost ENABLE = { 10 };

    ghost FOUR = { 9 };

    ghost COUNTS_ROOM = { false };

    ghost CLEARED_BY_PCI = { 26 };

    ghost CLEARED_BY_ADDON = { 25 };

    ghost KEPT = { 0x0000_DF1F };

    ghost FLAGS = { 0x002F_0000 };

    ghost ABORT = { 21 };

    ghost COUNT_FLAG = { 18 };

    ghost HAS_TRANSFERS = { false };

    ghost OWNS_OUTGOING = { false };

    ghost read_is = { refl };

    ghost write_is = { refl };

    ghost address_is = { refl };

    ghost count_is = { refl };

    ghost enable_is = { refl };

    ghost four_is = { refl };

    ghost counts_room_is = { refl };

    ghost cleared_by_pci_is = { refl };

    ghost cleared_by_addon_is = { refl };

    ghost kept_is = { refl };

    ghost flags_is = { refl };

    ghost abort_is = { refl };

    ghost count_flag_is = { refl };

    ghost has_transfers_is = { refl };

    ghost owns_outgoing_is = { refl };
}
