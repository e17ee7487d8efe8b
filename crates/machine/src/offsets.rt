// The offsets of the registers. The mailboxes stand at every fourth offset below the FIFO port, the incoming ones from 10 on.
pub const INCOMING: u32 = 0x10;

pub const FIFO_PORT: u32 = 0x20;

pub const WRITE_ADDRESS: u32 = 0x24;

pub const WRITE_COUNT: u32 = 0x28;

pub const READ_ADDRESS: u32 = 0x2C;

pub const READ_COUNT: u32 = 0x30;

pub const STATUS: u32 = 0x34;

// Each side's own: INTCSR of PCI and AINT of the Add-On, MCSR of PCI and AGCSTS of the Add-On.
pub const INTERRUPTS: u32 = 0x38;

pub const CONTROL: u32 = 0x3C;

// the first offset past PCI's table
pub const END: u32 = 0x40;
