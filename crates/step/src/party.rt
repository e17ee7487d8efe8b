// Who asks, the host on PCI or the card on the Add-On bus: its side, and what of the other side its steps reach.
ghost use Rattle.std.specs.Prelude.{◌≡◌, List, ℕ, refl};
ghost use Rattle.machine.specs.Sides.{other};
ghost use Rattle.machine.specs.Step.{control_read};
ghost use Rattle.bank.specs.Bank.{state_in};

use bank::{Bank, Places};
use machine::{Addon, Pci};

pub(crate) trait Party: Places {
    // The other side: it feeds the FIFO that this party reads, and is told of what this party does to the mailboxes.
    type Other: Places;

    // The party's control register as it is read.
    fn control(b: Bank) -> u32
        ensures { (mail pcis addons : List ℕ) → result ≡ control_read Self.side (state_in b mail pcis addons) };

    ghost other_is: { Self.Other.side ≡ other Self.side };
}

impl Party for Pci {
    type Other = Addon;

    fn control(b: Bank) -> u32 {
        mcsr::mcsr_read(b)
    }

    ghost other_is = { refl };
}

impl Party for Addon {
    type Other = Pci;

    fn control(b: Bank) -> u32 {
        mcsr::agcsts_read(b)
    }

    ghost other_is = { refl };
}
