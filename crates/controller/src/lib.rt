// What the controller holds.
#![tactic(auto)]

ghost use Rattle.std.specs.Prelude.{◌≡◌};
ghost use Rattle.machine.specs.State.{reset_state};
ghost use Rattle.controller.specs.Controller.{state_of};

use fifo::Fifo;

// A transfer count, in bytes.
#[derive(Clone, Copy, Debug, Default, PartialEq, Eq)]
pub struct ByteCount(pub u32);

// A FIFO, the address and count registers of the cycles that work on it, and whether these have the right of a burst.
#[derive(Clone, Copy, Debug, Default, PartialEq, Eq)]
pub struct Lane {
    pub fifo: Fifo,
    pub address: u32,
    pub count: ByteCount,
    pub right: bool,
}

// mail has the mailbox words by their offset / 4; marks has a one for each full byte.
// Read cycles work on the lane from PCI, write cycles on the lane from the Add-On.
#[derive(Clone, Copy, Debug, Default, PartialEq, Eq)]
pub struct Controller {
    pub mail: [u32; 8],
    pub marks: u32,
    pub from_pci: Lane,
    pub from_addon: Lane,
    pub intcsr: u32,
    pub mcsr: u32,
    pub aint: u32,
}

// The controller after a reset: everything held is zero, no word is in a FIFO and no cycle has a right.
#[tactic(auto, unfolding(crate::specs::Controller::state_of, crate::specs::Controller::lane_of, fifo::specs::Held::held, fifo::specs::Ring::from))]
pub fn reset() -> Controller
    ensures { state_of result ≡ reset_state }
{
    Controller::default()
}
