// The clears that a write to MCSR or to AGCSTS commands.
#![tactic(auto)]

ghost use Rattle.std.specs.Prelude.{◌≡◌};
ghost use Rattle.machine.specs.Access.{access_of};
ghost use Rattle.machine.specs.Commands.{commands, clears_marks, clears_fifo};

use machine::{Addon, Pci, Side, Step, offsets};

// The bit by which every mailbox byte is marked empty; those that clear FIFOs are in `Side`.
const MARKS: u32 = 27;

// The enable of the byte that has them.
const HIGHEST: u32 = 3;

// Whether the side's party writes a one to bit k of its control register, MCSR or AGCSTS, the highest byte enabled.
fn commands<S: Side>(k: u32, s: Step) -> bool
    ensures { result ≡ commands S.side k (access_of s) }
{
    (s.kind == S::WRITE)
        & (s.offset == offsets::CONTROL)
        & word::bit(s.enables, HIGHEST)
        & word::bit(s.value, k)
}

// Whether every mailbox byte is to be marked empty.
pub fn clears_marks(s: Step) -> bool
    ensures { result ≡ clears_marks (access_of s) }
{
    commands::<Pci>(MARKS, s) | commands::<Addon>(MARKS, s)
}

// Whether the FIFO that a side feeds is to be emptied: MCSR and AGCSTS have the two bits the other way round.
pub fn clears_fifo<S: Side>(s: Step) -> bool
    ensures { result ≡ clears_fifo S.side (access_of s) }
{
    commands::<Pci>(S::CLEARED_BY_PCI, s) | commands::<Addon>(S::CLEARED_BY_ADDON, s)
}
