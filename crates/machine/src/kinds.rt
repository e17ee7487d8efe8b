// The kinds of step, by name.
ghost use Rattle.std.specs.Prelude.{◌≡◌};
ghost use Rattle.machine.specs.Refusals.{kind_at};

use crate::codes::Refusal;

#[derive(Clone, Copy, Debug, PartialEq, Eq)]
pub enum StepKind {
    PciRead,
    PciWrite,
    AddonRead,
    AddonWrite,
    WriteCycle,
    ReadCycle,
    ChipReset,
}

// The kind of a number: any above 6 is unknown.
impl TryFrom<u32> for StepKind {
    type Error = Refusal;

    ghost try_from_gives = { λ n r. r ≡ kind_at n };

    fn try_from(n: u32) -> Result<StepKind, Refusal> {
        match n {
            0 => Ok(StepKind::PciRead),
            1 => Ok(StepKind::PciWrite),
            2 => Ok(StepKind::AddonRead),
            3 => Ok(StepKind::AddonWrite),
            4 => Ok(StepKind::WriteCycle),
            5 => Ok(StepKind::ReadCycle),
            6 => Ok(StepKind::ChipReset),
            _ => Err(Refusal::UnknownStep),
        }
    }
}
