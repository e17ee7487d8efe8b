// The codes that answer: 0 for what is done, and the numbers of what refuses.
ghost use Rattle.std.specs.Prelude.{◌≡◌};
ghost use Rattle.machine.specs.Refusals.{refusal_number, code_number};

pub const DONE: u32 = 0;

// What refuses: 1 to 13 a step, 14 a line that is no frame, 15 an unknown label set, 16 to 19 the load of a HEX text, 24 its export.
#[derive(Clone, Copy, Debug, PartialEq, Eq)]
pub enum Refusal {
    StateOutOfForm = 1,
    WindowOutOfForm = 2,
    UnknownStep = 3,
    UnknownOffset = 4,
    BadEnables = 5,
    PartFifoAccess = 6,
    ReadOnlyRegister = 7,
    FifoFullOrEmpty = 8,
    TransferOff = 9,
    CountIsZero = 10,
    AbortStands = 11,
    FifoNotReady = 12,
    NoMemoryThere = 13,
    NotAFrameLine = 14,
    UnknownLabelSet = 15,
    NotAHexRecord = 16,
    WrongSum = 17,
    OutsideTheWindow = 18,
    NoEndOrNotLast = 19,
    OutputTooShort = 24,
}

// Its number, which is the key.
impl From<Refusal> for u32 {
    ghost from_gives = { λ r n. n ≡ refusal_number r };

    fn from(r: Refusal) -> u32 {
        r as u32
    }
}

// The code of what is done or refused.
pub fn code(done: Result<(), Refusal>) -> u32
    ensures { result ≡ code_number done }
{
    match done {
        Ok(()) => DONE,
        Err(r) => u32::from(r),
    }
}
