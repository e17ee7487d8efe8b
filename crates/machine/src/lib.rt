// A step and its answer, as numbers; what refuses, the kinds of step, the offsets and the sides by name. The definitions in specs/ and the code
// that meets them share the two structs, `Refusal` and `StepKind`; the named numbers stand in specs/ once more.
#![tactic(auto)]

pub mod codes;
pub mod kinds;
pub mod offsets;
pub mod side;

pub use codes::Refusal;
pub use kinds::StepKind;
pub use side::{Addon, Pci, Side};

// The bytes of a word, and the enables of all of them.
pub const WORD_BYTES: u32 = 4;

pub const ALL_ENABLES: u32 = 15;

// A step, in four numbers; `value` is its data. Any four make a step.
#[derive(Clone, Copy, Debug, Default, PartialEq, Eq)]
pub struct Step {
    pub kind: u32,
    pub offset: u32,
    pub enables: u32,
    pub value: u32,
}

// An answer, in four numbers, the levels of both interrupt lines once the step is over, and the marks that the step changed, as bits of
// offset 34, which the log does not show; `value` is its data.
#[derive(Clone, Copy, Debug, Default, PartialEq, Eq)]
pub struct Answer {
    pub code: u32,
    pub address: u32,
    pub value: u32,
    pub enables: u32,
    pub line: bool,
    pub addon_line: bool,
    pub changed: u32,
}
