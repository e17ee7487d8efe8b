// What a step answers.
ghost use Rattle.std.specs.Prelude.{◌≡◌, List, ℕ};
ghost use Rattle.machine.specs.State.{State};
ghost use Rattle.machine.specs.Step.{nothing, showing, answered};
ghost use Rattle.bank.specs.Bank.{state_in};
ghost use Rattle.bank.specs.Words.{state_of_words};
ghost use Rattle.step.specs.Parts.{Aborted};

use bank::{Bank, Places, Words};
use machine::{Addon, Answer, Pci, Refusal, codes};

// What is answered, with the lines that INTCSR and AINT have then, but for code 1. Mostly no flag stands, and so no line.
pub(crate) fn answered(
    intcsr: u32,
    aint: u32,
    code: u32,
    address: u32,
    value: u32,
    enables: u32,
    changed: u32,
) -> Answer
    ensures { (st : State) → st.intcsr ≡ intcsr → st.aint ≡ aint → result ≡ answered st code (record { address = address; value = value; enables = enables; changed = changed }) }
{
    let dark = Answer {
        code,
        address,
        value,
        enables,
        changed,
        ..Answer::default()
    };
    if (intcsr | aint) < interrupts::LOWEST_FLAG {
        return dark;
    }
    let trusted = code != u32::from(Refusal::StateOutOfForm);
    Answer {
        line: trusted & interrupts::line(intcsr),
        addon_line: trusted & interrupts::line(aint),
        ..dark
    }
}

// A refusal answers its code and the lines.
pub(crate) fn refused(b: Bank, code: u32) -> Answer
    ensures { (mail pci addon : List ℕ) → result ≡ answered (state_in b mail pci addon) code nothing }
{
    answered(b.intcsr, b.aint, code, 0, 0, 0, 0)
}

// Code 1 tells of no line.
pub(crate) fn out_of_form() -> Answer
    ensures { (st : State) → result ≡ answered st 1 nothing }
{
    Answer {
        code: u32::from(Refusal::StateOutOfForm),
        ..Answer::default()
    }
}

// A done read or write answers what it shows, the marks that it changed, and the lines.
pub(crate) fn done(words: &Words, value: u32, changed: u32) -> Answer
    ensures { result ≡ answered (state_of_words words.now) 0 (showing value changed) }
{
    answered(
        words[bank::INTCSR],
        words[bank::AINT],
        codes::DONE,
        0,
        value,
        0,
        changed,
    )
}

// A done cycle answers its address, the word that it moved with its enables, and the lines.
pub(crate) fn moved(words: &Words, address: u32, value: u32, enables: u32) -> Answer
    ensures { result ≡ answered (state_of_words words.now) 0 (record { address = address; value = value; enables = enables; changed = 0 }) }
{
    answered(
        words[bank::INTCSR],
        words[bank::AINT],
        codes::DONE,
        address,
        value,
        enables,
        0,
    )
}

// Code 13: the abort flags are set, which ends both rights, and the address answered.
pub(crate) fn aborted(words: &mut Words, address: u32) -> Answer
    ensures { Aborted words.old address result words.new }
{
    let i = interrupts::aborted::<Pci>(words[bank::INTCSR]);
    let a = interrupts::aborted::<Addon>(words[bank::AINT]);
    words[bank::INTCSR] = i;
    words[bank::AINT] = a;
    words[Pci::RIGHT_AT] = 0;
    words[Addon::RIGHT_AT] = 0;
    answered(i, a, u32::from(Refusal::NoMemoryThere), address, 0, 0, 0)
}
