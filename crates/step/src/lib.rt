// One step of the controller, by kind: on its words where they stand, and by value above it.
// Each kind looks at what it needs and stores what it changes; that the rest stays is proved, not computed.
#![tactic(auto)]

mod cycles;
mod lanes;
mod party;
mod reads;
mod registers;
mod replies;
mod writes;

ghost use Rattle.std.specs.Prelude.{◌≡◌, replicate};
ghost use Rattle.machine.specs.State.{reset_state};
ghost use Rattle.machine.specs.Step.{nothing, answered};
ghost use Rattle.step.specs.Parts.{Settled, Kind, InWords};
ghost use Rattle.step.specs.Unique.{StepPromised};

use crate::cycles::{read_cycle, write_cycle};
use crate::reads::read;
use crate::replies::{answered, out_of_form, refused};
use crate::writes::write;
use bank::{Places, Words};
use controller::Controller;
use machine::{Addon, Answer, Pci, Refusal, Step, StepKind, codes};

// The controller after a step, and the step's answer.
#[derive(Clone, Copy)]
pub struct Stepped {
    pub controller: Controller,
    pub answer: Answer,
}

// A chip reset: every word is zero.
fn reset(words: &mut Words) -> Answer
    ensures { (words.new ≡ replicate 38 0) × (result ≡ answered reset_state 0 nothing) }
{
    words.fill(0);
    answered(0, 0, codes::DONE, 0, 0, 0, 0)
}

// A step whose state and window are in form, before rights end.
fn by_kind(words: &mut Words, memory: &mut [u32], start: u32, s: Step) -> Answer
    ensures { Kind words.old start memory.old s result words.new memory.new }
{
    match StepKind::try_from(s.kind) {
        Ok(StepKind::PciRead) => read::<Pci>(words, s),
        Ok(StepKind::PciWrite) => write::<Pci>(words, s),
        Ok(StepKind::AddonRead) => read::<Addon>(words, s),
        Ok(StepKind::AddonWrite) => write::<Addon>(words, s),
        Ok(StepKind::WriteCycle) => write_cycle(words, memory, start),
        Ok(StepKind::ReadCycle) => read_cycle(words, memory, start),
        Ok(StepKind::ChipReset) => reset(words),
        Err(unknown) => refused(bank::bank_in(words), u32::from(unknown)),
    }
}

// Rights end that met an end, if the step is done. Mostly none stands.
fn settle(words: &mut Words, code: u32)
    ensures { Settled code words.old words.new }
{
    let b = bank::bank_in(words);
    if !(b.from_pci.right | b.from_addon.right) {
        return;
    }
    if code != codes::DONE {
        return;
    }
    words[Pci::RIGHT_AT] = u32::from(b.from_pci.right & !rights::is_ended::<Pci>(b));
    words[Addon::RIGHT_AT] = u32::from(b.from_addon.right & !rights::is_ended::<Addon>(b));
}

// One step on a controller that stands as words: by `form`, a caller asks `refusal::form` once for many steps. Another number of words is a state out of form.
pub fn in_words(words: &mut [u32], memory: &mut [u32], start: u32, form: u32, s: Step) -> Answer
    ensures { InWords words.old memory.old start form s result words.new memory.new }
{
    let Some(words) = words.as_mut_array::<38>() else {
        return out_of_form();
    };
    if form != codes::DONE {
        return refused(bank::bank_in(words), form);
    }
    let a = by_kind(words, memory, start, s);
    settle(words, a.code);
    a
}

// One step: every controller, memory, start and numbers have an answer, and a refusal leaves the controller as it was.
pub fn step(c: Controller, memory: &mut [u32], start: u32, s: Step) -> Stepped
    ensures { StepPromised c start memory.old s result memory.new }
{
    let mut words = bank::words_of(c);
    let b = bank::bank_in(&words);
    let form = codes::code(refusal::form(b, start, memory.len()));
    let answer = in_words(&mut words, memory, start, form, s);
    if (answer.code != codes::DONE) & (answer.code != u32::from(Refusal::NoMemoryThere)) {
        return Stepped {
            controller: c,
            answer,
        };
    }
    let controller = bank::controller_of(words);
    Stepped { controller, answer }
}
