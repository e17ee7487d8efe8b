// The C call for one step on a controller that stands as words in its caller's memory: what a driver calls for each access.
#![tactic(auto)]

ghost use Rattle.std.specs.Prelude.{◌≡◌};
ghost use Rattle.machine.specs.Refusals.{code_number};
ghost use Rattle.driver.specs.Call.{form_of_words, words_of_answer, StepPromised};

use bank::Places;
use machine::{Addon, Answer, Pci, Refusal, Step, codes};

// Codes 1 and 2. Words that stand for no controller are a state out of form: there are 38, and either right is 0 or 1.
fn form_in(words: &[u32], start: u32, count: usize) -> Result<(), Refusal>
    ensures { code_number result ≡ form_of_words words.now start count }
{
    if words.len() != bank::WORDS {
        return Err(Refusal::StateOutOfForm);
    }
    if !((words[Pci::RIGHT_AT] < 2) & (words[Addon::RIGHT_AT] < 2)) {
        return Err(Refusal::StateOutOfForm);
    }
    refusal::form(bank::bank_in(words), start, count)
}

// The words of an answer.
fn words_of(a: Answer) -> [u32; 7]
    ensures { result ≡ words_of_answer a }
{
    [
        a.code,
        a.address,
        a.value,
        a.enables,
        u32::from(a.line),
        u32::from(a.addon_line),
        a.changed,
    ]
}

// One step on a controller that stands as words in the caller's memory, over a window of so many words from a start on. It returns the code, and the answer
// is left in seven words; for any other number of these it returns -1, and touches nothing.
// The code of form is stored at once: what is read behind a store is read anew, where it is needed, and need not be held from the test of form on.
#[unsafe(no_mangle)]
pub extern "C" fn s5933_step(
    controller: &mut [u32],
    memory: &mut [u32],
    start: u32,
    kind: u32,
    offset: u32,
    enables: u32,
    value: u32,
    answer: &mut [u32],
) -> i64
    ensures { StepPromised controller.old start memory.old (record { kind = kind; offset = offset; enables = enables; value = value }) answer.old result controller.new memory.new answer.new }
{
    let Some(answer) = answer.as_mut_array::<7>() else {
        return -1;
    };
    let form = codes::code(form_in(controller, start, memory.len()));
    answer[0] = form;
    let s = Step {
        kind,
        offset,
        enables,
        value,
    };
    let a = step::in_words(controller, memory, start, form, s);
    *answer = words_of(a);
    i64::from(a.code)
}
