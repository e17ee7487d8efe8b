// The C call of `driver` as C sees it: one step on a controller that stands as words in its caller's memory. It is the library's function,
// under its name and with its contract.
#![tactic(auto)]

ghost use Rattle.driver.specs.Call.{StepPromised};

#[unsafe(no_mangle)]
pub extern "C" fn s5933_step(
    controller: &mut [u32],
    memory: &mut [u32],
    start: u32,
    kind: u32,
    offset: u32,
    enables: u32,
    value: u32,
    answer: &mut [u32],
) -> i64
    ensures { StepPromised controller.old start memory.old (record { kind = kind; offset = offset; enables = enables; value = value }) answer.old result controller.new memory.new answer.new }
{
    driver::s5933_step(
        controller, memory, start, kind, offset, enables, value, answer,
    )
}
