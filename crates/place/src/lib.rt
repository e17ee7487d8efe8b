// The step that works on one controller where it stands. Both contracts are the by-value step's own, `StepPromised`; `in_place_equal` shows the forms equal.
#![tactic(auto)]

ghost use Rattle.step.specs.Unique.{StepPromised};
ghost use Rattle.place.specs.InPlace.{stepped_to};

use controller::Controller;
use machine::{Answer, Step};
use step::Stepped;

// What `step` promises of its result holds of the controller left behind the reference and of the answer.
pub fn step_in_place(c: &mut Controller, memory: &mut [u32], start: u32, s: Step) -> Answer
    ensures { StepPromised c.old start memory.old s (stepped_to c.new result) memory.new }
{
    let r = step::step(*c, memory, start, s);
    *c = r.controller;
    r.answer
}

// The step in place, on a controller lent for it: by value on the outside, so code that calls it holds no reference to a controller.
pub fn step_by_place(c: Controller, memory: &mut [u32], start: u32, s: Step) -> Stepped
    ensures { StepPromised c start memory.old s result memory.new }
{
    let mut d = c;
    let a = step_in_place(&mut d, memory, start, s);
    Stepped {
        controller: d,
        answer: a,
    }
}
