// What ends the right of a burst.
#![tactic(auto)]

ghost use Rattle.std.specs.Prelude.{◌≡◌, List, ℕ};
ghost use Rattle.machine.specs.State.{lane};
ghost use Rattle.machine.specs.Rights.{ended};
ghost use Rattle.bank.specs.Bank.{state_in};

use bank::{Bank, Places};

// Whether the cycles on a side's lane may go on no longer: no word or no room to go on with, nothing left to count, four no longer asked for, the
// transfer off, an abort.
#[tactic(auto, using(crate::proofs::Ends::none_lem, crate::proofs::Ends::as_filled, crate::proofs::Ends::as_counted))]
pub fn is_ended<S: Places>(b: Bank) -> bool
    ensures { (mail pci addon : List ℕ) → result ≡ ended S.side (lane S.side (state_in b mail pci addon)) b.mcsr b.intcsr }
{
    let lane = S::lane(b);
    !fifo::has_amount::<S>(lane.fill, false)
        | count::is_zero(lane.count)
        | !word::bit(b.mcsr, S::FOUR)
        | !word::bit(b.mcsr, S::ENABLE)
        | interrupts::is_abort_in(b.intcsr)
}
