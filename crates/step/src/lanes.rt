// What reads, writes and cycles do to the words of a side.
ghost use Rattle.std.specs.Prelude.{◌≡◌, ◌<◌, length};
ghost use Rattle.machine.specs.State.{held};
ghost use Rattle.machine.specs.Access.{access_of};
ghost use Rattle.machine.specs.Fifos.{front};
ghost use Rattle.bank.specs.Words.{state_of_words};
ghost use Rattle.step.specs.Parts.{lane_changed, without_front, with_last, cleared_lane, event_told, Stored};

use bank::{Places, Words};
use fifo::WordFill;
use machine::Step;

// The front word of a FIFO leaves it.
pub(crate) fn take_word<L: Places>(words: &mut Words) -> u32
    ensures state { Stored (lane_changed L.side without_front) words.old words.new }
    ensures word { 0 < length (held L.side (state_of_words words.old)) → result ≡ front (held L.side (state_of_words words.old)) }
{
    let head = words[L::HEAD_AT];
    let front = words[L::FIFO_AT + fifo::front_place(head)];
    let less = fifo::one_less(WordFill(words[L::FILL_AT]));
    words[L::HEAD_AT] = fifo::past(head);
    words[L::FILL_AT] = less.0;
    front
}

// A word comes into a FIFO that has room for it.
pub(crate) fn put_word<L: Places>(words: &mut Words, x: u32)
    ensures { length (held L.side (state_of_words words.old)) < 8 → Stored (lane_changed L.side (with_last x)) words.old words.new }
{
    let fill = WordFill(words[L::FILL_AT]);
    let free = fifo::free_place(words[L::HEAD_AT], fill);
    words[L::FIFO_AT + free] = x;
    words[L::FILL_AT] = fifo::one_more(fill).0;
}

// A FIFO is emptied, if the step clears it, which ends the right of the cycles on its lane.
pub(crate) fn clear_fifo<L: Places>(words: &mut Words, s: Step)
    ensures { Stored (lane_changed L.side (cleared_lane L.side (access_of s))) words.old words.new }
{
    if commands::clears_fifo::<L>(s) {
        words[L::FILL_AT] = 0;
        words[L::RIGHT_AT] = 0;
    }
}

// Marks change, which is an event of the side that is told.
pub(crate) fn tell<O: Places>(words: &mut Words, changed: u32)
    ensures { Stored (event_told O.side changed) words.old words.new }
{
    let event = interrupts::notified(words[O::INTERRUPTS_AT], changed);
    words[bank::MARKS] ^= changed;
    words[O::INTERRUPTS_AT] = event;
}
