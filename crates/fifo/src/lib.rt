// A FIFO of eight 32-bit words: a ring, whose words stand from place `head` on, counted modulo 8. Freed places are used again.
#![tactic(auto)]

ghost use Rattle.std.specs.Prelude.{◌≡◌, ℕ, cond, List, [], length, suc, ◌+◌, ◌-◌, ◌%◌, eqb, leb, ltb};
ghost use Rattle.machine.specs.Fifos.{amount};
ghost use Rattle.fifo.specs.Held.{held};

use machine::Side;

// A number of 32-bit words in a FIFO.
#[derive(Clone, Copy, Debug, Default, PartialEq, Eq)]
pub struct WordFill(pub u32);

const DEPTH: u32 = 8;

// The words, or the room for words, that MCSR 9 and 13 ask for and that its status tells of.
const FOUR: u32 = 4;

#[derive(Clone, Copy, Debug, Default, PartialEq, Eq)]
pub struct Fifo {
    pub words: [u32; 8],
    pub head: u32,
    pub fill: WordFill,
}

// No words.
#[tactic(auto, unfolding(crate::specs::Held::held, crate::specs::Ring::from))]
pub fn empty() -> Fifo
    ensures { held result ≡ [] }
{
    Fifo::default()
}

// ---- fills

pub fn is_empty(fill: WordFill) -> bool
    ensures { result ≡ eqb fill.0 0 }
{
    fill.0 == 0
}

pub fn is_full(fill: WordFill) -> bool
    ensures { result ≡ leb 8 fill.0 }
{
    DEPTH <= fill.0
}

// A fill above eight.
pub fn is_out_of_form(fill: WordFill) -> bool
    ensures { result ≡ ltb 8 fill.0 }
{
    DEPTH < fill.0
}

// Whether there is what a cycle on a side's lane waits for, one or four: room in the FIFO from PCI, words in the FIFO from the Add-On.
pub fn has_amount<S: Side>(fill: WordFill, four: bool) -> bool
    ensures { (words : List ℕ) → length words ≡ fill.0 → result ≡ leb (cond four 4 1) (amount S.side words) }
{
    let needed = if four { FOUR } else { 1 };
    if S::COUNTS_ROOM {
        fill.0 <= DEPTH - needed
    } else {
        needed <= fill.0
    }
}

// The fill when a word has come in, if there was room.
pub fn one_more(fill: WordFill) -> WordFill
    ensures { result.0 ≡ cond (ltb fill.0 8) (suc fill.0) fill.0 }
{
    if fill.0 < DEPTH {
        return WordFill(fill.0 + 1);
    }
    fill
}

// The fill when a word has left, if there was one.
pub fn one_less(fill: WordFill) -> WordFill
    ensures { result.0 ≡ fill.0 - 1 }
{
    WordFill(fill.0.saturating_sub(1))
}

// ---- the ring

// The place of the front word.
pub fn front_place(head: u32) -> usize
    ensures { result ≡ head % 8 }
{
    (head % DEPTH) as usize
}

// The head when the word at it has left.
pub fn past(head: u32) -> u32
    ensures { result ≡ (head % 8 + 1) % 8 }
{
    (head % DEPTH + 1) % DEPTH
}

// The place behind the last of so many words.
pub fn free_place(head: u32, fill: WordFill) -> usize
    ensures { result ≡ (head + fill.0) % 8 }
{
    ((head % DEPTH + fill.0 % DEPTH) % DEPTH) as usize
}
