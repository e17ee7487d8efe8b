// Cycles: a word goes from a FIFO to the memory, or from the memory into a FIFO.
ghost use Rattle.std.specs.Prelude.{◌≡◌};
ghost use Rattle.machine.specs.Sides as sides;
ghost use Rattle.bank.specs.Words.{state_of_words};
ghost use Rattle.step.specs.Parts.{passed, Stored, Cycled};

use crate::lanes::{put_word, take_word};
use crate::replies::{aborted, moved, refused};
use bank::{Places, Words};
use controller::ByteCount;
use machine::{Addon, Answer, Pci, Refusal};

// What a done cycle leaves besides the word: the flag of a count that runs out, the next address, the count left, and the right.
// Done where MCSR asks for four, it had them or the right.
fn pass<L: Places>(words: &mut Words)
    ensures { Stored (passed L.side) words.old words.new }
{
    let count = ByteCount(words[L::COUNT_AT]);
    let intcsr = interrupts::after_cycle::<L>(words[bank::INTCSR], count);
    let aint = interrupts::after_cycle::<L>(words[bank::AINT], count);
    let next = address::next_address(words[L::ADDRESS_AT]);
    let less = count::count_left(count);
    let right = (words[L::RIGHT_AT] != 0) | word::bit(words[bank::MCSR], L::FOUR);
    words[bank::INTCSR] = intcsr;
    words[bank::AINT] = aint;
    words[L::ADDRESS_AT] = next;
    words[L::COUNT_AT] = less.0;
    words[L::RIGHT_AT] = u32::from(right);
}

// A write cycle: the front word of the FIFO from the Add-On goes to the memory.
pub(crate) fn write_cycle(words: &mut Words, memory: &mut [u32], start: u32) -> Answer
    ensures { Cycled sides.addon words.old start memory.old result words.new memory.new }
{
    let b = bank::bank_in(words);
    let address = words[Addon::ADDRESS_AT];
    let count = ByteCount(words[Addon::COUNT_AT]);
    match refusal::cycle::<Addon>(b, start, memory.len()) {
        Ok(()) => {}
        Err(Refusal::NoMemoryThere) => return aborted(words, address),
        Err(r) => return refused(b, u32::from(r)),
    }
    let at = window::place(start, address) as usize;
    let enables = count::low_enables(count);
    let front = take_word::<Addon>(words);
    memory[at] = word::merged(memory[at], front, enables);
    pass::<Addon>(words);
    moved(words, address, front, enables)
}

// A read cycle: a word of the memory goes into the FIFO from PCI.
pub(crate) fn read_cycle(words: &mut Words, memory: &[u32], start: u32) -> Answer
    ensures { Cycled sides.pci words.old start memory.now result words.new memory.now }
{
    let b = bank::bank_in(words);
    let address = words[Pci::ADDRESS_AT];
    let count = ByteCount(words[Pci::COUNT_AT]);
    match refusal::cycle::<Pci>(b, start, memory.len()) {
        Ok(()) => {}
        Err(Refusal::NoMemoryThere) => return aborted(words, address),
        Err(r) => return refused(b, u32::from(r)),
    }
    let at = window::place(start, address) as usize;
    let enables = count::low_enables(count);
    let word = word::shown(memory[at], enables);
    put_word::<Pci>(words, word);
    pass::<Pci>(words);
    moved(words, address, word, enables)
}
