// The registers as they are read.
ghost use Rattle.std.specs.Prelude.{◌≡◌};
ghost use Rattle.machine.specs.Step.{register};
ghost use Rattle.bank.specs.Words.{state_of_words};

use crate::party::Party;
use bank::Words;
use machine::offsets;

// A party's register at an offset, but for the FIFO port.
pub(crate) fn register<S: Party>(words: &Words, offset: u32) -> u32
    ensures { result ≡ register S.side (state_of_words words.now) offset }
{
    if mailboxes::is_mailbox(offset) {
        return mailboxes::mail_word(words, offset);
    }
    let b = bank::bank_in(words);
    match offset {
        offsets::WRITE_ADDRESS => b.from_addon.address,
        offsets::WRITE_COUNT => count::shown(b.from_addon.count),
        offsets::READ_ADDRESS => b.from_pci.address,
        offsets::READ_COUNT => count::shown(b.from_pci.count),
        offsets::STATUS => b.marks,
        offsets::INTERRUPTS => interrupts::read(words[S::INTERRUPTS_AT]),
        _ => S::control(b),
    }
}
