// Reads, by either party.
ghost use Rattle.std.specs.Prelude.{◌≡◌};
ghost use Rattle.machine.specs.BySide.{read_kind};
ghost use Rattle.step.specs.Parts.{Accessed};

use crate::lanes::{take_word, tell};
use crate::party::Party;
use crate::registers::register;
use crate::replies::{done, refused};
use bank::Words;
use machine::{Answer, Step, offsets};

// A read of the port: the front word of the FIFO that the other side feeds leaves.
fn pop<S: Party>(words: &mut Words, s: Step) -> Answer
    requires { (s.kind ≡ read_kind S.side) × (s.offset ≡ 0x20) }
    ensures { Accessed s words.old result words.new }
{
    let b = bank::bank_in(words);
    match refusal::access(b, s) {
        Ok(()) => {}
        Err(r) => return refused(b, u32::from(r)),
    }
    let front = take_word::<S::Other>(words);
    done(words, front, 0)
}

// A read of any other register: it is shown whole, and marks of enabled bytes may change, of which the other side is told.
fn look<S: Party>(words: &mut Words, s: Step) -> Answer
    requires { (s.kind ≡ read_kind S.side) × (s.offset ≡ 0x20 → ⊥) }
    ensures { Accessed s words.old result words.new }
{
    let b = bank::bank_in(words);
    match refusal::access(b, s) {
        Ok(()) => {}
        Err(r) => return refused(b, u32::from(r)),
    }
    let whole = register::<S>(words, s.offset);
    let changed = mailboxes::changes(s, words[bank::MARKS]);
    tell::<S::Other>(words, changed);
    done(words, whole, changed)
}

// A read.
pub(crate) fn read<S: Party>(words: &mut Words, s: Step) -> Answer
    requires { s.kind ≡ read_kind S.side }
    ensures { Accessed s words.old result words.new }
{
    // its kind by name, so that nothing below asks for it again
    let s = Step { kind: S::READ, ..s };
    if s.offset == offsets::FIFO_PORT {
        return pop::<S>(words, s);
    }
    look::<S>(words, s)
}
