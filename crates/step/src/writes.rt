// Writes, by either party.
ghost use Rattle.std.specs.Prelude.{◌≡◌, true, false};
ghost use Rattle.machine.specs.Access.{access_of};
ghost use Rattle.machine.specs.BySide.{write_kind};
ghost use Rattle.machine.specs.Offsets.{is_mailbox};
ghost use Rattle.step.specs.Parts.{marks_cleared, controlled, lane_changed, registers_written, Stored, Accessed};

use crate::lanes::{clear_fifo, put_word, tell};
use crate::party::Party;
use crate::replies::{done, refused};
use bank::{Places, Words};
use controller::ByteCount;
use machine::{Addon, Answer, Pci, Step, offsets};

// A write to the port: a word into the FIFO that the party feeds.
fn push<S: Party>(words: &mut Words, s: Step) -> Answer
    requires { (s.kind ≡ write_kind S.side) × (s.offset ≡ 0x20) }
    ensures { Accessed s words.old result words.new }
{
    let b = bank::bank_in(words);
    match refusal::access(b, s) {
        Ok(()) => {}
        Err(r) => return refused(b, u32::from(r)),
    }
    put_word::<S>(words, s.value);
    done(words, 0, 0)
}

// A write to a mailbox, of which the other side is told.
fn mail<S: Party>(words: &mut Words, s: Step) -> Answer
    requires { (s.kind ≡ write_kind S.side) × (is_mailbox s.offset ≡ true) }
    ensures { Accessed s words.old result words.new }
{
    let b = bank::bank_in(words);
    match refusal::access(b, s) {
        Ok(()) => {}
        Err(r) => return refused(b, u32::from(r)),
    }
    let changed = mailboxes::changes(s, words[bank::MARKS]);
    mailboxes::store(words, s);
    tell::<S::Other>(words, changed);
    done(words, 0, changed)
}

// The marks, if the step clears them.
fn clear_marks(words: &mut Words, s: Step)
    ensures { Stored (marks_cleared (access_of s)) words.old words.new }
{
    if commands::clears_marks(s) {
        words[bank::MARKS] = 0;
    }
}

// What MCSR keeps of a write, and what one to MCSR or to AGCSTS clears. (It and `transfer` stand where they are called, so that a step calls
// nothing.)
#[inline(always)]
fn control(words: &mut Words, s: Step)
    ensures { Stored (controlled (access_of s)) words.old words.new }
{
    words[bank::MCSR] = mcsr::mcsr_after(s, words[bank::MCSR]);
    clear_marks(words, s);
    clear_fifo::<Pci>(words, s);
    clear_fifo::<Addon>(words, s);
}

// The address and the count of a lane, if the step writes them.
#[inline(always)]
fn transfer<L: Places>(words: &mut Words, s: Step)
    ensures { Stored (lane_changed L.side (registers_written L.side (access_of s))) words.old words.new }
{
    let address = address::written(L::ADDRESS, s, words[L::ADDRESS_AT]);
    let count = count::written(L::COUNT, s, ByteCount(words[L::COUNT_AT]));
    words[L::ADDRESS_AT] = address;
    words[L::COUNT_AT] = count.0;
}

// A write to any other register: the party's interrupt or control register, or by PCI an address or a count.
fn store<S: Party>(words: &mut Words, s: Step) -> Answer
    requires { (s.kind ≡ write_kind S.side) × ((is_mailbox s.offset ≡ false) × (s.offset ≡ 0x20 → ⊥)) }
    ensures { Accessed s words.old result words.new }
{
    let b = bank::bank_in(words);
    match refusal::access(b, s) {
        Ok(()) => {}
        Err(r) => return refused(b, u32::from(r)),
    }
    if s.offset == offsets::INTERRUPTS {
        words[S::INTERRUPTS_AT] = interrupts::written::<S>(words[S::INTERRUPTS_AT], s);
        return done(words, 0, 0);
    }
    if s.offset == offsets::CONTROL {
        control(words, s);
        return done(words, 0, 0);
    }
    transfer::<Pci>(words, s);
    transfer::<Addon>(words, s);
    done(words, 0, 0)
}

// A write.
pub(crate) fn write<S: Party>(words: &mut Words, s: Step) -> Answer
    requires { s.kind ≡ write_kind S.side }
    ensures { Accessed s words.old result words.new }
{
    // its kind by name, so that nothing below asks for it again
    let s = Step {
        kind: S::WRITE,
        ..s
    };
    if s.offset == offsets::FIFO_PORT {
        return push::<S>(words, s);
    }
    if mailboxes::is_mailbox(s.offset) {
        return mail::<S>(words, s);
    }
    store::<S>(words, s)
}
