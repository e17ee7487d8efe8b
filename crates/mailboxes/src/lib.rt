// The mailboxes: their words, and for each byte a mark that says whether it is full.
#![tactic(auto)]

ghost use Rattle.std.specs.Prelude.{◌≡◌, true, get_or};
ghost use Rattle.machine.specs.Access.{access_of, kind_of, is_read_by, is_write_by};
ghost use Rattle.machine.specs.Offsets.{is_mailbox, mailbox, writer, reader};
ghost use Rattle.machine.specs.Mailboxes.{marks_at, fills, takes, changes, mail_after};

use machine::{Addon, Pci, Side, Step, WORD_BYTES, offsets};

// Enables are numbers below this.
const ENABLES: u32 = 16;

// Whether an offset is that of a mailbox.
pub fn is_mailbox(offset: u32) -> bool
    ensures { result ≡ is_mailbox offset }
{
    (offset < offsets::FIFO_PORT) & (offset % WORD_BYTES == 0)
}

// Whether the step is a write by the owner of the mailbox at its offset: PCI of an outgoing one, the Add-On of an incoming one.
fn is_owner_write(s: Step) -> bool
    ensures { result ≡ is_write_by (writer s.offset) (kind_of s.kind) }
{
    let write = if s.offset < offsets::INCOMING {
        Pci::WRITE
    } else {
        Addon::WRITE
    };
    s.kind == write
}

// Whether it is a read by the side that does not own that mailbox.
fn is_other_read(s: Step) -> bool
    ensures { result ≡ is_read_by (reader s.offset) (kind_of s.kind) }
{
    let read = if s.offset < offsets::INCOMING {
        Addon::READ
    } else {
        Pci::READ
    };
    s.kind == read
}

// A write by the owner.
fn fills(s: Step) -> bool
    ensures { result ≡ fills (access_of s) }
{
    is_owner_write(s) & is_mailbox(s.offset)
}

// A read by the side that does not own the mailbox.
fn takes(s: Step) -> bool
    ensures { result ≡ takes (access_of s) }
{
    is_other_read(s) & is_mailbox(s.offset)
}

// The marks of the enabled bytes of a mailbox.
#[tactic(auto, using(laws::proofs::Marks::marks_lt), unfolding(machine::specs::Mailboxes::marks_at))]
fn marks_at(offset: u32, enables: u32) -> u32
    requires { is_mailbox offset ≡ true }
    ensures { result ≡ marks_at offset enables }
{
    (enables % ENABLES) << offset
}

// The marks that an access changes: an owner's write those of its enabled bytes that are empty, the other side's read those that are full.
#[tactic(auto, unfolding(machine::specs::Mailboxes::changes))]
pub fn changes(s: Step, marks: u32) -> u32
    ensures { result ≡ changes (access_of s) marks }
{
    if fills(s) {
        let at = marks_at(s.offset, s.enables);
        return at & (at ^ marks);
    }
    if takes(s) {
        return marks_at(s.offset, s.enables) & marks;
    }
    0
}

// An owner's write stores the enabled bytes in its mailbox's word. (After `get_mut` a proof would know the slice's length alone.)
#[tactic(auto, unfolding(machine::specs::Mailboxes::mail_after))]
pub fn store(mail: &mut [u32], s: Step)
    ensures { mail.new ≡ mail_after (access_of s) mail.old }
{
    let at = (s.offset / WORD_BYTES) as usize;
    if fills(s) && at < mail.len() {
        mail[at] = word::merged(mail[at], s.value, s.enables);
    }
}

// The word number offset / 4, rounded down, which at a mailbox's offset is that mailbox's; zero where there is none.
pub fn mail_word(mail: &[u32], offset: u32) -> u32
    ensures { result ≡ get_or mail.now (mailbox offset) 0 }
{
    mail.get((offset / WORD_BYTES) as usize)
        .copied()
        .unwrap_or(0)
}
