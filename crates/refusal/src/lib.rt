// What refuses a step, in parts: by the form, of a read or a write, of a cycle. Nothing is changed here.
#![tactic(auto)]

ghost use Rattle.std.specs.Prelude.{◌≡◌, not, ◌&&◌, ◌||◌, List, ℕ, ◌%◌, eqb, ltb};
ghost use Rattle.machine.specs.Sides as sides;
ghost use Rattle.machine.specs.Sides.{party_of};
ghost use Rattle.machine.specs.State.{lane, held};
ghost use Rattle.machine.specs.Access.{access_of, kind_of, is_on, is_write_on, reads, writes};
ghost use Rattle.machine.specs.Offsets.{in_table, is_read_only, fifo_port};
ghost use Rattle.machine.specs.Fifos.{is_empty, is_full};
ghost use Rattle.machine.specs.Rights.{ended};
ghost use Rattle.machine.specs.Cycles.{is_ready};
ghost use Rattle.machine.specs.Code.{is_out_of_form, is_unknown_offset, is_read_only_write, is_full_or_empty};
ghost use Rattle.machine.specs.Refusals.{code_number};
ghost use Rattle.bank.specs.Bank.{state_in};
ghost use Rattle.refusal.specs.Codes.{access_code, cycle_code, form_code};

use bank::{Bank, Places};
use machine::{ALL_ENABLES, Addon, Pci, Refusal, Side, Step, WORD_BYTES, offsets};

// ---- of the form

// Code 1, of both lanes but for their rights: a fill, an address, a count. Each pair stands together: the compiler makes one test of it.
fn are_lanes_out_of_form(b: Bank) -> bool
    ensures { result ≡ (ltb 8 b.from_pci.fill.0 || ltb 8 b.from_addon.fill.0 || ((not (eqb (b.from_pci.address % 4) 0) || not (eqb (b.from_addon.address % 4) 0)) || (ltb 0x03FF_FFFF b.from_pci.count.0 || ltb 0x03FF_FFFF b.from_addon.count.0))) }
{
    let fills = fifo::is_out_of_form(b.from_pci.fill) | fifo::is_out_of_form(b.from_addon.fill);
    let addresses = (b.from_pci.address % WORD_BYTES != 0)
        | (b.from_addon.address % WORD_BYTES != 0);
    let counts = count::is_out_of_form(b.from_pci.count)
        | count::is_out_of_form(b.from_addon.count);
    fills | (addresses | counts)
}

// Whether a right stands together with an end of it. Mostly none stands, and no end is looked at.
fn is_right_wrong(b: Bank) -> bool
    ensures { (mail pci addon : List ℕ) → result ≡ (b.from_pci.right && ended sides.pci (lane sides.pci (state_in b mail pci addon)) b.mcsr b.intcsr || b.from_addon.right && ended sides.addon (lane sides.addon (state_in b mail pci addon)) b.mcsr b.intcsr) }
{
    if !(b.from_pci.right | b.from_addon.right) {
        return false;
    }
    b.from_pci.right & rights::is_ended::<Pci>(b)
        | b.from_addon.right & rights::is_ended::<Addon>(b)
}

// Code 1, of all: the lanes, a bit in INTCSR, MCSR or AINT that it does not hold; and only then a right.
fn is_out_of_form(b: Bank) -> bool
    ensures { (mail pci addon : List ℕ) → result ≡ is_out_of_form (state_in b mail pci addon) }
{
    let registers = !word::is_only(Pci::KEPT | Pci::FLAGS, b.intcsr)
        | !word::is_only(mcsr::KEPT, b.mcsr)
        | !word::is_only(Addon::KEPT | Addon::FLAGS, b.aint);
    if are_lanes_out_of_form(b) | registers {
        return true;
    }
    is_right_wrong(b)
}

// Codes 1 and 2: no step changes which.
#[tactic(auto, unfolding(crate::specs::Codes::form_code))]
pub fn form(b: Bank, start: u32, words: usize) -> Result<(), Refusal>
    ensures { (mail pci addon : List ℕ) → code_number result ≡ form_code (state_in b mail pci addon) start words }
{
    if is_out_of_form(b) {
        return Err(Refusal::StateOutOfForm);
    }
    if window::is_window_out_of_form(start, words) {
        return Err(Refusal::WindowOutOfForm);
    }
    Ok(())
}

// ---- of a read or a write

// Whether a kind is a read or a write by a side's party.
fn is_on<S: Side>(kind: u32) -> bool
    ensures { result ≡ is_on S.side (kind_of kind) }
{
    (kind == S::READ) | (kind == S::WRITE)
}

// Whether a side has a register at an offset: PCI at every fourth one, the Add-On without those of addresses and counts.
fn is_in_table<S: Side>(offset: u32) -> bool
    ensures { result ≡ in_table S.side offset }
{
    if S::HAS_TRANSFERS {
        return (offset < offsets::END) & (offset % WORD_BYTES == 0);
    }
    mailboxes::is_mailbox(offset)
        | (offset == offsets::FIFO_PORT)
        | (offset == offsets::STATUS)
        | (offset == offsets::INTERRUPTS)
        | (offset == offsets::CONTROL)
}

// Code 4, unknown offset.
#[tactic(auto, unfolding(machine::specs::Code::is_unknown_offset))]
fn is_unknown_offset(s: Step) -> bool
    ensures { result ≡ is_unknown_offset (access_of s) }
{
    is_on::<Pci>(s.kind) & !is_in_table::<Pci>(s.offset)
        | is_on::<Addon>(s.kind) & !is_in_table::<Addon>(s.offset)
}

// Whether a side may read a register but not write it: the mailboxes of the other side's party, and the status.
fn is_read_only<S: Side>(offset: u32) -> bool
    ensures { result ≡ is_read_only S.side offset }
{
    let owns = (offset < offsets::INCOMING) == S::OWNS_OUTGOING;
    mailboxes::is_mailbox(offset) & !owns | (offset == offsets::STATUS)
}

// Whether the step is a write on a side to what is read-only there.
fn writes_read_only<S: Side>(s: Step) -> bool
    ensures { result ≡ (is_write_on S.side (kind_of s.kind) && is_read_only S.side s.offset) }
{
    (s.kind == S::WRITE) & is_read_only::<S>(s.offset)
}

// Code 7, read-only register.
#[tactic(auto, unfolding(machine::specs::Code::is_read_only_write))]
fn is_read_only_write(s: Step) -> bool
    ensures { result ≡ is_read_only_write (access_of s) }
{
    writes_read_only::<Pci>(s) | writes_read_only::<Addon>(s)
}

// Whether a port write finds the FIFO that a side feeds full, or a port read by the side that takes of it finds it empty.
fn is_port_stuck<S: Places, Taker: Side>(b: Bank, s: Step) -> bool
    ensures { (mail pci addon : List ℕ) → result ≡ (writes (party_of S.side) fifo_port (access_of s) && is_full (held S.side (state_in b mail pci addon)) || reads (party_of Taker.side) fifo_port (access_of s) && is_empty (held S.side (state_in b mail pci addon))) }
{
    let port = s.offset == offsets::FIFO_PORT;
    let fill = S::lane(b).fill;
    (s.kind == S::WRITE) & port & fifo::is_full(fill)
        | (s.kind == Taker::READ) & port & fifo::is_empty(fill)
}

// Code 8, FIFO full or empty.
#[tactic(auto, unfolding(machine::specs::Code::is_full_or_empty))]
fn is_full_or_empty(b: Bank, s: Step) -> bool
    ensures { (mail pci addon : List ℕ) → result ≡ is_full_or_empty (state_in b mail pci addon) (access_of s) }
{
    is_port_stuck::<Pci, Addon>(b, s) | is_port_stuck::<Addon, Pci>(b, s)
}

// Codes 4 to 8, of a read or a write: 6 and 8 are of the FIFO port alone, 7 is of others. Nothing here refuses any other kind.
#[tactic(auto, using(crate::proofs::Tables::other_kind, crate::proofs::Tables::at_port_lem, crate::proofs::Tables::elsewhere), unfolding(machine::specs::Code::has_bad_enables, machine::specs::Code::is_part_fifo_access))]
pub fn access(b: Bank, s: Step) -> Result<(), Refusal>
    ensures goes_on { code_number result ≡ 13 → ⊥ }
    ensures code { (mail pci addon : List ℕ) → code_number result ≡ access_code (state_in b mail pci addon) (access_of s) }
{
    if !(is_on::<Pci>(s.kind) | is_on::<Addon>(s.kind)) {
        return Ok(());
    }
    if is_unknown_offset(s) {
        return Err(Refusal::UnknownOffset);
    }
    if ALL_ENABLES < s.enables {
        return Err(Refusal::BadEnables);
    }
    if s.offset != offsets::FIFO_PORT {
        if is_read_only_write(s) {
            return Err(Refusal::ReadOnlyRegister);
        }
        return Ok(());
    }
    if s.enables != ALL_ENABLES {
        return Err(Refusal::PartFifoAccess);
    }
    if is_full_or_empty(b, s) {
        return Err(Refusal::FifoFullOrEmpty);
    }
    Ok(())
}

// ---- of a cycle

// Whether the cycle on a side's lane has what it waits for: one word or room for one, or four where MCSR asks for four and it has no right.
#[tactic(auto, using(rights::proofs::Ends::as_filled, rights::proofs::Ends::as_righted), unfolding(machine::specs::Cycles::is_ready, bank::specs::Bank::state_in))]
fn is_ready<S: Places>(b: Bank) -> bool
    ensures { (mail pci addon : List ℕ) → result ≡ is_ready S.side (state_in b mail pci addon) }
{
    let lane = S::lane(b);
    let four = word::bit(b.mcsr, S::FOUR) & !lane.right;
    fifo::has_amount::<S>(lane.fill, four)
}

// Codes 9 to 13, of the cycle on a side's lane.
#[tactic(auto, using(crate::proofs::Cycles::cycle_code_is))]
pub fn cycle<S: Places>(b: Bank, start: u32, words: usize) -> Result<(), Refusal>
    ensures { (mail pci addon : List ℕ) → code_number result ≡ cycle_code S.side (state_in b mail pci addon) start words }
{
    let lane = S::lane(b);
    if !word::bit(b.mcsr, S::ENABLE) {
        return Err(Refusal::TransferOff);
    }
    if count::is_zero(lane.count) {
        return Err(Refusal::CountIsZero);
    }
    if interrupts::is_abort_in(b.intcsr) {
        return Err(Refusal::AbortStands);
    }
    if !is_ready::<S>(b) {
        return Err(Refusal::FifoNotReady);
    }
    if !window::is_inside(start, words, lane.address) {
        return Err(Refusal::NoMemoryThere);
    }
    Ok(())
}
