// A HEX text is loaded into a window, a lent run of words with a start address. It is looked at whole before a byte is stored. Bytes
// are read up to four at a time, by the eight digits that end with theirs.
#![tactic(auto)]

ghost use Rattle.std.specs.Prelude.{◌≡◌, true, false, Option, List, [], ◌∷◌, ◌+◌, ◌-◌, ◌*◌, ◌/◌, ◌%◌, ◌^◌, ◌≤◌, ◌<◌, length, take, drop};
ghost use Rattle.std.proofs.lemmas.List.Edits.{sets};
ghost use Rattle.hex_digits.specs.Hex.{all_digits, number};
ghost use Rattle.eight.specs.Packed.{number_if_digits};
ghost use Rattle.records.specs.Window.{window_bytes};
ghost use Rattle.records.specs.Record.{total};
ghost use Rattle.records.specs.Load.{bytes_in, count_in, address_in, rest_of, is_record, upper_after, all_inside, record_code, code_from, refused_from, refused_at, said_by, said, stored, load_of};
ghost use Rattle.machine.specs.Refusals.{code_number};
ghost use Rattle.hex_load.specs.Reads.{sum_of, KindOf, kind_number, Reads, HeadRead, HeadOf, RecordOf, TextOf};
ghost use Rattle.std.specs.Int.{bytes_high_first};

mod span;

use machine::Refusal;
use records::{SEGMENT, byte_sum};
use span::Span;

// The fewest bytes of a record: a colon, ten digits and LF.
const RECORD_LEAST: usize = 12;

// ---- digits

// The number that the eight digits at a place stand for.
fn word_at(text: &[u8], i: usize) -> Option<u32>
    requires { i + 8 ≤ length text.now }
    ensures { result ≡ number_if_digits (take 8 (drop i text.now)) }
{
    eight::number(<[u8; 8]>::try_from(&text[i..i + 8]).unwrap())
}

// The same of bytes that are digits.
fn digits_at(text: &[u8], i: usize) -> u32
    requires { (i + 8 ≤ length text.now) × (all_digits (take 8 (drop i text.now)) ≡ true) }
    ensures { result ≡ number (take 8 (drop i text.now)) }
{
    word_at(text, i).unwrap()
}

// The sum of the bytes that what stands behind the first eight digits stands for, modulo 256, if it is digits.
fn digits_sum(digits: &[u8]) -> Option<u8>
    requires { (8 ≤ length digits.now) × (length digits.now % 2 ≡ 0) × (all_digits (take 8 digits.now) ≡ true) }
    ensures { result ≡ sum_of (drop 8 digits.now) }
{
    let mut sum = 0u8;
    for word in digits[8..].as_chunks::<8>().0 {
        sum = sum.wrapping_add(byte_sum(eight::number(*word)?));
    }
    let left = digits.len() % 8;
    if 0 < left {
        let w = word_at(digits, digits.len() - 8)?;
        sum = sum.wrapping_add(byte_sum(w << (32 - 4 * left as u32)));
    }
    Some(sum)
}

// ---- the record at a text's start

// The types of records that are read.
#[derive(Clone, Copy, PartialEq, Eq)]
enum Kind {
    Data = 0,
    End = 1,
    Upper = 4,
}

// The type that a record says, where one of it has that count and that offset.
#[tactic(auto, unfolding(records::specs::Load::is_kind))]
fn kind_of(kind: u8, count: u8, offset: u16) -> Option<Kind>
    ensures { KindOf kind count offset result }
{
    match (kind, count, offset) {
        (0, _, _) => Some(Kind::Data),
        (1, 0, 0) => Some(Kind::End),
        (4, 2, 0) => Some(Kind::Upper),
        _ => None,
    }
}

// What a record's first four bytes say: how many bytes of content it has, the offset of their address, and its type.
#[derive(Clone, Copy)]
struct Head {
    count: u8,
    offset: u16,
    kind: Kind,
}

impl Head {
    // Reads the first four bytes of the record that a text begins with: their digits stand behind its colon.
    fn read(text: &[u8]) -> Option<Head>
        requires { 9 ≤ length text.now }
        ensures { HeadRead text.now result }
    {
        let [count, high, low, kind] = word_at(text, 1)?.to_be_bytes();
        let offset = u16::from_be_bytes([high, low]);
        let kind = kind_of(kind, count, offset)?;
        Some(Head {
            count,
            offset,
            kind,
        })
    }

    // How many bytes the record's text has: a colon, two digits for each byte, and LF.
    fn length(self) -> usize
        ensures { result ≡ 2 * self.count + 12 }
    {
        2 * self.count as usize + 12
    }

    // The sum of the four bytes, modulo 256.
    fn sum(self) -> u8
        ensures { result ≡ (self.count + self.offset / 256 + self.offset % 256 + kind_number self.kind) % 256 }
    {
        let [high, low] = self.offset.to_be_bytes();
        self.count
            .wrapping_add(high)
            .wrapping_add(low)
            .wrapping_add(self.kind as u8)
    }

    // The address of the first byte of content, under the upper bits that hold.
    fn address(self, upper: u16) -> u32
        ensures { result ≡ upper * 65536 + self.offset }
    {
        upper as u32 * SEGMENT + self.offset as u32
    }
}

// The head of the record that a text begins with, if it begins with one. All is looked at but the digits behind the first eight.
fn head_of(text: &[u8]) -> Option<Head>
    ensures { HeadOf text.now result }
{
    if text.len() < RECORD_LEAST {
        return None;
    }
    let head = Head::read(text)?;
    let last = head.length() - 1;
    if text.len() <= last {
        return None;
    }
    if (text[0] == b':') & (text[last] == b'\n') {
        Some(head)
    } else {
        None
    }
}

// ---- what refuses

// The head of the record that a text begins with, or the lowest refusal that applies to it.
fn record_of(text: &[u8], span: Span, upper: u16) -> Result<Head, Refusal>
    ensures { RecordOf span.start span.words upper text.now result }
{
    let head = head_of(text).ok_or(Refusal::NotAHexRecord)?;
    let rest = digits_sum(&text[1..head.length() - 1]).ok_or(Refusal::NotAHexRecord)?;
    if head.sum().wrapping_add(rest) != 0 {
        return Err(Refusal::WrongSum);
    }
    if (head.kind == Kind::Data) & !span.has_all(head.address(upper), head.count) {
        return Err(Refusal::OutsideTheWindow);
    }
    Ok(head)
}

// The upper bits after the record that a text begins with.
fn upper_after(text: &[u8], head: Head, upper: u16) -> u16
    requires { (is_record text.now ≡ true) × Reads text.now head }
    ensures { result ≡ upper_after upper text.now }
{
    match head.kind {
        Kind::Upper => (digits_at(text, 5) % 0x1_0000) as u16,
        Kind::Data | Kind::End => upper,
    }
}

// The text behind the record that a text begins with.
fn rest_of(text: &[u8], head: Head) -> &[u8]
    requires { (is_record text.now ≡ true) × Reads text.now head }
    ensures { result.now ≡ rest_of text.now }
{
    &text[head.length()..]
}

// What refuses a text, and the place in the text that it is told of.
#[derive(Clone, Copy)]
struct Refused {
    refusal: Refusal,
    at: usize,
}

// What refuses it alone.
impl From<Refused> for Refusal {
    ghost from_gives = { λ r x. x ≡ r.refusal };

    fn from(refused: Refused) -> Refusal {
        refused.refusal
    }
}

// The first refusal that applies to a text.
fn check_text(text: &[u8], span: Span) -> Result<(), Refused>
    ensures { TextOf span.start span.words text.now result }
{
    let mut rest = text;
    let mut upper = 0;
    while !rest.is_empty() {
        let at = text.len() - rest.len();
        let head = record_of(rest, span, upper).map_err(|refusal| Refused { refusal, at })?;
        let behind = rest_of(rest, head);
        if head.kind == Kind::End {
            return if behind.is_empty() {
                Ok(())
            } else {
                Err(Refused {
                    refusal: Refusal::NoEndOrNotLast,
                    at: text.len() - behind.len(),
                })
            };
        }
        upper = upper_after(rest, head, upper);
        rest = behind;
    }
    Err(Refused {
        refusal: Refusal::NoEndOrNotLast,
        at: text.len(),
    })
}

// ---- the stores

// A word with the lowest m bytes of a number, from byte k on.
fn with_bytes(old: u32, k: usize, m: usize, w: u32) -> u32
    requires { (k + m ≤ 4) × (0 < m) }
    ensures { window_bytes (result ∷ []) ≡ sets (window_bytes (old ∷ [])) k (bytes_high_first m w) }
{
    if m == 4 {
        return w.swap_bytes();
    }
    let unit = 1u32 << (8 * k as u32);
    let units = 1u32 << (8 * m as u32);
    old - old / unit % units * unit + (w.swap_bytes() >> (8 * (4 - m as u32))) * unit
}

// Stores the bytes that the digits behind the first eight stand for, from byte p of the window on, up to a word's end at a time.
fn store_digits(memory: &mut [u32], p: usize, digits: &[u8])
    requires { (2 * p + length digits.now ≤ 8 * length memory.old + 8) × (length memory.old ≤ 16384) × (8 ≤ length digits.now) × (length digits.now % 2 ≡ 0) × (all_digits digits.now ≡ true) }
    ensures { window_bytes memory.new ≡ sets (window_bytes memory.old) p (bytes_in (drop 8 digits.now)) }
{
    let mut to = p;
    let mut from = 8;
    while from < digits.len() {
        let k = to % 4;
        let m = (4 - k).min((digits.len() - from) / 2);
        from += 2 * m;
        let w = digits_at(digits, from - 8);
        memory[to / 4] = with_bytes(memory[to / 4], k, m, w);
        to += m;
    }
}

// Stores what the record that a text begins with says.
fn store_record(memory: &mut [u32], span: Span, text: &[u8], head: Head, upper: u16)
    requires { (record_code span.start span.words upper text.now ≡ 0) × Reads text.now head × (length memory.old ≡ span.words) }
    ensures { window_bytes memory.new ≡ stored span.start (window_bytes memory.old) (said_by upper text.now) }
{
    if (head.kind == Kind::Data) & (0 < head.count) {
        let p = span.place(head.address(upper)) as usize;
        store_digits(memory, p, &text[1..head.length() - 3]);
    }
}

// Stores what a text says that nothing refuses.
fn store_text(memory: &mut [u32], span: Span, text: &[u8])
    requires { (code_from (length text.now) span.start span.words 0 text.now ≡ 0) × (length memory.old ≡ span.words) }
    ensures { window_bytes memory.new ≡ stored span.start (window_bytes memory.old) (said text.now) }
{
    let mut rest = text;
    let mut upper = 0;
    while !rest.is_empty() {
        let head = Head::read(rest).unwrap();
        store_record(memory, span, rest, head, upper);
        upper = upper_after(rest, head, upper);
        rest = rest_of(rest, head);
    }
}

// Loads a text into a window, or refuses it, which changes nothing. The whole text is looked at before a byte is stored.
pub fn load(memory: &mut [u32], start: u32, text: &[u8]) -> Result<(), Refusal>
    ensures { record { code = code_number result; words = memory.new } ≡ load_of start memory.old text.now }
{
    let span = Span::new(start, memory.len())?;
    check_text(text, span)?;
    store_text(memory, span, text);
    Ok(())
}

// Where in a text its load into a window of so many words is refused: the place of the record that has the code, of what stands behind
// the end record, or the text's end. 0 for a window out of form; of a text that is not refused, its length.
pub fn refused_at(words: usize, start: u32, text: &[u8]) -> usize
    ensures { (result ≡ refused_at start words text.now) × (result ≤ length text.now) }
{
    let Ok(span) = Span::new(start, words) else {
        return 0;
    };
    match check_text(text, span) {
        Ok(()) => text.len(),
        Err(r) => r.at,
    }
}
