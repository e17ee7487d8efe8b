// A window, a lent run of words with a start address, is exported as a HEX text, a word's eight digits at a time.
#![tactic(auto)]

ghost use Rattle.std.specs.Prelude.{◌≡◌, cond, [], ◌∷◌, ◌++◌, ◌+◌, ◌-◌, ◌*◌, ◌/◌, ◌%◌, ◌≤◌, ◌<◌, length};
ghost use Rattle.output.specs.Wrote.{Wrote};
ghost use Rattle.records.specs.Window.{window_bytes};
ghost use Rattle.records.specs.Record.{total, hexes, text_of, texts};
ghost use Rattle.records.specs.Export.{upper_of, upper_record, data_record, end_record, changed, cut, export_of, export_length};
ghost use Rattle.hex_export.specs.Results.{length_of, exported_to};

use machine::Refusal;
use records::{SEGMENT, byte_sum};

// ---- bytes and digits

// Writes some bytes, and answers the place past them.
fn put(out: &mut [u8], at: usize, src: &[u8]) -> usize
    requires { at + length src.now ≤ length out.old }
    ensures { Wrote out.old at src.now result out.new }
{
    let end = at + src.len();
    out[at..end].copy_from_slice(src);
    end
}

// ---- records

// Writes the colon and the first four bytes of a record: its count, its offset and its type.
fn put_head(out: &mut [u8], at: usize, count: u8, offset: u16, kind: u8) -> usize
    requires { at + 9 ≤ length out.old }
    ensures { (result ≡ at + 9) × Wrote out.old at (58 ∷ hexes (count ∷ offset / 256 ∷ offset % 256 ∷ kind ∷ [])) result out.new }
{
    let [high, low] = offset.to_be_bytes();
    let p = put(out, at, b":");
    put(
        out,
        p,
        &eight::digits(u32::from_be_bytes([count, high, low, kind])),
    )
}

// Writes the last byte of a record, by the sum of the others, and the LF.
fn put_tail(out: &mut [u8], at: usize, sum: u8) -> usize
    requires { at + 3 ≤ length out.old }
    ensures { (result ≡ at + 3) × Wrote out.old at (hexes ((256 - sum) % 256 ∷ []) ++ (10 ∷ [])) result out.new }
{
    let digits = eight::digits(sum.wrapping_neg() as u32);
    put(out, at, &[digits[6], digits[7], b'\n'])
}

// Writes the digits of a word's bytes, the lowest first.
fn put_word(out: &mut [u8], at: usize, w: u32) -> usize
    requires { at + 8 ≤ length out.old }
    ensures { (result ≡ at + 8) × Wrote out.old at (hexes (window_bytes (w ∷ []))) result out.new }
{
    put(out, at, &eight::digits(w.swap_bytes()))
}

// The place past written words, and the sum of their bytes, modulo 256.
#[derive(Clone, Copy)]
struct Written {
    at: usize,
    sum: u8,
}

// The first and the third byte of a word.
const EVEN: u32 = 0x00FF_00FF;

// The sum of the bytes of four words, modulo 256: of every other byte under a mask, and of those between by what is left of the words'
// sum. (With `byte_sum` for each word an export takes 7 % more instructions.)
fn four_sum(a: u32, b: u32, c: u32, d: u32) -> u8
    ensures { result ≡ total (window_bytes (a ∷ b ∷ c ∷ d ∷ [])) % 256 }
{
    let all = u64::from(a) + u64::from(b) + u64::from(c) + u64::from(d);
    let even = u64::from((a & EVEN) + (b & EVEN) + (c & EVEN) + (d & EVEN));
    let sums = even + (all - even) / 256;
    ((sums + sums / 0x1_0000) % 256) as u8
}

// Writes words of the window. Of four, which most records have, each is read after the one before it is written: else the compiler makes
// the digits of two at once, in vectors, which an emulator is slow at.
fn put_words(out: &mut [u8], at: usize, words: &[u32]) -> Written
    requires { at + 8 * length words.now ≤ length out.old }
    ensures { (result.at ≡ at + 8 * length words.now) × (result.sum ≡ total (window_bytes words.now) % 256) × Wrote out.old at (hexes (window_bytes words.now)) result.at out.new }
{
    if let [a, b, c, d] = words {
        let w1 = *a;
        let p1 = put_word(out, at, w1);
        let w2 = *b;
        let p2 = put_word(out, p1, w2);
        let w3 = *c;
        let p3 = put_word(out, p2, w3);
        let w4 = *d;
        let p4 = put_word(out, p3, w4);
        return Written {
            at: p4,
            sum: four_sum(w1, w2, w3, w4),
        };
    }
    let mut p = at;
    let mut sum = 0u8;
    for w in words {
        p = put_word(out, p, *w);
        sum = sum.wrapping_add(byte_sum(*w));
    }
    Written { at: p, sum }
}

// Writes a data record of up to four words of the window, by the offset of their address.
fn put_data(out: &mut [u8], at: usize, offset: u16, words: &[u32]) -> usize
    requires { (at + (8 * length words.now + 12) ≤ length out.old) × (length words.now ≤ 4) }
    ensures { Wrote out.old at (text_of (data_record offset (window_bytes words.now))) result out.new }
{
    let count = 4 * words.len() as u8;
    let [high, low] = offset.to_be_bytes();
    let p = put_head(out, at, count, offset, 0);
    let content = put_words(out, p, words);
    let sum = count.wrapping_add(high).wrapping_add(low);
    put_tail(out, content.at, sum.wrapping_add(content.sum))
}

// Writes a record of the upper bits.
fn put_upper(out: &mut [u8], at: usize, upper: u16) -> usize
    requires { at + 16 ≤ length out.old }
    ensures { Wrote out.old at (text_of (upper_record upper)) result out.new }
{
    let [high, low] = upper.to_be_bytes();
    let p = put_head(out, at, 2, 0, 4);
    let q = put(out, p, &eight::digits(upper as u32)[4..]);
    put_tail(out, q, high.wrapping_add(low).wrapping_add(6))
}

// Writes a record of the upper bits, if they change.
fn put_changed(out: &mut [u8], at: usize, upper: u16, next: u16) -> usize
    requires { at + length (texts (changed upper next)) ≤ length out.old }
    ensures { Wrote out.old at (texts (changed upper next)) result out.new }
{
    if next == upper {
        return at;
    }
    put_upper(out, at, next)
}

// Writes the end record, which is always the same text.
fn put_end(out: &mut [u8], at: usize) -> usize
    requires { at + 12 ≤ length out.old }
    ensures { Wrote out.old at (text_of end_record) result out.new }
{
    put(out, at, b":00000001FF\n")
}

// ---- the text

// How many words the data record at an address has, with so many left.
fn words_cut(address: u32, left: usize) -> usize
    requires { (address % 4 ≡ 0) × (left ≤ 16384) }
    ensures { 4 * result ≡ cut address (4 * left) }
{
    let border = (SEGMENT - address % SEGMENT) / 4;
    left.min(4).min(border as usize)
}

// The length of the export of so many words.
fn text_length(words: usize, start: u32) -> usize
    requires { words ≤ 16384 }
    ensures { result ≡ export_length start words }
{
    let bytes = 4 * words;
    let first = bytes.min((SEGMENT - start % SEGMENT) as usize);
    let second = bytes - first;
    let upper = if second == 0 { 0 } else { 16 };
    28 + 2 * bytes + 12 * ((first + 15) / 16 + (second + 15) / 16) + upper
}

// Writes a window's export: records, which end at a 64 KiB border.
fn put_text(out: &mut [u8], memory: &[u32], start: u32) -> usize
    requires { (start % 4 ≡ 0) × (length memory.now ≤ 16384) × (length (export_of start memory.now) ≤ length out.old) }
    ensures { Wrote out.old 0 (export_of start memory.now) result out.new }
{
    let mut upper = (start / SEGMENT) as u16;
    let mut at = put_upper(out, 0, upper);
    let mut i = 0;
    while i < memory.len() {
        let address = start.wrapping_add(4 * i as u32);
        let next = (address / SEGMENT) as u16;
        let n = words_cut(address, memory.len() - i);
        let p = put_changed(out, at, upper, next);
        at = put_data(out, p, (address % SEGMENT) as u16, &memory[i..i + n]);
        upper = next;
        i += n;
    }
    put_end(out, at)
}

// The length of the export of so many words from a start on, if the window is in form.
pub fn export_length(words: usize, start: u32) -> Result<usize, Refusal>
    ensures { result ≡ length_of start words }
{
    if window::is_window_out_of_form(start, words) {
        return Err(Refusal::WindowOutOfForm);
    }
    Ok(text_length(words, start))
}

// Exports a window: the text stands at the output's start, and its length is answered. It refuses, and writes nothing, a window out of
// form, then an output that is shorter than the text.
pub fn export(memory: &[u32], start: u32, out: &mut [u8]) -> Result<usize, Refusal>
    ensures { record { answer = result; out = out.new } ≡ exported_to start memory.now out.old }
{
    if window::is_window_out_of_form(start, memory.len()) {
        return Err(Refusal::WindowOutOfForm);
    }
    let n = text_length(memory.len(), start);
    if out.len() < n {
        return Err(Refusal::OutputTooShort);
    }
    put_text(out, memory, start);
    Ok(n)
}
