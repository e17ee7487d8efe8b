// The log line of an answer: its numbers in upper-case hexadecimal digits, a space, the label of the code in a language, LF.
#![tactic(auto)]

ghost use Rattle.std.specs.Prelude.{◌≡◌, ◌+◌, ◌≤◌, cond, ◌++◌, length};
ghost use Rattle.machine.specs.Codes.{unknown_label_set};
ghost use Rattle.hex_digits.specs.Hex.{bytes, digits};
ghost use Rattle.output.specs.Wrote.{Wrote};
ghost use Rattle.logline.specs.Labels.{english, german, english_set, is_set, label_in, label_of};
ghost use Rattle.logline.specs.LogLine.{numbers, refusing, line_in};

use machine::Answer;

// The most bytes that a log line has.
pub const LINE_ROOM: usize = 41;

// The number of the English label set.
pub const ENGLISH: u32 = 0;

// How many label sets there are.
const SETS: u32 = 2;

// Whether a number is that of a label set.
#[tactic(auto, unfolding(crate::specs::Labels::label_sets, crate::specs::Labels::is_set))]
pub fn is_set(set: u32) -> bool
    ensures { result ≡ is_set set }
{
    set < SETS
}

// Writes some bytes, and answers the place past them.
fn put(out: &mut [u8], at: usize, src: &[u8]) -> usize
    requires { at + length src.now ≤ length out.old }
    ensures { Wrote out.old at src.now result out.new }
{
    let end = at + src.len();
    out[at..end].copy_from_slice(src);
    end
}

// Each label is copied in the arm of its code, where its length is known: one copy behind a match that gives the label takes 7 to 9 % more
// instructions a frame.

// Writes the English label of a code, none of a number that is no code, and answers the place past it.
#[tactic(auto, unfolding(crate::specs::Labels::english, crate::specs::Labels::label_in))]
fn put_english(out: &mut [u8], at: usize, code: u32) -> usize
    requires { at + 18 ≤ length out.old }
    ensures { Wrote out.old at (label_in english code) result out.new }
{
    match code {
        0 => put(out, at, b"done"),
        1 => put(out, at, b"state out of form"),
        2 => put(out, at, b"window out of form"),
        3 => put(out, at, b"unknown step"),
        4 => put(out, at, b"unknown offset"),
        5 => put(out, at, b"bad enables"),
        6 => put(out, at, b"part FIFO access"),
        7 => put(out, at, b"read-only register"),
        8 => put(out, at, b"FIFO full or empty"),
        9 => put(out, at, b"transfer off"),
        10 => put(out, at, b"count is zero"),
        11 => put(out, at, b"abort stands"),
        12 => put(out, at, b"FIFO not ready"),
        13 => put(out, at, b"no memory there"),
        14 => put(out, at, b"not a frame line"),
        15 => put(out, at, b"unknown label set"),
        16 => put(out, at, b"not a HEX record"),
        17 => put(out, at, b"wrong sum"),
        18 => put(out, at, b"outside the window"),
        19 => put(out, at, b"no end or not last"),
        24 => put(out, at, b"output too short"),
        _ => at,
    }
}

// Writes the German label of a code, none of a number that is no code, and answers the place past it.
#[tactic(auto, unfolding(crate::specs::Labels::german, crate::specs::Labels::label_in))]
fn put_german(out: &mut [u8], at: usize, code: u32) -> usize
    requires { at + 18 ≤ length out.old }
    ensures { Wrote out.old at (label_in german code) result out.new }
{
    match code {
        0 => put(out, at, b"erledigt"),
        1 => put(out, at, b"Zustand ungueltig"),
        2 => put(out, at, b"Fenster ungueltig"),
        3 => put(out, at, b"Schritt unbekannt"),
        4 => put(out, at, b"Offset unbekannt"),
        5 => put(out, at, b"Freigabe ungueltig"),
        6 => put(out, at, b"FIFO-Teilzugriff"),
        7 => put(out, at, b"nur lesbar"),
        8 => put(out, at, b"FIFO voll/leer"),
        9 => put(out, at, b"Transfer aus"),
        10 => put(out, at, b"Zaehler ist null"),
        11 => put(out, at, b"Abbruch steht an"),
        12 => put(out, at, b"FIFO nicht bereit"),
        13 => put(out, at, b"kein Speicher dort"),
        14 => put(out, at, b"keine Rahmenzeile"),
        15 => put(out, at, b"Textsatz unbekannt"),
        16 => put(out, at, b"kein HEX-Satz"),
        17 => put(out, at, b"Summe falsch"),
        18 => put(out, at, b"nicht im Fenster"),
        19 => put(out, at, b"Ende fehlt/frueh"),
        24 => put(out, at, b"Ausgabe zu kurz"),
        _ => at,
    }
}

// Writes the label that a set has for a code, none of a number that is no set, and answers the place past it.
#[tactic(auto, using(crate::proofs::Labels::no_set), unfolding(crate::specs::Labels::label_sets, crate::specs::Labels::label_of))]
fn put_label(out: &mut [u8], at: usize, code: u32, set: u32) -> usize
    requires { at + 18 ≤ length out.old }
    ensures { Wrote out.old at (label_of set code) result out.new }
{
    match set {
        0 => put_english(out, at, code),
        1 => put_german(out, at, code),
        _ => at,
    }
}

// The two digits of a code.
#[tactic(auto, unfolding(hex_digits::specs::Hex::hex_digits, hex_digits::specs::Hex::digit_of, hex_digits::specs::Hex::digits))]
fn code_digits(code: u32) -> [u8; 2]
    ensures { result ≡ digits 2 code }
{
    if code == 0 {
        return *b"00";
    }
    [eight::digit(code / 16), eight::digit(code)]
}

// The digits of the enables and of both lines, and a space.
#[tactic(auto, using(crate::proofs::Digits::line_digit), unfolding(hex_digits::specs::Hex::digits))]
fn last_digits(a: Answer) -> [u8; 4]
    ensures { result ≡ digits 1 a.enables ++ digits 1 (cond a.line 1 0) ++ digits 1 (cond a.addon_line 1 0) ++ bytes " " }
{
    [
        eight::digit(a.enables),
        b'0' + u8::from(a.line),
        b'0' + u8::from(a.addon_line),
        b' ',
    ]
}

// The eight digits of a number that mostly is zero. (The branch also keeps the compiler from joining two numbers in vectors, whose
// constants would take more read-only room than a table of digits.)
#[tactic(auto, unfolding(hex_digits::specs::Hex::hex_digits, hex_digits::specs::Hex::digit_of, hex_digits::specs::Hex::digits))]
fn mostly_zeros(x: u32) -> [u8; 8]
    ensures { result ≡ digits 8 x }
{
    if x == 0 {
        return *b"00000000";
    }
    eight::digits(x)
}

// Writes the 21 digits of an answer and a space, and answers the place past them.
fn put_numbers(out: &mut [u8], at: usize, a: Answer) -> usize
    requires { at + 22 ≤ length out.old }
    ensures { (result ≡ at + 22) × Wrote out.old at (numbers a ++ bytes " ") result out.new }
{
    let code = code_digits(a.code);
    let address = mostly_zeros(a.address);
    let value = eight::digits(a.value);
    let last = last_digits(a);
    let p1 = put(out, at, &code);
    let p2 = put(out, p1, &address);
    let p3 = put(out, p2, &value);
    put(out, p3, &last)
}

// Writes the log line of an answer at a place, with the label of a set, and answers the place past it. Where there is no room
// for 41 bytes it writes nothing, and answers the place itself. A number that is no set has no labels.
pub fn put_line(out: &mut [u8], at: usize, a: Answer, set: u32) -> usize
    ensures { Wrote out.old at (line_in set out.old at a) result out.new }
{
    let n = out.len();
    if n < LINE_ROOM || n - LINE_ROOM < at {
        return at;
    }
    let p = put_numbers(out, at, a);
    let end = put_label(out, p, a.code, set);
    out[end] = b'\n';
    end + 1
}

// Writes the line that refuses an unknown label set, with its English label, at the output's start, and answers the place past
// it. Where there is no room for 41 bytes it writes nothing. (Its bytes stand here, since a second call of `put_line` beside the one in
// the loop over a piece would take that out of the loop, and make it slower.)
pub fn put_unknown_set(out: &mut [u8]) -> usize
    ensures { Wrote out.old 0 (line_in english_set out.old 0 (refusing unknown_label_set)) result out.new }
{
    if out.len() < LINE_ROOM {
        return 0;
    }
    put(out, 0, b"0F0000000000000000000 unknown label set\n")
}

// Writes the line of any refusal that answers no step and no line, with the label of a set, at the output's start, and answers the place
// past it. Where there is no room for 41 bytes it writes nothing.
pub fn put_refusal(out: &mut [u8], code: u32, set: u32) -> usize
    ensures { Wrote out.old 0 (line_in set out.old 0 (refusing code)) result out.new }
{
    let a = Answer {
        code,
        ..Answer::default()
    };
    put_line(out, 0, a, set)
}
