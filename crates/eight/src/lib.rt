// Eight digits at a time: as bytes of one number, by sums and masks on all of them at once.
#![tactic(auto)]

ghost use Rattle.std.specs.Prelude.{◌≡◌, List, [], ◌∷◌, ℕ, ◌/◌, ◌%◌, ◌≤◌, ◌<◌, length};
ghost use Rattle.hex_digits.specs.Hex.{all_digits, digit_of, digits};
ghost use Rattle.eight.specs.Packed.{packed, Each, numbers_in, joined_from, number_if_digits};
ghost use Rattle.eight.specs.Written.{lowest_in, texts_at};

// Eight bytes as one number, the first lowest.
#[tactic(auto, using(crate::proofs::Packed::eight_bytes))]
fn word_of(text: &[u8; 8]) -> u64
    ensures long { length text.now ≡ 8 }
    ensures bytes { Each 256 text.now }
    ensures value { result ≡ packed text.now }
{
    u64::from_le_bytes(*text)
}

// What each byte says if it is a digit: its low four bits, and 9 more for a letter.
fn numbers_in(v: u64) -> u64
    ensures { (result ≤ 0x1818_1818_1818_1818) × ((bs : List ℕ) → length bs ≡ 8 → Each 256 bs → v ≡ packed bs → result ≡ packed (numbers_in bs)) }
{
    (v & 0x0F0F_0F0F_0F0F_0F0F) + (v & 0x4040_4040_4040_4040) / 64 * 9
}

// Whether eight bytes are digits, with what they say if they are: they are the digits of that, and it is eight numbers below 16. Both
// are one test, so one branch.
fn are_digits(v: u64, d: u64) -> bool
    requires { d ≤ 0x1818_1818_1818_1818 }
    ensures { (bs : List ℕ) → length bs ≡ 8 → Each 256 bs → v ≡ packed bs → d ≡ packed (numbers_in bs) → result ≡ all_digits bs }
{
    let letters = ((d + 0x0606_0606_0606_0606) & 0x1010_1010_1010_1010) / 16;
    let text = d + 0x3030_3030_3030_3030 + letters * 7;
    ((text ^ v) | (d & 0xF0F0_F0F0_F0F0_F0F0)) == 0
}

// Eight numbers below 16 as one, the first highest: two are joined in each 16 bits, then four in each 32, then all.
fn joined(d: u64) -> u64
    requires { d ≤ 0x0F0F_0F0F_0F0F_0F0F }
    ensures { (ns : List ℕ) → length ns ≡ 8 → Each 16 ns → d ≡ packed ns → result ≡ joined_from 0 ns }
{
    let two = (d * 0x10 + d / 0x100) & 0x00FF_00FF_00FF_00FF;
    let four = (two * 0x100 + two / 0x1_0000) & 0x0000_FFFF_0000_FFFF;
    (four % 0x1_0000_0000) * 0x1_0000 + four / 0x1_0000_0000
}

// The number that eight digits stand for, if the bytes are digits.
pub fn number(text: [u8; 8]) -> Option<u32>
    ensures { result ≡ number_if_digits text }
{
    let v = word_of(&text);
    let d = numbers_in(v);
    if are_digits(v, d) {
        Some(joined(d) as u32)
    } else {
        None
    }
}

// The four bytes of a number, each in 16 bits, the highest lowest: halves change places, then the bytes of each.
fn bytes_apart(x: u32) -> u64
    ensures { result ≡ packed (x / 0x100_0000 ∷ 0 ∷ x / 0x1_0000 % 256 ∷ 0 ∷ x / 0x100 % 256 ∷ 0 ∷ x % 256 ∷ 0 ∷ []) }
{
    let w = u64::from(x);
    let u = (w >> 16) | ((w & 0xFFFF) << 32);
    ((u >> 8) | (u << 16)) & 0x00FF_00FF_00FF_00FF
}

// The numbers of the two digits of each of four bytes, the higher first.
fn numbers_apart(z: u64) -> u64
    requires { z < 0x100_0000_0000_0000 }
    ensures { (result ≤ 0x0F0F_0F0F_0F0F_0F0F) × ((a b c d : ℕ) → Each 256 (a ∷ b ∷ c ∷ d ∷ []) → z ≡ packed (a ∷ 0 ∷ b ∷ 0 ∷ c ∷ 0 ∷ d ∷ 0 ∷ []) → result ≡ lowest_in (a / 16 ∷ a ∷ b / 16 ∷ b ∷ c / 16 ∷ c ∷ d / 16 ∷ d ∷ [])) }
{
    ((z >> 4) | (z << 8)) & 0x0F0F_0F0F_0F0F_0F0F
}

// The digits of eight numbers below 16, each in a byte. With 6 more a number above 9 has bit 4; its digit is 7 further on, since 'A'
// does not follow '9'.
fn texts_at(n: u64) -> u64
    requires { n ≤ 0x0F0F_0F0F_0F0F_0F0F }
    ensures { result ≡ texts_at n }
{
    let letters = ((n + 0x0606_0606_0606_0606) >> 4) & 0x0101_0101_0101_0101;
    n + 0x3030_3030_3030_3030 + letters * 7
}

// The lowest eight digits of a number, the highest first.
pub fn digits(x: u32) -> [u8; 8]
    ensures { result ≡ digits 8 x }
{
    texts_at(numbers_apart(bytes_apart(x))).to_le_bytes()
}

// The digit of a number's lowest four bits.
pub fn digit(n: u32) -> u8
    ensures { result ≡ digit_of (n % 16) }
{
    let d = n % 16;
    (d + 0x30 + (d + 6) / 16 * 7) as u8
}
