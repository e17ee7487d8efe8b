// A window as Intel HEX: definitions and statements are in specs/, their proofs in proofs/. The code that loads and exports shares what
// stands here.
#![tactic(auto)]

ghost use Rattle.std.specs.Prelude.{◌≡◌, ◌%◌, [], ◌∷◌};
ghost use Rattle.records.specs.Window.{window_bytes};
ghost use Rattle.records.specs.Record.{total};

// How many addresses have the same upper bits.
pub const SEGMENT: u32 = 0x1_0000;

// The sum of a word's four bytes, modulo 256.
pub fn byte_sum(w: u32) -> u8
    ensures { result ≡ total (window_bytes (w ∷ [])) % 256 }
{
    let [a, b, c, d] = w.to_be_bytes();
    a.wrapping_add(b).wrapping_add(c).wrapping_add(d)
}
