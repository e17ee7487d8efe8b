// Hexadecimal digits, upper case.
#![tactic(auto)]

ghost use Rattle.std.specs.Prelude.{◌≡◌};
ghost use Rattle.hex_digits.specs.Hex.{digit_in};

// The number of a digit, if the byte is one.
#[tactic(auto, using(crate::proofs::Runs::digit_runs))]
pub fn digit_number(b: u8) -> Option<u8>
    ensures { result ≡ digit_in b }
{
    match b {
        b'0'..=b'9' => Some(b - b'0'),
        b'A'..=b'F' => Some(b - b'A' + 10),
        _ => None,
    }
}
