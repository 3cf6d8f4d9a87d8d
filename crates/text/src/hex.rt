// Bytes as two hexadecimal digits each.
ghost use Rattle.std.specs.Prelude.{◌≡◌, ◌/◌, ◌%◌, [], ◌∷◌};
ghost use Rattle.text.specs.Hex.{hex_byte, hex_digit_of, RoundTrip};

use crate::numbers::hex_digit;

// Each number below 16 has its digit here, where `char::from_digit` would hand out an option.
const DIGITS: [u8; 16] = *b"0123456789abcdef";

/// The byte that two hexadecimal digits, of either case, write.
pub fn hex_byte(high: u8, low: u8) -> Option<u8>
    ensures { result ≡ hex_byte high low }
{
    Some(16 * hex_digit(high)? + hex_digit(low)?)
}

/// The two hexadecimal digits that write a byte, in lower case.
#[tactic(auto, using(crate::proofs::Table::digit_at))]
pub fn hex_pair(b: u8) -> [u8; 2]
    ensures { result ≡ hex_digit_of (b / 16) ∷ hex_digit_of (b % 16) ∷ [] }
{
    [DIGITS[(b / 16) as usize], DIGITS[(b % 16) as usize]]
}

/// What is written is read as the same byte.
pub fn hex_round_trip_stands()
    ensures { RoundTrip }
{}
