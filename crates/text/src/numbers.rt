// Numbers as an input writes them.
ghost use Rattle.std.specs.Prelude.{◌≡◌, ◌+◌, ◌-◌, ◌*◌, ◌<◌, ◌^◌, IsTrue, SomeIff};
ghost use Rattle.std.specs.Char.{is_ascii_digit};
ghost use Rattle.text.specs.Numbers.{decimal_of, hex_value};

/// The number that a word writes in decimal digits. Any other word is refused, and so is a number of 2^32 or more.
#[tactic(auto, using(crate::proofs::Reading::empty_none))]
pub fn decimal(word: &[u8]) -> Option<u32>
    ensures { result ≡ decimal_of word.now }
{
    if word.is_empty() {
        return None;
    }
    word.iter().try_fold(0, |value, b| append_digit(value, *b))
}

// The number that the digits of `value` and then this one write: worked out in 64 bits, where no product wraps.
fn append_digit(value: u32, b: u8) -> Option<u32>
    ensures { SomeIff result (IsTrue (is_ascii_digit b) × (value * 10 + (b - 48) < 2 ^ 32)) (value * 10 + (b - 48)) }
{
    if !b.is_ascii_digit() {
        return None;
    }
    u32::try_from(u64::from(value) * 10 + u64::from(b - b'0')).ok()
}

/// What a hexadecimal digit, of either case, is worth.
#[tactic(auto, using(crate::proofs::Table::value_at))]
pub fn hex_digit(b: u8) -> Option<u8>
    ensures { result ≡ hex_value b }
{
    // As one row: with an index for each half of the byte a long message's digits take a tenth more instructions in `vectors`.
    HEX_VALUES.as_flattened()[b as usize]
}

// What each byte is worth as a hexadecimal digit, by its upper four bits and then its lower four: one read in place of many tests,
// which a match would be.
static HEX_VALUES: [[Option<u8>; 16]; 16] = [
    NONE, NONE, NONE, FIGURES, LETTERS, NONE, LETTERS, NONE, NONE, NONE, NONE, NONE, NONE, NONE,
    NONE, NONE,
];

const NONE: [Option<u8>; 16] = [None; 16];

const FIGURES: [Option<u8>; 16] = [
    Some(0),
    Some(1),
    Some(2),
    Some(3),
    Some(4),
    Some(5),
    Some(6),
    Some(7),
    Some(8),
    Some(9),
    None,
    None,
    None,
    None,
    None,
    None,
];

const LETTERS: [Option<u8>; 16] = [
    None,
    Some(10),
    Some(11),
    Some(12),
    Some(13),
    Some(14),
    Some(15),
    None,
    None,
    None,
    None,
    None,
    None,
    None,
    None,
    None,
];
