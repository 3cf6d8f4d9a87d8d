// Lines, words and numbers of an input, as views of the bytes that hold them: nothing is copied.
#![tactic(auto)]

ghost use Rattle.std.specs.Prelude.{◌≡◌, [], ◌<◌, ◌^◌, length, MatchOption};
ghost use Rattle.text.specs.Lines.{chomp, lines, FirstLine};
ghost use Rattle.text.specs.Pieces.{Cut};
ghost use Rattle.text.specs.Words.{words, Blank, Word, FirstWord};

mod hex;
mod iter;
mod numbers;

pub use hex::{hex_byte, hex_pair, hex_round_trip_stands};
pub use iter::{Lines, Words};
pub use numbers::{decimal, hex_digit};

// What stands before the first `end`, and what follows it. Both are cut at one place, found or not: with an arm for each, the search
// would keep a pointer beside its count, and long lines would take longer.
fn cut(s: &[u8], end: u8) -> (&[u8], &[u8])
    ensures { Cut end s.now result.0.now result.1.now }
{
    let n = s.iter().position(|&b| b == end).unwrap_or(s.len());
    let (front, rest) = s.split_at(n);
    (front, rest.get(1..).unwrap_or(rest))
}

// Input from other systems ends its lines by a carriage return and a newline.
fn without_return(line: &[u8]) -> &[u8]
    ensures { result.now ≡ chomp line.now }
{
    line.strip_suffix(b"\r").unwrap_or(line)
}

/// The first line, and what follows its newline. A newline at the very end begins no further line.
#[tactic(auto, using(crate::proofs::Cuts::line_from_cut))]
pub fn first_line(s: &[u8]) -> Option<(&[u8], &[u8])>
    ensures { MatchOption result (s.now ≡ []) (λ p. FirstLine s.now p.0.now p.1.now) }
{
    if s.is_empty() {
        return None;
    }
    let (front, rest) = cut(s, b'\n');
    Some((without_return(front), rest))
}

// What stands before the first space, and the rest from that space on. Not by `cut`: the rest keeps its space here, and the search
// is all that the two share.
fn split_word(s: &[u8]) -> (&[u8], &[u8])
    ensures { Word s.now result.0.now result.1.now }
{
    match s.iter().position(|&b| b == b' ') {
        Some(n) => s.split_at(n),
        None => (s, &[]),
    }
}

/// The first word, and what follows it. Only spaces part words.
#[tactic(auto, using(crate::proofs::Wording::words_blank))]
pub fn first_word(s: &[u8]) -> Option<(&[u8], &[u8])>
    ensures { MatchOption result ((words s.now ≡ []) × Blank s.now) (λ p. FirstWord s.now p.0.now p.1.now) }
{
    let start = s.iter().position(|&b| b != b' ')?;
    Some(split_word(&s[start..]))
}

/// The lines, first to last. A newline at the very end begins no further line.
#[tactic(auto, using(crate::proofs::Counts::length_lines))]
pub fn lines(s: &[u8]) -> Lines<'_>
    ensures all { result ≡ lines s.now }
    ensures countable { length result < 2 ^ 64 }
{
    Lines { rest: s }
}

/// The words, first to last. Only spaces part words.
#[tactic(auto, using(crate::proofs::Counts::length_words))]
pub fn words(s: &[u8]) -> Words<'_>
    ensures all { result ≡ words s.now }
    ensures countable { length result < 2 ^ 64 }
{
    Words { rest: s }
}

#[cfg(test)]
mod tests {
    use super::*;
    use std::test::Fail;

    #[test]
    fn a_line_ends_before_its_newline(rt: HostRuntime) -> Result<(), Fail> {
        let (line, rest) = first_line(b"a\r\n\nb").ok_or("no line")?;
        assert!(rt; line == b"a".as_slice());
        assert!(rt; rest == b"\nb".as_slice());
        let (blank, last) = first_line(rest).ok_or("no second line")?;
        assert!(rt; blank.is_empty());
        assert!(rt; last == b"b".as_slice());
        Ok(())
    }

    #[test]
    fn only_spaces_part_words(rt: HostRuntime) -> Result<(), Fail> {
        let (word, rest) = first_word(b"  a\tb c").ok_or("no word")?;
        assert!(rt; word == b"a\tb".as_slice());
        assert!(rt; rest == b" c".as_slice());
        assert!(rt; first_word(b"  ").is_none());
        Ok(())
    }

    #[test]
    fn lines_come_first_to_last(rt: HostRuntime) {
        let mut left = lines(b"a\r\n\nb\n");
        assert_eq!(rt; left.next(), Some(b"a".as_slice()));
        assert_eq!(rt; left.next(), Some(b"".as_slice()));
        assert_eq!(rt; left.next(), Some(b"b".as_slice()));
        assert!(rt; left.next().is_none());
        assert_eq!(rt; lines(b"a\n\nb").count(), 3);
    }

    #[test]
    fn only_spaces_part_the_words_of_a_line(rt: HostRuntime) {
        for (i, word) in words(b"  a bb  c\tc ").enumerate() {
            assert!(rt; word.len() == i + 1);
        }
        assert_eq!(rt; words(b"  a bb  c\tc ").count(), 3);
    }

    #[test]
    fn numbers_are_below_two_to_the_32(rt: HostRuntime) {
        assert_eq!(rt; decimal(b"004294967295"), Some(4_294_967_295));
        assert_eq!(rt; decimal(b"4294967296"), None);
        assert_eq!(rt; decimal(b"+1"), None);
    }

    #[test]
    fn hexadecimal_digits_have_either_case(rt: HostRuntime) {
        assert_eq!(rt; hex_digit(b'F'), Some(15));
        assert_eq!(rt; hex_digit(b'g'), None);
    }
}
