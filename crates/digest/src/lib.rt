// SHA-256 (FIPS 180-4) of a lent slice of bytes: no memory is asked for, and whole blocks are read where they lie.
#![tactic(auto)]

ghost use Rattle.std.specs.Prelude.{◌≡◌, ◌/◌, ◌<◌, ◌≤◌, length, drop, MatchOption};
ghost use Rattle.digest.specs.Laws.{KnownAnswers, Origin, Padding};
ghost use Rattle.digest.specs.Sha256.{hashed, initial, sha256_of};

mod block;
mod constants;
mod padding;
mod words;

use constants::INITIAL;

// Where the receipts of a page begin: behind its kind, height, parent's digest and the receipts' length.
const RECEIPTS_AT: usize = 39;

/// The digest of bytes.
pub fn sha256(bytes: &[u8]) -> [u8; 32]
    ensures { result ≡ sha256_of bytes.now }
{
    let rest = bytes.as_chunks::<64>().1;
    let bits = (bytes.len() as u64).wrapping_mul(8);
    INITIAL.whole_blocks(bytes).last_blocks(rest, bits).into()
}

/// The digest of a page's receipts, which are handed on where they lie; None for bytes too short to be a page.
pub fn receipts_digest(page: &[u8]) -> Option<[u8; 32]>
    ensures { MatchOption result (length page.now < 39) (λ d. (39 ≤ length page.now) × (d ≡ sha256_of (drop 39 page.now))) }
{
    let (_, receipts) = page.split_first_chunk::<RECEIPTS_AT>()?;
    Some(sha256(receipts))
}

/// The padding is what it is for: whole blocks that begin with the message.
pub fn padding_stands()
    ensures { Padding }
{}

/// The definition's constants are no one's choice: they are digits of roots of primes.
pub fn origin_stands()
    ensures { Origin }
{}

/// The definition gives what the standard's examples give.
pub fn known_answers_stand()
    ensures { KnownAnswers }
{}
