// A page's parts, decoded from and encoded to bytes.
ghost use Rattle.std.specs.Prelude.{◌≡◌, ℕ, ◌+◌, ◌<◌, ◌≤◌, true, false, List, ◌++◌, length, MatchOption};
ghost use Rattle.pages.specs.Bytes.{well_formed, DecodesEncoded, EncodesDecoded};
ghost use Rattle.pages.specs.Parts.{Apart, Put};

/// SHA-256 of a page's bytes.
pub type Digest = [u8; 32];

/// A page has no more bytes of receipts.
pub const MOST_RECEIPTS: usize = 1_024;

/// A page has no more bytes.
pub const LONGEST: usize = 1_063;

// The first byte of every page.
const KIND: u8 = 1;

// The receipts of a page begin here, behind its kind, its height, its parent's digest and their length.
const HEAD: usize = 39;

/// What a page's bytes say. The receipts stay where they lie.
#[derive(Clone, Copy, Debug, PartialEq, Eq)]
pub struct Parts<'a> {
    pub height: u32,
    pub parent: Digest,
    pub receipts: &'a [u8],
}

/// Takes a page's bytes apart; None where they are not well formed.
#[tactic(auto, using(crate::proofs::Codec::cut_short))]
pub fn decode(bytes: &[u8]) -> Option<Parts<'_>>
    ensures { MatchOption result (well_formed bytes.now ≡ false) (λ p. (well_formed bytes.now ≡ true) × Apart bytes.now p.height p.parent p.receipts.now) }
{
    let (kind, rest) = bytes.split_first()?;
    let (height, rest) = rest.split_first_chunk::<4>()?;
    let (parent, rest) = rest.split_first_chunk::<32>()?;
    let (count, receipts) = rest.split_first_chunk::<2>()?;
    let count = usize::from(u16::from_be_bytes(*count));
    if *kind != KIND || count > MOST_RECEIPTS || receipts.len() != count {
        return None;
    }
    Some(Parts {
        height: u32::from_be_bytes(*height),
        parent: *parent,
        receipts,
    })
}

/// Writes a page's bytes at the beginning of out, and says how many they are. None, and nothing is written, where there are more
/// receipts than a page holds.
// The room is lent, so nothing is taken from memory; a part of it handed back in place of its size would keep callers from knowing
// what the rest of the room holds.
pub fn encode(parts: Parts<'_>, out: &mut [u8; LONGEST]) -> Option<usize>
    ensures { MatchOption result ((1024 < length parts.entry.receipts.now) × (out.new ≡ out.old)) (λ n. Put parts.entry.height parts.entry.parent parts.entry.receipts.now out.old out.new n) }
{
    let count = parts.receipts.len();
    if count > MOST_RECEIPTS {
        return None;
    }
    let end = HEAD + count;
    // The places are those of docs/FORMATS.md.
    out[0] = KIND;
    out[1..5].copy_from_slice(&parts.height.to_be_bytes());
    out[5..37].copy_from_slice(&parts.parent);
    out[37..HEAD].copy_from_slice(&(count as u16).to_be_bytes());
    out[HEAD..end].copy_from_slice(parts.receipts);
    Some(end)
}

/// What is encoded decodes to itself, and what is decoded encodes to the same bytes.
pub fn codec_stands()
    ensures { DecodesEncoded × EncodesDecoded }
{}
