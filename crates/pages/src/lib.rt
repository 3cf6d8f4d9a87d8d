// Pages: the bytes of one, its parts, its digest, and why one is turned away.
#![tactic(auto)]

mod parts;
mod refusals;

pub use parts::{Digest, LONGEST, MOST_RECEIPTS, Parts, codec_stands, decode, encode};
pub use refusals::Refusal;
