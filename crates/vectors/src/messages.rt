// The message that a line describes.
ghost use Rattle.std.specs.Prelude.{◌≡◌, vec_items};
ghost use Rattle.text.specs.Numbers.{decimal_of};
ghost use Rattle.vectors.specs.Messages.{bytes_of, message_of, over_many};
ghost use Rattle.vectors.specs.Outcomes.{Gives};
ghost use Rattle.vectors.specs.declared.messages.NoMessage.TheVariants.{Memory};

use crate::hex::unhex;
use std::alloc::{AllocError, Global};

const MOST_TIMES: u32 = 1_000_000;

// A short line could else ask for more memory than there is.
const MOST_BYTES: usize = 16_777_216;

/// Why there is no message of a line.
#[derive(Clone, Copy, Debug, PartialEq, Eq)]
pub enum NoMessage {
    Refused,
    Memory,
}

impl From<AllocError> for NoMessage {
    ghost from_gives = { λ _ r. r ≡ Memory };

    fn from(_why: AllocError) -> NoMessage {
        NoMessage::Memory
    }
}

/// Answers a line with the digest of the message that it describes. The message is put on the heap.
#[derive(Drop)]
pub struct Digests {
    pub heap: Global,
}

impl Digests {
    /// The message of a line `COUNT` or `COUNT HEX`. Any other line is refused, and so is one that asks for too much.
    #[tactic(auto, unfolding(crate::specs::Messages::message_of))]
    pub fn message(&self, line: &[u8]) -> Result<Vec<u8>, NoMessage>
        ensures { Gives vec_items result (message_of line.now) }
    {
        let mut words = text::words(line);
        match (words.next(), words.next(), words.next()) {
            (Some(count), None, _) => self.over_many(count, b""),
            (Some(count), Some(digits), None) => self.over_many(count, digits),
            _ => Err(NoMessage::Refused),
        }
    }

    // The bytes that `digits` write, as many times over as the word `count` says.
    #[tactic(auto, unfolding(crate::specs::Messages::within))]
    fn over_many(&self, count: &[u8], digits: &[u8]) -> Result<Vec<u8>, NoMessage>
        ensures { Gives vec_items result (over_many (decimal_of count.now) (bytes_of digits.now)) }
    {
        let n = text::decimal(count).ok_or(NoMessage::Refused)?;
        if n > MOST_TIMES {
            return Err(NoMessage::Refused);
        }
        let part = unhex(self.heap, digits)?;
        if (n as usize).saturating_mul(part.len()) > MOST_BYTES {
            return Err(NoMessage::Refused);
        }
        Ok(part.repeat(self.heap, n as usize)?)
    }
}
