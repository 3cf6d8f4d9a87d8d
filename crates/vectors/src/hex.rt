// Bytes from and to hexadecimal digits.
ghost use Rattle.std.specs.Prelude.{◌≡◌, ◌++◌, vec_items, OnOk};
ghost use Rattle.vectors.specs.Messages.{bytes_of, written};
ghost use Rattle.vectors.specs.Outcomes.{Gives};

use crate::messages::NoMessage;
use std::alloc::{AllocError, Global};

/// The bytes that digits of either case write. An odd digit, or a byte that is no digit, refuses them all.
#[tactic(auto, using(crate::proofs::Spelling::odd, crate::proofs::Spelling::at_first))]
pub fn unhex(heap: Global, digits: &[u8]) -> Result<Vec<u8>, NoMessage>
    ensures { Gives vec_items result (bytes_of digits.now) }
{
    let (pairs, []) = digits.as_chunks::<2>() else {
        return Err(NoMessage::Refused);
    };
    let mut bytes = Vec::with_capacity(heap, pairs.len())?;
    for [high, low] in pairs {
        let byte = text::hex_byte(*high, *low).ok_or(NoMessage::Refused)?;
        bytes.push_reserved(byte);
    }
    Ok(bytes)
}

/// Writes the digits of bytes behind what `out` holds.
#[tactic(auto, unfolding(crate::specs::Messages::written))]
pub fn append_hex(out: &mut Vec<u8>, bytes: &[u8]) -> Result<(), AllocError>
    ensures { OnOk result (out.new.items ≡ out.old.items ++ written bytes.now) }
{
    for b in bytes {
        out.extend_from_slice(&text::hex_pair(*b))?;
    }
    Ok(())
}
