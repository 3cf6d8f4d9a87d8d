// The end of a message, which is padded to whole blocks.
ghost use Rattle.std.specs.Prelude.{◌≡◌, ◌+◌, ◌/◌, ◌<◌, length};
ghost use Rattle.digest.specs.Sha256.{ended, hashed, zeros};

use crate::block::State;

// What is left of a message after its whole blocks, with the padding behind it.
fn padded_end<const N: usize>(rest: &[u8], bits: u64) -> [u8; N]
    requires { length rest.now + 9 + zeros (length rest.now) ≡ N }
    ensures { result ≡ ended rest.now bits }
{
    let mut end = [0; N];
    // Parts of an array are lent only where its length is a number; those of a slice always.
    let bytes = &mut end[..];
    bytes[..rest.len()].copy_from_slice(rest);
    bytes[rest.len()] = 0x80;
    bytes[N - 8..].copy_from_slice(&bits.to_be_bytes());
    end
}

impl State {
    // The hash value after the one or two blocks at a message's end: rest is what its whole blocks leave, bits the length of all of it.
    pub(crate) fn last_blocks(self, rest: &[u8], bits: u64) -> State
        requires { length rest.now < 64 }
        ensures { result ≡ hashed self (ended rest.now bits) (length (ended rest.now bits) / 64) }
    {
        if rest.len() < 56 {
            self.whole_blocks(&padded_end::<64>(rest, bits))
        } else {
            self.whole_blocks(&padded_end::<128>(rest, bits))
        }
    }
}
