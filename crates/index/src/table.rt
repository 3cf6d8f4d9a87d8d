// The table: chains of the keys that begin with the same two bytes, from the last one back to the first.
ghost use Rattle.std.specs.Prelude.{◌≡◌, ◌<◌, ◌≤◌, [], ◌∷◌, ◌++◌, length, is_some, IfOk, if◌then◌else◌, Some, None, nat_lt};
ghost use Rattle.index.specs.Find.{find};
ghost use Rattle.index.specs.Chains.{bucket};
ghost use Rattle.index.specs.Held.{keys_of};

use super::{Index, MOST};
use std::alloc::{AllocError, Global};

// There are so many pairs of bytes.
const PAIRS: usize = 65_536;

impl Index {
    /// An index with no keys.
    pub fn new(heap: Global) -> Result<Index, AllocError>
        ensures { IfOk result (λ x. keys_of x ≡ []) }
    {
        let keys = Vec::with_capacity(heap, MOST)?;
        let older = Vec::with_capacity(heap, MOST)?;
        let heads = vec![in heap; 0u32; PAIRS]?;
        Ok(Index { keys, heads, older })
    }

    /// How many keys there are.
    pub fn len(&self) -> u32
        ensures value { result ≡ length (keys_of self.now) }
        ensures bound { result ≤ 4096 }
    {
        self.keys.len() as u32
    }

    /// The number of the last key that equals `key`.
    pub fn find(&self, key: &[u8; 32]) -> Option<u32>
        ensures { result ≡ find (keys_of self.now) key.now }
    {
        let mut next = self.heads[pair(key)];
        while next > 0 {
            let n = next - 1;
            if self.keys[n as usize] == *key {
                return Some(n);
            }
            next = self.older[n as usize];
        }
        None
    }

    /// Enters a key under the next number, which it returns, or leaves all as it is where 4,096 keys are there.
    pub fn push(&mut self, key: [u8; 32]) -> Option<u32>
        ensures value { result ≡ (if nat_lt (length (keys_of self.old)) 4096 then Some (length (keys_of self.old)) else None) }
        ensures keys { keys_of self.new ≡ (if is_some result then keys_of self.old ++ key ∷ [] else keys_of self.old) }
    {
        if self.keys.len() == MOST {
            return None;
        }
        let n = self.keys.len() as u32;
        let at = pair(&key);
        self.older.push_reserved(self.heads[at]);
        self.heads[at] = n + 1;
        self.keys.push_reserved(key);
        Some(n)
    }
}

// The first two bytes of a key as one number.
fn pair(key: &[u8; 32]) -> usize
    ensures value { result ≡ bucket key.now }
    ensures bound { result < 65536 }
{
    key[0] as usize * 256 + key[1] as usize
}
