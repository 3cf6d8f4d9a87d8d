// Keys of 32 bytes and the numbers under which they were entered.
#![tactic(auto)]

ghost use Rattle.std.specs.Prelude.{◌≡◌, ℕ, ◌≤◌, List, vec_len, vec_capacity};
ghost use Rattle.index.specs.Find.{FindsLast};
ghost use Rattle.index.specs.Chains.{Headed, Linked};

mod table;

/// No more keys than this are held.
pub const MOST: usize = 4_096;

/// Keys of 32 bytes, numbered from 0 as they are entered, and found in a few steps.
/// All memory is taken when it is made, so no later call fails for want of it.
// A table of chains and no HashMap: a map's insert looks for the key first, so that keys that its hash brings together, whose seed is
// fixed, would make entering slow. Here entering takes the same few steps for all keys, and finding takes at most as many as there are
// keys with the same first two bytes.
#[derive(Drop)]
pub struct Index {
    keys: Vec<[u8; 32]>,
    // By the first two bytes of a key: one more than the number of the last key that begins so, 0 if none does.
    heads: Vec<u32>,
    // By number: one more than the number of the last key before it that begins with the same two bytes, 0 if none does.
    older: Vec<u32>,
    ghost few: { vec_len keys ≤ 4096 },
    ghost room: { 4096 ≤ vec_capacity keys },
    ghost level: { vec_len older ≡ vec_len keys },
    ghost older_room: { 4096 ≤ vec_capacity older },
    ghost wide: { vec_len heads ≡ 65536 },
    ghost headed: { Headed keys.items heads.items },
    ghost linked: { Linked keys.items older.items },
}

/// The number found is that of the last key that equals the one sought, and none is found only where no key equals it.
pub fn finds_the_last()
    ensures { FindsLast }
{}
