// The voters and their weights.
#![tactic(auto)]

ghost use Rattle.std.specs.Prelude.{◌≡◌, ℕ, ◌≤◌, sum, slice_index};

mod reading;

/// There are no more voters than this.
pub const MOST: usize = 64;

/// From 1 to 64 voters, numbered from 0, each with a weight of at most 1,000,000. Not all weights are 0.
// Their weights stand in a row of fixed length, so that voters take no memory of their own.
#[derive(Clone, Copy, Debug, PartialEq, Eq)]
pub struct Voters {
    count: u32,
    weights: [u32; MOST],
    ghost some: { 1 ≤ count },
    ghost few: { count ≤ 64 },
    ghost light: { (k : ℕ) → slice_index weights k ≤ 1000000 },
    ghost past: { (k : ℕ) → count ≤ k → slice_index weights k ≡ 0 },
    ghost heavy: { 1 ≤ sum weights },
}
