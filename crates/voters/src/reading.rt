// How the voters are read from a line, and what is known of them.
ghost use Rattle.std.specs.Prelude.{◌≡◌, ℕ, ◌≤◌, List, length, Some, MatchOption};
ghost use Rattle.text.specs.Numbers.{decimal_of};
ghost use Rattle.text.specs.Words.{words};
ghost use Rattle.voters.specs.Weights.{total_of, weight_of, weights_of, Lists, Names, Row};

use super::{MOST, Voters};

// No voter weighs more.
const HEAVIEST: u32 = 1_000_000;

impl Voters {
    /// Reads `weights W0 W1 ..`: from 1 to 64 numbers, each at most 1,000,000 and not all 0. Any other line is refused.
    pub fn read(line: &[u8]) -> Option<Voters>
        ensures { MatchOption result ((xs : List ℕ) → Names line.now xs → ⊥) (λ v. Names line.now (weights_of v) × ((xs : List ℕ) → Names line.now xs → xs ≡ weights_of v)) }
    {
        let (head, rest) = text::first_word(line)?;
        if head != b"weights".as_slice() {
            return None;
        }
        let (weights, count) = row(rest)?;
        // A line with no number at all ends here too.
        if weights.iter().all(|w| *w == 0) {
            return None;
        }
        let count = count as u32;
        Some(Voters { count, weights })
    }

    /// How many voters there are.
    pub fn count(&self) -> u32
        ensures value { result ≡ length (weights_of self.now) }
        ensures bound { (1 ≤ result) × (result ≤ 64) }
    {
        self.count
    }

    /// The weight of a voter; a number past the last voter has none.
    pub fn weight(&self, voter: u32) -> u32
        ensures value { result ≡ weight_of self.now voter }
        ensures bound { result ≤ 1000000 }
    {
        // The places behind the voters hold 0.
        self.weights.get(voter as usize).copied().unwrap_or(0)
    }

    /// The weight of all voters together.
    #[tactic(auto, using(crate::proofs::Rows::total_is, crate::proofs::Rows::total_most))]
    pub fn total(&self) -> u32
        ensures value { result ≡ total_of self.now }
        ensures bound { (1 ≤ result) × (result ≤ 64000000) }
    {
        self.weights.iter().sum()
    }
}

// The weights that the words of `s` are, with 0 at the places behind them, and how many they are: to count the words by themselves
// would be to go through the line once more.
fn row(s: &[u8]) -> Option<([u32; MOST], usize)>
    ensures { MatchOption result ((xs : List ℕ) → Lists (words s.now) xs → ⊥) (λ p. Row (words s.now) p.0 p.1) }
{
    let mut weights = [0u32; MOST];
    let mut count = 0;
    // By place: of a row that is written through `iter_mut` nothing would be known but its length.
    for (voter, word) in text::words(s).enumerate() {
        if voter == MOST {
            return None;
        }
        weights[voter] = weight(word)?;
        count = voter + 1;
    }
    Some((weights, count))
}

// The weight that a word is.
fn weight(word: &[u8]) -> Option<u32>
    ensures { MatchOption result ((x : ℕ) → decimal_of word.now ≡ Some x → x ≤ 1000000 → ⊥) (λ x. (decimal_of word.now ≡ Some x) × (x ≤ 1000000)) }
{
    text::decimal(word).filter(|w| *w <= HEAVIEST)
}
