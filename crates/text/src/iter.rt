// The lines and the words of an input as iterators.
// They are two types and not one over a trait: they share two lines of code, and the trait would have as many for each.
ghost use Rattle.std.specs.Iterator.{YieldsFirstBy, item_count};

use crate::{first_line, first_word};
use std::marker::Model;
use std::mem;

/// The lines of an input, seen as the list of those that are left.
#[derive(Clone, Debug, Drop)]
pub struct Lines<'a> {
    pub(crate) rest: &'a [u8],
}

impl<'a> Model for Lines<'a> {
    ghost use Rattle.std.specs.Prelude.{ℕ, List};
    ghost use Rattle.text.specs.Lines.{lines};

    ghost Value = { List (List ℕ) };

    ghost view = { λ it. lines it.rest.now };
}

impl<'a> Iterator for Lines<'a> {
    type Item = &'a [u8];

    ghost next_gives = { YieldsFirstBy (λ line. line.now) (λ left. left) };

    ghost remaining = { item_count (λ left. left) };

    #[tactic(auto, using(crate::proofs::Counts::lines_none))]
    fn next(&mut self) -> Option<&'a [u8]> {
        let (line, rest) = first_line(self.rest)?;
        self.rest = rest;
        Some(line)
    }
}

/// The words of a line, seen as the list of those that are left.
#[derive(Clone, Debug, Drop)]
pub struct Words<'a> {
    pub(crate) rest: &'a [u8],
}

impl<'a> Model for Words<'a> {
    ghost use Rattle.std.specs.Prelude.{ℕ, List};
    ghost use Rattle.text.specs.Words.{words};

    ghost Value = { List (List ℕ) };

    ghost view = { λ it. words it.rest.now };
}

impl<'a> Iterator for Words<'a> {
    type Item = &'a [u8];

    ghost next_gives = { YieldsFirstBy (λ word. word.now) (λ left. left) };

    ghost remaining = { item_count (λ left. left) };

    #[tactic(auto, unfolding(crate::specs::Words::words, crate::specs::Pieces::pieces))]
    fn next(&mut self) -> Option<&'a [u8]> {
        // Taken, and not only read: where no word is left, nothing is left, so that a tail of spaces is passed over once
        // and not again by each further call.
        let (word, rest) = first_word(mem::take(&mut self.rest))?;
        self.rest = rest;
        Some(word)
    }
}
