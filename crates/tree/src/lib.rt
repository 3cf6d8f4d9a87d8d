// The tree of a book's pages: each page's parent and height, by its number.
#![tactic(auto)]

ghost use Rattle.std.specs.Prelude.{◌≤◌, length, vec_capacity};
ghost use Rattle.finality.specs.Book.{Book};

mod lent;
mod owned;

/// A book holds no more pages.
pub const MOST: usize = 4_096;

/// The parents and heights of a book's pages. Page 0 is there from the start, and each later page lies on one taken before it. All
/// memory is taken at the start.
// Two columns and no list of pages, since 32-bit words are what is lent.
#[derive(Drop)]
pub struct Columns {
    parents: Vec<u32>,
    heights: Vec<u32>,
    ghost wide: { 4096 ≤ vec_capacity parents },
    ghost high: { 4096 ≤ vec_capacity heights },
    ghost few: { length parents.items ≤ 4096 },
    ghost book: { Book parents.items heights.items },
}

/// The same, lent.
// Two slices, as the columns are two.
#[derive(Clone, Copy)]
pub struct Tree<'a> {
    parents: &'a [u32],
    heights: &'a [u32],
    ghost few: { length parents.now ≤ 4096 },
    ghost book: { Book parents.now heights.now },
}
