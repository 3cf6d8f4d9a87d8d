// How columns are made, added to and lent.
ghost use Rattle.std.specs.Prelude.{◌≡◌, ◌≤◌, ◌&&◌, [], ◌∷◌, ◌++◌, is_some, IfOk, if◌then◌else◌, nat_lt};
ghost use Rattle.finality.specs.Book.{height_added};
ghost use Rattle.finality.specs.Growth.{Extends};
ghost use Rattle.finality.specs.Tree.{Grown};
ghost use Rattle.tree.specs.Pages.{count_of, heights_of, pages_of, parents_of};

use super::{Columns, MOST, Tree};
use std::alloc::{AllocError, Global};

impl Columns {
    /// A book of page 0 alone.
    pub fn new(heap: Global) -> Result<Columns, AllocError>
        ensures { IfOk result (λ c. (parents_of c ≡ 0 ∷ []) × (heights_of c ≡ 0 ∷ [])) }
    {
        let mut parents = Vec::with_capacity(heap, MOST)?;
        let mut heights = Vec::with_capacity(heap, MOST)?;
        parents.push_reserved(0);
        heights.push_reserved(0);
        Ok(Columns { parents, heights })
    }

    /// How many pages there are.
    pub fn len(&self) -> u32
        ensures value { result ≡ count_of self.now }
        ensures bound { (1 ≤ result) × (result ≤ 4096) }
    {
        self.parents.len() as u32
    }

    /// Adds a page on top of `parent`, and gives its number. Where there is no such parent, or no room, nothing changes.
    pub fn add(&mut self, parent: u32) -> Option<u32>
        ensures value { result ≡ (if nat_lt parent (count_of self.old) && nat_lt (count_of self.old) 4096 then Some (count_of self.old) else None) }
        ensures parents { parents_of self.new ≡ (if is_some result then parents_of self.old ++ parent ∷ [] else parents_of self.old) }
        ensures heights { heights_of self.new ≡ (if is_some result then height_added (heights_of self.old) parent else heights_of self.old) }
        ensures kept { Extends (pages_of self.old) (pages_of self.new) (count_of self.old) }
    {
        let height = self.tree().height(parent)? + 1;
        let page = self.len();
        if page as usize == MOST {
            return None;
        }
        self.parents.push_reserved(parent);
        self.heights.push_reserved(height);
        Some(page)
    }

    /// The columns, lent as a tree.
    pub fn tree(&self) -> Tree<'_>
        ensures parents { result.parents.now ≡ parents_of self.now }
        ensures heights { result.heights.now ≡ heights_of self.now }
        ensures grown { Grown (pages_of self.now) }
    {
        Tree {
            parents: self.parents.as_slice(),
            heights: self.heights.as_slice(),
        }
    }
}
