// What a lent tree answers.
ghost use Rattle.std.specs.Prelude.{◌≡◌, ◌<◌, ◌≤◌, ◌↔◌, IsTrue, if◌then◌else◌, nat_lt};
ghost use Rattle.finality.specs.Tree.{Under};
ghost use Rattle.tree.specs.Pages.{count_lent, pages_lent};

use super::Tree;

impl<'a> Tree<'a> {
    /// How many pages there are.
    pub fn len(self) -> u32
        ensures value { result ≡ count_lent self.entry }
        ensures bound { (1 ≤ result) × (result ≤ 4096) }
    {
        self.parents.len() as u32
    }

    /// The parents, by page.
    pub fn parents(self) -> &'a [u32]
        ensures { result.now ≡ self.entry.parents.now }
    {
        self.parents
    }

    /// The heights, by page.
    pub fn heights(self) -> &'a [u32]
        ensures { result.now ≡ self.entry.heights.now }
    {
        self.heights
    }

    /// The page that a page lies on, if it is in the book.
    pub fn parent(self, page: u32) -> Option<u32>
        ensures { result ≡ (if nat_lt page (count_lent self.entry) then Some ((pages_lent self.entry).parent page) else None) }
    {
        self.parents.get(page as usize).copied()
    }

    /// How high a page is, if it is in the book.
    pub fn height(self, page: u32) -> Option<u32>
        ensures { result ≡ (if nat_lt page (count_lent self.entry) then Some ((pages_lent self.entry).height page) else None) }
    {
        self.heights.get(page as usize).copied()
    }

    /// Whether page `b` is in the book and page `a` lies under it.
    pub fn under(self, a: u32, b: u32) -> bool
        ensures { IsTrue result ↔ ((b < count_lent self.entry) × Under (pages_lent self.entry) a b) }
    {
        if b >= self.len() {
            return false;
        }
        let mut at = b;
        // A page's parent has a smaller number, so below `a` there is nothing more to meet. It is a loop since `successors` has no
        // end that the check sees, and a recursion would go a call deeper for each page.
        while at > a {
            at = self.parents[at as usize];
        }
        at == a
    }
}
