// The theory of finality: links between pages, the votes that make them, what is settled and final, and who broke the rules.
// The theorems stand on the contracts of functions that do nothing; what they say is in specs/.
#![tactic(auto)]

mod book;
mod conduct;
mod growth;
mod rules;
mod safety;

pub use book::{
    added_page_leaves_the_rest, book_is_a_tree, nothing_settles_past_the_end, one_pass_decides,
    one_pass_decides_votes,
};
pub use conduct::{
    keepers_are_never_cornered, keepers_are_never_named, signed_votes_break_no_rule,
};
pub use growth::{nothing_is_unsettled, settled_pages_carry_over};
pub use rules::{is_quorum, tests_are_the_rules};
pub use safety::{
    clashing_votes_breach, final_pages_apart_show_a_third, links_clash, one_settled_page_a_height,
    quorums_share_voters, settled_pages_lie_on_final_ones, two_thirds_and_both_rules_are_needed,
};

// From a page to a higher one on top of it, by their numbers in a book.
#[derive(Clone, Copy, Debug, PartialEq, Eq)]
pub struct Link {
    pub source: u32,
    pub target: u32,
}

// A voter's word for a link.
#[derive(Clone, Copy, Debug, PartialEq, Eq)]
pub struct Vote {
    pub voter: u32,
    pub link: Link,
}

// What is shown against a voter: two votes of its own.
#[derive(Clone, Copy, Debug, PartialEq, Eq)]
pub struct Proof {
    pub one: Vote,
    pub other: Vote,
}
