// A book's columns: what they stand for, and one pass that finds what is settled.
ghost use Rattle.finality.specs.Book.{BookGrows, NoVotesPastEnd, NonePastEnd, OnePass, OnePassOfVotes, PageAdded, VotesUnmoved};

// A book's columns are a tree of pages, and no page has a smaller number than one under it.
pub fn book_is_a_tree()
    ensures { BookGrows }
{}

// Nothing is settled past the end of the book, if no link leads there.
pub fn nothing_settles_past_the_end()
    ensures { NonePastEnd × NoVotesPastEnd }
{}

// A page added on top of one that is there changes nothing of the others.
pub fn added_page_leaves_the_rest()
    ensures { PageAdded × VotesUnmoved }
{}

// One pass over links in rising order of their targets marks just what is settled.
pub fn one_pass_decides()
    ensures { OnePass }
{}

// One such pass over the links that votes make marks just what they settle.
pub fn one_pass_decides_votes()
    ensures { OnePassOfVotes }
{}
