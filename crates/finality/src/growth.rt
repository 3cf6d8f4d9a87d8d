// More votes and more pages: what is settled and final stays so.
ghost use Rattle.finality.specs.Growth.{Carries, MorePages, MoreVotes, VotesCarry};

// What is settled and final is so in every tree that the pages and links stand in.
pub fn settled_pages_carry_over()
    ensures { Carries × VotesCarry }
{}

// Neither more votes, in whatever order, nor more pages unsettle anything.
pub fn nothing_is_unsettled()
    ensures { MoreVotes × MorePages }
{}
