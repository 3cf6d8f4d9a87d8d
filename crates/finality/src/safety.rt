// Whatever anybody voted: two final pages apart show who broke the rules.
ghost use Rattle.finality.specs.Needed.{BothRulesNeeded, TwoThirdsNeeded};
ghost use Rattle.finality.specs.Safety.{AllNamed, BothBreach, ClashWeighs, Crossed, FinalApart, FinalApartBy};
ghost use Rattle.finality.specs.Safety.{LinksClash, OnTop, OneAHeight, SharedThird, SharedWeight};

// Two sets of voters share what they weigh beyond the whole, so two quorums share a third.
pub fn quorums_share_voters()
    ensures { SharedWeight × SharedThird }
{}

// On the way to a settled page beside a final one, some link clashes with a link of the final one.
pub fn links_clash()
    ensures { Crossed × LinksClash }
{}

// Who voted for two links that clash has broken the rules by these two votes. So all who broke the rules weigh at least what the
// voters for the two links weigh beyond the whole.
pub fn clashing_votes_breach()
    ensures { BothBreach × ClashWeighs }
{}

// There is at most one settled page a height, or a third broke the rules and is shown.
pub fn one_settled_page_a_height()
    ensures { OneAHeight }
{}

// A settled page as high as a final one or higher lies on it, or a third is shown.
pub fn settled_pages_lie_on_final_ones()
    ensures { OnTop }
{}

// Two final pages, neither under the other, show a third: by the weights that make the links, and by any others by which each link
// that spans the lower page's height has two thirds. Whoever names all that broke the rules names a third.
pub fn final_pages_apart_show_a_third()
    ensures { FinalApart × FinalApartBy × AllNamed }
{}

// A share below two thirds would not do, and neither would one of the rules alone.
pub fn two_thirds_and_both_rules_are_needed()
    ensures { TwoThirdsNeeded × BothRulesNeeded }
{}
