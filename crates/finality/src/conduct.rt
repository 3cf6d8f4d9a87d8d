// Those who keep the rules are never named, and never cornered.
ghost use Rattle.finality.specs.Conduct.{BallotsAreTheirs, CleanNotNamed, KeepersBegin, NeverCornered};
ghost use Rattle.finality.specs.Conduct.{RisingIsClean, SignedIsClean, SignedNotNamed, SignsNext, SignsRising};

// Votes that rise break no rule, and a guard lets votes through exactly if they go up and rise.
pub fn signed_votes_break_no_rule()
    ensures { RisingIsClean × SignsRising × SignedIsClean × SignsNext }
{}

// Who broke no rule is named by no proofs that hold, and neither is anybody whose votes its guard let through.
pub fn keepers_are_never_named()
    ensures { CleanNotNamed × SignedNotNamed }
{}

// Two thirds that kept the rules and signed only from settled pages can make a page final that is higher than all targets that
// they signed, if another lies right on top of it, and break no rule. They begin so, and go on so.
pub fn keepers_are_never_cornered()
    ensures { NeverCornered × KeepersBegin × BallotsAreTheirs }
{}
