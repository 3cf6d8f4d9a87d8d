// What counts as a quorum, a vote and a breach of the rules, and what a guard lets through.
ghost use Rattle.std.specs.Prelude.{◌≡◌};
ghost use Rattle.finality.specs.Guard.{LetsInWords};
ghost use Rattle.finality.specs.Votes.{BreachInWords, NamedInWords, QuorumInWords, VotedInWords, quorum};

// Whether a part of the weight is two thirds of the whole or more.
pub fn is_quorum(part: u32, whole: u32) -> bool
    ensures { result ≡ quorum part whole }
{
    2 * (whole as u64) <= 3 * (part as u64)
}

// The tests for a vote, a quorum, a breach, a name and what a guard lets through say just what the rules say in words.
pub fn tests_are_the_rules()
    ensures { VotedInWords × QuorumInWords × BreachInWords × NamedInWords × LetsInWords }
{}
