// What a line of a script is answered.
ghost use Rattle.std.specs.Prelude.{◌≡◌, ◌++◌, Some};
ghost use Rattle.rehearse.specs.Answers.{answer_to, shown, written};

use console::{Answers, Fault};
use pages::Refusal;
use std::fmt::{self, Write};

/// What a line comes to.
// It has one case as long as no line is understood: a `Result` would have an `Ok` that nothing gives.
#[derive(Clone, Copy, Debug, PartialEq, Eq)]
pub enum Answer {
    Refused(Refusal),
}

impl fmt::Display for Answer {
    ghost output = { λ answer. Some (shown answer) };

    fn fmt<W: fmt::Write>(&self, f: &mut fmt::Formatter<W>) -> fmt::Result {
        match self {
            Answer::Refused(why) => write!(f, "{why}"),
        }
    }
}

/// Nothing but the first line of a script is understood yet.
pub fn answer_line(line: &[u8]) -> Answer
    ensures { result ≡ answer_to line.now }
{
    Answer::Refused(Refusal::Malformed)
}

// Prints straight behind what a vector holds: an answer that went by way of a string would be copied.
#[derive(Drop)]
struct Tail<'a> {
    out: &'a mut Vec<u8>,
}

impl Write for Tail<'_> {
    ghost write_str_gives = { λ s bs t. (t.out.ghost_name ≡ s.out.ghost_name) × (t.out.now.items ≡ s.out.now.items ++ bs) };

    fn write_str(&mut self, s: &str) -> fmt::Result {
        self.out.extend_from_slice(s.as_bytes())?;
        Ok(())
    }
}

/// Answers the lines of a script.
#[derive(Drop)]
pub struct Script;

impl Answers for Script {
    ghost answer = { λ k line. written k (answer_to line) };

    fn write_answer(&mut self, out: &mut Vec<u8>, number: u64, line: &[u8]) -> Result<(), Fault> {
        let answer = answer_line(line);
        writeln!(Tail { out }, "line {number}: {answer}")?;
        Ok(())
    }
}
