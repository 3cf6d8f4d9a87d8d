// What lines are answered.
ghost use Rattle.std.specs.Prelude.{IfErr, OnOk};
ghost use Rattle.std.specs.Io.KnownBytes.{Appends};
ghost use Rattle.console.specs.Answers.{IsOfOutput};
ghost use Rattle.text.specs.Lines.{lines};
ghost use Rattle.vectors.specs.Messages.{answer_to, answers};

use crate::hex::append_hex;
use crate::messages::{Digests, NoMessage};
use console::{Answers, Fault, answer_lines};
use std::alloc::Global;
use std::io::Write;

impl Answers for Digests {
    ghost answer = { λ _ line. answer_to line };

    #[tactic(auto, unfolding(crate::specs::Messages::answer_to))]
    fn write_answer(&mut self, out: &mut Vec<u8>, _number: u64, line: &[u8]) -> Result<(), Fault> {
        match self.message(line) {
            Ok(message) => {
                append_hex(out, &digest::sha256(message.as_slice()))?;
                out.extend_from_slice(b"\n")?;
            }
            // The one refusal of this program, so written out: `pages`, which prints them, would be leant on for this alone.
            Err(NoMessage::Refused) => out.extend_from_slice(b"refused 1\n")?,
            Err(NoMessage::Memory) => return Err(Fault::Memory),
        }
        Ok(())
    }
}

/// Writes the answers to all lines of an input.
#[tactic(auto, using(crate::proofs::Answering::unnumbered))]
pub fn answer_all<W: Write>(heap: Global, out: &mut W, input: &[u8]) -> Result<(), Fault>
    ensures ok { OnOk result (Appends (W.contents out.old) (W.contents out.new) (answers (lines input.now))) }
    ensures err { IfErr result IsOfOutput }
{
    answer_lines(&mut Digests { heap }, heap, out, 1, input)
}
