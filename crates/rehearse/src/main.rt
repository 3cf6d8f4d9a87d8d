// Rehearses a script: answers each of its lines, and says at the end what is settled and what is final.
#![tactic(auto)]

ghost use Rattle.std.specs.Prelude.{◌≡◌, IfErr, IsErrAnd, OnOk};
ghost use Rattle.std.specs.Io.KnownBytes.{Appends};
ghost use Rattle.console.specs.Answers.{IsOfOutput};
ghost use Rattle.rehearse.specs.Scripts.{output_of, HasWeights, IsTurnedAway};
ghost use Rattle.text.specs.Lines.{lines};

mod answers;

use answers::Script;
use console::Fault;
use std::alloc::Global;
use std::io::Write;
use std::process::ExitCode;
use voters::Voters;

const BAD_WEIGHTS: &str =
    "the first line must be 'weights W0 W1 ..': 1 to 64 numbers, each at most 1000000, not all 0";

fn main(rt: HostRuntime) -> ExitCode {
    let outcome = run(&rt);
    console::end(&rt, "rehearse", outcome)
}

fn run(rt: &HostRuntime) -> Result<(), Fault> {
    let input = console::read_all(rt)?;
    rehearse(rt.alloc(), &mut rt.stdout(), input.as_slice())
}

// Answers the lines behind the first, which gives the weights.
#[tactic(auto, using(crate::proofs::Weighing::empty_is_unweighed, crate::proofs::Weighing::first_is_unweighed))]
fn rehearse<W: Write>(heap: Global, out: &mut W, input: &[u8]) -> Result<(), Fault>
    ensures weights { OnOk result (HasWeights (lines input.now)) }
    ensures written { OnOk result (Appends (W.contents out.old) (W.contents out.new) (output_of (lines input.now))) }
    ensures err { HasWeights (lines input.now) → IfErr result IsOfOutput }
    ensures unweighed { ¬ HasWeights (lines input.now) → IsErrAnd result (IsTurnedAway BAD_WEIGHTS.now) × (out.new ≡ out.old) }
{
    let (line, script) = text::first_line(input).ok_or(Fault::Input(BAD_WEIGHTS))?;
    // Nothing that is answered yet asks for the voters.
    let _voters = Voters::read(line).ok_or(Fault::Input(BAD_WEIGHTS))?;
    console::answer_lines(&mut Script, heap, out, 2, script)?;
    // No page but the one numbered 0 is settled, and none is final.
    out.write_all(b"settled 0\nfinal\n")?;
    Ok(())
}
