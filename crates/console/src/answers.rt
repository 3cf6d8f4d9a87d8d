// Lines that are answered one by one.
ghost use Rattle.std.specs.Prelude.{◌≡◌, ℕ, ◌+◌, ◌^◌, ◌<◌, List, ◌++◌, length, IfErr, IfOk, OnOk};
ghost use Rattle.std.specs.Io.KnownBytes.{Appends};
ghost use Rattle.text.specs.Lines.{lines};
ghost use Rattle.console.specs.Answers.{answers_to, IsOfOutput};
ghost use Rattle.console.specs.Pieces.{Piece};
ghost use Rattle.console.specs.declared.fault.Fault.TheVariants.{Memory};

use crate::fault::Fault;
use std::alloc::Global;
use std::io::Write;

/// What answers the lines of an input.
pub trait Answers {
    // What is written for a line, by the line's number and its bytes.
    ghost answer: { ℕ → List ℕ → List ℕ };

    /// Writes the answer to a line behind what `out` holds.
    fn write_answer(&mut self, out: &mut Vec<u8>, number: u64, line: &[u8]) -> Result<(), Fault>
        ensures ok { OnOk result (out.new.items ≡ out.old.items ++ answer number line.now) }
        ensures err { IfErr result (λ why. why ≡ Memory) };
}

// Answers go out whenever this many bytes of them are there: they can be many times as long as the input.
const PIECE: usize = 65_536;

// How far an input is answered: what is left of it, and the number of the first line of that.
#[derive(Clone, Copy)]
struct Place<'a> {
    rest: &'a [u8],
    number: u64,
}

// Answers lines from a place on until `piece` holds enough to go out or no line is left, and says how far it came. An input has no
// more lines than bytes, so their numbers fit.
fn answer_piece<'a, A: Answers>(
    answers: &mut A,
    piece: &mut Vec<u8>,
    from: Place<'a>,
) -> Result<Place<'a>, Fault>
    requires { from.number + length from.rest.now < 2 ^ 64 }
    ensures ok { IfOk result (λ p. Piece A.answer piece.old.items from.entry.rest.now from.entry.number piece.new.items p.rest.now p.number) }
    ensures err { IfErr result (λ why. why ≡ Memory) }
{
    let mut rest = from.rest;
    let mut number = from.number;
    while let Some((line, after)) = text::first_line(rest) {
        answers.write_answer(piece, number, line)?;
        number += 1;
        rest = after;
        if piece.len() >= PIECE {
            break;
        }
    }
    Ok(Place { rest, number })
}

/// Writes the answers to all lines of an input, which are numbered from `first` on.
// Heap, writer and input stay three: a struct of them would be made at each call, and taken apart at once.
pub fn answer_lines<A: Answers, W: Write>(
    answers: &mut A,
    heap: Global,
    out: &mut W,
    first: u32,
    input: &[u8],
) -> Result<(), Fault>
    ensures ok { OnOk result (Appends (W.contents out.old) (W.contents out.new) (answers_to A.answer first (lines input.now))) }
    ensures err { IfErr result IsOfOutput }
{
    let mut piece = Vec::new(heap);
    let mut place = Place {
        rest: input,
        number: u64::from(first),
    };
    while !place.rest.is_empty() {
        place = answer_piece(answers, &mut piece, place)?;
        out.write_all(piece.as_slice())?;
        piece.clear();
    }
    Ok(())
}
