// Lines answered at a concrete type.
ghost use Rattle.std.specs.Prelude.{◌++◌, codes, decimal};

use crate::{Answers, Fault, answer_lines};
use std::io::Write;
use std::test::Fail;

// A line is answered with its number and itself.
#[derive(Drop)]
struct Numbered;

impl Answers for Numbered {
    ghost answer = { λ k line. decimal k ++ (codes " " ++ (line ++ codes "\n")) };

    fn write_answer(&mut self, out: &mut Vec<u8>, number: u64, line: &[u8]) -> Result<(), Fault> {
        write!(out, "{number} ").map_err(|_| Fault::Memory)?;
        out.extend_from_slice(line)?;
        out.extend_from_slice(b"\n")?;
        Ok(())
    }
}

#[test]
fn lines_are_numbered_from_the_first_on(rt: HostRuntime) -> Result<(), Fail> {
    let mut out = Vec::new(rt.alloc());
    answer_lines(&mut Numbered, rt.alloc(), &mut out, 9, b"a\r\n\nb")?;
    assert!(rt; out.as_slice() == b"9 a\n10 \n11 b\n".as_slice());
    Ok(())
}
