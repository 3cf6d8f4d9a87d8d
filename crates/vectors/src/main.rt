// Prints the SHA-256 digest of each message that the lines of standard input describe.
#![tactic(auto)]

mod answers;
mod hex;
mod messages;

use answers::answer_all;
use console::Fault;
use std::process::ExitCode;

fn main(rt: HostRuntime) -> ExitCode {
    let outcome = run(&rt);
    console::end(&rt, "vectors", outcome)
}

fn run(rt: &HostRuntime) -> Result<(), Fault> {
    let input = console::read_all(rt)?;
    answer_all(rt.alloc(), &mut rt.stdout(), input.as_slice())
}
