// What the programs share at their edges: standard input read whole, lines answered one by one, and why a program stops early.
#![tactic(auto)]

ghost use Rattle.std.specs.Prelude.{◌≡◌, OnErr, OnOk};
ghost use Rattle.std.specs.Process.{exit_status};

mod answers;
mod fault;
#[cfg(test)]
mod tests;

pub use answers::{Answers, answer_lines};
pub use fault::Fault;
use std::io::Read;
use std::process::ExitCode;

/// All of standard input.
pub fn read_all(rt: &HostRuntime) -> Result<Vec<u8>, Fault> {
    let mut input = Vec::new(rt.alloc());
    rt.stdin().read_to_end(&mut input)?;
    Ok(input)
}

/// Says on standard error why the program stops early, if it does, and hands the outcome on.
pub fn tell(rt: &HostRuntime, program: &str, outcome: Result<(), Fault>) -> Result<(), Fault>
    ensures { result ≡ outcome }
{
    outcome.inspect_err(|fault| {
        // The program stops anyway, also if there is nobody to hear why.
        let _ = eprintln!(rt; "{program}: {fault}");
    })
}

/// Says why a program stops early, if it does, and gives the status that it then ends with.
pub fn end(rt: &HostRuntime, program: &str, outcome: Result<(), Fault>) -> ExitCode
    ensures success { OnOk outcome (exit_status result ≡ 0) }
    ensures failure { OnErr outcome (exit_status result ≡ 1) }
{
    match tell(rt, program, outcome) {
        Ok(()) => ExitCode::SUCCESS,
        Err(_) => ExitCode::FAILURE,
    }
}
