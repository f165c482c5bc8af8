// Runs the image on standard input and prints the answer.
#![tactic(auto)]

use std::process::ExitCode;

fn main(rt: HostRuntime) -> ExitCode {
    program::exit_code(cardrun_main::cardrun(&rt, &mut rt.stdin()))
}
