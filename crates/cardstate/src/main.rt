// Runs the image on standard input and prints the whole state after it.
#![tactic(auto)]

use std::process::ExitCode;

fn main(rt: HostRuntime) -> ExitCode {
    program::exit_code(cardstate_main::cardstate(&rt, &mut rt.stdin()))
}
