// Runs many images on standard input and prints what each leaves.
#![tactic(auto)]

use std::process::ExitCode;

fn main(rt: HostRuntime) -> ExitCode {
    program::exit_code(vectors::vectors(&rt, &mut rt.stdin()))
}
