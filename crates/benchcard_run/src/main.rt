// Runs a program of bench/ for as many steps as the arguments say, and prints one number for what is left.
#![tactic(auto)]

use std::process::ExitCode;

fn main(rt: HostRuntime) -> ExitCode {
    program::exit_code(benchcard::benchcard(&rt))
}
