// Makes the image of a kernel and programs.
#![tactic(auto)]

use std::process::ExitCode;

fn main(rt: HostRuntime) -> ExitCode {
    program::exit_code(cardimage_main::cardimage(&rt, &mut rt.stdin()))
}
