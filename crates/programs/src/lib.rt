// The programs as functions that return the status they end with.
#![tactic(auto, using(crate::proofs::Known::known))]

ghost use Rattle.programs.specs.Statuses.{IsStatus};

use std::env::Env;
use std::io::Read;
use std::rt::Files;

// The status of `cardrun`.
// Kept: here and below one function for each program, since docs/PROMISES.md names them.
pub fn cardrun_status<R: Env + Print + Eprint, I: Read>(rt: &R, input: &mut I) -> i32
    ensures { IsStatus result }
{
    program::status(cardrun_main::cardrun(rt, input))
}

// The status of `cardstate`.
pub fn cardstate_status<R: Env + Files + Print + Eprint, I: Read>(rt: &R, input: &mut I) -> i32
    ensures { IsStatus result }
{
    program::status(cardstate_main::cardstate(rt, input))
}

// The status of `cardimage`.
pub fn cardimage_status<R: Env + Files + Print + Eprint, I: Read>(rt: &R, input: &mut I) -> i32
    ensures { IsStatus result }
{
    program::status(cardimage_main::cardimage(rt, input))
}

// The status of `vectors`.
pub fn vectors_status<R: Env + Files + Print + Eprint, I: Read>(rt: &R, input: &mut I) -> i32
    ensures { IsStatus result }
{
    program::status(vectors::vectors(rt, input))
}

// The status of `benchcard`.
pub fn benchcard_status<R: Env + Print + Eprint>(rt: &R) -> i32
    ensures { IsStatus result }
{
    program::status(benchcard::benchcard(rt))
}
