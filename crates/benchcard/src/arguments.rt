// The arguments: how many steps are run, and of which program.
ghost use Rattle.std.specs.Prelude.{◌≡◌, ◌≤◌, length};
ghost use Rattle.benchcard.specs.Arguments as Rule;

use program::End;
use std::env::Env;

// The programs of bench/.
#[derive(Clone, Copy)]
pub enum Program {
    Sweep,
    Unaligned,
}

// Without an argument.
const USUAL: u64 = 1000;

// The number that decimal digits are.
fn number(digits: &[u8]) -> Option<u64>
    requires { length digits.now ≤ 16 }
    ensures { result ≡ Rule.number 0 digits.now }
{
    let mut x: u64 = 0;
    for b in digits {
        x = x * 10 + u64::from(char::from(*b).to_digit(10)?);
    }
    Some(x)
}

// One to 16 digits.
fn steps_of(word: &[u8]) -> Option<u64>
    ensures { result ≡ Rule.steps_of word.now }
{
    match word.len() {
        1..=16 => number(word),
        _ => None,
    }
}

// A program's name, and nothing else.
fn program_of(word: &[u8]) -> Option<Program>
    ensures { result ≡ Rule.program_of word.now }
{
    if word == b"sweep".as_slice() {
        Some(Program::Sweep)
    } else if word == b"unaligned".as_slice() {
        Some(Program::Unaligned)
    } else {
        None
    }
}

// The first argument; a third is one too many.
pub(crate) fn steps_given<R: Env>(rt: &R) -> Option<u64> {
    if program::has_arg(rt, 3) {
        return None;
    }
    if !program::has_arg(rt, 1) {
        return Some(USUAL);
    }
    let mut word = io::buffer();
    let n = rt.arg(1, &mut word).ok()?;
    steps_of(&word[..n])
}

// The second argument, the sweep where there is none.
pub(crate) fn program_given<R: Env>(rt: &R) -> Option<Program> {
    if !program::has_arg(rt, 2) {
        return Some(Program::Sweep);
    }
    let mut word = io::buffer();
    let n = rt.arg(2, &mut word).ok()?;
    program_of(&word[..n])
}

// Says which arguments are taken.
pub(crate) fn misused<R: Eprint>(rt: &R) -> End {
    program::misused(
        rt,
        b"benchcard: the arguments are [STEPS [PROGRAM]]: steps, at most 16 decimal digits, and a program, sweep or unaligned\n",
    )
}
