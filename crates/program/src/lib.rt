// How a program takes its whole input, gives its whole answer, and ends.
#![tactic(auto)]

ghost use Rattle.std.specs.Prelude.{◌≡◌, ◌≤◌, ◌<◌, IfSome, unsigned_abs};
ghost use Rattle.std.specs.Process.{exit_status};
ghost use Rattle.program.specs.Digits as Rule;
ghost use Rattle.program.specs.Ends.{status_of, end_of};
ghost use Rattle.program.specs.Within.{Within};
ghost use Rattle.program.specs.declared.End.TheVariants.{Unread, Unwritten, Misused, Refused};

use std::env::{Env, FillError};
use std::io::Read;
use std::process::ExitCode;
use std::rt::Files;
use std::{fs, str};

// How a program ends.
#[derive(Clone, Copy)]
pub enum End {
    Answered,
    Unread,
    Unwritten,
    Misused,
    Refused,
}

// Reading failed.
#[derive(Clone, Copy)]
pub struct ReadFailed;

// The status that says so: 0 with a whole answer, 1 without one, 2 for wrong arguments, 3 where what was asked for is refused.
pub fn status(end: End) -> i32
    ensures { result ≡ status_of end }
{
    match end {
        End::Answered => 0,
        End::Unread | End::Unwritten => 1,
        End::Misused => 2,
        End::Refused => 3,
    }
}

// The status of an end, as `main` returns it.
pub fn exit_code(end: End) -> ExitCode
    ensures value { exit_status result ≡ unsigned_abs (status_of end) }
    ensures bound { exit_status result ≤ 3 }
{
    ExitCode::from(status(end) as u8)
}

// Reads until `buf` is full or the input ends, and says how much; a read that fails, or would block, fails the whole, whatever came before.
pub fn read_whole<I: Read>(from: &mut I, buf: &mut [u8]) -> Result<usize, ReadFailed>
    ensures { Within result buf.new }
{
    let mut done = 0;
    // Kept: a loop with a count, since a read may take less than there is room for, and the next goes on behind it.
    while done < buf.len() {
        let more = from.read(&mut buf[done..]).map_err(|_| ReadFailed)?;
        if more == 0 {
            break;
        }
        done += more;
    }
    Ok(done)
}

// Reads the file of a name to the start of `buf`; one that cannot be opened, or whose name is no text, fails.
pub fn read_file<R: Files>(rt: &R, name: &[u8], buf: &mut [u8]) -> Result<usize, ReadFailed>
    ensures { Within result buf.new }
{
    let path = str::from_utf8(name).map_err(|_| ReadFailed)?;
    let mut file = fs::open(rt, path).map_err(|_| ReadFailed)?;
    read_whole(&mut file, buf)
}

// Whether there is an argument i, the program's own name being 0.
pub fn has_arg<R: Env>(rt: &R, i: usize) -> bool {
    let mut room = [0u8; 1];
    !matches!(rt.arg(i, &mut room), Err(FillError::NotPresent))
}

// How many arguments there are, the program's own name counted; no more than `most` are counted.
pub fn arg_count<R: Env>(rt: &R, most: usize) -> usize
    ensures { result ≤ most }
{
    (0..most).find(|i| !has_arg(rt, *i)).unwrap_or(most)
}

// The value of a lowercase hexadecimal digit; no other character has one.
pub fn hex_digit(b: u8) -> Option<u8>
    ensures value { result ≡ Rule.hex_digit b }
    ensures bound { IfSome result (λ d. d < 16) }
{
    match b {
        b'0'..=b'9' => Some(b - b'0'),
        b'a'..=b'f' => Some(b - b'a' + 10),
        _ => None,
    }
}

// The number that two lowercase hexadecimal digits make.
pub fn two_hex_digits(a: u8, b: u8) -> Option<u8>
    ensures { result ≡ Rule.two_hex_digits a b }
{
    Some(hex_digit(a)? * 16 + hex_digit(b)?)
}

// Writes a whole answer to standard output and says how the program so ends; where it cannot, with a line.
pub fn give<R: Print + Eprint>(rt: &R, answer: &[u8], line: &[u8]) -> End {
    end_of(rt, rt.write_all(answer).is_ok(), line)
}

// The end of a program that could not read what it wanted, with a line that says so.
pub fn unread<R: Eprint>(rt: &R, line: &[u8]) -> End
    ensures { result ≡ Unread }
{
    ended(rt, End::Unread, line)
}

// The end of a program whose answer could not be written whole, with a line that says so.
pub fn unwritten<R: Eprint>(rt: &R, line: &[u8]) -> End
    ensures { result ≡ Unwritten }
{
    ended(rt, End::Unwritten, line)
}

// The end of a program that was given wrong arguments, with a line that says which are right.
pub fn misused<R: Eprint>(rt: &R, line: &[u8]) -> End
    ensures { result ≡ Misused }
{
    ended(rt, End::Misused, line)
}

// The end of a program that refuses what it was asked for, with a line that says why.
pub fn refused<R: Eprint>(rt: &R, line: &[u8]) -> End
    ensures { result ≡ Refused }
{
    ended(rt, End::Refused, line)
}

// An end, with its line.
fn ended<R: Eprint>(rt: &R, end: End, line: &[u8]) -> End
    ensures { result ≡ end }
{
    say(rt, line);
    end
}

// How a program ends by whether all of its answer was written; where it was not, with a line.
pub fn end_of<R: Eprint>(rt: &R, written: bool, line: &[u8]) -> End
    ensures { result ≡ end_of written }
{
    if written {
        End::Answered
    } else {
        unwritten(rt, line)
    }
}

// Says a line on standard error; where that fails nothing is left to say it on. Of a line that is no text each byte is said as a character.
fn say<R: Eprint>(rt: &R, line: &[u8]) {
    if let Ok(text) = str::from_utf8(line) {
        let _ = rt.eprint(text);
        return;
    }
    for byte in line {
        let _ = rt.eprint(char::from(*byte));
    }
}
