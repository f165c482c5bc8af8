// The arguments: what is wanted, and the files.
ghost use Rattle.std.specs.Prelude.{◌≤◌, ◌≡◌, IfSome, length};
ghost use Rattle.program.specs.Within.{Within};
ghost use Rattle.cardimage_main.specs.Arguments as Rule;

use program::ReadFailed;
use std::env::Env;
use std::rt::Files;

// So many arguments are counted, the program's own name among them: one more than may be given.
const MOST: usize = 11;

// What is wanted: an image of programs, an image of a program in Kernel mode, or a symbol's value.
#[derive(Clone, Copy)]
pub enum Mode {
    User,
    Kernel,
    Symbol,
}

// What a word says.
fn mode_of(word: &[u8]) -> Option<Mode>
    ensures { result ≡ Rule.mode_of word.now }
{
    if word == b"user".as_slice() {
        Some(Mode::User)
    } else if word == b"kernel".as_slice() {
        Some(Mode::Kernel)
    } else if word == b"symbol".as_slice() {
        Some(Mode::Symbol)
    } else {
        None
    }
}

// What is wanted with so many arguments.
fn counted(mode: Mode, n: usize) -> Option<Mode>
    ensures value { result ≡ Rule.counted mode n }
    ensures bound { IfSome result (λ _. n ≤ 10) }
{
    let fits = match mode {
        Mode::User => 4 <= n && n <= 10,
        Mode::Kernel => n == 3,
        Mode::Symbol => n == 4,
    };
    if fits { Some(mode) } else { None }
}

// What the arguments want, and how many there are behind the first file's.
pub(crate) fn mode_given<R: Env>(rt: &R) -> Option<(Mode, u8)>
    ensures { IfSome result (λ given. given.1 ≤ 7) }
{
    let count = program::arg_count(rt, MOST);
    let mut word = io::buffer();
    let n = rt.arg(1, &mut word).ok()?;
    let mode = counted(mode_of(&word[..n])?, count)?;
    Some((mode, count.saturating_sub(3) as u8))
}

// Reads the file that argument i names to the start of `room`.
pub(crate) fn read_file<R: Env + Files>(
    rt: &R,
    i: usize,
    room: &mut [u8],
) -> Result<usize, ReadFailed>
    ensures { Within result room.new }
{
    let mut path = io::buffer();
    let n = rt.arg(i, &mut path).map_err(|_| ReadFailed)?;
    program::read_file(rt, &path[..n], room)
}

// Reads a file for each of `ends`, from argument 2 on, one after the other into `room`, and where each ends.
pub(crate) fn read_files<R: Env + Files>(
    rt: &R,
    room: &mut [u8],
    ends: &mut [usize],
) -> Result<usize, ReadFailed>
    requires { length ends.old ≤ 8 }
    ensures { Within result room.new }
{
    let mut at = 0;
    for (k, end) in ends.iter_mut().enumerate() {
        at += read_file(rt, k + 2, &mut room[at..])?;
        *end = at;
    }
    Ok(at)
}
