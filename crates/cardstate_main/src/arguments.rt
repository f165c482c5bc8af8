// The arguments: the interrupt lines, and the boot ROM's file.
ghost use Rattle.std.specs.Prelude.{◌≡◌};
ghost use Rattle.program.specs.Within.{Within};
ghost use Rattle.cardstate_main.specs.Arguments as Rule;

use program::ReadFailed;
use std::env::Env;
use std::rt::Files;

// The interrupt lines that one or two digits name.
fn lines_of(word: &[u8]) -> Option<u8>
    ensures { result ≡ Rule.lines_of word.now }
{
    match word {
        [a] => program::hex_digit(*a),
        [a, b] => program::two_hex_digits(*a, *b),
        _ => None,
    }
}

// The first argument, 0 where there is none; a third is one too many.
pub(crate) fn lines_given<R: Env>(rt: &R) -> Option<u8> {
    if program::has_arg(rt, 3) {
        return None;
    }
    if !program::has_arg(rt, 1) {
        return Some(0);
    }
    // Kept: three lines here and at each other argument, since a function that lends the word to a closure would have to require that it may be called.
    let mut word = io::buffer();
    let n = rt.arg(1, &mut word).ok()?;
    lines_of(&word[..n])
}

// Reads the file that the second argument names to the start of `rom`; no bytes where there is no such argument.
pub(crate) fn read_rom<R: Env + Files>(rt: &R, rom: &mut [u8]) -> Result<usize, ReadFailed>
    ensures { Within result rom.new }
{
    if !program::has_arg(rt, 2) {
        return Ok(0);
    }
    let mut path = io::buffer();
    let n = rt.arg(2, &mut path).map_err(|_| ReadFailed)?;
    program::read_file(rt, &path[..n], rom)
}
