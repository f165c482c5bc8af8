// Makes the image of a kernel and programs, or says why there is none, or a symbol's value.
#![tactic(auto)]

mod arguments;
mod failure;

ghost use Rattle.std.specs.Prelude.{◌≤◌};

use arguments::Mode;
use failure::Failure;
use place::Refusal;
use program::End;
use std::env::Env;
use std::io::Read;
use std::rt::Files;

// So many bytes the files may have together, and the settings.
// Kept: buffers with a length beside them, since nothing is allocated.
const FILES: usize = 4_194_304;

const SETTINGS: usize = 65536;

// Gives the image of the files with settings.
fn make<R: Print + Eprint>(
    rt: &R,
    files: &[u8],
    ends: &[usize; 8],
    programs: u8,
    settings: &[u8],
) -> Result<End, Failure> {
    let mut out = [0u8; 65536];
    let length = place::image_text(files, ends, programs, settings, &mut out)?;
    Ok(program::give(
        rt,
        &out[..length],
        b"cardimage: not all of the image could be written to standard output\n",
    ))
}

// Reads the settings and makes the image; one byte more than they may have is read, and no further.
fn with_settings<R: Print + Eprint, I: Read>(
    rt: &R,
    input: &mut I,
    files: &[u8],
    ends: &[usize; 8],
    programs: u8,
) -> Result<End, Failure> {
    let mut text = [0u8; SETTINGS + 1];
    let n = program::read_whole(input, &mut text).map_err(|_| Failure::Settings)?;
    if SETTINGS < n {
        return Err(Failure::LongSettings);
    }
    make(rt, files, ends, programs, &text[..n])
}

// Reads a kernel and so many programs, and makes their image.
fn image_of<R: Env + Files + Print + Eprint, I: Read>(
    rt: &R,
    input: &mut I,
    room: &mut [u8],
    programs: u8,
) -> Result<End, Failure>
    requires { programs ≤ 7 }
{
    let mut ends = [0usize; 8];
    let n = arguments::read_files(rt, room, &mut ends[..programs as usize + 1]).map_err(
        |_| Failure::File,
    )?;
    if FILES < n {
        return Err(Failure::Files);
    }
    with_settings(rt, input, &room[..n], &ends, programs)
}

// Gives the value of a symbol of a file.
fn value_of<R: Print + Eprint>(rt: &R, file: &[u8], name: &[u8]) -> Result<End, Failure> {
    elf::head_fault(file).map_err(|fault| Refusal::File(0, fault))?;
    let value = elf::symbol_named(file, name).ok_or(Failure::NoSymbol)?;
    let mut line = [0u8; 16];
    let n = answer::word_text(&mut line, value as u64);
    Ok(program::give(
        rt,
        &line[..n],
        b"cardimage: the value could not be written to standard output\n",
    ))
}

// Reads a program and a name, and gives its value; a name that does not fit is that of no symbol.
fn symbol_of<R: Env + Files + Print + Eprint>(rt: &R, room: &mut [u8]) -> Result<End, Failure> {
    let n = arguments::read_file(rt, 2, room).map_err(|_| Failure::File)?;
    if FILES < n {
        return Err(Failure::Files);
    }
    let mut name = io::buffer();
    let m = rt.arg(3, &mut name).unwrap_or(0);
    value_of(rt, &room[..n], &name[..m])
}

// Reads the arguments and answers; there is room for one byte more than the files may have together, and no further byte is read.
fn answer<R: Env + Files + Print + Eprint, I: Read>(
    rt: &R,
    input: &mut I,
    room: &mut [u8; FILES + 1],
) -> Result<End, Failure> {
    let (mode, programs) = arguments::mode_given(rt).ok_or(Failure::Arguments)?;
    match mode {
        Mode::User | Mode::Kernel => image_of(rt, input, room, programs),
        Mode::Symbol => symbol_of(rt, room),
    }
}

// Answers, or says why not.
pub fn cardimage<R: Env + Files + Print + Eprint, I: Read>(rt: &R, input: &mut I) -> End {
    let mut room = [0u8; FILES + 1];
    match answer(rt, input, &mut room) {
        Ok(end) => end,
        Err(failure) => failure.say(rt),
    }
}
