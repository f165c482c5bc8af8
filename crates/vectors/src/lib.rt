// Runs many images and prints what each leaves: first the fresh machine's whole state, then of each image the lines that differ from it.
// Standard input holds for each image a line `# NAME LINES ROM`, then its text; a ROM is a file of that name, and `-` is none.
#![tactic(auto)]

mod answers;
mod differing;
mod failure;
mod header;
mod many;
mod rom;

ghost use Rattle.std.specs.Prelude.{◌≡◌, length};

use failure::Failure;
use program::End;
use std::env::Env;
use std::io::Read;
use std::rt::Files;

// So many bytes of images may come.
// Kept: buffers with a length beside them, since nothing is allocated.
const MOST: usize = 2_097_152;

// Room for all images, and for one byte more.
fn images() -> [u8; MOST + 1]
    ensures { 2097153 ≡ length result }
{
    [0; MOST + 1]
}

// Prints what of an image's answer differs from the base. By itself, so that the room for the answer is filled once.
fn print_state<R: Print>(
    rt: &R,
    base: &[u8],
    lines: u8,
    rom: &[u8],
    text: &[u8],
) -> Result<(), Failure> {
    let mut out = answers::buffer();
    let n = answers::answer(text, lines, rom, &mut out);
    differing::print_differing(rt, base, &out[..n])?;
    Ok(())
}

// Prints an image's title, and what of its answer differs from the base.
fn print_answer<R: Print>(
    rt: &R,
    base: &[u8],
    title: &[u8],
    lines: u8,
    rom: &[u8],
    text: &[u8],
) -> Result<(), Failure> {
    rt.write_all(title)?;
    rt.write_all(b"\n")?;
    print_state(rt, base, lines, rom, text)
}

// Answers one image: its header, and its text.
fn print_image<R: Files + Print>(rt: &R, base: &[u8], image: &[u8]) -> Result<(), Failure> {
    let header = header::read(frame::next_line(image)).ok_or(Failure::Header)?;
    let mut room = [0u8; rom::MOST + 1];
    let n = rom::read_rom(rt, header.rom, &mut room).map_err(|_| Failure::Rom)?;
    if rom::MOST < n {
        return Err(Failure::Rom);
    }
    let text = &image[many::line_len(image)..];
    print_answer(rt, base, header.title, header.lines, &room[..n], text)
}

// Prints the base, then the answers to all images of a file, up to the first that cannot be given.
// Kept: a loop with no count, since each image says how long it is.
fn print_all<R: Files + Print>(rt: &R, base: &[u8], file: &[u8]) -> Result<(), Failure> {
    rt.write_all(base)?;
    let mut rest = file;
    while !rest.is_empty() {
        let (image, others) = rest.split_at(many::image_len(rest));
        print_image(rt, base, image)?;
        rest = others;
    }
    Ok(())
}

// Answers all images of a file; the base is what an image leaves that leaves the machine fresh.
fn answer_file<R: Files + Print>(rt: &R, file: &[u8]) -> Result<(), Failure> {
    let mut base = answers::buffer();
    let n = answers::answer(b"0300000000\n", 0, &[], &mut base);
    print_all(rt, &base[..n], file)
}

// Reads all images and answers them; one byte more than may come is read, and no further.
fn answer_input<R: Env + Files + Print, I: Read>(rt: &R, input: &mut I) -> Result<(), Failure> {
    if program::has_arg(rt, 1) {
        return Err(Failure::Arguments);
    }
    let mut file = images();
    let n = program::read_whole(input, &mut file).map_err(|_| Failure::Input)?;
    if MOST < n {
        return Err(Failure::TooMany);
    }
    answer_file(rt, &file[..n])
}

// Answers all images on standard input, or says why not.
pub fn vectors<R: Env + Files + Print + Eprint, I: Read>(rt: &R, input: &mut I) -> End {
    match answer_input(rt, input) {
        Ok(()) => End::Answered,
        Err(failure) => failure.say(rt),
    }
}
