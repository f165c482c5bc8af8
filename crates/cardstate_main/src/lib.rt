// Runs the image on standard input, prints the whole state after it and says how it ended. Arguments: the interrupt lines,
// and the boot ROM's file.
#![tactic(auto)]

mod arguments;

ghost use Rattle.std.specs.Prelude.{◌≡◌};
ghost use Rattle.answer.specs.Wrote.{Wrote};
ghost use Rattle.cardstate_main.specs.Printed.{printed, ram_left};

use program::End;
use std::env::Env;
use std::io::Read;
use std::rt::Files;

// So many bytes an image may have, its RAM and the boot ROM; and room for an answer.
// Kept: buffers with a length beside them, since nothing is allocated.
const TEXT: usize = 65536;

const RAM: usize = 65536;

const ROM: usize = 4_194_304;

const ROOM: usize = 262_144;

// Writes the text that answers an image, run with a ROM and interrupt lines, and says where it ends.
pub fn answer_to(text: &[u8], ram: &mut [u8], rom: &[u8], lines: u8, out: &mut [u8]) -> usize
    ensures answer { Wrote out.old 0 (printed text.now ram.old rom.now lines) result out.new }
    ensures memory { ram.new ≡ ram_left text.now ram.old rom.now lines }
{
    let i = image::read_image(text, ram);
    match i.refusal {
        Some(r) => answer::refusal_text(out, r.number, r.line),
        None => {
            let ran = card::run(i.machine, ram, rom, lines, i.budget);
            answer::cardstate_text(out, ran, ram)
        }
    }
}

// Answers an image: every answer fits the room.
fn answer_image<R: Print + Eprint>(rt: &R, text: &[u8], rom: &[u8], lines: u8) -> End {
    let mut ram = [0u8; RAM];
    let mut out = [0u8; ROOM];
    let n = answer_to(text, &mut ram, rom, lines, &mut out);
    program::give(
        rt,
        &out[..n],
        b"cardstate: not all of the answer could be written to standard output\n",
    )
}

// Reads the image and answers it; one byte more than an image may have is read, and no further.
fn answer_input<R: Print + Eprint, I: Read>(rt: &R, input: &mut I, rom: &[u8], lines: u8) -> End {
    let mut text = [0u8; TEXT + 1];
    let Ok(n) = program::read_whole(input, &mut text) else {
        return program::unread(rt, b"cardstate: standard input cannot be read\n");
    };
    answer_image(rt, &text[..n], rom, lines)
}

// Reads the boot ROM and answers; there is room for one byte more than it may have, and no further byte is read.
fn start<R: Env + Files + Print + Eprint, I: Read>(
    rt: &R,
    input: &mut I,
    room: &mut [u8; ROM + 1],
    lines: u8,
) -> End {
    let Ok(n) = arguments::read_rom(rt, room) else {
        return program::unread(rt, b"cardstate: the boot ROM cannot be read\n");
    };
    answer_input(rt, input, &room[..n], lines)
}

// Reads the arguments and answers.
pub fn cardstate<R: Env + Files + Print + Eprint, I: Read>(rt: &R, input: &mut I) -> End {
    let Some(lines) = arguments::lines_given(rt) else {
        return program::misused(
            rt,
            b"cardstate: the arguments are [LINES [ROM]]: interrupt lines, one or two lowercase hexadecimal digits, and the boot ROM's file\n",
        );
    };
    let mut room = [0u8; ROM + 1];
    start(rt, input, &mut room, lines)
}
