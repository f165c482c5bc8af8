// Runs the image on standard input, prints the answer and says how it ended.
#![tactic(auto)]

ghost use Rattle.answer.specs.Wrote.{Wrote};
ghost use Rattle.cardrun_main.specs.Printed.{printed};

use program::End;
use std::env::Env;
use std::io::Read;

// So many bytes an image may have, and its RAM.
// Kept: buffers with a length beside them, since nothing is allocated.
const TEXT: usize = 65536;

const RAM: usize = 65536;

// The text that answers an image; RAM is what the image asks for, and there is no ROM and no interrupt line.
fn answer_to(text: &[u8], ram: &mut [u8], out: &mut [u8]) -> usize
    ensures { Wrote out.old 0 (printed text.now ram.old) result out.new }
{
    let i = image::read_image(text, ram);
    match i.refusal {
        Some(r) => answer::refusal_text(out, r.number, r.line),
        None => answer::cardrun_text(out, card::run(i.machine, ram, &[], 0, i.budget)),
    }
}

// Answers an image: every answer fits the room.
fn answer_image<R: Print + Eprint>(rt: &R, text: &[u8]) -> End {
    let mut ram = [0u8; RAM];
    let mut out = [0u8; 1024];
    let n = answer_to(text, &mut ram, &mut out);
    program::give(
        rt,
        &out[..n],
        b"cardrun: not all of the answer could be written to standard output\n",
    )
}

// Takes no arguments, reads the image and answers it; one byte more than an image may have is read, and no further.
pub fn cardrun<R: Env + Print + Eprint, I: Read>(rt: &R, input: &mut I) -> End {
    if program::has_arg(rt, 1) {
        return program::misused(
            rt,
            b"cardrun: no arguments are taken; the image is standard input\n",
        );
    }
    let mut text = [0u8; TEXT + 1];
    let Ok(n) = program::read_whole(input, &mut text) else {
        return program::unread(rt, b"cardrun: standard input cannot be read\n");
    };
    answer_image(rt, &text[..n])
}
