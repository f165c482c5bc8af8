// The image of a kernel and programs, or why there is none.
ghost use Rattle.std.specs.Prelude.{◌+◌, ◌<◌, ◌^◌, ◌≡◌, length};
ghost use Rattle.std.proofs.lemmas.List.Edits.{sets};
ghost use Rattle.place.specs.Files as F;
ghost use Rattle.place.specs.Made as M;

use crate::Refusal;
use crate::files::Files;
use crate::plan::{Plan, kernel_pages};
use crate::ram::fill;
use crate::refusals::{files_refusal, undone};

// A word, sign-extended.
#[tactic(auto, using(crate::proofs::Texts::extended_is))]
fn extended(v: usize) -> u64
    requires { v < 2 ^ 32 }
    ensures { result ≡ M.extended v }
{
    word::extend(v as u64)
}

// The entry point of the first program, sign-extended.
#[tactic(auto, unfolding(crate::specs::Made::starts))]
fn starts(files: Files, n: u8) -> u64
    ensures { result ≡ M.starts (F.file_of files.entry) n }
{
    let first = usize::from(n != 0);
    extended(elf::entry(files.file(first)))
}

// What is refused of a text by itself and by what it makes.
#[tactic(auto, unfolding(crate::specs::Made::read_refusal))]
fn late(text: &[u8], n: u8, tlb: &[u64; 192], ram: &[u8]) -> Result<(), Refusal>
    ensures { result ≡ M.read_refusal text.now n tlb.now ram.now }
{
    let mut held = [0u8; 65536];
    let image = image::read_image(text, &mut held);
    if let Some(r) = image.refusal {
        return Err(Refusal::NoImage(r.number));
    }
    if n == 0 {
        return Ok(());
    }
    undone(&image.machine, &held, tlb, ram).map_err(|d| Refusal::Undone(d))
}

// The length of the text of a RAM and a TLB, if it is an image of them.
fn text_of(
    ram: &[u8],
    tlb: &[u64; 192],
    used: u8,
    n: u8,
    pc: u64,
    settings: &[u8],
    out: &mut [u8],
) -> Result<usize, Refusal>
    requires { length out.old ≡ 65536 }
    ensures { M.Answered result out.new (M.text_answer tlb.now ram.now used n pc settings.now) (sets out.old 0 (M.written tlb.now ram.now used n pc settings.now)) }
{
    let end = answer::placed_text(out, ram, tlb, used, n != 0, pc, settings);
    if 65536 < end {
        return Err(Refusal::TooLong(end));
    }
    late(&out[..end], n, tlb, ram)?;
    Ok(end)
}

// The image of a kernel and n programs, as the length of its text; of a kernel alone in Kernel mode.
pub fn image_text(
    files: &[u8],
    ends: &[usize; 8],
    n: u8,
    settings: &[u8],
    out: &mut [u8; 65536],
) -> Result<usize, Refusal>
    ensures { M.Answered result out.new (M.made_of (F.file_at files.now ends.now) n settings.now) (M.out_after (F.file_at files.now ends.now) n settings.now out.old) }
{
    let files = Files { bytes: files, ends };
    files_refusal(files, n)?;
    let kernel = kernel_pages(files.file(0));
    let mut plan = Plan::begun(kernel);
    plan.add_programs(files, n);
    if let Some(k) = plan.full {
        return Err(Refusal::NoRoom(k, kernel));
    }
    let mut ram = [0u8; 65536];
    fill(files, kernel, &plan.pages, &mut ram);
    let pc = starts(files, n);
    text_of(&ram, &plan.tlb, plan.used as u8, n, pc, settings, out)
}
