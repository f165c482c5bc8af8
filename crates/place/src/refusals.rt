// Why there is no image.
ghost use Rattle.std.specs.Prelude.{◌+◌, ◌≤◌, ◌<◌, ◌≡◌};
ghost use Rattle.place.specs.Files as F;
ghost use Rattle.place.specs.Made as M;

use crate::files::Files;
use crate::{Difference, Refusal};
use card::Machine;
use cp0::Cp0;
use effect::Cpu;
use elf::{Fault, Space};

impl Difference {
    // Its number.
    fn number(self) -> usize
        ensures { result ≡ M.difference_number self }
    {
        match self {
            Difference::Slots => 1,
            Difference::Bytes => 2,
            Difference::Mode => 3,
            Difference::Cu0 => 4,
            Difference::Asid => 5,
            Difference::Start => 6,
        }
    }
}

impl Refusal {
    // Its number.
    pub fn number(self) -> u8
        ensures { result ≡ M.number self }
    {
        match self {
            Refusal::File(_, f) => f.number(),
            Refusal::NoCode(_) => 17,
            Refusal::NoRoom(_, _) => 18,
            Refusal::TooLong(_) => 19,
            Refusal::NoImage(_) => 20,
            Refusal::Undone(_) => 21,
        }
    }

    // The number of the file that it is of; 0 where it is of none.
    pub fn file(self) -> usize
        ensures { result ≡ M.file self }
    {
        match self {
            Refusal::File(k, _) | Refusal::NoRoom(k, _) => k,
            _ => 0,
        }
    }

    // What it is about.
    pub fn about(self) -> usize
        ensures { result ≡ M.about self }
    {
        match self {
            Refusal::File(_, f) => f.about(),
            Refusal::NoCode(n) | Refusal::NoRoom(_, n) | Refusal::TooLong(n) => n,
            Refusal::NoImage(n) => usize::from(n),
            Refusal::Undone(d) => d.number(),
        }
    }
}

// A fault of file k.
fn of_file(k: usize, v: Result<(), Fault>) -> Result<(), Refusal>
    ensures { result ≡ M.of_file k v }
{
    v.map_err(|f| Refusal::File(k, f))
}

// The kernel's fault; alone, it is a program too.
#[tactic(auto, unfolding(crate::specs::Made::kernel_refusal, crate::specs::Made::kernel_fault))]
fn kernel_refusal(file: &[u8], n: u8) -> Result<(), Refusal>
    ensures { result ≡ M.kernel_refusal file.now n }
{
    if n == 0 {
        of_file(0, elf::program_fault(Space::Kernel, file))
    } else {
        of_file(0, elf::file_fault(Space::Kernel, file))
    }
}

// The fault of program k.
#[tactic(auto, unfolding(crate::specs::Made::program_refusal))]
fn program_refusal(files: Files, k: usize) -> Result<(), Refusal>
    ensures { result ≡ M.program_refusal (F.file_of files.entry) k }
{
    of_file(k, elf::program_fault(Space::User, files.file(k)))
}

// The first fault of the programs.
fn programs_refusal(files: Files, n: u8) -> Result<(), Refusal>
    ensures { result ≡ M.programs_refusal (F.file_of files.entry) n 1 }
{
    for k in 1..n as usize + 1 {
        program_refusal(files, k)?;
    }
    Ok(())
}

// Whether the kernel's word at a physical address is 0.
#[tactic(auto, unfolding(crate::specs::Made::blank))]
fn blank(file: &[u8], p: usize) -> bool
    requires { p ≤ 65536 }
    ensures { result ≡ M.blank file.now p }
{
    (p..p + 4).all(|q| elf::stands(Space::Kernel, file, q) == 0)
}

// No code at a vector.
// Kept: two tests, since a loop over the two needs an invariant that is longer than they are.
#[tactic(auto, unfolding(crate::specs::Made::vector_refusal))]
fn vector_refusal(file: &[u8], n: u8) -> Result<(), Refusal>
    ensures { result ≡ M.vector_refusal file.now n }
{
    if n == 0 {
        return Ok(());
    }
    if blank(file, 0) {
        return Err(Refusal::NoCode(0));
    }
    if blank(file, 0x180) {
        return Err(Refusal::NoCode(0x180));
    }
    Ok(())
}

// What is refused of the files by themselves.
#[tactic(auto, unfolding(crate::specs::Made::files_refusal))]
pub(crate) fn files_refusal(files: Files, n: u8) -> Result<(), Refusal>
    ensures { result ≡ M.files_refusal (F.file_of files.entry) n }
{
    let kernel = files.file(0);
    kernel_refusal(kernel, n)?;
    programs_refusal(files, n)?;
    vector_refusal(kernel, n)
}

// What a machine has otherwise than User mode with CU0 clear, ASID 1 and a User PC.
#[tactic(auto, unfolding(crate::specs::Made::unlike))]
fn unlike(cpu: Cpu, cp0: Cp0) -> Result<(), Difference>
    ensures { result ≡ M.unlike cpu cp0 }
{
    if !cp0::user(cp0.status) {
        return Err(Difference::Mode);
    }
    if (cp0.status >> 28) % 2 == 1 {
        return Err(Difference::Cu0);
    }
    if cp0.entryhi % 256 != 1 {
        return Err(Difference::Asid);
    }
    if 0x80000000 <= cpu.pc {
        return Err(Difference::Start);
    }
    Ok(())
}

// What a machine and its RAM have otherwise than was placed.
#[tactic(auto, unfolding(crate::specs::Made::undone))]
pub(crate) fn undone(
    m: &Machine,
    held: &[u8],
    tlb: &[u64; 192],
    ram: &[u8],
) -> Result<(), Difference>
    ensures { result ≡ M.undone m.now held.now tlb.now ram.now }
{
    if m.tlb != *tlb {
        return Err(Difference::Slots);
    }
    if held != ram {
        return Err(Difference::Bytes);
    }
    unlike(m.cpu, m.cp0)
}
