// The image of a kernel and programs: which page of RAM and which slot each page gets, what the RAM holds, and the text.
#![tactic(auto)]

mod files;
mod making;
mod plan;
mod ram;
mod refusals;

use elf::Fault;
pub use making::image_text;

// Whose a page of RAM is: the program's page, and the program's ASID.
#[derive(Clone, Copy)]
pub struct Owner {
    pub page: u32,
    pub asid: usize,
}

// What a machine has otherwise than what was placed, or than a User program is to start with.
#[derive(Clone, Copy)]
pub enum Difference {
    Slots,
    Bytes,
    Mode,
    Cu0,
    Asid,
    Start,
}

// Why there is no image: a fault of a file; no code at a vector; a program for which there is no page, after so many of the kernel's;
// a text so long, or refused by the reader by this number; what SETTINGS undid.
#[derive(Clone, Copy)]
pub enum Refusal {
    File(usize, Fault),
    NoCode(usize),
    NoRoom(usize, usize),
    TooLong(usize),
    NoImage(u8),
    Undone(Difference),
}
