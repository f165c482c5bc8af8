// A mill's program as an ELF file: what is wrong with it, its segments, what stands at each address, and its symbols.
#![tactic(auto)]

mod bytes;
mod faults;
mod headers;
mod homes;
mod paging;
mod symbols;

pub use faults::{file_fault, head_fault, program_fault};
pub use headers::{count, entry};
pub use homes::stands;
pub use paging::pages_at;
pub use symbols::symbol_named;

// Whose addresses a file has.
#[derive(Clone, Copy)]
pub enum Space {
    User,
    Kernel,
}

// A program header.
#[derive(Clone, Copy)]
pub struct Header {
    pub kind: u32,
    pub offset: u32,
    pub vaddr: u32,
    pub filesz: u32,
    pub memsz: u32,
    pub flags: u32,
}

// The pages of a segment.
#[derive(Clone, Copy)]
pub struct Pages {
    pub first: usize,
    pub count: usize,
    pub writable: bool,
}

// Why a file is refused, and what that is about: a number of its header, or the number of a program header.
#[derive(Clone, Copy)]
pub enum Fault {
    NotElf,
    Short(usize),
    Class(usize),
    Order(usize),
    Machine(usize),
    Unlinked(usize),
    HeaderSize(usize),
    TooMany(usize),
    NoTable(usize),
    NotStored(usize),
    MoreInFile(usize),
    TooLarge(usize),
    Leaves(usize),
    Shared(usize),
    NoSegment,
    NoEntry(usize),
}

// A section header.
#[derive(Clone, Copy)]
pub struct Section {
    pub kind: u32,
    pub offset: u32,
    pub size: u32,
    pub link: u32,
}
