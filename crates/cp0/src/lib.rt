// CP0: the kept registers, moves to and from them, the mode, exceptions, and the end of a step.
#![tactic(auto)]

mod exceptions;
mod moves;
mod range;
mod registers;
mod status;
mod tick;

pub use exceptions::{entered, return_to, returned, vector};
pub use moves::{check_move, move_in, move_out};
pub use range::cp0_in_range;
pub use registers::{fresh_cp0, kept, linked, probed, slot_read};
pub use status::{interrupted, mode_of, user};
pub use tick::ended;
use tlb::VAddr;

// The registers that are kept, 0 to 6, 8 to 17 and 28 to 30, by their manual names.
#[derive(Clone, Copy)]
pub struct Cp0 {
    pub index: u32,
    pub random: u32,
    pub entrylo0: u32,
    pub entrylo1: u32,
    pub context: u64,
    pub pagemask: u32,
    pub wired: u32,
    pub badvaddr: u64,
    pub count: u32,
    pub entryhi: u64,
    pub compare: u32,
    pub status: u32,
    pub cause: u32,
    pub epc: u64,
    pub prid: u32,
    pub config: u32,
    pub lladdr: u32,
    pub taglo: u32,
    pub taghi: u32,
    pub errorepc: u64,
}

// The exceptions by their manual names, with what each brings along: the bad address, whether no slot matched, the unit.
#[derive(Clone, Copy)]
pub enum Exception {
    Int,
    Mod(VAddr),
    TLBL { bad: VAddr, refill: bool },
    TLBS { bad: VAddr, refill: bool },
    AdEL(VAddr),
    AdES(VAddr),
    IBE,
    DBE,
    Sys,
    Bp,
    RI,
    CpU(u8),
    Ov,
    Tr,
}

// A move's value is not built, which is stop 18.
#[derive(Clone, Copy)]
pub struct NotBuilt;

// The address that an exception leaves: the one of an address error, or the one of a TLB exception.
#[derive(Clone, Copy)]
pub enum Bad {
    Address(VAddr),
    Page(VAddr),
}

// What an exception tells: its code, the unit for CE, whether it is a refill, and its address if it leaves one.
#[derive(Clone, Copy)]
pub struct Told {
    pub code: u32,
    pub unit: u32,
    pub refill: bool,
    pub bad: Option<Bad>,
}
