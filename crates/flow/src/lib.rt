// What an instruction asks for, and the instructions that decide where control goes.
#![tactic(auto)]

mod branches; // comparisons of registers, with a slot that is taken or skipped
mod jumps; // J, JAL, JR, JALR

pub use branches::branch;
use cp0::Exception;
use decode::{LoadOp, StoreOp};
pub use jumps::{jump, jump_register};
use tlb::VAddr;

// All that an instruction does, or asks for. Where a register is named, 0 means that none is written.
#[derive(Clone, Copy)]
pub enum Act {
    Nothing,
    Write { reg: usize, value: u64 },
    HiLo { hi: u64, lo: u64 },
    // The delay slot follows, then `to`; `link` receives the address of the instruction after the slot.
    Branch { to: u64, link: usize },
    // A likely branch that is not taken skips its slot.
    Skip { link: usize },
    Load { op: LoadOp, reg: usize, at: VAddr },
    Store { op: StoreOp, reg: usize, at: VAddr },
    Raise(Exception),
}
