// Whether the step may go on with a word once it is decoded.
#![tactic(auto)]

pub mod checks; // the checks, in their order
mod doubleword; // the doubleword instructions

// Why the step may not go on to execute it: Coprocessor Unusable with its unit; Reserved Instruction; stop 17.
#[derive(Clone, Copy)]
pub enum Unready {
    Unusable(u8),
    Reserved,
    InSlot,
}
