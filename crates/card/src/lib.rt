// The card: the machine, one step of it, and a run.
#![tactic(auto)]

mod calls;
mod inner;
mod lent;
mod range;
mod runs;
mod start;

pub use calls::refusal;
use cp0::Cp0;
use effect::Cpu;
pub use inner::{core, put_reg};
pub use lent::step_in;
pub use range::in_range;
pub use runs::{run, step};
pub use start::fresh;

// The whole machine but for its memory; `tlb` holds 48 slots of four numbers.
// Kept: numbers and no array of slots, since the theorems about accepted machines say that there are 192.
#[derive(Clone, Copy)]
pub struct Machine {
    pub cpu: Cpu,
    pub cp0: Cp0,
    pub regs: [u64; 32],
    pub tlb: [u64; 192],
}

// What a step leaves besides what it is lent.
#[derive(Clone, Copy)]
pub struct Cored {
    pub cpu: Cpu,
    pub cp0: Cp0,
    pub stop: u8,
}

// A machine after a step, and the number of document 01's table.
#[derive(Clone, Copy)]
pub struct Stepped {
    pub machine: Machine,
    pub stop: u8,
}

// A machine after a run, the counted steps, and the number of document 01's table.
#[derive(Clone, Copy)]
pub struct Ran {
    pub machine: Machine,
    pub steps: u64,
    pub stop: u8,
}
