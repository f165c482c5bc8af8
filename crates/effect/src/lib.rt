// What a step comes to, as numbers only: fetch and access look at memory, nothing here changes it.
#![tactic(auto)]

mod after;
mod asked;
mod step;

use access::Memory;
pub use after::{cp0_after, cpu_after};
use cp0::Cp0;
pub use step::effect_of;

// What a User program may change besides the registers: PC, the pending slot and where it leads, HI, LO and the link bit.
// Kept: no Option of a target, since a target without a slot is a machine that is refused, so the type has to hold it.
#[derive(Clone, Copy)]
pub struct Cpu {
    pub pc: u64,
    pub slot: bool,
    pub target: u64,
    pub hi: u64,
    pub lo: u64,
    pub link: bool,
}

// What a step looks at, lent: the machine, its memory and the interrupt lines.
#[derive(Clone, Copy)]
pub struct View<'a> {
    pub cpu: Cpu,
    pub cp0: Cp0,
    pub regs: &'a [u64; 32],
    pub tlb: &'a [u64; 192],
    pub memory: Memory<'a>,
    pub lines: u8,
}
