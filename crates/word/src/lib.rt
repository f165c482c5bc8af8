// The arithmetic of words and doublewords, on the numbers that registers hold.
#![tactic(auto)]

mod comparisons; // comparisons.rt: SLT and the trap comparisons
mod logic; // logic.rt: AND, OR, XOR, NOR and LUI
mod products; // products.rt: MULT and its kin
mod quotients; // quotients.rt: DIV and its kin
mod reading; // reading.rt: low bits, sign extension, and signed numbers
mod shifts; // shifts.rt: shifts of words and doublewords
mod sums; // sums.rt: sums and differences, wrapped or tested for overflow

pub use comparisons::{slt, sltu, teq, tge, tgeu, tlt, tltu, tne};
pub use logic::{and, lui, nor, or, xor};
pub use products::{dmult, dmultu, mult, multu};
pub use quotients::{ddiv, ddivu, div, divu};
pub use reading::{extend, extend_byte, extend_half, extend_immediate, low_word};
pub use shifts::{dsll, dsll32, dsra, dsra32, dsrl, dsrl32, sll, sra, srl};
pub use sums::{add, addu, dadd, daddu, dsub, dsubu, sub, subu};

// What goes to HI and LO.
#[derive(Clone, Copy)]
pub struct HiLo {
    pub hi: u64,
    pub lo: u64,
}
