// Execution: every instruction as a function on numbers, which is handed no memory and no TLB.
#![tactic(auto)]

mod arithmetic; // arithmetic.rt: sums, differences and comparisons
mod load_store; // load_store.rt: addresses and alignment, what a load writes, what a store sends out
mod logic; // logic.rt: bit by bit, and the upper immediate
mod multiply; // multiply.rt: products and quotients to HI and LO, and the moves of these
mod shifts; // shifts.rt: by a count in the word or in a register
mod system; // system.rt: system calls, breakpoints, SYNC, and the moves of CP0
mod traps; // traps.rt: comparisons that raise Trap

ghost use Rattle.std.specs.Prelude.{◌≡◌};
ghost use Rattle.execute.specs.Execute as Execute;

use arithmetic::{arithmetic, arithmetic_immediate};
use decode::{Instr, TlbOp};
use flow::{Act, branch, jump, jump_register};
pub use load_store::{finish, goes_out, load_align, store_align};
use load_store::{load, store};
use logic::{logic, logic_immediate};
use multiply::{move_hi_lo, multiply};
use shifts::{shift, shift_variable};
use system::{move_cp0, special};
use traps::{trap, trap_immediate};

// What a CP0 instruction asks for.
#[derive(Clone, Copy)]
pub enum Command {
    // A move from the CP0 register `number`: the doubleword, or the low word of it, sign-extended.
    MoveFrom {
        reg: usize,
        number: usize,
        double: bool,
    },
    // A move to it of the value, which for MTC0 is the low word sign-extended.
    MoveTo {
        number: usize,
        value: u64,
    },
    Tlb(TlbOp),
    Eret,
}

// What an instruction comes to: an act that CP0 and the TLB have no part in, or a command to them.
#[derive(Clone, Copy)]
pub enum Executed {
    Plain(Act),
    Command(Command),
}

// What an instruction comes to, from PC, the values of the registers that its rs and rt fields name, HI and LO.
#[tactic(auto, unfolding(crate::specs::Execute::execute))]
pub fn execute(i: Instr, pc: u64, rs: u64, rt: u64, hi: u64, lo: u64) -> Executed
    ensures { result ≡ Execute.execute i pc rs rt hi lo }
{
    match i {
        Instr::Load {
            op,
            rt: t,
            offset,
            ..
        } => Executed::Plain(load(op, t, rs, offset)),
        Instr::Store {
            op,
            rt: t,
            offset,
            ..
        } => Executed::Plain(store(op, t, rs, offset)),
        Instr::Arithmetic { op, rd, .. } => Executed::Plain(arithmetic(op, rs, rt, rd)),
        Instr::ArithmeticImmediate {
            op,
            rt: t,
            immediate,
            ..
        } => Executed::Plain(arithmetic_immediate(op, rs, immediate, t)),
        Instr::Logic { op, rd, .. } => Executed::Plain(logic(op, rs, rt, rd)),
        Instr::LogicImmediate {
            op,
            rt: t,
            immediate,
            ..
        } => Executed::Plain(logic_immediate(op, rs, immediate, t)),
        Instr::Shift { op, rd, sa, .. } => Executed::Plain(shift(op, rt, sa, rd)),
        Instr::ShiftVariable { op, rd, .. } => Executed::Plain(shift_variable(op, rs, rt, rd)),
        Instr::Multiply { op, .. } => Executed::Plain(multiply(op, rs, rt)),
        Instr::HiLo { op, rd, .. } => Executed::Plain(move_hi_lo(op, rs, hi, lo, rd)),
        Instr::Branch { op, offset, .. } => Executed::Plain(branch(op, rs, rt, pc, offset)),
        Instr::Jump { op, target } => Executed::Plain(jump(op, pc, target)),
        Instr::JumpRegister { op, rd, .. } => Executed::Plain(jump_register(op, rs, rd)),
        Instr::Trap { op, .. } => Executed::Plain(trap(op, rs, rt)),
        Instr::TrapImmediate { op, immediate, .. } => Executed::Plain(trap_immediate(
            op, rs, immediate,
        )),
        Instr::Special(op) => Executed::Plain(special(op)),
        Instr::Cache => Executed::Plain(Act::Nothing),
        Instr::Move { op, rt: t, rd } => Executed::Command(move_cp0(op, rt, t, rd)),
        Instr::Tlb(op) => Executed::Command(Command::Tlb(op)),
        Instr::Eret => Executed::Command(Command::Eret),
    }
}
