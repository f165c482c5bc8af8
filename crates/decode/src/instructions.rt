// The instruction of an entry, with the fields that it uses.
ghost use Rattle.std.specs.Prelude.{◌≡◌};
ghost use Rattle.decode.specs.Decode as D;
ghost use Rattle.decode.specs.Fields as F;

use super::maps::Entry;
use super::{
    ArithmeticImmediateOp, Instr, LoadOp, LogicImmediateOp, StoreOp, Undecoded, cop0, fields,
};

// A load.
// Kept: here and below makers of four groups, so that the match stays short.
fn load(op: LoadOp, w: u32) -> Instr
    ensures { result ≡ Instr.Load op (F.rs w) (F.rt w) (F.immediate w) }
{
    Instr::Load {
        op,
        base: fields::rs(w),
        rt: fields::rt(w),
        offset: fields::immediate(w),
    }
}

// A store.
fn store(op: StoreOp, w: u32) -> Instr
    ensures { result ≡ Instr.Store op (F.rs w) (F.rt w) (F.immediate w) }
{
    Instr::Store {
        op,
        base: fields::rs(w),
        rt: fields::rt(w),
        offset: fields::immediate(w),
    }
}

// Arithmetic with an immediate.
fn arithmetic_immediate(op: ArithmeticImmediateOp, w: u32) -> Instr
    ensures { result ≡ Instr.ArithmeticImmediate op (F.rs w) (F.rt w) (F.immediate w) }
{
    Instr::ArithmeticImmediate {
        op,
        rs: fields::rs(w),
        rt: fields::rt(w),
        immediate: fields::immediate(w),
    }
}

// Logic with an immediate.
fn logic_immediate(op: LogicImmediateOp, w: u32) -> Instr
    ensures { result ≡ Instr.LogicImmediate op (F.rs w) (F.rt w) (F.immediate w) }
{
    Instr::LogicImmediate {
        op,
        rs: fields::rs(w),
        rt: fields::rt(w),
        immediate: fields::immediate(w),
    }
}

// What a word is by its entry.
pub fn instruction(entry: Entry, w: u32) -> Result<Instr, Undecoded>
    ensures { result ≡ D.instruction entry w }
{
    let rs = fields::rs(w);
    let rt = fields::rt(w);
    let rd = fields::rd(w);
    let sa = fields::sa(w);
    let immediate = fields::immediate(w);
    let offset = immediate;
    let target = fields::target(w);
    let instr = match entry {
        Entry::Reserved => return Err(Undecoded::Reserved),
        Entry::Cop0 => return cop0::cop0(w),
        Entry::Coprocessor(unit) => return Err(Undecoded::Coprocessor(unit)),
        Entry::Cache => Instr::Cache,
        Entry::Load(op) => load(op, w),
        Entry::Store(op) => store(op, w),
        Entry::Arithmetic(op) => Instr::Arithmetic { op, rs, rt, rd },
        Entry::ArithmeticImmediate(op) => arithmetic_immediate(op, w),
        Entry::Logic(op) => Instr::Logic { op, rs, rt, rd },
        Entry::LogicImmediate(op) => logic_immediate(op, w),
        Entry::Shift(op) => Instr::Shift { op, rt, rd, sa },
        Entry::ShiftVariable(op) => Instr::ShiftVariable { op, rs, rt, rd },
        Entry::Multiply(op) => Instr::Multiply { op, rs, rt },
        Entry::HiLo(op) => Instr::HiLo { op, rs, rd },
        Entry::Branch(op) => Instr::Branch { op, rs, rt, offset },
        Entry::Jump(op) => Instr::Jump { op, target },
        Entry::JumpRegister(op) => Instr::JumpRegister { op, rs, rd },
        Entry::Trap(op) => Instr::Trap { op, rs, rt },
        Entry::TrapImmediate(op) => Instr::TrapImmediate { op, rs, immediate },
        Entry::Special(op) => Instr::Special(op),
    };
    Ok(instr)
}
