// Shifts of the value of rt, written to rd.
ghost use Rattle.std.specs.Prelude.{◌≡◌};
ghost use Rattle.execute.specs.Shifts as Shifts;

use decode::{ShiftOp, ShiftVariableOp};
use flow::Act;

// By the count in the word.
#[tactic(auto, unfolding(crate::specs::Shifts::shift))]
pub fn shift(op: ShiftOp, rt: u64, sa: u64, rd: usize) -> Act
    ensures { result ≡ Shifts.shift op rt sa rd }
{
    let value = match op {
        ShiftOp::SLL => word::sll(rt, sa),
        ShiftOp::SRL => word::srl(rt, sa),
        ShiftOp::SRA => word::sra(rt, sa),
        ShiftOp::DSLL => word::dsll(rt, sa),
        ShiftOp::DSRL => word::dsrl(rt, sa),
        ShiftOp::DSRA => word::dsra(rt, sa),
        ShiftOp::DSLL32 => word::dsll32(rt, sa),
        ShiftOp::DSRL32 => word::dsrl32(rt, sa),
        ShiftOp::DSRA32 => word::dsra32(rt, sa),
    };
    Act::Write { reg: rd, value }
}

// By the value of rs.
// Kept: a map from these names to those of the shifts above would be as long as this match.
#[tactic(auto, unfolding(crate::specs::Shifts::shift_variable))]
pub fn shift_variable(op: ShiftVariableOp, rs: u64, rt: u64, rd: usize) -> Act
    ensures { result ≡ Shifts.shift_variable op rs rt rd }
{
    let value = match op {
        ShiftVariableOp::SLLV => word::sll(rt, rs),
        ShiftVariableOp::SRLV => word::srl(rt, rs),
        ShiftVariableOp::SRAV => word::sra(rt, rs),
        ShiftVariableOp::DSLLV => word::dsll(rt, rs),
        ShiftVariableOp::DSRLV => word::dsrl(rt, rs),
        ShiftVariableOp::DSRAV => word::dsra(rt, rs),
    };
    Act::Write { reg: rd, value }
}
