// The branches: a comparison of the values of rs and rt, and what follows from it.
ghost use Rattle.std.specs.Prelude.{◌≡◌};
ghost use Rattle.flow.specs.Branches as Branches;

use crate::Act;
use decode::BranchOp;

// Where a branch leads: from its slot on by the sign-extended offset times 4.
#[tactic(auto, unfolding(crate::specs::Branches::branch_target))]
fn branch_target(pc: u64, offset: u64) -> u64
    ensures { result ≡ Branches.branch_target pc offset }
{
    let slot = pc.wrapping_add(4);
    slot.wrapping_add(word::extend_immediate(offset).wrapping_mul(4))
}

// A plain branch has its slot, taken or not.
// Kept: here and below two rules, of a plain branch and of a likely one.
#[tactic(auto, unfolding(crate::specs::Branches::plain))]
fn plain(taken: bool, link: usize, pc: u64, offset: u64) -> Act
    ensures { result ≡ Branches.plain taken link pc offset }
{
    let to = if taken {
        branch_target(pc, offset)
    } else {
        pc.wrapping_add(8)
    };
    Act::Branch { to, link }
}

// A likely branch not taken skips its slot.
#[tactic(auto, unfolding(crate::specs::Branches::likely))]
fn likely(taken: bool, link: usize, pc: u64, offset: u64) -> Act
    ensures { result ≡ Branches.likely taken link pc offset }
{
    if !taken {
        return Act::Skip { link };
    }
    Act::Branch {
        to: branch_target(pc, offset),
        link,
    }
}

// The branches by their names; those AND LINK link register 31, taken or not.
#[tactic(auto, unfolding(crate::specs::Branches::branch, crate::specs::Branches::equal, crate::specs::Branches::differ, crate::specs::Branches::below_zero, crate::specs::Branches::at_least_zero, crate::specs::Branches::at_most_zero, crate::specs::Branches::above_zero))]
pub fn branch(op: BranchOp, rs: u64, rt: u64, pc: u64, offset: u64) -> Act
    ensures { result ≡ Branches.branch op rs rt pc offset }
{
    match op {
        BranchOp::BEQ => plain(rs == rt, 0, pc, offset),
        BranchOp::BNE => plain(rs != rt, 0, pc, offset),
        BranchOp::BLEZ => plain(rs.cast_signed() <= 0, 0, pc, offset),
        BranchOp::BGTZ => plain(rs.cast_signed() > 0, 0, pc, offset),
        BranchOp::BLTZ => plain(rs.cast_signed() < 0, 0, pc, offset),
        BranchOp::BGEZ => plain(rs.cast_signed() >= 0, 0, pc, offset),
        BranchOp::BLTZAL => plain(rs.cast_signed() < 0, 31, pc, offset),
        BranchOp::BGEZAL => plain(rs.cast_signed() >= 0, 31, pc, offset),
        BranchOp::BEQL => likely(rs == rt, 0, pc, offset),
        BranchOp::BNEL => likely(rs != rt, 0, pc, offset),
        BranchOp::BLEZL => likely(rs.cast_signed() <= 0, 0, pc, offset),
        BranchOp::BGTZL => likely(rs.cast_signed() > 0, 0, pc, offset),
        BranchOp::BLTZL => likely(rs.cast_signed() < 0, 0, pc, offset),
        BranchOp::BGEZL => likely(rs.cast_signed() >= 0, 0, pc, offset),
        BranchOp::BLTZALL => likely(rs.cast_signed() < 0, 31, pc, offset),
        BranchOp::BGEZALL => likely(rs.cast_signed() >= 0, 31, pc, offset),
    }
}
