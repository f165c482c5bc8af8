// The jumps.
ghost use Rattle.std.specs.Prelude.{◌≡◌};
ghost use Rattle.flow.specs.Jumps as Jumps;

use crate::Act;
use decode::{JumpOp, JumpRegisterOp};

// Where J and JAL lead: bits 63..28 of the slot's address, then the word's twenty-six bits, then two zeros.
#[tactic(auto, unfolding(crate::specs::Jumps::jump_target))]
fn jump_target(pc: u64, target: u64) -> u64
    ensures { result ≡ Jumps.jump_target pc target }
{
    let slot = pc.wrapping_add(4);
    slot / 0x1000_0000 * 0x1000_0000 + target % 0x400_0000 * 4
}

// J and JAL.
#[tactic(auto, unfolding(crate::specs::Jumps::jump))]
pub fn jump(op: JumpOp, pc: u64, target: u64) -> Act
    ensures { result ≡ Jumps.jump op pc target }
{
    let to = jump_target(pc, target);
    match op {
        JumpOp::J => Act::Branch { to, link: 0 },
        JumpOp::JAL => Act::Branch { to, link: 31 },
    }
}

// JR and JALR, to the value of rs.
#[tactic(auto, unfolding(crate::specs::Jumps::jump_register))]
pub fn jump_register(op: JumpRegisterOp, rs: u64, rd: usize) -> Act
    ensures { result ≡ Jumps.jump_register op rs rd }
{
    match op {
        JumpRegisterOp::JR => Act::Branch { to: rs, link: 0 },
        JumpRegisterOp::JALR => Act::Branch { to: rs, link: rd },
    }
}
