// Logic, and the upper immediate.
ghost use Rattle.std.specs.Prelude.{◌≡◌};
ghost use Rattle.execute.specs.Logic as Logic;

use decode::{LogicImmediateOp, LogicOp};
use flow::Act;

// The register forms.
#[tactic(auto, unfolding(crate::specs::Logic::logic))]
pub fn logic(op: LogicOp, rs: u64, rt: u64, rd: usize) -> Act
    ensures { result ≡ Logic.logic op rs rt rd }
{
    let value = match op {
        LogicOp::AND => word::and(rs, rt),
        LogicOp::OR => word::or(rs, rt),
        LogicOp::XOR => word::xor(rs, rt),
        LogicOp::NOR => word::nor(rs, rt),
    };
    Act::Write { reg: rd, value }
}

// The immediate forms, of the immediate with zeros above it.
#[tactic(auto, unfolding(crate::specs::Logic::logic_immediate))]
pub fn logic_immediate(op: LogicImmediateOp, rs: u64, immediate: u64, rt: usize) -> Act
    ensures { result ≡ Logic.logic_immediate op rs immediate rt }
{
    let extended = immediate % 0x10000;
    let value = match op {
        LogicImmediateOp::ANDI => word::and(rs, extended),
        LogicImmediateOp::ORI => word::or(rs, extended),
        LogicImmediateOp::XORI => word::xor(rs, extended),
        LogicImmediateOp::LUI => word::lui(immediate),
    };
    Act::Write { reg: rt, value }
}
