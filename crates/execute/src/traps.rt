// The traps.
ghost use Rattle.std.specs.Prelude.{◌≡◌};
ghost use Rattle.execute.specs.Traps as Traps;

use cp0::Exception;
use decode::{TrapImmediateOp, TrapOp};
use flow::Act;

// Trap where the comparison holds, else nothing.
#[tactic(auto, unfolding(crate::specs::Traps::trap_if))]
fn trap_if(holds: bool) -> Act
    ensures { result ≡ Traps.trap_if holds }
{
    if holds {
        Act::Raise(Exception::Tr)
    } else {
        Act::Nothing
    }
}

// The register forms.
#[tactic(auto, unfolding(crate::specs::Traps::trap))]
pub fn trap(op: TrapOp, rs: u64, rt: u64) -> Act
    ensures { result ≡ Traps.trap op rs rt }
{
    let holds = match op {
        TrapOp::TGE => word::tge(rs, rt),
        TrapOp::TGEU => word::tgeu(rs, rt),
        TrapOp::TLT => word::tlt(rs, rt),
        TrapOp::TLTU => word::tltu(rs, rt),
        TrapOp::TEQ => word::teq(rs, rt),
        TrapOp::TNE => word::tne(rs, rt),
    };
    trap_if(holds)
}

// The immediate forms, of the extended immediate.
// Kept: a map from these names to those of the register forms would be as long as this match.
#[tactic(auto, unfolding(crate::specs::Traps::trap_immediate))]
pub fn trap_immediate(op: TrapImmediateOp, rs: u64, immediate: u64) -> Act
    ensures { result ≡ Traps.trap_immediate op rs immediate }
{
    let extended = word::extend_immediate(immediate);
    let holds = match op {
        TrapImmediateOp::TGEI => word::tge(rs, extended),
        TrapImmediateOp::TGEIU => word::tgeu(rs, extended),
        TrapImmediateOp::TLTI => word::tlt(rs, extended),
        TrapImmediateOp::TLTIU => word::tltu(rs, extended),
        TrapImmediateOp::TEQI => word::teq(rs, extended),
        TrapImmediateOp::TNEI => word::tne(rs, extended),
    };
    trap_if(holds)
}
