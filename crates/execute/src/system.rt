// System calls, breakpoints, SYNC, and the moves from and to CP0.
ghost use Rattle.std.specs.Prelude.{◌≡◌};
ghost use Rattle.execute.specs.System as System;

use crate::Command;
use cp0::Exception;
use decode::{MoveOp, SpecialOp};
use flow::Act;

// System call and breakpoint raise, SYNC does nothing.
#[tactic(auto, unfolding(crate::specs::System::special))]
pub fn special(op: SpecialOp) -> Act
    ensures { result ≡ System.special op }
{
    match op {
        SpecialOp::SYSCALL => Act::Raise(Exception::Sys),
        SpecialOp::BREAK => Act::Raise(Exception::Bp),
        SpecialOp::SYNC => Act::Nothing,
    }
}

// A move between register rt, whose value is `value`, and the CP0 register rd.
#[tactic(auto, unfolding(crate::specs::System::move_cp0))]
pub fn move_cp0(op: MoveOp, value: u64, rt: usize, rd: usize) -> Command
    ensures { result ≡ System.move_cp0 op value rt rd }
{
    match op {
        MoveOp::MFC0 => Command::MoveFrom {
            reg: rt,
            number: rd,
            double: false,
        },
        MoveOp::DMFC0 => Command::MoveFrom {
            reg: rt,
            number: rd,
            double: true,
        },
        MoveOp::MTC0 => Command::MoveTo {
            number: rd,
            value: word::extend(value),
        },
        MoveOp::DMTC0 => Command::MoveTo { number: rd, value },
    }
}
