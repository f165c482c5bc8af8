// Sums, differences and comparisons.
ghost use Rattle.std.specs.Prelude.{◌≡◌};
ghost use Rattle.execute.specs.Arithmetic as Arithmetic;

use cp0::Exception;
use decode::{ArithmeticImmediateOp, ArithmeticOp};
use flow::Act;

// A sum that fits is written, one that does not raises Integer Overflow.
#[tactic(auto, unfolding(crate::specs::Arithmetic::trapping))]
fn trapping(reg: usize, sum: Option<u64>) -> Act
    ensures { result ≡ Arithmetic.trapping reg sum }
{
    match sum {
        Some(value) => Act::Write { reg, value },
        None => Act::Raise(Exception::Ov),
    }
}

// The register forms.
#[tactic(auto, unfolding(crate::specs::Arithmetic::arithmetic, crate::specs::Arithmetic::trapping))]
pub fn arithmetic(op: ArithmeticOp, rs: u64, rt: u64, rd: usize) -> Act
    ensures { result ≡ Arithmetic.arithmetic op rs rt rd }
{
    let sum = match op {
        ArithmeticOp::ADD => word::add(rs, rt),
        ArithmeticOp::ADDU => Some(word::addu(rs, rt)),
        ArithmeticOp::SUB => word::sub(rs, rt),
        ArithmeticOp::SUBU => Some(word::subu(rs, rt)),
        ArithmeticOp::DADD => word::dadd(rs, rt),
        ArithmeticOp::DADDU => Some(word::daddu(rs, rt)),
        ArithmeticOp::DSUB => word::dsub(rs, rt),
        ArithmeticOp::DSUBU => Some(word::dsubu(rs, rt)),
        ArithmeticOp::SLT => Some(word::slt(rs, rt)),
        ArithmeticOp::SLTU => Some(word::sltu(rs, rt)),
    };
    trapping(rd, sum)
}

// The immediate forms, of the extended immediate.
// Kept: a map from these names to those of the register forms would be as long as this match.
#[tactic(auto, unfolding(crate::specs::Arithmetic::arithmetic_immediate, crate::specs::Arithmetic::trapping))]
pub fn arithmetic_immediate(op: ArithmeticImmediateOp, rs: u64, immediate: u64, rt: usize) -> Act
    ensures { result ≡ Arithmetic.arithmetic_immediate op rs immediate rt }
{
    let extended = word::extend_immediate(immediate);
    let sum = match op {
        ArithmeticImmediateOp::ADDI => word::add(rs, extended),
        ArithmeticImmediateOp::ADDIU => Some(word::addu(rs, extended)),
        ArithmeticImmediateOp::DADDI => word::dadd(rs, extended),
        ArithmeticImmediateOp::DADDIU => Some(word::daddu(rs, extended)),
        ArithmeticImmediateOp::SLTI => Some(word::slt(rs, extended)),
        ArithmeticImmediateOp::SLTIU => Some(word::sltu(rs, extended)),
    };
    trapping(rt, sum)
}
