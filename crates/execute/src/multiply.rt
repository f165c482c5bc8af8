// Products and quotients, to HI and LO, and the moves from and to these.
ghost use Rattle.std.specs.Prelude.{◌≡◌};
ghost use Rattle.execute.specs.Multiply as Multiply;

use decode::{HiLoOp, MultiplyOp};
use flow::Act;
use word::HiLo;

// Products and quotients.
#[tactic(auto, unfolding(crate::specs::Multiply::multiply, crate::specs::Multiply::to_hi_lo))]
pub fn multiply(op: MultiplyOp, rs: u64, rt: u64) -> Act
    ensures { result ≡ Multiply.multiply op rs rt }
{
    let HiLo { hi, lo } = match op {
        MultiplyOp::MULT => word::mult(rs, rt),
        MultiplyOp::MULTU => word::multu(rs, rt),
        MultiplyOp::DIV => word::div(rs, rt),
        MultiplyOp::DIVU => word::divu(rs, rt),
        MultiplyOp::DMULT => word::dmult(rs, rt),
        MultiplyOp::DMULTU => word::dmultu(rs, rt),
        MultiplyOp::DDIV => word::ddiv(rs, rt),
        MultiplyOp::DDIVU => word::ddivu(rs, rt),
    };
    Act::HiLo { hi, lo }
}

// The moves from HI and LO to rd, and from rs to one of them.
#[tactic(auto, unfolding(crate::specs::Multiply::move_hi_lo))]
pub fn move_hi_lo(op: HiLoOp, rs: u64, hi: u64, lo: u64, rd: usize) -> Act
    ensures { result ≡ Multiply.move_hi_lo op rs hi lo rd }
{
    match op {
        HiLoOp::MFHI => Act::Write { reg: rd, value: hi },
        HiLoOp::MTHI => Act::HiLo { hi: rs, lo },
        HiLoOp::MFLO => Act::Write { reg: rd, value: lo },
        HiLoOp::MTLO => Act::HiLo { hi, lo: rs },
    }
}
