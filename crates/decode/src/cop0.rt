// COP0 words: the four moves, the four TLB operations and ERET.
ghost use Rattle.std.specs.Prelude.{◌≡◌, Ok};
ghost use Rattle.decode.specs.Decode as D;

use super::{Instr, MoveOp, TlbOp, Undecoded, fields};

// A COP0 word with bit 25 clear, by its fields: a move by rs.
fn moves(rs: usize, rt: usize, rd: usize) -> Result<Instr, Undecoded>
    ensures { result ≡ D.move rs rt rd }
{
    let op = match rs {
        0 => MoveOp::MFC0,
        1 => MoveOp::DMFC0,
        4 => MoveOp::MTC0,
        5 => MoveOp::DMTC0,
        _ => return Err(Undecoded::ReservedCop0),
    };
    Ok(Instr::Move { op, rt, rd })
}

// A COP0 word with bit 25 set, by its function code.
#[tactic(auto, unfolding(crate::specs::Decode::operation))]
fn operation(funct: usize) -> Result<Instr, Undecoded>
    ensures { result ≡ D.operation funct }
{
    match funct {
        0x01 => Ok(Instr::Tlb(TlbOp::TLBR)),
        0x02 => Ok(Instr::Tlb(TlbOp::TLBWI)),
        0x06 => Ok(Instr::Tlb(TlbOp::TLBWR)),
        0x08 => Ok(Instr::Tlb(TlbOp::TLBP)),
        0x18 => Ok(Instr::Eret),
        _ => Err(Undecoded::ReservedCop0),
    }
}

// A COP0 word.
#[tactic(auto, unfolding(crate::specs::Decode::cop0))]
pub fn cop0(w: u32) -> Result<Instr, Undecoded>
    ensures { result ≡ D.cop0 w }
{
    if (w >> 25) % 2 == 1 {
        operation(fields::funct(w))
    } else {
        moves(fields::rs(w), fields::rt(w), fields::rd(w))
    }
}
