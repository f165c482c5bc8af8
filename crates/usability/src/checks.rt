// The checks on a word once it is decoded, in their order.
ghost use Rattle.std.specs.Prelude.{◌≡◌};
ghost use Rattle.usability.specs.Ready as U;

use crate::{Unready, doubleword};
use decode::{Instr, Undecoded};

// A CP0 instruction, or CACHE.
pub fn is_cp0(i: Instr) -> bool
    ensures { result ≡ U.is_cp0 i }
{
    matches!(
        i,
        Instr::Cache | Instr::Move { .. } | Instr::Tlb(_) | Instr::Eret
    )
}

// A branch, a jump or ERET.
pub fn is_branch(i: Instr) -> bool
    ensures { result ≡ U.is_branch i }
{
    matches!(
        i,
        Instr::Branch { .. } | Instr::Jump { .. } | Instr::JumpRegister { .. } | Instr::Eret
    )
}

// Any word, with User mode, CU0 and a pending slot: the first check that refuses it, else the instruction.
#[tactic(auto, unfolding(crate::specs::Ready::ready, crate::specs::Ready::reserved_cop0, crate::specs::Ready::usable, crate::specs::Ready::allowed, crate::specs::Ready::in_place))]
pub fn ready(
    user: bool,
    cu0: bool,
    slot: bool,
    d: Result<Instr, Undecoded>,
) -> Result<Instr, Unready>
    ensures { result ≡ U.ready user cu0 slot d }
{
    let locked = user && !cu0;
    let i = match d {
        Ok(i) => i,
        Err(Undecoded::Coprocessor(unit)) => return Err(Unready::Unusable(unit)),
        Err(Undecoded::ReservedCop0) if locked => return Err(Unready::Unusable(0)),
        Err(Undecoded::ReservedCop0 | Undecoded::Reserved) => return Err(Unready::Reserved),
    };
    if locked && is_cp0(i) {
        return Err(Unready::Unusable(0));
    }
    if user && doubleword::is_double(i) {
        return Err(Unready::Reserved);
    }
    if slot && is_branch(i) {
        return Err(Unready::InSlot);
    }
    Ok(i)
}
