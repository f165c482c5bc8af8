// One step in order: interrupt, fetch, decode, execute, and what the instruction asks for.
ghost use Rattle.std.specs.Prelude.{◌≡◌};
ghost use Rattle.cp0.specs.Status.{CU0};
ghost use Rattle.access.specs.Memory.{look};
ghost use Rattle.effect.specs.Step as Rule;

use crate::View;
use crate::asked::{executed, leads};
use access::build::{raised, stopped};
use access::fetch::word_at;
use access::{Effect, Stop, Unfetched};
use cp0::Exception;
use decode::Instr;
use tlb::VAddr;
use usability::Unready;

// A word that may be executed, or what it raises or stops instead.
#[tactic(auto, unfolding(crate::specs::Step::readied))]
fn readied(v: &View, w: u32, x: Result<Instr, Unready>) -> Effect
    ensures { let v = v.now in result ≡ Rule.readied v.cpu v.cp0 v.regs.now v.tlb.now (look v.memory) v.lines w x }
{
    match x {
        Ok(i) => {
            let a = v.regs[decode::fields::rs(w)];
            let b = v.regs[decode::fields::rt(w)];
            let done = execute::execute(i, v.cpu.pc, a, b, v.cpu.hi, v.cpu.lo);
            executed(v, b, done)
        }
        Err(Unready::Unusable(u)) => raised(Exception::CpU(u)),
        Err(Unready::Reserved) => raised(Exception::RI),
        Err(Unready::InSlot) => stopped(Stop::BranchInSlot),
    }
}

// CU0 of Status.
fn cu0(status: u32) -> bool
    ensures { result ≡ CU0 status }
{
    status / 0x1000_0000 % 2 == 1
}

// A fetched word is decoded.
#[tactic(auto, unfolding(crate::specs::Step::decoded))]
fn decoded(v: &View, w: u32) -> Effect
    ensures { let v = v.now in result ≡ Rule.decoded v.cpu v.cp0 v.regs.now v.tlb.now (look v.memory) v.lines w }
{
    let x = usability::checks::ready(
        cp0::user(v.cp0.status),
        cu0(v.cp0.status),
        v.cpu.slot,
        decode::decode(w),
    );
    readied(v, w, x)
}

// The fetched word is decoded, or the step is what the fetch came to instead.
#[tactic(auto, unfolding(crate::specs::Step::begun))]
fn begun(v: &View, x: Result<u32, Unfetched>) -> Effect
    ensures { let v = v.now in result ≡ Rule.begun v.cpu v.cp0 v.regs.now v.tlb.now (look v.memory) v.lines x }
{
    match x {
        Ok(w) => decoded(v, w),
        Err(Unfetched::Raise(e)) => raised(e),
        Err(Unfetched::Double) => stopped(Stop::DoubleMatch),
    }
}

// What a step comes to: the interrupt, then the fetch.
#[tactic(auto, unfolding(crate::specs::Step::effect_of))]
pub fn effect_of(v: &View) -> Effect
    ensures { let v = v.now in result ≡ Rule.effect_of v.cpu v.cp0 v.regs.now v.tlb.now (look v.memory) v.lines }
{
    if cp0::interrupted(v.cp0.status, v.cp0.cause, v.lines) {
        return raised(Exception::Int);
    }
    let pc = VAddr(v.cpu.pc);
    let x = word_at(pc, &v.memory, leads(v.cp0, v.tlb, 4, pc));
    begun(v, x)
}
