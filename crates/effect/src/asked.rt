// What an instruction asks for, done: accesses, CP0 moves, TLB operations.
ghost use Rattle.std.specs.Prelude.{◌≡◌};
ghost use Rattle.access.specs.Memory.{look};
ghost use Rattle.flow.specs.Address.{after_slot};
ghost use Rattle.effect.specs.Step as Rule;

use crate::View;
use access::build::{counted, raised, stopped, turned, wrote};
use access::data::{loaded, saved};
use access::{Effect, Stop, Turn};
use cp0::{Cp0, NotBuilt};
use decode::TlbOp;
use execute::{Command, Executed};
use flow::Act;
use tlb::{DoubleMatch, Slot, SlotWrite, VAddr, Where};

// Where an address leads, by the mode and the ASID that CP0 holds.
pub fn leads(cp0: Cp0, tlb: &[u64; 192], align: u64, v: VAddr) -> Where
    ensures { result ≡ Rule.leads cp0 tlb.now align v }
{
    tlb::translate(cp0::mode_of(cp0.status), cp0.entryhi % 256, tlb, align, v)
}

// The four registers that a TLB write takes its values from.
fn moved(cp0: Cp0) -> Slot
    ensures { result ≡ Rule.moved cp0 }
{
    Slot {
        mask: u64::from(cp0.pagemask),
        hi: cp0.entryhi,
        lo0: u64::from(cp0.entrylo0),
        lo1: u64::from(cp0.entrylo1),
    }
}

// TLBR's slot goes to PageMask, EntryHi and EntryLo.
#[tactic(auto, unfolding(crate::specs::Step::from_slot))]
fn from_slot(x: Option<Slot>) -> Effect
    ensures { result ≡ Rule.from_slot x }
{
    match x {
        Some(s) => turned(Turn::Read(s)),
        None => turned(Turn::Next),
    }
}

// TLBP's answer goes to Index.
#[tactic(auto, unfolding(crate::specs::Step::from_probe))]
fn from_probe(x: Result<u64, DoubleMatch>) -> Effect
    ensures { result ≡ Rule.from_probe x }
{
    match x {
        Ok(i) => turned(Turn::Probed(i)),
        Err(_) => stopped(Stop::DoubleMatch),
    }
}

// A TLB write goes to a slot.
fn written(cp0: Cp0, index: usize) -> Effect
    ensures { result ≡ Rule.written cp0 index }
{
    let slot = SlotWrite {
        index,
        moved: moved(cp0),
    };
    counted(Turn::Next, 0, 0, Some(slot), None)
}

// The four TLB operations.
#[tactic(auto, unfolding(crate::specs::Step::tlb_done))]
fn tlb_done(op: TlbOp, cp0: Cp0, tlb: &[u64; 192]) -> Effect
    ensures { result ≡ Rule.tlb_done op cp0 tlb.now }
{
    match op {
        TlbOp::TLBR => from_slot(tlb::read_slot(tlb, (cp0.index % 64) as usize)),
        TlbOp::TLBWI => written(cp0, (cp0.index % 64) as usize),
        TlbOp::TLBWR => written(cp0, cp0.random as usize),
        TlbOp::TLBP => from_probe(tlb::tlbp(tlb, cp0.entryhi)),
    }
}

// A move to CP0, or stop 18.
#[tactic(auto, unfolding(crate::specs::Step::moved_to))]
fn moved_to(number: usize, value: u64, x: Result<(), NotBuilt>) -> Effect
    ensures { result ≡ Rule.moved_to number value x }
{
    match x {
        Ok(()) => turned(Turn::Move { number, value }),
        Err(_) => stopped(Stop::NotBuilt),
    }
}

// What MFC0 and DMFC0 bring.
fn moved_from(double: bool, x: u64) -> u64
    ensures { result ≡ Rule.moved_from double x }
{
    if double { x } else { word::extend(x) }
}

// The address of the instruction after the delay slot.
fn after_slot(pc: u64) -> u64
    ensures { result ≡ after_slot pc }
{
    pc.wrapping_add(8)
}

// What an instruction asks for is done; `value` is that of its register rt.
#[tactic(auto, unfolding(crate::specs::Step::asked))]
pub fn asked(v: &View, value: u64, x: Act) -> Effect
    ensures { let v = v.now in result ≡ Rule.asked v.cpu v.cp0 v.tlb.now (look v.memory) value x }
{
    match x {
        Act::Nothing => turned(Turn::Next),
        Act::Write { reg, value } => wrote(reg, value),
        Act::HiLo { hi, lo } => turned(Turn::HiLo { hi, lo }),
        Act::Branch { to, link } => {
            counted(Turn::Branch { to }, link, after_slot(v.cpu.pc), None, None)
        }
        Act::Skip { link } => counted(Turn::Skip, link, after_slot(v.cpu.pc), None, None),
        Act::Load { op, reg, at } => loaded(
            op,
            reg,
            value,
            at,
            &v.memory,
            leads(v.cp0, v.tlb, execute::load_align(op), at),
        ),
        Act::Store { op, reg, at } => saved(
            op,
            reg,
            v.cpu.link,
            value,
            at,
            &v.memory,
            leads(v.cp0, v.tlb, execute::store_align(op), at),
        ),
        Act::Raise(e) => raised(e),
    }
}

// What a CP0 instruction asks for is done.
#[tactic(auto, unfolding(crate::specs::Step::commanded))]
pub fn commanded(v: &View, x: Command) -> Effect
    ensures { let v = v.now in result ≡ Rule.commanded v.cp0 v.tlb.now v.lines x }
{
    match x {
        Command::MoveFrom {
            reg,
            number,
            double,
        } => wrote(
            reg,
            moved_from(double, cp0::move_out(v.cp0, v.lines, number)),
        ),
        Command::MoveTo { number, value } => moved_to(
            number,
            value,
            cp0::check_move(number, value),
        ),
        Command::Tlb(op) => tlb_done(op, v.cp0, v.tlb),
        Command::Eret => turned(Turn::Eret),
    }
}

// What an instruction does or asks for.
#[tactic(auto, unfolding(crate::specs::Step::executed))]
pub fn executed(v: &View, value: u64, x: Executed) -> Effect
    ensures { let v = v.now in result ≡ Rule.executed v.cpu v.cp0 v.tlb.now (look v.memory) v.lines value x }
{
    match x {
        Executed::Plain(a) => asked(v, value, a),
        Executed::Command(c) => commanded(v, c),
    }
}
