// How Cpu and CP0 go on after a step, each in one place.
ghost use Rattle.std.specs.Prelude.{◌≡◌};
ghost use Rattle.effect.specs.After as Rule;

use crate::Cpu;
use access::Turn;
use cp0::Cp0;

// After a pending slot its target, else the next instruction.
#[tactic(auto, unfolding(crate::specs::After::onward))]
fn onward(cpu: Cpu, hi: u64, lo: u64, link: bool) -> Cpu
    ensures { result ≡ Rule.onward cpu hi lo link }
{
    let pc = if cpu.slot {
        cpu.target
    } else {
        cpu.pc.wrapping_add(4)
    };
    Cpu {
        pc,
        slot: false,
        target: 0,
        hi,
        lo,
        link,
    }
}

// At an address, with nothing pending.
#[tactic(auto, unfolding(crate::specs::After::arrived))]
fn arrived(cpu: Cpu, pc: u64, link: bool) -> Cpu
    ensures { result ≡ Rule.arrived cpu pc link }
{
    Cpu {
        pc,
        slot: false,
        target: 0,
        link,
        ..cpu
    }
}

// A branch leaves its slot pending.
#[tactic(auto, unfolding(crate::specs::After::pending))]
fn pending(cpu: Cpu, to: u64) -> Cpu
    ensures { result ≡ Rule.pending cpu to }
{
    Cpu {
        pc: cpu.pc.wrapping_add(4),
        slot: true,
        target: to,
        ..cpu
    }
}

// How each turn leaves PC, the pending slot, HI, LO and the link bit.
#[tactic(auto, unfolding(crate::specs::After::cpu_after))]
pub fn cpu_after(cpu: Cpu, cp0: Cp0, t: Turn) -> Cpu
    ensures { result ≡ Rule.cpu_after cpu cp0 t }
{
    match t {
        Turn::Next | Turn::Move { .. } | Turn::Read(_) | Turn::Probed(_) => {
            onward(cpu, cpu.hi, cpu.lo, cpu.link)
        }
        Turn::Branch { to } => pending(cpu, to),
        Turn::Skip => arrived(cpu, cpu.pc.wrapping_add(8), cpu.link),
        Turn::HiLo { hi, lo } => onward(cpu, hi, lo, cpu.link),
        Turn::Link(_) => onward(cpu, cpu.hi, cpu.lo, true),
        Turn::Enter(e) => arrived(cpu, cp0::vector(cp0.status, e), cpu.link),
        Turn::Eret => arrived(cpu, cp0::return_to(cp0), false),
        Turn::Stay => cpu,
    }
}

// How each turn leaves CP0; a counted step ends with Count, Compare and Random.
#[tactic(auto, unfolding(crate::specs::After::cp0_after))]
pub fn cp0_after(pc: u64, slot: bool, cp0: Cp0, t: Turn) -> Cp0
    ensures { result ≡ Rule.cp0_after pc slot cp0 t }
{
    match t {
        Turn::Next | Turn::Branch { .. } | Turn::Skip | Turn::HiLo { .. } => cp0::ended(false, cp0),
        Turn::Link(p) => cp0::ended(false, cp0::linked(cp0, p)),
        Turn::Enter(e) => cp0::ended(false, cp0::entered(cp0, pc, slot, e)),
        Turn::Move { number, value } => cp0::ended(number == 6, cp0::move_in(cp0, number, value)),
        Turn::Read(s) => cp0::ended(false, cp0::slot_read(cp0, s)),
        Turn::Probed(i) => cp0::ended(false, cp0::probed(cp0, i)),
        Turn::Eret => cp0::ended(false, cp0::returned(cp0)),
        Turn::Stay => cp0,
    }
}
