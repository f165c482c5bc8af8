// One step of the machine, in place.
ghost use Rattle.std.specs.Prelude.{◌≡◌};
ghost use Rattle.access.specs.Effect.{number_of};
ghost use Rattle.card.specs.Machine.{machine};
ghost use Rattle.card.specs.Step as Rule;

use crate::Cored;
use access::{Memory, Stop};
use cp0::Cp0;
use effect::{Cpu, View};

// A register is written; r0 never is, whatever the number.
#[tactic(auto, unfolding(crate::specs::Step::put_reg))]
pub fn put_reg(regs: &mut [u64; 32], i: usize, v: u64)
    ensures { regs.new ≡ Rule.put_reg regs.old i v }
{
    if i % 32 != 0 {
        regs[i % 32] = v;
    }
}

// The number of document 01's table, 0 where nothing stops.
fn number_of(stop: Option<Stop>) -> u8
    ensures { result ≡ number_of stop }
{
    match stop {
        Some(why) => why.number(),
        None => 0,
    }
}

// One step: what it comes to, then the writes.
// Kept: the parts of a machine one by one, since the clause and all that stands on it speak of them so.
#[tactic(auto, unfolding(crate::specs::Step::step_of, crate::specs::Step::apply))]
pub fn core(
    cpu: Cpu,
    cp0: Cp0,
    regs: &mut [u64; 32],
    tlb: &mut [u64; 192],
    ram: &mut [u8],
    rom: &[u8],
    lines: u8,
) -> Cored
    ensures { Rule.Did (Rule.step_of (machine cpu cp0 regs.old tlb.old) ram.old rom.now lines) result regs.new tlb.new ram.new }
{
    let e = effect::effect_of(&View {
        cpu,
        cp0,
        regs,
        tlb,
        memory: Memory { ram, rom },
        lines,
    });
    put_reg(regs, e.reg, e.value);
    tlb::put_slot(tlb, e.slot);
    // A store of a step always lands: the access has found RAM there.
    let _ = memory::put_bytes(ram, e.store);
    let c = effect::cpu_after(cpu, cp0, e.turn);
    let z = effect::cp0_after(cpu.pc, cpu.slot, cp0, e.turn);
    Cored {
        cpu: c,
        cp0: z,
        stop: number_of(e.stop),
    }
}
