// The range that a run accepts.
ghost use Rattle.std.specs.Prelude.{◌≡◌};
ghost use Rattle.card.specs.Machine as Rule;

use cp0::Cp0;
use effect::Cpu;

// No target without a slot.
#[tactic(auto, unfolding(crate::specs::Machine::cpu_in_range))]
fn cpu_in_range(cpu: Cpu) -> bool
    ensures { result ≡ Rule.cpu_in_range cpu }
{
    cpu.slot || cpu.target == 0
}

// Every field of a machine is in its range.
#[tactic(auto, unfolding(crate::specs::Machine::in_range))]
pub fn in_range(cpu: Cpu, cp0: Cp0, regs: &[u64; 32], tlb: &[u64; 192]) -> bool
    ensures { result ≡ Rule.in_range (Rule.machine cpu cp0 regs.now tlb.now) }
{
    regs[0] == 0 && cpu_in_range(cpu) && cp0::cp0_in_range(cp0) && tlb::tlb_in_range(tlb)
}
