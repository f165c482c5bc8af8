// Which calls are refused.
ghost use Rattle.std.specs.Prelude.{◌≡◌};
ghost use Rattle.card.specs.Machine.{machine};
ghost use Rattle.card.specs.Run as Rule;

use crate::range::in_range;
use cp0::Cp0;
use effect::Cpu;

// A multiple of 8 from `least` to `most`.
fn eights(least: usize, most: usize, n: usize) -> bool
    ensures { result ≡ Rule.eights least most n }
{
    n % 8 == 0 && least <= n && n <= most
}

// The first of the refusals 1 to 4 that applies, 0 for none.
// Kept: a number, since document 01's table is what people read.
#[tactic(auto, unfolding(crate::specs::Run::refusal_by))]
pub fn refusal(
    cpu: Cpu,
    cp0: Cp0,
    regs: &[u64; 32],
    tlb: &[u64; 192],
    ram: usize,
    rom: usize,
    lines: u8,
) -> u8
    ensures { result ≡ Rule.refusal_by (machine cpu cp0 regs.now tlb.now) ram rom lines }
{
    if !eights(8, 16777216, ram) {
        1
    } else if !eights(0, 4194304, rom) {
        2
    } else if lines > 31 {
        3
    } else if !in_range(cpu, cp0, regs, tlb) {
        4
    } else {
        0
    }
}
