// The fresh machine.
ghost use Rattle.std.specs.Prelude.{◌≡◌};
ghost use Rattle.card.specs.Machine as Rule;

use crate::Machine;
use effect::Cpu;

// The 48 slots of a fresh machine, four numbers each: slot i holds page 80000000 + i * 2000h, not valid.
fn fresh_slots() -> [u64; 192]
    ensures { result ≡ Rule.fresh_slots 48 0 }
{
    let mut slots = [0; 192];
    for i in 0..48 {
        slots[i * 4 + 1] = 0x80000000 + (i as u64) * 0x2000;
    }
    slots
}

// The machine as it is switched on.
#[tactic(auto, unfolding(crate::specs::Machine::fresh))]
pub fn fresh() -> Machine
    ensures { result ≡ Rule.fresh }
{
    let cpu = Cpu {
        pc: 0xffff_ffff_bfc0_0000,
        slot: false,
        target: 0,
        hi: 0,
        lo: 0,
        link: false,
    };
    Machine {
        cpu,
        cp0: cp0::fresh_cp0(),
        regs: [0; 32],
        tlb: fresh_slots(),
    }
}
