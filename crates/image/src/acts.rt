// What frames do to the machine, to RAM and to the budget.
ghost use Rattle.std.specs.Prelude.{◌≡◌};
ghost use Rattle.card.specs.Machine.{machine};
ghost use Rattle.image.specs.Acts as T;

use card::Machine;
use frame::{Frame, HI, LO, PC};
use memory::PAddr;
use tlb::{Slot, SlotWrite};

// 00 to 1f set a register; 20, 21 and 22 set HI, LO and PC.
fn set_register(m: &mut Machine, number: usize, value: u64)
    ensures { m.new ≡ machine (T.cpu_set m.old.cpu number value) m.old.cp0 (T.regs_set m.old.regs number value) m.old.tlb }
{
    match number {
        HI => m.cpu.hi = value,
        LO => m.cpu.lo = value,
        PC => m.cpu.pc = value,
        _ if number < HI => m.regs[number] = value,
        _ => {}
    }
}

// Values as moves to PageMask, EntryHi, EntryLo0 and EntryLo1 leave them.
fn moved(mask: u64, hi: u64, lo0: u64, lo1: u64) -> Slot
    ensures { result ≡ T.moved mask hi lo0 lo1 }
{
    Slot {
        mask,
        hi: hi / 8192 % 524288 * 8192 + hi % 256,
        lo0: lo0 % 1073741824,
        lo1: lo1 % 1073741824,
    }
}

// What a frame does.
#[tactic(auto, unfolding(crate::specs::Acts::act))]
pub fn act(f: Frame, m: &mut Machine, ram: &mut [u8], budget: &mut u64)
    ensures { T.loaded m.new ram.new budget.new ≡ T.act (T.loaded m.old ram.old budget.old) f }
{
    match f {
        Frame::Register { number, value } => set_register(m, number, value),
        Frame::Memory { address, value } => {
            // An allowed address is one of RAM, so the store lands.
            let _ = memory::put_bytes(ram, Some(memory::sd(PAddr(address), value)));
        }
        Frame::Budget(n) => *budget = n,
        Frame::Cp0 { number, value } => m.cp0 = cp0::move_in(m.cp0, number, value),
        Frame::Slot {
            index,
            mask,
            hi,
            lo0,
            lo1,
        } => {
            let moved = moved(mask, hi, lo0, lo1);
            tlb::put_slot(&mut m.tlb, Some(SlotWrite { index, moved }));
        }
    }
}
