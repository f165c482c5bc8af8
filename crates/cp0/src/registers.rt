// The kept registers: the bits that each keeps, and what LL, TLBP and TLBR leave in them.
ghost use Rattle.std.specs.Prelude.{◌≡◌};
ghost use Rattle.cp0.specs.Registers as R;

use crate::Cp0;
use memory::PAddr;
use tlb::Slot;

// Whether a register is kept, by its number.
#[tactic(auto, using(crate::proofs::NotKept::kept_is))]
pub fn kept(number: usize) -> bool
    ensures { result ≡ R.kept? number }
{
    matches!(number, 0..=6 | 8..=17 | 28..=30)
}

// The low word.
pub fn low(x: u64) -> u32
    ensures { result ≡ R.low x }
{
    (x % 0x1_0000_0000) as u32
}

// Index's bits 31 and 5..0.
// Kept: here and below a rule for each register, as the manual draws it.
pub fn kept_index(x: u32) -> u32
    ensures { result ≡ R.kept_index x }
{
    x / 0x8000_0000 % 2 * 0x8000_0000 + x % 64
}

// EntryLo's bits 29..0.
pub fn kept_entrylo(x: u32) -> u32
    ensures { result ≡ R.kept_entry_lo x }
{
    x % 0x4000_0000
}

// Wired's bits 5..0.
pub fn kept_wired(x: u32) -> u32
    ensures { result ≡ R.kept_wired x }
{
    x % 64
}

// EntryHi's page and ASID.
pub fn kept_entryhi(x: u64) -> u64
    ensures { result ≡ R.kept_entry_hi x }
{
    x / 0x2000 % 0x8_0000 * 0x2000 + x % 256
}

// Status's CU0, BEV, IM, KSU, ERL, EXL and IE.
pub fn kept_status(x: u32) -> u32
    ensures { result ≡ R.kept_status x }
{
    x / 0x1000_0000 % 2 * 0x1000_0000 + x / 0x40_0000 % 2 * 0x40_0000 + x / 256 % 256 * 256 + x % 32
}

// Context's bits 63..4.
pub fn kept_context(x: u64) -> u64
    ensures { result ≡ R.kept_context x }
{
    x / 16 % 0x1000_0000_0000_0000 * 16
}

// Cause's BD, CE, IP7, IP1..0 and ExcCode.
pub fn kept_cause(x: u32) -> u32
    ensures { result ≡ R.kept_cause x }
{
    x / 0x8000_0000 % 2 * 0x8000_0000
        + x / 0x1000_0000 % 4 * 0x1000_0000
        + x / 0x8000 % 2 * 0x8000
        + x / 256 % 4 * 256
        + x / 4 % 32 * 4
}

// LL leaves the physical address.
#[tactic(auto, unfolding(crate::specs::Registers::linked, crate::specs::Registers::set))]
pub fn linked(cp0: Cp0, p: PAddr) -> Cp0
    ensures { result ≡ R.linked cp0 p }
{
    Cp0 {
        lladdr: low(p.0 / 16),
        ..cp0
    }
}

// TLBP leaves what it found.
#[tactic(auto, unfolding(crate::specs::Registers::probed, crate::specs::Registers::set))]
pub fn probed(cp0: Cp0, index: u64) -> Cp0
    ensures { result ≡ R.probed cp0 index }
{
    Cp0 {
        index: low(index),
        ..cp0
    }
}

// TLBR leaves a slot's values.
#[tactic(auto, unfolding(crate::specs::Registers::slot_read, crate::specs::Registers::set))]
pub fn slot_read(cp0: Cp0, s: Slot) -> Cp0
    ensures { result ≡ R.slot_read cp0 s }
{
    Cp0 {
        pagemask: low(s.mask),
        entryhi: s.hi,
        entrylo0: low(s.lo0),
        entrylo1: low(s.lo1),
        ..cp0
    }
}

// The registers of the fresh machine.
#[tactic(auto, unfolding(crate::specs::Registers::fresh))]
pub fn fresh_cp0() -> Cp0
    ensures { result ≡ R.fresh }
{
    Cp0 {
        index: 0,
        random: 47,
        entrylo0: 0,
        entrylo1: 0,
        context: 0,
        pagemask: 0,
        wired: 0,
        badvaddr: 0,
        count: 0,
        entryhi: 0,
        compare: 0,
        status: 0x0040_0004,
        cause: 0,
        epc: 0,
        prid: 0x0400,
        config: 0x8000,
        lladdr: 0,
        taglo: 0,
        taghi: 0,
        errorepc: 0,
    }
}
