// Where a mapped address leads, through the one slot that matches it.
ghost use Rattle.std.specs.Prelude.{◌≡◌};
ghost use Rattle.tlb.specs.Translate as T;

use super::page_mask::{page_bits, run_ones};
use super::search::lookup;
use super::slots::slot;
use super::{Found, Half, Slot, VAddr, Where};
use memory::PAddr;

// The frame without its ignored bits, and the offset in the page.
fn physical(mask: u64, lo: u64, v: u64) -> u64
    ensures { result ≡ T.physical mask lo v }
{
    let ones = run_ones(mask);
    let bytes = 1u64 << page_bits(mask);
    (lo / 64 % 16777216 >> ones) * bytes + (v & (bytes - 1))
}

// Through slot i, by the half that the address picks.
#[tactic(auto, unfolding(crate::specs::Translate::through_slot, crate::specs::Translate::through, crate::specs::Translate::lo_of), using(crate::proofs::Pages::bits_le))]
fn through_slot(s: Slot, i: usize, v: VAddr) -> Where
    ensures { result ≡ T.through_slot s i v }
{
    let odd = (v.0 >> page_bits(s.mask)) % 2;
    let lo = if odd == 1 { s.lo1 } else { s.lo0 };
    let half = Half {
        slot: i,
        odd,
        cache: lo / 8 % 8,
        dirty: lo / 4 % 2 == 1,
    };
    if lo / 2 % 2 == 1 {
        Where::Mapped(PAddr(physical(s.mask, lo, v.0)), half)
    } else {
        Where::Invalid(half)
    }
}

// Where a mapped address leads.
#[tactic(auto, unfolding(crate::specs::Translate::mapped, crate::specs::Translate::through_found), using(crate::proofs::Tells::one_below))]
pub fn mapped(tlb: &[u64; 192], asid: u64, v: VAddr) -> Where
    ensures { result ≡ T.mapped tlb.now asid v }
{
    match lookup(tlb, asid, v) {
        Found::Absent => Where::Refill,
        Found::One(i) => through_slot(slot(tlb, i), i, v),
        Found::Many => Where::Double,
    }
}
