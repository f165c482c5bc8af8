// The range of a slot.
ghost use Rattle.std.specs.Prelude.{◌≡◌};
ghost use Rattle.tlb.specs.Range as R;

use super::Slot;
use super::page_mask::{legal_mask, run};
use super::slots::{page, slot};

// Page number, G and ASID only, and the page number clear under the mask.
#[tactic(auto, unfolding(crate::specs::Range::hi_in_range))]
fn hi_in_range(mask: u64, hi: u64) -> bool
    ensures { result ≡ R.hi_in_range mask hi }
{
    hi < 0x1_0000_0000 && hi / 256 % 16 == 0 && page(hi) & run(mask) == 0
}

// Frame, C, D and V only.
#[tactic(auto, unfolding(crate::specs::Range::lo_in_range))]
fn lo_in_range(lo: u64) -> bool
    ensures { result ≡ R.lo_in_range lo }
{
    lo < 0x4000_0000 && lo % 2 == 0
}

// A slot is in range.
#[tactic(auto, unfolding(crate::specs::Range::slot_in_range))]
pub fn slot_in_range(s: Slot) -> bool
    ensures { result ≡ R.slot_in_range s }
{
    legal_mask(s.mask) && hi_in_range(s.mask, s.hi) && lo_in_range(s.lo0) && lo_in_range(s.lo1)
}

// All 48 slots are in range.
// Kept: a `for`, since the search does not prove `all` over a range of numbers here.
#[tactic(auto, using(crate::proofs::StaysInRange::in_range_each, crate::proofs::StaysInRange::each_in_range))]
pub fn tlb_in_range(tlb: &[u64; 192]) -> bool
    ensures { result ≡ R.tlb_in_range tlb.now }
{
    for i in 0..48 {
        if !slot_in_range(slot(tlb, i)) {
            return false;
        }
    }
    true
}
