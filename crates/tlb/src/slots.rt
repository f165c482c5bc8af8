// Slots of the TLB: one by its number, a write, and a read.
ghost use Rattle.std.specs.Prelude.{◌≡◌, ◌%◌, ◌<◌};
ghost use Rattle.tlb.specs.PageMask as P;
ghost use Rattle.tlb.specs.Slot as S;

use super::page_mask::run;
use super::{Slot, SlotWrite};

// A slot by its number.
#[tactic(auto, unfolding(crate::specs::Slot::slot_at))]
pub(crate) fn slot(tlb: &[u64; 192], i: usize) -> Slot
    requires { i < 48 }
    ensures { result ≡ S.slot_at tlb.now i }
{
    Slot {
        mask: tlb[i * 4],
        hi: tlb[i * 4 + 1],
        lo0: tlb[i * 4 + 2],
        lo1: tlb[i * 4 + 3],
    }
}

// A slot by its number, of which 48 are told apart.
pub fn slot_at(tlb: &[u64; 192], index: usize) -> Slot
    ensures { result ≡ S.slot_at tlb.now (index % 48) }
{
    slot(tlb, index % 48)
}

// The page number in EntryHi.
pub(crate) fn page(hi: u64) -> u64
    ensures { result ≡ S.page hi }
{
    hi / 8192 % 524288
}

// Frame, C, D and V of EntryLo, without its G.
fn without_g(lo: u64) -> u64
    ensures { result ≡ S.without_g lo }
{
    lo / 2 % 536870912 * 2
}

// The page number without its bits under the mask.
#[tactic(auto, unfolding(crate::specs::Slot::cleared))]
fn cleared(mask: u64, page: u64) -> u64
    ensures { result ≡ S.cleared mask page }
{
    page & (524287 - run(mask))
}

// G at bit 12, where both halves have it at bit 0.
#[tactic(auto, unfolding(crate::specs::Slot::both_global))]
fn both_global(lo0: u64, lo1: u64) -> u64
    ensures { result ≡ S.both_global lo0 lo1 }
{
    if lo0 % 2 == 1 && lo1 % 2 == 1 {
        4096
    } else {
        0
    }
}

// What a write keeps of the values moved to PageMask, EntryHi, EntryLo0 and EntryLo1.
#[tactic(auto, unfolding(crate::specs::Slot::stored), using(crate::proofs::Kept::cleared_le, crate::proofs::Kept::global_le))]
pub fn stored(moved: Slot) -> Slot
    ensures { result ≡ S.stored moved }
{
    let kept = cleared(moved.mask, page(moved.hi));
    Slot {
        mask: moved.mask,
        hi: kept * 8192 + both_global(moved.lo0, moved.lo1) + moved.hi % 256,
        lo0: without_g(moved.lo0),
        lo1: without_g(moved.lo1),
    }
}

// The write of a step, if there is one; a slot of 48 or more is none.
#[tactic(auto, unfolding(crate::specs::Slot::put_slot, crate::specs::Slot::set_slot))]
pub fn put_slot(tlb: &mut [u64; 192], s: Option<SlotWrite>)
    ensures { tlb.new ≡ S.put_slot tlb.old s }
{
    if let Some(write) = s
        && write.index < 48
    {
        let kept = stored(write.moved);
        let i = write.index * 4;
        tlb[i] = kept.mask;
        tlb[i + 1] = kept.hi;
        tlb[i + 2] = kept.lo0;
        tlb[i + 3] = kept.lo1;
    }
}

// A slot as TLBR gives it, with G in both halves.
#[tactic(auto, unfolding(crate::specs::Slot::shown))]
fn shown(s: Slot) -> Slot
    ensures { result ≡ S.shown s }
{
    let global = s.hi / 4096 % 2;
    Slot {
        mask: s.mask,
        hi: page(s.hi) * 8192 + s.hi % 256,
        lo0: without_g(s.lo0) + global,
        lo1: without_g(s.lo1) + global,
    }
}

// TLBR; a slot of 48 or more is none.
#[tactic(auto, unfolding(crate::specs::Slot::read_slot))]
pub fn read_slot(tlb: &[u64; 192], index: usize) -> Option<Slot>
    ensures { result ≡ S.read_slot tlb.now index }
{
    if index < 48 {
        Some(shown(slot(tlb, index)))
    } else {
        None
    }
}
