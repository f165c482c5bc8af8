// The search for the slots that match an address.
ghost use Rattle.std.specs.Prelude.{◌≡◌, ◌/◌, ◌^◌, ◌<◌};
ghost use Rattle.tlb.specs.Match as M;

use super::{Found, VAddr};

// The unmasked bits 31..13 agree.
fn same_page(mask: u64, hi: u64, v: u64) -> bool
    ensures { result ≡ M.agree M.page_width (mask / 2 ^ 13) (hi / 2 ^ 13) (v / 2 ^ 13) }
{
    ((hi ^ v) & (mask ^ 0xffff_e000)) / 8192 % 524288 == 0
}

// The slot is global or of this address space.
#[tactic(auto, unfolding(crate::specs::Match::same_space))]
fn same_space(hi: u64, asid: u64) -> bool
    ensures { result ≡ M.same_space hi asid }
{
    hi / 4096 % 2 == 1 || hi % 256 == asid
}

// A slot with this mask and page matches the address.
#[tactic(auto, unfolding(crate::specs::Match::hits))]
fn hits(mask: u64, hi: u64, asid: u64, v: u64) -> bool
    ensures { result ≡ M.hits M.page_width mask hi asid v }
{
    same_page(mask, hi, v) && same_space(hi, asid)
}

// One slot more: the first that matches is the one, two are many.
#[tactic(auto, unfolding(crate::specs::Match::more))]
fn more(hit: bool, i: usize, found: Found) -> Found
    ensures { result ≡ M.more hit i found }
{
    match found {
        _ if !hit => found,
        Found::Absent => Found::One(i),
        Found::One(_) | Found::Many => Found::Many,
    }
}

// Slot i looked at, after those that gave `found`.
#[tactic(auto, unfolding(crate::specs::Match::matches_at, crate::specs::Slot::slot_at))]
fn next(tlb: &[u64; 192], asid: u64, v: VAddr, i: usize, found: Found) -> Found
    requires { i < 48 }
    ensures { result ≡ M.more (M.matches_at tlb.now asid v i) i found }
{
    more(hits(tlb[i * 4], tlb[i * 4 + 1], asid, v.0), i, found)
}

// Four slots from i on.
// Kept: four calls, since a loop of one slot a turn takes a fifth more instructions.
#[tactic(auto, unfolding(crate::specs::Match::seek))]
fn next_four(tlb: &[u64; 192], asid: u64, v: VAddr, i: usize, found: Found) -> Found
    requires { i < 45 }
    ensures { result ≡ M.seek 4 i tlb.now asid v found }
{
    let first = next(tlb, asid, v, i, found);
    let second = next(tlb, asid, v, i + 1, first);
    let third = next(tlb, asid, v, i + 2, second);
    next(tlb, asid, v, i + 3, third)
}

// The search of all 48 slots.
#[tactic(auto, unfolding(crate::specs::Match::lookup, crate::specs::Match::seek), using(crate::proofs::Seek::four_more))]
pub fn lookup(tlb: &[u64; 192], asid: u64, v: VAddr) -> Found
    ensures { result ≡ M.lookup tlb.now asid v }
{
    let mut found = Found::Absent;
    for turn in 0..12 {
        found = next_four(tlb, asid, v, turn * 4, found);
    }
    found
}
