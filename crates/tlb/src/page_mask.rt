// PageMask: legal values, and the size of pages.
ghost use Rattle.std.specs.Prelude.{◌≡◌};
ghost use Rattle.tlb.specs.PageMask as P;

// Bits 24..13.
pub(crate) fn run(mask: u64) -> u64
    ensures { result ≡ P.run mask }
{
    mask / 8192 % 4096
}

// Bits 24..13 are a run of ones from bit 13 up, even in number, and no other bit is set.
#[tactic(auto, unfolding(crate::specs::PageMask::legal_mask, crate::specs::PageMask::trailing_ones))]
pub fn legal_mask(mask: u64) -> bool
    ensures { result ≡ P.legal_mask mask }
{
    let run = run(mask);
    let ones = run.count_ones();
    mask == run * 8192 && ones == run.trailing_ones() && ones % 2 == 0
}

// How many ones stand at the right end of those bits.
#[tactic(auto, unfolding(crate::specs::PageMask::trailing_ones))]
pub(crate) fn run_ones(mask: u64) -> u32
    ensures { result ≡ P.trailing_ones (P.run mask) }
{
    run(mask).trailing_ones()
}

// The address bit that picks one of a slot's halves.
#[tactic(auto, unfolding(crate::specs::PageMask::page_bits), using(crate::proofs::Pages::run_le))]
pub fn page_bits(mask: u64) -> u32
    ensures { result ≡ P.page_bits mask }
{
    12 + run_ones(mask)
}
