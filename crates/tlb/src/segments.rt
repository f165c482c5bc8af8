// The map of segments.
ghost use Rattle.std.specs.Prelude.{◌≡◌};
ghost use Rattle.tlb.specs.Segments as S;

use super::through::mapped;
use super::{Mode, VAddr, Where};
use memory::PAddr;

// Where User's segment ends, and where Kernel's first unmapped and next mapped segments start, in 32 bits.
const USEG_END: u64 = 0x8000_0000;

const KSEG0: u64 = 0x8000_0000;

const KSEG2: u64 = 0xc000_0000;

// The address is a multiple of `align`, which is 1, 2, 4 or 8 wherever an instruction asks.
// Kept: a case for each of these, since a remainder by a constant is faster than a division.
#[tactic(auto, unfolding(crate::specs::Segments::aligned))]
fn aligned(align: u64, v: VAddr) -> bool
    ensures { result ≡ S.aligned align v }
{
    match align {
        4 => v.0 % 4 == 0,
        8 => v.0 % 8 == 0,
        1 => true,
        2 => v.0 % 2 == 0,
        0 => v.0 == 0,
        _ => v.0 % align == 0,
    }
}

// The address is the sign extension of its low 32 bits.
#[tactic(auto, using(crate::proofs::Extended::extended_low, crate::proofs::Extended::extended_high))]
fn extended(v: VAddr) -> bool
    ensures { result ≡ S.extended v }
{
    v.0 < 0x8000_0000 || 0xffff_ffff_8000_0000 <= v.0
}

// Kernel's upper half: two unmapped segments, then a mapped one.
#[tactic(auto, unfolding(crate::specs::Segments::upper))]
fn upper(asid: u64, tlb: &[u64; 192], v: VAddr) -> Where
    ensures { result ≡ S.upper asid tlb.now v }
{
    let word = v.0 % 0x1_0000_0000;
    if word < KSEG2 {
        Where::Unmapped(PAddr(word % 0x2000_0000))
    } else {
        mapped(tlb, asid, v)
    }
}

// The map of each mode.
#[tactic(auto, unfolding(crate::specs::Segments::segment))]
fn segment(mode: Mode, asid: u64, tlb: &[u64; 192], v: VAddr) -> Where
    ensures { result ≡ S.segment mode asid tlb.now v }
{
    let word = v.0 % 0x1_0000_0000;
    match mode {
        Mode::User if word < USEG_END => mapped(tlb, asid, v),
        Mode::User => Where::AddressError,
        Mode::Kernel if word < KSEG0 => mapped(tlb, asid, v),
        Mode::Error if word < KSEG0 => Where::Unmapped(PAddr(word)),
        Mode::Kernel | Mode::Error => upper(asid, tlb, v),
    }
}

// Where an address leads, for what is `align` bytes in size.
#[tactic(auto, unfolding(crate::specs::Segments::translate))]
pub fn translate(mode: Mode, asid: u64, tlb: &[u64; 192], align: u64, v: VAddr) -> Where
    ensures { result ≡ S.translate mode asid tlb.now align v }
{
    if aligned(align, v) && extended(v) {
        segment(mode, asid, tlb, v)
    } else {
        Where::AddressError
    }
}
