// TLBP.
ghost use Rattle.std.specs.Prelude.{◌≡◌};
ghost use Rattle.tlb.specs.Probe as P;

use super::search::lookup;
use super::{DoubleMatch, Found, VAddr};

// What Index becomes, by the page and the ASID of EntryHi.
#[tactic(auto, unfolding(crate::specs::Probe::probe, crate::specs::Probe::probed))]
pub fn tlbp(tlb: &[u64; 192], entryhi: u64) -> Result<u64, DoubleMatch>
    ensures { result ≡ P.probe tlb.now entryhi }
{
    match lookup(tlb, entryhi % 256, VAddr(entryhi)) {
        Found::Absent => Ok(0x8000_0000),
        Found::One(i) => Ok(i as u64),
        Found::Many => Err(DoubleMatch),
    }
}
