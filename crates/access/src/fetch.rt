// The fetch: the word at PC, once PC is translated.
ghost use Rattle.std.specs.Prelude.{◌≡◌};
ghost use Rattle.memory.specs.Loads.{lwu};
ghost use Rattle.access.specs.Memory.{look};
ghost use Rattle.access.specs.Fetch as Rule;

use crate::{Memory, Unfetched};
use cp0::Exception;
use memory::{Eight, PAddr};
use tlb::{VAddr, Where};

// The word of the eight bytes that an address names.
#[tactic(auto, unfolding(memory::specs::Loads::lwu, memory::specs::Loads::span))]
fn fetched_word(n: u64, p: PAddr) -> u32
    ensures { result ≡ lwu n p }
{
    memory::lwu(n, p) as u32
}

// The word of the eight bytes that the fetch found, or a bus error.
#[tactic(auto, unfolding(crate::specs::Fetch::word_found))]
fn word_found(p: PAddr, x: Option<Eight>) -> Result<u32, Unfetched>
    ensures { result ≡ Rule.word_found p x }
{
    match x {
        Some(Eight::Ram(n) | Eight::Rom(n)) => Ok(fetched_word(n, p)),
        None => Err(Unfetched::Raise(Exception::IBE)),
    }
}

// The word at PC, once PC is translated, or what comes of it instead.
#[tactic(auto, unfolding(crate::specs::Fetch::word_at))]
pub fn word_at(pc: VAddr, m: &Memory, x: Where) -> Result<u32, Unfetched>
    ensures { result ≡ Rule.word_at pc (look m.now) x }
{
    match x {
        Where::Mapped(p, _) | Where::Unmapped(p) => word_found(p, m.read(p)),
        Where::Invalid(_) => Err(Unfetched::Raise(Exception::TLBL {
            bad: pc,
            refill: false,
        })),
        Where::Refill => Err(Unfetched::Raise(Exception::TLBL {
            bad: pc,
            refill: true,
        })),
        Where::Double => Err(Unfetched::Double),
        Where::AddressError => Err(Unfetched::Raise(Exception::AdEL(pc))),
    }
}
