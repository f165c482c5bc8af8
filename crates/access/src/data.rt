// The data access of a step, once its address is translated.
ghost use Rattle.std.specs.Prelude.{◌≡◌};
ghost use Rattle.access.specs.Memory.{look};
ghost use Rattle.access.specs.Access as Rule;

use crate::build::{counted, raised, stopped};
use crate::{Effect, Memory, Stop, Turn};
use cp0::Exception;
use decode::{LoadOp, StoreOp};
use memory::{Eight, PAddr, Store};
use tlb::{VAddr, Where};

// LL and LLD set the link bit and LLAddr.
#[tactic(auto, unfolding(crate::specs::Access::linking))]
pub fn linking(op: LoadOp, p: PAddr) -> Turn
    ensures { result ≡ Rule.linking op p }
{
    match op {
        LoadOp::LL | LoadOp::LLD => Turn::Link(p),
        LoadOp::LB
        | LoadOp::LBU
        | LoadOp::LH
        | LoadOp::LHU
        | LoadOp::LW
        | LoadOp::LWU
        | LoadOp::LD
        | LoadOp::LWL
        | LoadOp::LWR
        | LoadOp::LDL
        | LoadOp::LDR => Turn::Next,
    }
}

// The register value out of the eight bytes that a load found, or a bus error.
#[tactic(auto, unfolding(crate::specs::Access::got))]
pub fn got(op: LoadOp, reg: usize, old: u64, p: PAddr, x: Option<Eight>) -> Effect
    ensures { result ≡ Rule.got op reg old p x }
{
    match x {
        Some(Eight::Ram(n) | Eight::Rom(n)) => counted(
            linking(op, p),
            reg,
            execute::finish(op, n, p, old),
            None,
            None,
        ),
        None => raised(Exception::DBE),
    }
}

// A load, once its address is translated.
#[tactic(auto, unfolding(crate::specs::Access::loaded))]
pub fn loaded(op: LoadOp, reg: usize, old: u64, v: VAddr, m: &Memory, x: Where) -> Effect
    ensures { result ≡ Rule.loaded op reg old v (look m.now) x }
{
    match x {
        Where::Mapped(p, _) | Where::Unmapped(p) => got(op, reg, old, p, m.read(p)),
        Where::Invalid(_) => raised(Exception::TLBL {
            bad: v,
            refill: false,
        }),
        Where::Refill => raised(Exception::TLBL {
            bad: v,
            refill: true,
        }),
        Where::Double => stopped(Stop::DoubleMatch),
        Where::AddressError => raised(Exception::AdEL(v)),
    }
}

// SC and SCD store only if the link bit is set, and write the bit to rt; every other store just stores.
#[tactic(auto, unfolding(crate::specs::Access::sending))]
pub fn sending(op: StoreOp, reg: usize, link: bool, s: Store) -> Effect
    ensures { result ≡ Rule.sending op reg link s }
{
    match op {
        StoreOp::SB
        | StoreOp::SH
        | StoreOp::SW
        | StoreOp::SD
        | StoreOp::SWL
        | StoreOp::SWR
        | StoreOp::SDL
        | StoreOp::SDR => counted(Turn::Next, 0, 0, None, Some(s)),
        StoreOp::SC | StoreOp::SCD => counted(
            Turn::Next,
            reg,
            u64::from(link),
            None,
            link.then_some(s),
        ),
    }
}

// A store goes to RAM; to ROM and elsewhere it is a bus error.
#[tactic(auto, unfolding(crate::specs::Access::sent))]
pub fn sent(op: StoreOp, reg: usize, link: bool, value: u64, p: PAddr, x: Option<Eight>) -> Effect
    ensures { result ≡ Rule.sent op reg link value p x }
{
    match x {
        Some(Eight::Ram(_)) => sending(op, reg, link, execute::goes_out(op, p, value)),
        Some(Eight::Rom(_)) | None => raised(Exception::DBE),
    }
}

// A store, once its address is translated.
#[tactic(auto, unfolding(crate::specs::Access::saved))]
pub fn saved(
    op: StoreOp,
    reg: usize,
    link: bool,
    value: u64,
    v: VAddr,
    m: &Memory,
    x: Where,
) -> Effect
    ensures { result ≡ Rule.saved op reg link value v (look m.now) x }
{
    match x {
        Where::Mapped(_, h) if !h.dirty => raised(Exception::Mod(v)),
        Where::Mapped(p, _) | Where::Unmapped(p) => sent(op, reg, link, value, p, m.read(p)),
        Where::Invalid(_) => raised(Exception::TLBS {
            bad: v,
            refill: false,
        }),
        Where::Refill => raised(Exception::TLBS {
            bad: v,
            refill: true,
        }),
        Where::Double => stopped(Stop::DoubleMatch),
        Where::AddressError => raised(Exception::AdES(v)),
    }
}
