// Loads and stores: the alignment they ask for, what a load writes, and which bytes a store sends out.
ghost use Rattle.std.specs.Prelude.{◌≡◌};
ghost use Rattle.execute.specs.LoadStore as LoadStore;

use decode::{LoadOp, StoreOp};
use flow::Act;
use memory::{PAddr, Store};
use tlb::VAddr;

// An effective address: the wrapping sum of the base and the sign-extended offset.
#[tactic(auto, unfolding(crate::specs::LoadStore::effective))]
fn effective(base: u64, offset: u64) -> VAddr
    ensures { result ≡ LoadStore.effective base offset }
{
    VAddr(base.wrapping_add(word::extend_immediate(offset)))
}

// A load asks for its address.
// Kept: here and below one struct each.
#[tactic(auto, unfolding(crate::specs::LoadStore::load))]
pub fn load(op: LoadOp, rt: usize, base: u64, offset: u64) -> Act
    ensures { result ≡ LoadStore.load op rt base offset }
{
    Act::Load {
        op,
        reg: rt,
        at: effective(base, offset),
    }
}

// A store too.
#[tactic(auto, unfolding(crate::specs::LoadStore::store))]
pub fn store(op: StoreOp, rt: usize, base: u64, offset: u64) -> Act
    ensures { result ≡ LoadStore.store op rt base offset }
{
    Act::Store {
        op,
        reg: rt,
        at: effective(base, offset),
    }
}

// A load's address is a multiple of this.
#[tactic(auto, unfolding(crate::specs::LoadStore::load_align))]
pub fn load_align(op: LoadOp) -> u64
    ensures { result ≡ LoadStore.load_align op }
{
    match op {
        LoadOp::LH | LoadOp::LHU => 2,
        LoadOp::LW | LoadOp::LWU | LoadOp::LL => 4,
        LoadOp::LD | LoadOp::LLD => 8,
        LoadOp::LB | LoadOp::LBU | LoadOp::LWL | LoadOp::LWR | LoadOp::LDL | LoadOp::LDR => 1,
    }
}

// A store's address is a multiple of this.
#[tactic(auto, unfolding(crate::specs::LoadStore::store_align))]
pub fn store_align(op: StoreOp) -> u64
    ensures { result ≡ LoadStore.store_align op }
{
    match op {
        StoreOp::SH => 2,
        StoreOp::SW | StoreOp::SC => 4,
        StoreOp::SD | StoreOp::SCD => 8,
        StoreOp::SB | StoreOp::SWL | StoreOp::SWR | StoreOp::SDL | StoreOp::SDR => 1,
    }
}

// What a load writes, of the eight bytes that hold the address and of the register as it was.
#[tactic(auto, unfolding(crate::specs::LoadStore::finish))]
pub fn finish(op: LoadOp, eight: u64, p: PAddr, old: u64) -> u64
    ensures { result ≡ LoadStore.finish op eight p old }
{
    match op {
        LoadOp::LB => memory::lb(eight, p),
        LoadOp::LBU => memory::lbu(eight, p),
        LoadOp::LH => memory::lh(eight, p),
        LoadOp::LHU => memory::lhu(eight, p),
        LoadOp::LW | LoadOp::LL => memory::lw(eight, p),
        LoadOp::LWU => memory::lwu(eight, p),
        LoadOp::LD | LoadOp::LLD => memory::ld(eight, p),
        LoadOp::LWL => memory::lwl(eight, p, old),
        LoadOp::LWR => memory::lwr(eight, p, old),
        LoadOp::LDL => memory::ldl(eight, p, old),
        LoadOp::LDR => memory::ldr(eight, p, old),
    }
}

// The bytes that a store sends out.
#[tactic(auto, unfolding(crate::specs::LoadStore::goes_out))]
pub fn goes_out(op: StoreOp, p: PAddr, value: u64) -> Store
    ensures { result ≡ LoadStore.goes_out op p value }
{
    match op {
        StoreOp::SB => memory::sb(p, value),
        StoreOp::SH => memory::sh(p, value),
        StoreOp::SW | StoreOp::SC => memory::sw(p, value),
        StoreOp::SD | StoreOp::SCD => memory::sd(p, value),
        StoreOp::SWL => memory::swl(p, value),
        StoreOp::SWR => memory::swr(p, value),
        StoreOp::SDL => memory::sdl(p, value),
        StoreOp::SDR => memory::sdr(p, value),
    }
}
