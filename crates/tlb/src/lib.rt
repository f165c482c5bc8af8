// Virtual addresses: the map of segments, and the TLB of 48 double entries.
#![tactic(auto)]

mod page_mask;
mod probing;
mod range;
mod search;
mod segments;
mod slots;
mod through;

use memory::PAddr;
pub use page_mask::legal_mask;
pub use probing::tlbp;
pub use range::{slot_in_range, tlb_in_range};
pub use search::lookup;
pub use segments::translate;
pub use slots::{put_slot, read_slot, slot_at, stored};
pub use through::mapped;

// A virtual address.
#[derive(Clone, Copy)]
pub struct VAddr(pub u64);

// Which map of segments holds: User mode, Kernel mode, or Kernel mode with ERL set.
#[derive(Clone, Copy)]
pub enum Mode {
    User,
    Kernel,
    Error,
}

// A slot as it is kept: PageMask; page (bits 31..13), G (bit 12) and ASID (7..0); and the two halves' frame, C, D and V.
#[derive(Clone, Copy)]
pub struct Slot {
    pub mask: u64,
    pub hi: u64,
    pub lo0: u64,
    pub lo1: u64,
}

// A write of a slot, from values as they were moved to PageMask, EntryHi, EntryLo0 and EntryLo1.
#[derive(Clone, Copy)]
pub struct SlotWrite {
    pub index: usize,
    pub moved: Slot,
}

// Which slots match an address.
#[derive(Clone, Copy)]
pub enum Found {
    Absent,
    One(usize),
    Many,
}

// The half that an address was led through: its slot, 0 for EntryLo0 or 1 for EntryLo1, C bits, and whether it is dirty.
#[derive(Clone, Copy)]
pub struct Half {
    pub slot: usize,
    pub odd: u64,
    pub cache: u64,
    pub dirty: bool,
}

// Where a virtual address leads.
#[derive(Clone, Copy)]
pub enum Where {
    Mapped(PAddr, Half),
    Unmapped(PAddr),
    Invalid(Half),
    Refill,
    Double,
    AddressError,
}

// Two slots match, where TLBP asks for one.
#[derive(Clone, Copy)]
pub struct DoubleMatch;
