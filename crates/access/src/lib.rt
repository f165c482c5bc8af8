// Where a step looks at memory, the fetch and the data access, and the effect that a step has: numbers only, nothing here changes memory.
#![tactic(auto)]

pub mod build; // effects
pub mod data; // the data access
pub mod fetch; // the fetch

ghost use Rattle.std.specs.Prelude.{◌≡◌};
ghost use Rattle.access.specs.Memory.{look};
ghost use Rattle.access.specs.Effect as Rule;

use cp0::Exception;
use memory::{Eight, PAddr, Store};
use tlb::{Slot, SlotWrite};

// How Cpu and CP0 go on.
#[derive(Clone, Copy)]
pub enum Turn {
    Next,
    Branch { to: u64 },
    Skip,
    HiLo { hi: u64, lo: u64 },
    Link(PAddr),
    Enter(Exception),
    Move { number: usize, value: u64 },
    Read(Slot),
    Probed(u64),
    Eret,
    Stay,
}

// What the fetch comes to where no word is there: an exception, or a double match.
#[derive(Clone, Copy)]
pub enum Unfetched {
    Raise(Exception),
    Double,
}

// Memory as a step sees it: RAM and ROM.
#[derive(Clone, Copy)]
pub struct Memory<'a> {
    pub ram: &'a [u8],
    pub rom: &'a [u8],
}

impl Memory<'_> {
    // The eight aligned bytes that hold an address.
    fn read(&self, p: PAddr) -> Option<Eight>
        ensures { result ≡ look self.now p }
    {
        memory::read(self.ram, self.rom, p)
    }
}

// Why a run stops before a step.
#[derive(Clone, Copy)]
pub enum Stop {
    DoubleMatch,
    BranchInSlot,
    NotBuilt,
}

impl Stop {
    // The number of document 01's table.
    pub fn number(self) -> u8
        ensures { result ≡ Rule.number self }
    {
        match self {
            Stop::DoubleMatch => 16,
            Stop::BranchInSlot => 17,
            Stop::NotBuilt => 18,
        }
    }
}

// All that a step does: how it goes on, a register (0: none, as r0 is never written) and its value, a slot, a store, and why the run stops.
#[derive(Clone, Copy)]
pub struct Effect {
    pub turn: Turn,
    pub reg: usize,
    pub value: u64,
    pub slot: Option<SlotWrite>,
    pub store: Option<Store>,
    pub stop: Option<Stop>,
}
