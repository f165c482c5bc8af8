// The effects that stages give, made in one place.
ghost use Rattle.std.specs.Prelude.{◌≡◌};
ghost use Rattle.access.specs.Effect as Rule;

use crate::{Effect, Stop, Turn};
use cp0::Exception;
use memory::Store;
use tlb::SlotWrite;

// A counted step that writes a register, a slot and memory.
pub fn counted(
    turn: Turn,
    reg: usize,
    value: u64,
    slot: Option<SlotWrite>,
    store: Option<Store>,
) -> Effect
    ensures { result ≡ Rule.effects turn reg value slot store None }
{
    Effect {
        turn,
        reg,
        value,
        slot,
        store,
        stop: None,
    }
}

// Cpu and CP0 go on, and nothing else is written.
#[tactic(auto, unfolding(crate::specs::Effect::turned))]
pub fn turned(turn: Turn) -> Effect
    ensures { result ≡ Rule.turned turn }
{
    counted(turn, 0, 0, None, None)
}

// A register is written.
#[tactic(auto, unfolding(crate::specs::Effect::wrote))]
pub fn wrote(reg: usize, value: u64) -> Effect
    ensures { result ≡ Rule.wrote reg value }
{
    counted(Turn::Next, reg, value, None, None)
}

// The step is an exception or an interrupt.
#[tactic(auto, unfolding(crate::specs::Effect::raised))]
pub fn raised(e: Exception) -> Effect
    ensures { result ≡ Rule.raised e }
{
    turned(Turn::Enter(e))
}

// The run stops, and the step changes nothing.
#[tactic(auto, unfolding(crate::specs::Effect::turned, crate::specs::Effect::stopped))]
pub fn stopped(why: Stop) -> Effect
    ensures { result ≡ Rule.stopped why }
{
    Effect {
        stop: Some(why),
        ..turned(Turn::Stay)
    }
}
