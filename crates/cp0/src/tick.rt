// The end of a counted step: Count, the timer and Random.
ghost use Rattle.std.specs.Prelude.{◌≡◌};
ghost use Rattle.cp0.specs.Tick as T;

use crate::Cp0;

// Cause with IP7 set where Count equals Compare.
// Kept: here and below the numbers that the rule speaks of, and not all registers.
#[tactic(auto, unfolding(crate::specs::Tick::timed))]
fn timed(count: u32, compare: u32, cause: u32) -> u32
    ensures { result ≡ T.timed count compare cause }
{
    if count == compare {
        cause / 0x1_0000 * 0x1_0000 + 0x8000 + cause % 0x8000
    } else {
        cause
    }
}

// The next Random, by whether this step wrote Wired.
#[tactic(auto, unfolding(crate::specs::Tick::drawn))]
fn drawn(wrote: bool, random: u32, wired: u32) -> u32
    ensures { result ≡ T.drawn wrote random wired }
{
    if wrote {
        random
    } else if random == wired || random == 0 {
        47
    } else {
        random - 1
    }
}

// The registers at the end of a counted step, by whether it wrote Wired.
#[tactic(auto, unfolding(crate::specs::Tick::ended, crate::specs::Tick::counted, crate::specs::Registers::set))]
pub fn ended(wrote: bool, cp0: Cp0) -> Cp0
    ensures { result ≡ T.ended wrote cp0 }
{
    let count = cp0.count.wrapping_add(1);
    Cp0 {
        count,
        cause: timed(count, cp0.compare, cp0.cause),
        random: drawn(wrote, cp0.random, cp0.wired),
        ..cp0
    }
}
