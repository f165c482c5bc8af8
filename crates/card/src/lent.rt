// The step on a machine that is lent.
ghost use Rattle.std.specs.Prelude.{◌≡◌};
ghost use Rattle.card.specs.Run as Rule;

use crate::Machine;
use crate::runs::step;

// A single step, in place.
pub fn step_in(m: &mut Machine, ram: &mut [u8], rom: &[u8], lines: u8) -> u8
    ensures { (result ≡ (Rule.run_of rom.now lines 1 m.old ram.old).stop) × (m.new ≡ (Rule.run_of rom.now lines 1 m.old ram.old).machine) × (ram.new ≡ (Rule.run_of rom.now lines 1 m.old ram.old).ram) }
{
    let r = step(*m, ram, rom, lines);
    *m = r.machine;
    r.stop
}
