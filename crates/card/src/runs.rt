// A run: the refusals, then up to `budget` steps.
ghost use Rattle.std.specs.Prelude.{◌≡◌};
ghost use Rattle.card.specs.Run as Rule;

use crate::calls::refusal;
use crate::inner::core;
use crate::{Machine, Ran, Stepped};

// A single step, by value: a run with budget 1.
pub fn step(m: Machine, ram: &mut [u8], rom: &[u8], lines: u8) -> Stepped
    ensures { (result ≡ Rule.stepped (Rule.run_of rom.now lines 1 m ram.old)) × (ram.new ≡ (Rule.run_of rom.now lines 1 m ram.old).ram) }
{
    let r = run(m, ram, rom, lines, 1);
    Stepped {
        machine: r.machine,
        stop: r.stop,
    }
}

// Up to `budget` steps; a step that stops ends the run and is not counted.
#[tactic(auto, unfolding(crate::specs::Run::run_of))]
pub fn run(m: Machine, ram: &mut [u8], rom: &[u8], lines: u8, budget: u64) -> Ran
    ensures { (result ≡ Rule.ran (Rule.run_of rom.now lines budget m ram.old)) × (ram.new ≡ (Rule.run_of rom.now lines budget m ram.old).ram) }
{
    let mut regs = m.regs;
    let mut tlb = m.tlb;
    let mut cpu = m.cpu;
    let mut cp0 = m.cp0;
    let no = refusal(cpu, cp0, &regs, &tlb, ram.len(), rom.len(), lines);
    if no != 0 {
        return Ran {
            machine: m,
            steps: 0,
            stop: no,
        };
    }
    for i in 0..budget {
        let s = core(cpu, cp0, &mut regs, &mut tlb, ram, rom, lines);
        cpu = s.cpu;
        cp0 = s.cp0;
        if s.stop != 0 {
            return Ran {
                machine: Machine {
                    cpu,
                    cp0,
                    regs,
                    tlb,
                },
                steps: i,
                stop: s.stop,
            };
        }
    }
    Ran {
        machine: Machine {
            cpu,
            cp0,
            regs,
            tlb,
        },
        steps: budget,
        stop: 0,
    }
}
