// Runs a program of bench/ on a fresh machine for as many steps as the arguments say, and prints one number for what is left.
// Without arguments, 1000 steps of the sweep.
#![tactic(auto)]

mod arguments;
mod boot;
mod line;
mod sweep;
mod unaligned;

use arguments::Program;
use cp0::Cp0;
use effect::Cpu;
use memory::{PAddr, Store};
use program::End;
use std::env::Env;

// A program's start, at the end of ROM, and its two pages.
#[derive(Clone, Copy)]
struct Tables {
    start: &'static [u64],
    user: &'static [u64],
    other: &'static [u64],
}

const SWEEP: Tables = Tables {
    start: &sweep::START,
    user: &sweep::USER,
    other: &sweep::OTHER,
};

const UNALIGNED: Tables = Tables {
    start: &unaligned::START,
    user: &unaligned::USER,
    other: &unaligned::OTHER,
};

// A table's words go to memory, one after the other.
fn poke(bytes: &mut [u8], from: u64, words: &[u64]) {
    for (i, word) in words.iter().enumerate() {
        let s = Store {
            to: PAddr(from.wrapping_add(4 * i as u64)),
            size: 4,
            value: *word,
        };
        let _ = memory::put_bytes(bytes, Some(s));
    }
}

// The boot ROM, the handler and a program's three tables go to ROM and RAM.
// Kept: a match, since it picks data and no step.
fn put_program(program: Program, rom: &mut [u8], ram: &mut [u8]) {
    let tables = match program {
        Program::Sweep => SWEEP,
        Program::Unaligned => UNALIGNED,
    };
    poke(rom, 0, &boot::BOOT);
    poke(rom, 0x88, tables.start);
    poke(ram, 0x180, &boot::KERNEL);
    poke(ram, 0x2000, tables.user);
    poke(ram, 0x3000, tables.other);
}

// A checksum with one value more: 31 times it, and the value.
fn mix<T: Into<u64>>(x: u64, v: T) -> u64 {
    x.wrapping_mul(31).wrapping_add(v.into())
}

// A checksum with all values of a slice.
fn mix_all<T: Copy + Into<u64>>(from: u64, values: &[T]) -> u64 {
    values.iter().fold(from, |x, v| mix(x, *v))
}

fn sum_of_cpu(from: u64, cpu: Cpu) -> u64 {
    mix(mix(mix(from, cpu.pc), cpu.hi), cpu.lo)
}

fn sum_of_cp0(from: u64, cp0: Cp0) -> u64 {
    let x = mix(mix(mix(from, cp0.count), cp0.random), cp0.cause);
    mix(mix(mix(x, cp0.compare), cp0.status), cp0.epc)
}

// Runs a program and gives the line.
fn answer<R: Print + Eprint>(rt: &R, budget: u64, program: Program) -> End {
    let mut ram = [0u8; 32768];
    let mut rom = [0u8; 256];
    put_program(program, &mut rom, &mut ram);
    let r = card::run(card::fresh(), &mut ram, &rom, 0, budget);
    let m = r.machine;
    let x = mix_all(mix(0, r.stop), &m.regs);
    let sum = mix_all(sum_of_cp0(sum_of_cpu(x, m.cpu), m.cp0), &ram);
    line::give_line(rt, r.steps, sum)
}

// Reads the arguments and answers.
pub fn benchcard<R: Env + Print + Eprint>(rt: &R) -> End {
    match (arguments::steps_given(rt), arguments::program_given(rt)) {
        (Some(budget), Some(program)) => answer(rt, budget, program),
        _ => arguments::misused(rt),
    }
}
