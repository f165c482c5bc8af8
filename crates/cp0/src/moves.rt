// Moves from and to the registers.
ghost use Rattle.std.specs.Prelude.{◌≡◌};
ghost use Rattle.cp0.specs.Moves as M;

use crate::registers::{kept_entryhi, kept_entrylo, kept_index, kept_status, kept_wired, low};
use crate::status::cause_read;
use crate::{Cp0, NotBuilt};

// A 32-bit register by its number; one that is not kept reads 0.
#[tactic(auto, unfolding(crate::specs::Moves::word_of))]
fn word_of(cp0: Cp0, lines: u8, number: usize) -> u32
    ensures { result ≡ M.word_of cp0 lines number }
{
    match number {
        0 => cp0.index,
        1 => cp0.random,
        2 => cp0.entrylo0,
        3 => cp0.entrylo1,
        5 => cp0.pagemask,
        6 => cp0.wired,
        9 => cp0.count,
        10 => low(cp0.entryhi),
        11 => cp0.compare,
        12 => cp0.status,
        13 => cause_read(cp0.cause, lines),
        15 => cp0.prid,
        16 => cp0.config,
        17 => cp0.lladdr,
        28 => cp0.taglo,
        29 => cp0.taghi,
        _ => 0,
    }
}

// What a doubleword move takes from a register.
#[tactic(auto, unfolding(crate::specs::Moves::move_out))]
pub fn move_out(cp0: Cp0, lines: u8, number: usize) -> u64
    ensures { result ≡ M.move_out cp0 lines number }
{
    match number {
        4 => cp0.context,
        8 => cp0.badvaddr,
        14 => cp0.epc,
        30 => cp0.errorepc,
        _ => word::extend(u64::from(word_of(cp0, lines, number))),
    }
}

// A move of a word to a register that does not go with the TLB.
#[tactic(auto, unfolding(crate::specs::Moves::move_control, crate::specs::Registers::set))]
fn move_control(cp0: Cp0, number: usize, w: u32) -> Cp0
    ensures { result ≡ M.move_control cp0 number w }
{
    match number {
        9 => Cp0 { count: w, ..cp0 },
        11 => Cp0 {
            compare: w,
            cause: cp0.cause / 0x1_0000 * 0x1_0000 + cp0.cause % 0x8000,
            ..cp0
        },
        12 => Cp0 {
            status: kept_status(w),
            ..cp0
        },
        13 => Cp0 {
            cause: cp0.cause / 0x400 * 0x400 + w / 256 % 4 * 256 + cp0.cause % 256,
            ..cp0
        },
        16 => Cp0 {
            config: cp0.config / 8 * 8 + w % 8,
            ..cp0
        },
        28 => Cp0 { taglo: w, ..cp0 },
        29 => Cp0 { taghi: w, ..cp0 },
        _ => cp0,
    }
}

// A move of a word to a 32-bit register.
#[tactic(auto, unfolding(crate::specs::Moves::move_word, crate::specs::Registers::set))]
fn move_word(cp0: Cp0, number: usize, w: u32) -> Cp0
    ensures { result ≡ M.move_word cp0 number w }
{
    match number {
        0 => Cp0 {
            index: kept_index(w),
            ..cp0
        },
        2 => Cp0 {
            entrylo0: kept_entrylo(w),
            ..cp0
        },
        3 => Cp0 {
            entrylo1: kept_entrylo(w),
            ..cp0
        },
        5 => Cp0 { pagemask: w, ..cp0 },
        6 => Cp0 {
            wired: kept_wired(w),
            random: 47,
            ..cp0
        },
        10 => Cp0 {
            entryhi: kept_entryhi(u64::from(w)),
            ..cp0
        },
        _ => move_control(cp0, number, w),
    }
}

// A doubleword move to a register.
#[tactic(auto, unfolding(crate::specs::Moves::move_in, crate::specs::Registers::set))]
pub fn move_in(cp0: Cp0, number: usize, value: u64) -> Cp0
    ensures { result ≡ M.move_in cp0 number value }
{
    match number {
        4 => Cp0 {
            context: value / 0x80_0000 % 0x200_0000_0000 * 0x80_0000
                + cp0.context / 16 % 0x8_0000 * 16,
            ..cp0
        },
        14 => Cp0 { epc: value, ..cp0 },
        30 => Cp0 {
            errorepc: value,
            ..cp0
        },
        _ => move_word(cp0, number, low(value)),
    }
}

// Whether a Status value is built.
#[tactic(auto, unfolding(crate::specs::Moves::built_status))]
pub fn built_status(w: u32) -> bool
    ensures { result ≡ M.built_status w }
{
    w / 0x2000_0000 % 8 == 0
        && w / 0x200_0000 % 2 == 0
        && w / 32 % 8 == 0
        && !matches!(w / 8 % 4, 1 | 3)
}

// Whether a move's value is built, by its low word.
#[tactic(auto, unfolding(crate::specs::Moves::check_move))]
pub fn check_move(number: usize, value: u64) -> Result<(), NotBuilt>
    ensures { result ≡ M.check_move number value }
{
    let w = low(value);
    let built = match number {
        12 => built_status(w),
        5 => tlb::legal_mask(u64::from(w)),
        _ => true,
    };
    if built { Ok(()) } else { Err(NotBuilt) }
}
