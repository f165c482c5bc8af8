// The entry of an exception, its vector, and the return from it.
ghost use Rattle.std.specs.Prelude.{◌≡◌, ◌<◌, ◌≤◌, false, None, Some};
ghost use Rattle.cp0.specs.Exceptions as E;

use crate::status::{bev, erl, exl};
use crate::{Bad, Cp0, Exception, Told};

impl Told {
    // A code alone.
    fn plain(code: u32) -> Told
        ensures { result ≡ E.tells code 0 false None }
    {
        Told {
            code,
            unit: 0,
            refill: false,
            bad: None,
        }
    }

    // With an address.
    fn leaving(self, bad: Bad) -> Told
        ensures { result ≡ E.tells self.code self.unit self.refill (Some bad) }
    {
        Told {
            bad: Some(bad),
            ..self
        }
    }
}

// What an exception tells.
#[tactic(auto, unfolding(crate::specs::Exceptions::told))]
fn told(e: Exception) -> Told
    ensures { result ≡ E.told e }
{
    match e {
        Exception::Int => Told::plain(0),
        Exception::Mod(v) => Told::plain(1).leaving(Bad::Page(v)),
        Exception::TLBL { bad, refill } => Told {
            refill,
            ..Told::plain(2).leaving(Bad::Page(bad))
        },
        Exception::TLBS { bad, refill } => Told {
            refill,
            ..Told::plain(3).leaving(Bad::Page(bad))
        },
        Exception::AdEL(v) => Told::plain(4).leaving(Bad::Address(v)),
        Exception::AdES(v) => Told::plain(5).leaving(Bad::Address(v)),
        Exception::IBE => Told::plain(6),
        Exception::DBE => Told::plain(7),
        Exception::Sys => Told::plain(8),
        Exception::Bp => Told::plain(9),
        Exception::RI => Told::plain(10),
        Exception::CpU(unit) => Told {
            unit: u32::from(unit % 4),
            ..Told::plain(11)
        },
        Exception::Ov => Told::plain(12),
        Exception::Tr => Told::plain(13),
    }
}

// EPC after an exception.
#[tactic(auto, unfolding(crate::specs::Exceptions::epc_after))]
fn epc_after(status: u32, epc: u64, pc: u64, slot: bool) -> u64
    ensures { result ≡ E.epc_after status epc pc slot }
{
    match slot {
        _ if exl(status) => epc,
        true => pc.wrapping_sub(4),
        false => pc,
    }
}

// BD after an exception.
#[tactic(auto, unfolding(crate::specs::Exceptions::bd_after))]
fn bd_after(status: u32, cause: u32, slot: bool) -> u32
    ensures { result ≡ E.bd_after status cause slot }
{
    if exl(status) {
        cause / 0x8000_0000 % 2
    } else {
        u32::from(slot)
    }
}

// Cause after an exception.
#[tactic(auto, unfolding(crate::specs::Exceptions::cause_after))]
fn cause_after(cause: u32, t: Told, bd: u32) -> u32
    requires { (t.code < 32) × (t.unit < 4) × (bd < 2) }
    ensures { result ≡ E.cause_after cause t.code t.unit bd }
{
    let coded = cause / 128 * 128 + t.code * 4 + cause % 4;
    let united = coded / 0x4000_0000 * 0x4000_0000 + t.unit * 0x1000_0000 + coded % 0x1000_0000;
    bd * 0x8000_0000 + united % 0x8000_0000
}

// The registers with the address that an exception brings, if it brings one.
#[tactic(auto, unfolding(crate::specs::Exceptions::addressed, crate::specs::Registers::set))]
fn addressed(cp0: Cp0, bad: Option<Bad>) -> Cp0
    ensures { result ≡ E.addressed cp0 bad }
{
    match bad {
        None => cp0,
        Some(Bad::Address(v)) => Cp0 {
            badvaddr: v.0,
            ..cp0
        },
        Some(Bad::Page(v)) => Cp0 {
            badvaddr: v.0,
            context: cp0.context / 0x80_0000 % 0x200_0000_0000 * 0x80_0000
                + v.0 / 0x2000 % 0x8_0000 * 16,
            entryhi: v.0 / 0x2000 % 0x8_0000 * 0x2000 + cp0.entryhi % 256,
            ..cp0
        },
    }
}

// The registers after an exception at `pc`, by whether the step stood in a slot.
#[tactic(auto, unfolding(crate::specs::Exceptions::entered, crate::specs::Registers::set), using(crate::proofs::Fits::told_fits, crate::proofs::Fits::bd_fits))]
pub fn entered(cp0: Cp0, pc: u64, slot: bool, e: Exception) -> Cp0
    ensures { result ≡ E.entered cp0 pc slot e }
{
    let t = told(e);
    let bd = bd_after(cp0.status, cp0.cause, slot);
    let n = Cp0 {
        epc: epc_after(cp0.status, cp0.epc, pc, slot),
        cause: cause_after(cp0.cause, t, bd),
        status: cp0.status / 4 * 4 + 2 + cp0.status % 2,
        ..cp0
    };
    addressed(n, t.bad)
}

// The vector's offset.
#[tactic(auto, unfolding(crate::specs::Exceptions::offset))]
fn offset(status: u32, refill: bool) -> u64
    ensures value { result ≡ E.offset status refill }
    ensures bound { result ≤ 0x180 }
{
    if refill && !exl(status) { 0 } else { 0x180 }
}

// Where an exception goes, by Status before it.
#[tactic(auto, unfolding(crate::specs::Exceptions::vector))]
pub fn vector(status: u32, e: Exception) -> u64
    ensures { result ≡ E.vector status e }
{
    let base = if bev(status) {
        0xffff_ffff_bfc0_0200
    } else {
        0xffff_ffff_8000_0000
    };
    base + offset(status, told(e).refill)
}

// Where ERET goes.
#[tactic(auto, unfolding(crate::specs::Exceptions::return_to))]
pub fn return_to(cp0: Cp0) -> u64
    ensures { result ≡ E.return_to cp0 }
{
    if erl(cp0.status) {
        cp0.errorepc
    } else {
        cp0.epc
    }
}

// Status after ERET.
#[tactic(auto, unfolding(crate::specs::Exceptions::status_returned))]
fn status_returned(status: u32) -> u32
    ensures { result ≡ E.status_returned status }
{
    if erl(status) {
        status / 8 * 8 + status % 4
    } else {
        status / 4 * 4 + status % 2
    }
}

// The registers after ERET.
#[tactic(auto, unfolding(crate::specs::Exceptions::returned, crate::specs::Registers::set))]
pub fn returned(cp0: Cp0) -> Cp0
    ensures { result ≡ E.returned cp0 }
{
    Cp0 {
        status: status_returned(cp0.status),
        ..cp0
    }
}
