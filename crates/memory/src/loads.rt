// Loads: what a register receives of the eight bytes that hold the address.
ghost use Rattle.std.specs.Prelude.{◌≡◌, ◌%◌, ◌<◌};
ghost use Rattle.memory.specs.Loads as L;

use crate::{PAddr, kept_low};

// The aligned `size` bytes that hold the address.
pub(crate) fn field(size: u64, n: u64, p: PAddr) -> u64
    requires { (0 < size) × (8 % size ≡ 0) }
    ensures { result ≡ L.field size n p }
{
    let at = p.0 % 8 / size * size;
    kept_low(n >> (8 * (8 - size - at)), size)
}

// LBU: the byte.
pub fn lbu(n: u64, p: PAddr) -> u64
    ensures { result ≡ L.lbu n p }
{
    field(1, n, p)
}

// LHU: the halfword.
pub fn lhu(n: u64, p: PAddr) -> u64
    ensures { result ≡ L.lhu n p }
{
    field(2, n, p)
}

// LWU: the word.
pub fn lwu(n: u64, p: PAddr) -> u64
    ensures { result ≡ L.lwu n p }
{
    field(4, n, p)
}

// LD: the doubleword.
pub fn ld(n: u64, p: PAddr) -> u64
    ensures { result ≡ L.ld n p }
{
    n
}

// LB: the byte, sign-extended.
pub fn lb(n: u64, p: PAddr) -> u64
    ensures { result ≡ L.lb n p }
{
    word::extend_byte(lbu(n, p))
}

// LH: the halfword, sign-extended.
pub fn lh(n: u64, p: PAddr) -> u64
    ensures { result ≡ L.lh n p }
{
    word::extend_half(lhu(n, p))
}

// LW: the word, sign-extended.
pub fn lw(n: u64, p: PAddr) -> u64
    ensures { result ≡ L.lw n p }
{
    word::extend(lwu(n, p))
}
