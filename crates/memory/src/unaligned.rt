// Unaligned loads: the merge, by shifting and keeping parts of the two numbers.
ghost use Rattle.std.specs.Prelude.{◌≡◌, ℕ, ◌+◌, ◌*◌, ◌/◌, ◌%◌, ◌^◌, ◌≤◌, ◌<◌};
ghost use Rattle.memory.specs.Bytes as B;
ghost use Rattle.memory.specs.Unaligned as U;

use crate::loads::field;
use crate::{PAddr, kept_low};

// A number with its `n` lowest bytes made zero.
fn kept_high(x: u64, n: u64) -> u64
    requires { n ≤ 8 }
    ensures { result ≡ x / 2 ^ (8 * n) * 2 ^ (8 * n) }
{
    let half = 4 * n;
    x >> half >> half << half << half
}

// The merge: the bytes of `old` above the replaced ones, the low `count` bytes of `new` in their place, the `low` lowest of `old`.
fn merge(old: u64, low: u64, count: u64, new: u64) -> u64
    requires { low + count ≤ 8 }
    ensures { result ≡ B.with_bytes old low count new }
{
    let above = kept_high(old, low + count);
    let half = 4 * low;
    let between = kept_low(new, count) << half << half;
    let below = kept_low(old, low);
    above + between + below
}

// Left: the bytes from the address to the end of the aligned `size`, on top of the register's low `size` bytes.
fn left(size: u64, n: u64, p: PAddr, old: u64) -> u64
    requires { (0 < size) × (8 % size ≡ 0) }
    ensures { result ≡ U.left size n p old }
{
    let b = p.0 % size;
    merge(old, b, size - b, field(size, n, p))
}

// Right: the bytes from the start of the aligned `size` to the address, at the bottom of the register.
fn right(size: u64, n: u64, p: PAddr, old: u64) -> u64
    requires { (0 < size) × (8 % size ≡ 0) }
    ensures { result ≡ U.right size n p old }
{
    let b = p.0 % size;
    merge(old, 0, b + 1, field(size, n, p) >> (8 * (size - 1 - b)))
}

// LDL: left of a doubleword.
pub fn ldl(n: u64, p: PAddr, old: u64) -> u64
    ensures { result ≡ U.ldl n p old }
{
    left(8, n, p, old)
}

// LDR: right of a doubleword.
pub fn ldr(n: u64, p: PAddr, old: u64) -> u64
    ensures { result ≡ U.ldr n p old }
{
    right(8, n, p, old)
}

// LWL: left of a word; the sign is extended from bit 31.
pub fn lwl(n: u64, p: PAddr, old: u64) -> u64
    ensures { result ≡ U.lwl n p old }
{
    word::extend(left(4, n, p, old))
}

// LWR: right of a word. Only a full one extends the sign; a partial one keeps the upper 32 bits.
pub fn lwr(n: u64, p: PAddr, old: u64) -> u64
    ensures { result ≡ U.lwr n p old }
{
    let merged = right(4, n, p, old);
    if p.0 % 4 == 3 {
        word::extend(merged)
    } else {
        merged
    }
}
