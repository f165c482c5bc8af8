// Quotients and remainders of words and doublewords, for LO and HI; signed ones on the signed types.
ghost use Rattle.std.specs.Prelude.{◌≡◌};
ghost use Rattle.word.specs.Word as Word;
ghost use Rattle.word.specs.Quotient as Quotient;

use crate::HiLo;
use crate::reading::{extend, low_word, pattern32, signed32};

// A zero divisor: the dividend stays in HI; LO is all ones, or 1 where the dividend is read as signed and is negative.
fn by_zero(dividend: u64, negative: bool) -> HiLo
    ensures { result ≡ Quotient.leaves dividend negative }
{
    HiLo {
        hi: dividend,
        lo: if negative { 1 } else { u64::MAX },
    }
}

// DIVU: the quotient of two words, read as unsigned.
pub fn divu(a: u64, b: u64) -> HiLo
    ensures { result ≡ Word.divu a b }
{
    let x = low_word(a);
    let y = low_word(b);
    if y == 0 {
        return by_zero(extend(a), false);
    }
    HiLo {
        hi: extend(x % y),
        lo: extend(x / y),
    }
}

// DDIVU: the quotient of two doublewords, read as unsigned.
pub fn ddivu(a: u64, b: u64) -> HiLo
    ensures { result ≡ Word.ddivu a b }
{
    if b == 0 {
        return by_zero(a, false);
    }
    HiLo {
        hi: a % b,
        lo: a / b,
    }
}

// DIV: the quotient of two words, read as signed; the least by -1 is itself.
pub fn div(a: u64, b: u64) -> HiLo
    ensures { result ≡ Word.div a b }
{
    let x = signed32(a);
    let y = signed32(b);
    if y == 0 {
        return by_zero(extend(a), x < 0);
    }
    HiLo {
        hi: pattern32(x.wrapping_rem(y)),
        lo: pattern32(x.wrapping_div(y)),
    }
}

// DDIV: the quotient of two doublewords, read as signed; the least by -1 is itself.
pub fn ddiv(a: u64, b: u64) -> HiLo
    ensures { result ≡ Word.ddiv a b }
{
    let x = a.cast_signed();
    let y = b.cast_signed();
    if y == 0 {
        return by_zero(a, x < 0);
    }
    HiLo {
        hi: x.wrapping_rem(y).cast_unsigned(),
        lo: x.wrapping_div(y).cast_unsigned(),
    }
}
