// Sums and differences of registers: wrapped, or tested for overflow.
ghost use Rattle.std.specs.Prelude.{◌≡◌};
ghost use Rattle.word.specs.Word as Word;

use crate::reading::{extend, pattern32, signed32};

// ADDU: the sum of two words, wrapped.
pub fn addu(a: u64, b: u64) -> u64
    ensures { result ≡ Word.addu a b }
{
    extend(a.wrapping_add(b))
}

// SUBU: the difference of two words, wrapped.
pub fn subu(a: u64, b: u64) -> u64
    ensures { result ≡ Word.subu a b }
{
    extend(a.wrapping_sub(b))
}

// DADDU: the sum of two doublewords, wrapped.
pub fn daddu(a: u64, b: u64) -> u64
    ensures { result ≡ Word.daddu a b }
{
    a.wrapping_add(b)
}

// DSUBU: the difference of two doublewords, wrapped.
pub fn dsubu(a: u64, b: u64) -> u64
    ensures { result ≡ Word.dsubu a b }
{
    a.wrapping_sub(b)
}

// ADD: the sum of two words, or overflow.
pub fn add(a: u64, b: u64) -> Option<u64>
    ensures { result ≡ Word.add a b }
{
    signed32(a).checked_add(signed32(b)).map(pattern32)
}

// SUB: the difference of two words, or overflow.
pub fn sub(a: u64, b: u64) -> Option<u64>
    ensures { result ≡ Word.sub a b }
{
    signed32(a).checked_sub(signed32(b)).map(pattern32)
}

// DADD: the sum of two doublewords, or overflow.
pub fn dadd(a: u64, b: u64) -> Option<u64>
    ensures { result ≡ Word.dadd a b }
{
    a.cast_signed()
        .checked_add(b.cast_signed())
        .map(i64::cast_unsigned)
}

// DSUB: the difference of two doublewords, or overflow.
pub fn dsub(a: u64, b: u64) -> Option<u64>
    ensures { result ≡ Word.dsub a b }
{
    a.cast_signed()
        .checked_sub(b.cast_signed())
        .map(i64::cast_unsigned)
}
