// Shifts of words and doublewords, arithmetic ones on the signed types.
ghost use Rattle.std.specs.Prelude.{◌≡◌};
ghost use Rattle.word.specs.Word as Word;

use crate::reading::{extend, low_word, pattern32, signed32};

// SLL and SLLV: a word to the left by the low five bits of n.
pub fn sll(x: u64, n: u64) -> u64
    ensures { result ≡ Word.sll x n }
{
    extend(x << (n % 32))
}

// SRL and SRLV: a word to the right by the low five bits of n, with zeros above.
pub fn srl(x: u64, n: u64) -> u64
    ensures { result ≡ Word.srl x n }
{
    extend(low_word(x) >> (n % 32))
}

// SRA and SRAV: a word to the right by the low five bits of n, with copies of its sign above.
pub fn sra(x: u64, n: u64) -> u64
    ensures { result ≡ Word.sra x n }
{
    pattern32(signed32(x) >> (n % 32))
}

// DSLL and DSLLV: a doubleword to the left by the low six bits of n.
pub fn dsll(x: u64, n: u64) -> u64
    ensures { result ≡ Word.dsll x n }
{
    x << (n % 64)
}

// DSRL and DSRLV: a doubleword to the right by the low six bits of n, with zeros above.
pub fn dsrl(x: u64, n: u64) -> u64
    ensures { result ≡ Word.dsrl x n }
{
    x >> (n % 64)
}

// DSRA and DSRAV: a doubleword to the right by the low six bits of n, with copies of its sign above.
pub fn dsra(x: u64, n: u64) -> u64
    ensures { result ≡ Word.dsra x n }
{
    (x.cast_signed() >> (n % 64)).cast_unsigned()
}

// DSLL32: a doubleword to the left by 32 more than the low five bits of n.
pub fn dsll32(x: u64, n: u64) -> u64
    ensures { result ≡ Word.dsll32 x n }
{
    x << (n % 32 + 32)
}

// DSRL32: a doubleword to the right by 32 more than the low five bits of n, with zeros above.
pub fn dsrl32(x: u64, n: u64) -> u64
    ensures { result ≡ Word.dsrl32 x n }
{
    x >> (n % 32 + 32)
}

// DSRA32: a doubleword to the right by 32 more than the low five bits of n, with copies of its sign above.
pub fn dsra32(x: u64, n: u64) -> u64
    ensures { result ≡ Word.dsra32 x n }
{
    (x.cast_signed() >> (n % 32 + 32)).cast_unsigned()
}
