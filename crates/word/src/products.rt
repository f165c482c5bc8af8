// Products of words and doublewords, for HI and LO.
ghost use Rattle.std.specs.Prelude.{◌≡◌, ◌*◌, ◌%◌, ◌^◌, pos};
ghost use Rattle.std.specs.Int.{w32, w64};
ghost use Rattle.word.specs.Product as Product;
ghost use Rattle.word.specs.Word as Word;

use crate::HiLo;
use crate::reading::{extend, low_word, signed32};

// A number of two words in HI and LO.
fn word_halves(p: u64) -> HiLo
    ensures { result ≡ Product.halves w32 (pos p) }
{
    HiLo {
        hi: extend(p >> 32),
        lo: extend(p),
    }
}

// A number of two doublewords in HI and LO.
fn double_halves(p: u128) -> HiLo
    ensures { result ≡ Product.halves w64 (pos p) }
{
    HiLo {
        hi: (p >> 64) as u64,
        lo: (p % 0x1_0000_0000_0000_0000) as u64,
    }
}

// MULT: the product of two words, read as signed.
pub fn mult(a: u64, b: u64) -> HiLo
    ensures { result ≡ Word.mult a b }
{
    let p = i64::from(signed32(a)) * i64::from(signed32(b));
    word_halves(p.cast_unsigned())
}

// The product of two registers, wrapped.
fn wrapped_product(a: u64, b: u64) -> u64
    ensures { result ≡ a * b % 2 ^ 64 }
{
    a.wrapping_mul(b)
}

// MULTU: the product of two words, read as unsigned.
pub fn multu(a: u64, b: u64) -> HiLo
    ensures { result ≡ Word.multu a b }
{
    word_halves(wrapped_product(low_word(a), low_word(b)))
}

// DMULT: the product of two doublewords, read as signed.
pub fn dmult(a: u64, b: u64) -> HiLo
    ensures { result ≡ Word.dmult a b }
{
    let p = i128::from(a.cast_signed()) * i128::from(b.cast_signed());
    double_halves(p.cast_unsigned())
}

// DMULTU: the product of two doublewords, read as unsigned.
pub fn dmultu(a: u64, b: u64) -> HiLo
    ensures { result ≡ Word.dmultu a b }
{
    double_halves(u128::from(a) * u128::from(b))
}
