// Logic on whole registers, and the upper immediate.
ghost use Rattle.std.specs.Prelude.{◌≡◌};
ghost use Rattle.word.specs.Word as Word;

use crate::reading::extend;

// AND: each bit is set where both are.
pub fn and(a: u64, b: u64) -> u64
    ensures { result ≡ Word.and a b }
{
    a & b
}

// OR: each bit is set where one is, or both are.
pub fn or(a: u64, b: u64) -> u64
    ensures { result ≡ Word.or a b }
{
    a | b
}

// XOR: each bit is set where just one is.
pub fn xor(a: u64, b: u64) -> u64
    ensures { result ≡ Word.xor a b }
{
    a ^ b
}

// NOR: each bit is set where neither is.
pub fn nor(a: u64, b: u64) -> u64
    ensures { result ≡ Word.nor a b }
{
    !(a | b)
}

// LUI: an immediate of 16 bits as the upper half of a word, sign-extended.
pub fn lui(immediate: u64) -> u64
    ensures { result ≡ Word.lui immediate }
{
    extend(immediate % 0x1_0000 * 0x1_0000)
}
