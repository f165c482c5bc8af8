// Low bits of a register, sign extension, and the signed numbers that words are.
ghost use Rattle.std.specs.Prelude.{◌≡◌};
ghost use Rattle.std.specs.Int.{w32, w64};
ghost use Rattle.std.proofs.Common.{of_z};
ghost use Rattle.word.specs.Extend.{signed};
ghost use Rattle.word.specs.Word as Word;

// The low word of a register, with zeros above it.
pub fn low_word(x: u64) -> u64
    ensures { result ≡ Word.low_word x }
{
    x % 0x1_0000_0000
}

// The low word of a register, sign-extended.
pub fn extend(x: u64) -> u64
    ensures { result ≡ Word.extend x }
{
    pattern32(signed32(x))
}

// The low half of a word, sign-extended.
// Kept: here and below two functions, since no bound says that a type is read as signed.
pub fn extend_half(x: u64) -> u64
    ensures { result ≡ Word.extend_half x }
{
    i64::from(((x % 0x1_0000) as u16).cast_signed()).cast_unsigned()
}

// The low byte of a register, sign-extended.
pub fn extend_byte(x: u64) -> u64
    ensures { result ≡ Word.extend_byte x }
{
    i64::from(((x % 0x100) as u8).cast_signed()).cast_unsigned()
}

// An immediate of 16 bits, sign-extended.
pub fn extend_immediate(x: u64) -> u64
    ensures { result ≡ Word.extend_immediate x }
{
    extend_half(x)
}

// The low word of a register as a signed number.
pub fn signed32(x: u64) -> i32
    ensures { result ≡ signed w32 x }
{
    ((x % 0x1_0000_0000) as u32).cast_signed()
}

// The register that holds a signed word.
pub fn pattern32(z: i32) -> u64
    ensures { result ≡ of_z w64 z }
{
    i64::from(z).cast_unsigned()
}
