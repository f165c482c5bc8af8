// Comparisons of whole registers, signed ones on the signed type.
ghost use Rattle.std.specs.Prelude.{◌≡◌};
ghost use Rattle.word.specs.Word as Word;

// SLT: 1 where the first is less, both read as signed, else 0.
pub fn slt(a: u64, b: u64) -> u64
    ensures { result ≡ Word.slt a b }
{
    u64::from(tlt(a, b))
}

// SLTU: 1 where the first is less, both read as unsigned, else 0.
pub fn sltu(a: u64, b: u64) -> u64
    ensures { result ≡ Word.sltu a b }
{
    u64::from(a < b)
}

// TLT: the first is less, both read as signed.
pub fn tlt(a: u64, b: u64) -> bool
    ensures { result ≡ Word.tlt a b }
{
    a.cast_signed() < b.cast_signed()
}

// TGE: the first is not less, both read as signed.
pub fn tge(a: u64, b: u64) -> bool
    ensures { result ≡ Word.tge a b }
{
    !tlt(a, b)
}

// TLTU: the first is less, both read as unsigned.
pub fn tltu(a: u64, b: u64) -> bool
    ensures { result ≡ Word.tltu a b }
{
    a < b
}

// TGEU: the first is not less, both read as unsigned.
pub fn tgeu(a: u64, b: u64) -> bool
    ensures { result ≡ Word.tgeu a b }
{
    a >= b
}

// TEQ: the two are the same.
pub fn teq(a: u64, b: u64) -> bool
    ensures { result ≡ Word.teq a b }
{
    a == b
}

// TNE: the two are not the same.
pub fn tne(a: u64, b: u64) -> bool
    ensures { result ≡ Word.tne a b }
{
    a != b
}
