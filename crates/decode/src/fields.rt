// The fields of an instruction word.
ghost use Rattle.std.specs.Prelude.{◌≡◌, ◌<◌};
ghost use Rattle.promise.specs.Bits as B;
ghost use Rattle.decode.specs.Fields as F;

// The bits from `low` up, `many` of them, as a number.
fn bits(w: u32, low: u32, many: u32) -> u32
    requires { (low < 32) × (many < 32) }
    ensures { result ≡ B.bits w low many }
{
    (w >> low) % (1 << many)
}

// The major opcode, bits 31..26.
pub fn opcode(w: u32) -> usize
    ensures { result ≡ F.opcode w }
{
    bits(w, 26, 6) as usize
}

// Register rs, or base, bits 25..21.
pub fn rs(w: u32) -> usize
    ensures { result ≡ F.rs w }
{
    bits(w, 21, 5) as usize
}

// Register rt, or the code of a REGIMM word, bits 20..16.
pub fn rt(w: u32) -> usize
    ensures { result ≡ F.rt w }
{
    bits(w, 16, 5) as usize
}

// Register rd, bits 15..11.
pub fn rd(w: u32) -> usize
    ensures { result ≡ F.rd w }
{
    bits(w, 11, 5) as usize
}

// The shift amount, bits 10..6.
pub fn sa(w: u32) -> u64
    ensures { result ≡ F.sa w }
{
    u64::from(bits(w, 6, 5))
}

// The function code of a SPECIAL or COP0 word, bits 5..0.
pub fn funct(w: u32) -> usize
    ensures { result ≡ F.funct w }
{
    bits(w, 0, 6) as usize
}

// The immediate or offset, bits 15..0, not yet extended.
pub fn immediate(w: u32) -> u64
    ensures { result ≡ F.immediate w }
{
    u64::from(bits(w, 0, 16))
}

// The target of J and JAL, bits 25..0.
pub fn target(w: u32) -> u64
    ensures { result ≡ F.target w }
{
    u64::from(bits(w, 0, 26))
}
