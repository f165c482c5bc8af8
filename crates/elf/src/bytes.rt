// The numbers of a file, big-endian; past its end every byte is 0.
ghost use Rattle.std.specs.Prelude.{◌≤◌, ◌^◌, ◌≡◌};
ghost use Rattle.elf.specs.Bytes as B;

// The byte at an offset.
#[tactic(auto, unfolding(crate::specs::Bytes::byte))]
pub(crate) fn byte(file: &[u8], at: usize) -> u8
    ensures { result ≡ B.byte file.now at }
{
    file.get(at).copied().unwrap_or(0)
}

// Two bytes.
// Kept: here and below two functions, since no bound says that two numbers of a type make one of the next.
#[tactic(auto, unfolding(crate::specs::Bytes::half))]
pub(crate) fn half(file: &[u8], at: usize) -> u16
    requires { at ≤ 2 ^ 40 }
    ensures { result ≡ B.half file.now at }
{
    u16::from(byte(file, at)) * 256 + u16::from(byte(file, at + 1))
}

// Four bytes.
#[tactic(auto, unfolding(crate::specs::Bytes::word))]
pub(crate) fn word(file: &[u8], at: usize) -> u32
    requires { at ≤ 2 ^ 39 }
    ensures { result ≡ B.word file.now at }
{
    u32::from(half(file, at)) * 65536 + u32::from(half(file, at + 2))
}
