// The lines of an image's text, and the frame that a line is. No machine stands here.
#![tactic(auto)]

ghost use Rattle.std.specs.Prelude.{◌≡◌, ℕ, ◌+◌, ◌≤◌, ◌==◌, length, position};
ghost use Rattle.frame.specs.Line as L;
ghost use Rattle.frame.specs.Digits as D;
ghost use Rattle.frame.specs.Frame as F;

// What a line may be: a frame, by its tag.
#[derive(Clone, Copy)]
pub enum Frame {
    Register {
        number: usize,
        value: u64,
    },
    Memory {
        address: u64,
        value: u64,
    },
    Budget(u64),
    Cp0 {
        number: usize,
        value: u64,
    },
    Slot {
        index: usize,
        mask: u64,
        hi: u64,
        lo0: u64,
        lo1: u64,
    },
}

// The character that ends a line.
pub const LF: u8 = 10;

// The numbers of HI, LO and PC in frame `01`, after the registers 00 to 1f.
pub const HI: usize = 0x20;

pub const LO: usize = 0x21;

pub const PC: usize = 0x22;

// Where the first LF of a text stands.
fn first_lf(text: &[u8]) -> Option<usize>
    ensures { result ≡ position (λ (b : ℕ). b == L.LF) text.now }
{
    text.iter().position(|b| *b == LF)
}

// The part of `rest` before its first LF, or all of it where it has none.
pub fn next_line<'a>(rest: &'a [u8]) -> &'a [u8]
    ensures { (result.now ≡ L.line_of rest.now) × (result.ref_ptr ≡ rest.entry.ref_ptr) }
{
    match first_lf(rest) {
        Some(end) => &rest[..end],
        None => rest,
    }
}

// The value of a lowercase hexadecimal digit; another character has none.
fn digit(b: u8) -> Option<u64>
    ensures { result ≡ D.digit b }
{
    match b {
        b'0'..=b'9' => Some(u64::from(b - b'0')),
        b'a'..=b'f' => Some(u64::from(b - b'a' + 10)),
        _ => None,
    }
}

// Whether all characters of a line are digits.
fn all_hex(line: &[u8]) -> bool
    ensures { result ≡ D.all_hex line.now }
{
    line.iter().all(|b| digit(*b).is_some())
}

// The number that `many` digits from a place on are.
// Kept: no Option, since the rulebook counts a character that is no digit as 0, and `frame_of` has none here.
fn number(line: &[u8], at: usize, many: usize) -> u64
    requires { (many ≤ 16) × (at + many ≤ length line.now) }
    ensures { result ≡ D.number line.now at many }
{
    let mut v = 0;
    for b in &line[at..at + many] {
        v = v * 16 + digit(*b).unwrap_or(0);
    }
    v
}

// The frame that a line of digits is.
#[tactic(auto, unfolding(crate::specs::Frame::framed))]
fn framed(line: &[u8]) -> Option<Frame>
    ensures { result ≡ F.framed line.now }
{
    if line.len() < 2 {
        return None;
    }
    match (number(line, 0, 2), line.len()) {
        (0x01, 20) => Some(Frame::Register {
            number: number(line, 2, 2) as usize,
            value: number(line, 4, 16),
        }),
        (0x02, 26) => Some(Frame::Memory {
            address: number(line, 2, 8),
            value: number(line, 10, 16),
        }),
        (0x03, 10) => Some(Frame::Budget(number(line, 2, 8))),
        (0x04, 20) => Some(Frame::Cp0 {
            number: number(line, 2, 2) as usize,
            value: number(line, 4, 16),
        }),
        (0x05, 36) => Some(Frame::Slot {
            index: number(line, 2, 2) as usize,
            mask: number(line, 4, 8),
            hi: number(line, 12, 8),
            lo0: number(line, 20, 8),
            lo1: number(line, 28, 8),
        }),
        _ => None,
    }
}

// The frame that a line is, or none.
#[tactic(auto, unfolding(crate::specs::Frame::frame_of))]
pub fn frame_of(line: &[u8]) -> Option<Frame>
    ensures { result ≡ F.frame_of line.now }
{
    if all_hex(line) { framed(line) } else { None }
}
