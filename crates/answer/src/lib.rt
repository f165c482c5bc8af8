// The texts that the programs print, written into a lent buffer.
#![tactic(auto)]

mod texts;

ghost use Rattle.std.specs.Prelude.{◌≡◌, ℕ, List, ◌+◌, ◌*◌, ◌≤◌, ◌<◌, ◌^◌, [], ◌∷◌, length, IsTrue, nat_le};
ghost use Rattle.std.specs.List.{list_all};
ghost use Rattle.answer.specs.Digits as D;
ghost use Rattle.answer.specs.Frames as F;
ghost use Rattle.answer.specs.Put.{Put};

use card::Machine;
use cp0::Cp0;
use frame::{Frame, HI, LF, LO};
use memory::{Eight, PAddr};
pub use texts::{cardrun_text, cardstate_text, placed_text, reason_text, refusal_text, word_text};

// A text in a lent buffer, and where it goes on; past the buffer's end there is nowhere to write it.
#[derive(Drop)]
struct Text<'a> {
    out: &'a mut [u8],
    at: usize,
}

// Digit k of a number, from the right.
// Kept: one shift, as short as a call of a function that digits and bytes would share.
fn digit(x: u64, k: u64) -> u8
    requires { k < 16 }
    ensures { result ≡ D.digit x k }
{
    ((x >> (4 * k)) % 16) as u8
}

// The character of a digit.
fn character(d: u8) -> u8
    requires { d < 16 }
    ensures { result ≡ D.character d }
{
    if d < 10 { b'0' + d } else { b'a' + d - 10 }
}

// What frame `01` of this number holds.
fn register(m: &Machine, i: usize) -> u64
    ensures { result ≡ F.register m.now.cpu m.now.regs i }
{
    match i {
        HI => m.cpu.hi,
        LO => m.cpu.lo,
        _ if i < HI => m.regs[i],
        _ => m.cpu.pc,
    }
}

// A frame only where its value is not zero.
fn non_zero(f: Frame, value: u64) -> Option<Frame>
    ensures { result ≡ F.non_zero f value }
{
    (value != 0).then_some(f)
}

// Frame `01` of this number.
fn register_line(m: &Machine, i: usize) -> Option<Frame>
    ensures { result ≡ F.register_line m.now i }
{
    Some(Frame::Register {
        number: i,
        value: register(m, i),
    })
}

// Frame `01` of this number, only where the register is not zero.
fn non_zero_line(m: &Machine, i: usize) -> Option<Frame>
    ensures { result ≡ F.non_zero_line m.now i }
{
    let value = register(m, i);
    non_zero(Frame::Register { number: i, value }, value)
}

// A CP0 register's frame, where it is kept.
fn kept_line(cp0: Cp0, i: usize) -> Option<Frame>
    ensures { result ≡ F.kept_line cp0 i }
{
    if !cp0::kept(i) {
        return None;
    }
    let value = cp0::move_out(cp0, 0, i);
    Some(Frame::Cp0 { number: i, value })
}

// The frame of a slot that TLBR gives.
fn slot_line(tlb: &[u64; 192], i: usize) -> Option<Frame>
    ensures { result ≡ F.slot_line tlb.now i }
{
    let s = tlb::read_slot(tlb, i)?;
    Some(Frame::Slot {
        index: i,
        mask: s.mask,
        hi: s.hi,
        lo0: s.lo0,
        lo1: s.lo1,
    })
}

// Frame `02` of a doubleword of RAM, only where it is not zero.
fn memory_line(ram: &[u8], i: usize) -> Option<Frame>
    requires { i < 2 ^ 16 }
    ensures { result ≡ F.memory_line ram.now i }
{
    let address = i as u64 * 8;
    let value = match memory::read(ram, &[], PAddr(address)) {
        Some(Eight::Ram(n)) => n,
        _ => 0,
    };
    non_zero(Frame::Memory { address, value }, value)
}

impl<'a> Text<'a> {
    // One byte.
    fn byte(&mut self, b: u8)
        requires { self.old.at + 1 < 2 ^ 64 }
        ensures { Put self.old self.new (b ∷ []) }
    {
        if self.at < self.out.len() {
            self.out[self.at] = b;
        }
        self.at += 1;
    }

    // Bytes as they are.
    fn bytes(&mut self, text: &[u8])
        requires { self.old.at ≤ 2 ^ 39 }
        ensures { Put self.old self.new text.now }
    {
        for b in text {
            self.byte(*b);
        }
    }

    // The low `many` digits of a number, the top one first.
    // Kept: `io::hex` writes more digits than asked for where a number has more, and into a buffer of its own.
    fn hex(&mut self, many: u64, x: u64)
        requires { (self.old.at ≤ 2 ^ 39) × (many ≤ 16) }
        ensures { Put self.old self.new (D.hex_of many x) }
    {
        for k in (0..many).rev() {
            self.byte(character(digit(x, k)));
        }
    }

    // Numbers, each of so many digits, and LF.
    fn line(&mut self, fields: &[(u64, u64)])
        requires { (self.old.at ≤ 2 ^ 38) × (length fields.now ≤ 6) × IsTrue (list_all (λ (f : ℕ × ℕ). nat_le f.0 16) fields.now) }
        ensures { Put self.old self.new (F.fields_text fields.now) × (self.new.at ≤ self.old.at + 97) }
    {
        for &(many, x) in fields {
            self.hex(many, x);
        }
        self.byte(LF);
    }

    // A frame, where there is one.
    fn frame(&mut self, f: Option<Frame>)
        requires { self.old.at ≤ 2 ^ 38 }
        ensures { Put self.old self.new (F.printed f) × (self.new.at ≤ self.old.at + 97) }
    {
        match f {
            None => {}
            Some(Frame::Register { number, value }) => {
                self.line(&[(2, 0x01), (2, number as u64), (16, value)]);
            }
            Some(Frame::Memory { address, value }) => {
                self.line(&[(2, 0x02), (8, address), (16, value)]);
            }
            Some(Frame::Budget(n)) => self.line(&[(2, 0x03), (8, n)]),
            Some(Frame::Cp0 { number, value }) => {
                self.line(&[(2, 0x04), (2, number as u64), (16, value)]);
            }
            Some(
                Frame::Slot {
                    index,
                    mask,
                    hi,
                    lo0,
                    lo1,
                },
            ) => self.line(&[
                (2, 0x05),
                (2, index as u64),
                (8, mask),
                (8, hi),
                (8, lo0),
                (8, lo1),
            ]),
        }
    }

    // So many lines, from line `from` on.
    fn each<L: Fn(usize) -> Option<Frame>>(&mut self, from: usize, count: usize, line: L)
        requires room { (self.old.at ≤ 2 ^ 37) × (from + count ≤ 2 ^ 16) }
        requires callable { (i : ℕ) → i < 2 ^ 16 → L.pre line i }
        ensures { (text : List ℕ) × F.IsEach (L.post line) count from text × Put self.old self.new text × (self.new.at ≤ self.old.at + 97 * count) }
    {
        for i in from..from + count {
            self.frame(line(i));
        }
    }
}
