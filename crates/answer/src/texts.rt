// The texts that the programs print, whole.
ghost use Rattle.std.specs.Prelude.{◌+◌, ◌≤◌, ◌^◌, ◌≡◌};
ghost use Rattle.answer.specs.Frames.{stop_frame, refusal_frame, register_frame, cp0_frame};
ghost use Rattle.answer.specs.Placed.{preset_text, placed_text, reason_text, word_text};
ghost use Rattle.answer.specs.Put.{Put};
ghost use Rattle.answer.specs.Texts as T;
ghost use Rattle.answer.specs.Wrote.{Wrote};

use crate::{Text, kept_line, memory_line, non_zero_line, register_line, slot_line};
use card::{Machine, Ran};
use frame::{Frame, PC};

// A refusal: only `0e`.
pub fn refusal_text(out: &mut [u8], number: u8, line: u64) -> usize
    ensures { Wrote out.old 0 (refusal_frame number line) result out.new }
{
    let mut text = Text { out, at: 0 };
    text.line(&[(2, 0x0e), (2, u64::from(number)), (8, line)]);
    text.at
}

// Whether the run was refused.
fn refused(stop: u8) -> bool
    ensures { result ≡ T.refused stop }
{
    matches!(stop, 1..=4)
}

// What `cardrun` prints of a run.
pub fn cardrun_text(out: &mut [u8], ran: Ran) -> usize
    ensures { Wrote out.old 0 (T.cardrun_text ran) result out.new }
{
    if refused(ran.stop) {
        return refusal_text(out, ran.stop, 0);
    }
    let m = &ran.machine;
    let mut text = Text { out, at: 0 };
    text.stop(ran.stop, ran.steps);
    text.each(1, 33, |i| non_zero_line(m, i));
    text.register(PC, m.cpu.pc);
    text.at
}

impl<'a> Text<'a> {
    // `0f`: the stop's number, and the counted steps.
    fn stop(&mut self, stop: u8, steps: u64)
        requires { self.old.at ≤ 2 ^ 38 }
        ensures { Put self.old self.new (stop_frame stop steps) × (self.new.at ≤ self.old.at + 97) }
    {
        self.line(&[(2, 0x0f), (2, u64::from(stop)), (8, steps)]);
    }

    // Frame `01`.
    fn register(&mut self, number: usize, value: u64)
        requires { self.old.at ≤ 2 ^ 38 }
        ensures { Put self.old self.new (register_frame number value) × (self.new.at ≤ self.old.at + 97) }
    {
        self.frame(Some(Frame::Register { number, value }));
    }

    // Frame `04`.
    fn cp0(&mut self, number: usize, value: u64)
        requires { self.old.at ≤ 2 ^ 38 }
        ensures { Put self.old self.new (cp0_frame number value) × (self.new.at ≤ self.old.at + 97) }
    {
        self.frame(Some(Frame::Cp0 { number, value }));
    }

    // The whole state.
    fn state(&mut self, m: &Machine, ram: &[u8])
        requires { self.old.at ≤ 2 ^ 30 }
        ensures { Put self.old self.new (T.state_text m.now ram.now) }
    {
        self.each(0, 35, |i| register_line(m, i));
        self.line(&[
            (2, 0x0a),
            (2, u64::from(m.cpu.slot)),
            (16, m.cpu.target),
            (2, u64::from(m.cpu.link)),
        ]);
        self.each(0, 32, |i| kept_line(m.cp0, i));
        self.each(0, 48, |i| slot_line(&m.tlb, i));
        self.each(0, 8192, |i| memory_line(ram, i));
    }

    // Status, and PC; for a User program User mode, ASID 1 and the stack pointer as well.
    fn preset(&mut self, user: bool, pc: u64)
        requires { self.old.at ≤ 2 ^ 37 }
        ensures { Put self.old self.new (preset_text user pc) × (self.new.at ≤ self.old.at + 388) }
    {
        if user {
            self.cp0(12, 0x10);
            self.cp0(10, 1);
            self.register(29, 0x7ffffff0);
            self.register(PC, pc);
        } else {
            self.cp0(12, 0);
            self.register(PC, pc);
        }
    }
}

// What `cardstate` prints of a run and the RAM that it left.
pub fn cardstate_text(out: &mut [u8], ran: Ran, ram: &[u8]) -> usize
    ensures { Wrote out.old 0 (T.cardstate_text ran ram.now) result out.new }
{
    if refused(ran.stop) {
        return refusal_text(out, ran.stop, 0);
    }
    let mut text = Text { out, at: 0 };
    text.stop(ran.stop, ran.steps);
    text.state(&ran.machine, ram);
    text.at
}

// The text of an image that places a RAM and a TLB, and then has settings of its own.
pub fn placed_text(
    out: &mut [u8],
    ram: &[u8],
    tlb: &[u64; 192],
    used: u8,
    user: bool,
    pc: u64,
    settings: &[u8],
) -> usize
    ensures { Wrote out.old 0 (placed_text tlb.now ram.now used user pc settings.now) result out.new }
{
    let mut text = Text { out, at: 0 };
    text.each(0, 8192, |i| memory_line(ram, i));
    text.each(0, usize::from(used), |i| slot_line(tlb, i));
    text.preset(user, pc);
    text.bytes(settings);
    text.at
}

// Why there is no image: a refusal's number, a file's number, and what it is about.
pub fn reason_text(out: &mut [u8], number: u8, file: u64, about: u64) -> usize
    ensures { (Wrote out.old 0 (reason_text number file about) result out.new) × (result ≡ 15) }
{
    let mut text = Text { out, at: 0 };
    text.line(&[(2, 0x0d), (2, u64::from(number)), (2, file), (8, about)]);
    text.at
}

// A word as eight digits.
pub fn word_text(out: &mut [u8], value: u64) -> usize
    ensures { (Wrote out.old 0 (word_text value) result out.new) × (result ≡ 9) }
{
    let mut text = Text { out, at: 0 };
    text.line(&[(8, value)]);
    text.at
}
