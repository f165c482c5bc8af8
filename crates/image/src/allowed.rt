// Which values a frame may have; any other is refusal 7.
ghost use Rattle.std.specs.Prelude.{◌≡◌};
ghost use Rattle.image.specs.Allowed as W;

use frame::{Frame, PC};

// `01`: a register, HI, LO or PC; r0 only with value 0.
fn register_allowed(number: usize, value: u64) -> bool
    ensures { result ≡ W.register_allowed number value }
{
    number <= PC && (number != 0 || value == 0)
}

// `02`: a multiple of 8, at most 0000fff8.
fn address_allowed(address: u64) -> bool
    ensures { result ≡ W.address_allowed address }
{
    address % 8 == 0 && address <= 0xfff8
}

// `04`: a number that is kept, and a move that would not be 18.
fn move_allowed(number: usize, value: u64) -> bool
    ensures { result ≡ W.move_allowed number value }
{
    cp0::kept(number) && cp0::check_move(number, value).is_ok()
}

// `05`: a slot of at most 2f, and a legal mask.
fn slot_allowed(index: usize, mask: u64) -> bool
    ensures { result ≡ W.slot_allowed index mask }
{
    index <= 0x2f && tlb::legal_mask(mask)
}

// Whether a frame's value is allowed.
pub fn allowed(f: Frame) -> bool
    ensures { result ≡ W.allowed f }
{
    match f {
        Frame::Register { number, value } => register_allowed(number, value),
        Frame::Memory { address, .. } => address_allowed(address),
        Frame::Budget(_) => true,
        Frame::Cp0 { number, value } => move_allowed(number, value),
        Frame::Slot { index, mask, .. } => slot_allowed(index, mask),
    }
}
