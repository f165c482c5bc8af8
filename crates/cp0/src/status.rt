// The fields of Status and Cause, the mode, and when an interrupt is taken.
ghost use Rattle.std.specs.Prelude.{◌≡◌};
ghost use Rattle.cp0.specs.Status as S;

use tlb::Mode;

// Whether exceptions go to the boot ROM.
pub(crate) fn bev(status: u32) -> bool
    ensures { result ≡ S.BEV status }
{
    status / 0x40_0000 % 2 == 1
}

// Whether the processor is at the error level.
pub(crate) fn erl(status: u32) -> bool
    ensures { result ≡ S.ERL status }
{
    status / 4 % 2 == 1
}

// Whether the processor is at the exception level.
pub(crate) fn exl(status: u32) -> bool
    ensures { result ≡ S.EXL status }
{
    status / 2 % 2 == 1
}

// Whether Status says User mode.
#[tactic(auto, unfolding(crate::specs::Status::user))]
pub fn user(status: u32) -> bool
    ensures { result ≡ S.user status }
{
    status / 8 % 4 == 2 && !exl(status) && !erl(status)
}

// Which map of segments holds.
#[tactic(auto, unfolding(crate::specs::Status::mode_of))]
pub fn mode_of(status: u32) -> Mode
    ensures { result ≡ S.mode_of status }
{
    if user(status) {
        Mode::User
    } else if erl(status) {
        Mode::Error
    } else {
        Mode::Kernel
    }
}

// Cause with the lines in IP6..2, as it reads.
#[tactic(auto, unfolding(crate::specs::Status::cause_read))]
pub fn cause_read(cause: u32, lines: u8) -> u32
    ensures { result ≡ S.cause_read cause lines }
{
    cause / 0x8000 * 0x8000 + u32::from(lines % 32) * 0x400 + cause % 0x400
}

// Whether an interrupt is taken.
#[tactic(auto, unfolding(crate::specs::Status::interrupted))]
pub fn interrupted(status: u32, cause: u32, lines: u8) -> bool
    ensures { result ≡ S.interrupted status cause lines }
{
    status % 2 == 1
        && !exl(status)
        && !erl(status)
        && status / 256 % 256 & cause_read(cause, lines) / 256 % 256 != 0
}
