// Where the segments of a file are at home, and what stands there.
ghost use Rattle.std.specs.Prelude.{◌≤◌, ◌≡◌};
ghost use Rattle.elf.specs.Home as Homes;

use crate::bytes::byte;
use crate::headers::{end, header, loads, many};
use crate::{Header, Space};

// The physical address of an unmapped one.
#[tactic(auto, unfolding(crate::specs::Home::physical))]
fn physical(v: u32) -> u32
    ensures { result ≡ Homes.physical v }
{
    if 0xa0000000 <= v {
        v - 0xa0000000
    } else if 0x80000000 <= v {
        v - 0x80000000
    } else {
        v
    }
}

// Where an address is at home.
#[tactic(auto, unfolding(crate::specs::Home::home))]
pub(crate) fn home(space: Space, v: u32) -> u32
    ensures { result ≡ Homes.home space v }
{
    match space {
        Space::User => v,
        Space::Kernel => physical(v),
    }
}

// Whether a header leaves a User program's addresses; or of a kernel the unmapped ones, or the RAM.
#[tactic(auto, unfolding(crate::specs::Home::outside, crate::specs::Home::outside_user, crate::specs::Home::outside_kernel))]
pub(crate) fn outside(space: Space, h: Header) -> bool
    ensures { result ≡ Homes.outside space h }
{
    match space {
        Space::User => 0x7ffff000 < end(h),
        Space::Kernel => {
            h.vaddr < 0x80000000 || 65536 < physical(h.vaddr) as usize + h.memsz as usize
        }
    }
}

// Whether an address is one of n from b on.
#[tactic(auto, unfolding(crate::specs::Home::within))]
fn within(b: u32, n: u32, a: usize) -> bool
    ensures { result ≡ Homes.within b n a }
{
    b as usize <= a && a < b as usize + n as usize
}

// Whether a header is a segment that covers an address.
#[tactic(auto, unfolding(crate::specs::Home::covers))]
pub(crate) fn covers(space: Space, file: &[u8], h: Header, a: usize) -> bool
    ensures { result ≡ Homes.covers space file.now h a }
{
    within(home(space, h.vaddr), h.memsz, a) && loads(file, h)
}

// The byte of a segment at home at b.
#[tactic(auto, unfolding(crate::specs::Home::byte_of))]
fn byte_of(file: &[u8], h: Header, b: usize, a: usize) -> u8
    requires { b ≤ a }
    ensures { result ≡ Homes.byte_of file.now h b a }
{
    if a - b < h.filesz as usize {
        byte(file, h.offset as usize + (a - b))
    } else {
        0
    }
}

// What stands at an address of a file's home.
#[tactic(auto, unfolding(crate::specs::Home::stands))]
pub fn stands(space: Space, file: &[u8], a: usize) -> u8
    ensures { result ≡ Homes.stands space file.now a }
{
    for i in 0..many(file) {
        let h = header(file, i);
        if covers(space, file, h, a) {
            return byte_of(file, h, home(space, h.vaddr) as usize, a);
        }
    }
    0
}
