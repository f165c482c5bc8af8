// The pages of a segment at home.
ghost use Rattle.std.specs.Prelude.{◌≤◌, ◌^◌, ◌+◌, ◌≡◌};
ghost use Rattle.elf.specs.Pages as P;

use crate::headers::{count, header, loads};
use crate::homes::home;
use crate::{Header, Pages, Space};

// The pages of a header; none where it is no segment.
#[tactic(auto, unfolding(crate::specs::Pages::pages_of, crate::specs::Pages::spans))]
fn pages_of(space: Space, file: &[u8], h: Header) -> Pages
    ensures { (result ≡ P.pages_of space file.now h) × (result.first + result.count ≤ 2 ^ 22) }
{
    let b = home(space, h.vaddr) as usize;
    let first = b / 4096;
    let count = if loads(file, h) {
        (b + h.memsz as usize + 4095) / 4096 - first
    } else {
        0
    };
    Pages {
        first,
        count,
        writable: h.flags / 2 % 2 == 1,
    }
}

// The pages of header i; none past the last.
#[tactic(auto, unfolding(crate::specs::Pages::pages_at))]
pub fn pages_at(space: Space, file: &[u8], i: usize) -> Pages
    ensures { (result ≡ P.pages_at space file.now i) × (result.first + result.count ≤ 2 ^ 22) }
{
    if i < count(file) {
        pages_of(space, file, header(file, i as u16))
    } else {
        Pages {
            first: 0,
            count: 0,
            writable: false,
        }
    }
}
