// What the RAM holds.
ghost use Rattle.std.specs.Prelude.{◌+◌, ◌≤◌, ◌<◌, ◌≡◌, length};
ghost use Rattle.place.specs.Files as F;
ghost use Rattle.place.specs.Ram as R;

use crate::Owner;
use crate::files::Files;
use elf::Space;

// What the owner of a page of RAM has at physical address p.
#[tactic(auto, unfolding(crate::specs::Ram::owned_byte))]
fn owned_byte(files: Files, own: Option<Owner>, p: usize) -> u8
    ensures { result ≡ R.owned_byte (F.file_of files.entry) own p }
{
    match own {
        Some(o) => {
            let at = o.page as usize * 4096 + p % 4096;
            elf::stands(Space::User, files.file(o.asid), at)
        }
        None => 0,
    }
}

// The byte at physical address p.
#[tactic(auto, unfolding(crate::specs::Ram::byte_at))]
fn byte_at(files: Files, kernel: usize, pages: &[Option<Owner>; 16], p: usize) -> u8
    requires { p < 65536 }
    ensures { result ≡ R.byte_at (F.file_of files.entry) kernel pages.now p }
{
    let page = p / 4096;
    if page < kernel {
        return elf::stands(Space::Kernel, files.file(0), p);
    }
    owned_byte(files, pages[page], p)
}

// The RAM, from physical address 0 on.
pub(crate) fn fill(files: Files, kernel: usize, pages: &[Option<Owner>; 16], ram: &mut [u8])
    requires { length ram.old ≤ 65536 }
    ensures { ram.new ≡ R.bytes_from (F.file_of files.entry) kernel pages.now (length ram.old) 0 }
{
    for (p, byte) in ram.iter_mut().enumerate() {
        *byte = byte_at(files, kernel, pages, p);
    }
}
