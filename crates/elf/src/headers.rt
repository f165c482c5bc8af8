// The program headers of a file, and which of them are segments.
ghost use Rattle.std.specs.Prelude.{◌<◌, ◌≤◌, ◌^◌, ◌≡◌};
ghost use Rattle.elf.specs.Header as Headers;

use crate::Header;
use crate::bytes::{half, word};

// The type of a segment.
const LOAD: u32 = 1;

// The types of notes: the plain one, and three of MIPS.
const NOTE: u32 = 4;

const MIPS_REGINFO: u32 = 0x70000000;

const MIPS_OPTIONS: u32 = 0x70000002;

const MIPS_ABIFLAGS: u32 = 0x70000003;

// The bytes of a program header.
pub(crate) const HEADER_SIZE: usize = 32;

// Where the program headers are.
#[tactic(auto, unfolding(crate::specs::Header::table))]
pub(crate) fn table(file: &[u8]) -> u32
    ensures { result ≡ Headers.table file.now }
{
    word(file, 28)
}

// How many there are.
#[tactic(auto, unfolding(crate::specs::Header::count))]
pub(crate) fn many(file: &[u8]) -> u16
    ensures { result ≡ Headers.count file.now }
{
    half(file, 44)
}

// The same as a usize, for the crates above; in here a u16 keeps it below 65,536.
#[tactic(auto, unfolding(crate::specs::Header::count))]
pub fn count(file: &[u8]) -> usize
    ensures { (result ≡ Headers.count file.now) × (result < 65536) }
{
    usize::from(many(file))
}

// The entry point.
#[tactic(auto, unfolding(crate::specs::Header::entry))]
pub fn entry(file: &[u8]) -> usize
    ensures { (result ≡ Headers.entry file.now) × (result < 2 ^ 32) }
{
    word(file, 24) as usize
}

// The header at an offset.
#[tactic(auto, unfolding(crate::specs::Header::header_at))]
fn header_at(file: &[u8], at: usize) -> Header
    requires { at ≤ 2 ^ 38 }
    ensures { result ≡ Headers.header_at file.now at }
{
    Header {
        kind: word(file, at),
        offset: word(file, at + 4),
        vaddr: word(file, at + 8),
        filesz: word(file, at + 16),
        memsz: word(file, at + 20),
        flags: word(file, at + 24),
    }
}

// Header i.
#[tactic(auto, unfolding(crate::specs::Header::header))]
pub(crate) fn header(file: &[u8], i: u16) -> Header
    ensures { result ≡ Headers.header file.now i }
{
    header_at(file, table(file) as usize + HEADER_SIZE * usize::from(i))
}

// Whether a header of this type is a note.
#[tactic(auto, unfolding(crate::specs::Header::note))]
fn note(kind: u32) -> bool
    ensures { result ≡ Headers.note kind }
{
    matches!(kind, NOTE | MIPS_REGINFO | MIPS_OPTIONS | MIPS_ABIFLAGS)
}

// Where the addresses of a header end.
pub(crate) fn end(h: Header) -> usize
    ensures { result ≡ Headers.end h }
{
    h.vaddr as usize + h.memsz as usize
}

// How far notes reach after one more header.
#[tactic(auto, unfolding(crate::specs::Header::raised))]
fn raised(h: Header, reach: usize) -> usize
    ensures { result ≡ Headers.raised h reach }
{
    if note(h.kind) && h.vaddr as usize <= reach && reach < end(h) {
        end(h)
    } else {
        reach
    }
}

// How far notes reach from an address on, after all headers.
fn reach(file: &[u8], from: usize) -> usize
    ensures { result ≡ Headers.reach_from file.now (Headers.count file.now) 0 from }
{
    (0..many(file)).fold(from, |far, i| raised(header(file, i), far))
}

// Whether the addresses of a header are covered by notes.
#[tactic(auto, unfolding(crate::specs::Header::only_notes))]
fn only_notes(file: &[u8], h: Header) -> bool
    ensures { result ≡ Headers.only_notes file.now h }
{
    h.filesz <= h.memsz && end(h) <= reach(file, h.vaddr as usize)
}

// Whether a header is a segment.
#[tactic(auto, unfolding(crate::specs::Header::loads))]
pub(crate) fn loads(file: &[u8], h: Header) -> bool
    ensures { result ≡ Headers.loads file.now h }
{
    h.kind == LOAD && !only_notes(file, h)
}
