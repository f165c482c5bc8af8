// Why a file is refused.
ghost use Rattle.std.specs.Prelude.{◌≡◌};
ghost use Rattle.elf.specs.Faults as F;
ghost use Rattle.elf.specs.Header as Headers;

use crate::bytes::{byte, half, word};
use crate::headers::{HEADER_SIZE, entry, header, loads, many, table};
use crate::homes::{covers, home, outside};
use crate::{Fault, Header, Space};

// The bytes of a file's header.
const FILE_HEADER_SIZE: usize = 52;

// The program headers of a file, at most.
const MOST_HEADERS: usize = 32;

impl Fault {
    // Its number.
    pub fn number(self) -> u8
        ensures { result ≡ F.number self }
    {
        match self {
            Fault::NotElf => 1,
            Fault::Short(_) => 2,
            Fault::Class(_) => 3,
            Fault::Order(_) => 4,
            Fault::Machine(_) => 5,
            Fault::Unlinked(_) => 6,
            Fault::HeaderSize(_) => 7,
            Fault::TooMany(_) => 8,
            Fault::NoTable(_) => 9,
            Fault::NotStored(_) => 10,
            Fault::MoreInFile(_) => 11,
            Fault::TooLarge(_) => 12,
            Fault::Leaves(_) => 13,
            Fault::Shared(_) => 14,
            Fault::NoSegment => 15,
            Fault::NoEntry(_) => 16,
        }
    }

    // What it is about; 0 where it is about nothing.
    pub fn about(self) -> usize
        ensures { result ≡ F.about self }
    {
        match self {
            Fault::NotElf | Fault::NoSegment => 0,
            Fault::Short(n)
            | Fault::Class(n)
            | Fault::Order(n)
            | Fault::Machine(n)
            | Fault::Unlinked(n)
            | Fault::HeaderSize(n)
            | Fault::TooMany(n)
            | Fault::NoTable(n)
            | Fault::NotStored(n)
            | Fault::MoreInFile(n)
            | Fault::TooLarge(n)
            | Fault::Leaves(n)
            | Fault::Shared(n)
            | Fault::NoEntry(n) => n,
        }
    }
}

// What is wrong with the header of a file.
#[tactic(auto, unfolding(crate::specs::Faults::head_fault))]
pub fn head_fault(file: &[u8]) -> Result<(), Fault>
    ensures { result ≡ F.head_fault file.now }
{
    if word(file, 0) != 0x7f454c46 {
        return Err(Fault::NotElf);
    }
    if file.len() < FILE_HEADER_SIZE {
        return Err(Fault::Short(file.len()));
    }
    let class = byte(file, 4);
    if class != 1 {
        return Err(Fault::Class(usize::from(class)));
    }
    let data = byte(file, 5);
    if data != 2 {
        return Err(Fault::Order(usize::from(data)));
    }
    let machine = half(file, 18);
    if machine != 8 {
        return Err(Fault::Machine(usize::from(machine)));
    }
    let kind = half(file, 16);
    if kind != 2 {
        return Err(Fault::Unlinked(usize::from(kind)));
    }
    Ok(())
}

// What is wrong with its program headers as a table.
#[tactic(auto, unfolding(crate::specs::Faults::table_fault))]
fn table_fault(file: &[u8]) -> Result<(), Fault>
    ensures { result ≡ F.table_fault file.now }
{
    let size = usize::from(half(file, 42));
    if size != HEADER_SIZE {
        return Err(Fault::HeaderSize(size));
    }
    let many = usize::from(many(file));
    if MOST_HEADERS < many {
        return Err(Fault::TooMany(many));
    }
    let at = table(file) as usize;
    if file.len() < at + HEADER_SIZE * many {
        return Err(Fault::NoTable(at));
    }
    Ok(())
}

// Whether n addresses from a on and m from b on share one.
#[tactic(auto, unfolding(crate::specs::Faults::shares))]
fn shares(a: u32, n: u32, b: u32, m: u32) -> bool
    ensures { result ≡ F.shares a n b m }
{
    (a as usize) < b as usize + m as usize && (b as usize) < a as usize + n as usize
}

// Whether the homes of two headers share an address.
fn overlap(space: Space, g: Header, h: Header) -> bool
    ensures { result ≡ F.overlap space g h }
{
    shares(home(space, g.vaddr), g.memsz, home(space, h.vaddr), h.memsz)
}

// Whether a header overlaps header i, and that is a segment.
#[tactic(auto, unfolding(crate::specs::Faults::overlaps_at))]
fn overlaps_at(space: Space, file: &[u8], h: Header, i: u16) -> bool
    ensures { result ≡ F.overlaps_at space file.now h i }
{
    let g = header(file, i);
    overlap(space, h, g) && loads(file, g)
}

// Whether a header overlaps a segment below header n.
#[tactic(auto, unfolding(crate::specs::Faults::overlaps))]
fn overlaps(space: Space, file: &[u8], h: Header, n: u16) -> bool
    ensures { result ≡ F.overlaps space file.now h n 0 }
{
    (0..n).any(|i| overlaps_at(space, file, h, i))
}

// What is wrong with segment i.
#[tactic(auto, unfolding(crate::specs::Faults::segment_fault))]
fn segment_fault(space: Space, file: &[u8], h: Header, i: u16) -> Result<(), Fault>
    ensures { result ≡ F.segment_fault space file.now h i }
{
    let about = usize::from(i);
    if file.len() < h.offset as usize + h.filesz as usize {
        return Err(Fault::NotStored(about));
    }
    if h.memsz < h.filesz {
        return Err(Fault::MoreInFile(about));
    }
    if 65536 < h.memsz {
        return Err(Fault::TooLarge(about));
    }
    if outside(space, h) {
        return Err(Fault::Leaves(about));
    }
    if overlaps(space, file, h, i) {
        return Err(Fault::Shared(about));
    }
    Ok(())
}

// What is wrong with header i.
#[tactic(auto, unfolding(crate::specs::Faults::header_fault))]
fn header_fault(space: Space, file: &[u8], i: u16) -> Result<(), Fault>
    ensures { result ≡ F.header_fault space file.now i }
{
    let h = header(file, i);
    if loads(file, h) {
        segment_fault(space, file, h, i)
    } else {
        Ok(())
    }
}

// The first fault of the segments.
#[tactic(auto, unfolding(crate::specs::Faults::segments_fault))]
fn segments_fault(space: Space, file: &[u8]) -> Result<(), Fault>
    ensures { result ≡ F.segments_fault space file.now (Headers.count file.now) 0 }
{
    for i in 0..many(file) {
        header_fault(space, file, i)?;
    }
    Ok(())
}

// Whether there is a segment.
#[tactic(auto, unfolding(crate::specs::Faults::any_segment))]
fn any_segment(file: &[u8]) -> bool
    ensures { result ≡ F.any_segment file.now (Headers.count file.now) 0 }
{
    (0..many(file)).any(|i| loads(file, header(file, i)))
}

// What a file is refused for.
#[tactic(auto, unfolding(crate::specs::Faults::file_fault))]
pub fn file_fault(space: Space, file: &[u8]) -> Result<(), Fault>
    ensures { result ≡ F.file_fault space file.now }
{
    head_fault(file)?;
    table_fault(file)?;
    segments_fault(space, file)?;
    if any_segment(file) {
        Ok(())
    } else {
        Err(Fault::NoSegment)
    }
}

// Whether an address is in a segment.
#[tactic(auto, unfolding(crate::specs::Faults::in_segment))]
fn in_segment(file: &[u8], v: usize) -> bool
    ensures { result ≡ F.in_segment file.now v (Headers.count file.now) 0 }
{
    (0..many(file)).any(|i| covers(Space::User, file, header(file, i), v))
}

// Whether the entry point is one.
#[tactic(auto, unfolding(crate::specs::Faults::enters))]
fn enters(file: &[u8]) -> bool
    ensures { result ≡ F.enters file.now }
{
    let v = entry(file);
    v % 4 == 0 && in_segment(file, v)
}

// What a program is refused for.
#[tactic(auto, unfolding(crate::specs::Faults::program_fault))]
pub fn program_fault(space: Space, file: &[u8]) -> Result<(), Fault>
    ensures { result ≡ F.program_fault space file.now }
{
    file_fault(space, file)?;
    if enters(file) {
        Ok(())
    } else {
        Err(Fault::NoEntry(entry(file)))
    }
}
