// Which page of RAM each page of a program gets, and its slot and half of the TLB.
ghost use Rattle.std.specs.Prelude.{◌+◌, ◌≤◌, ◌<◌, ◌^◌, ◌≡◌};
ghost use Rattle.place.specs.Files as F;
ghost use Rattle.place.specs.Plan as P;

use crate::Owner;
use crate::files::Files;
use elf::Space;
use std::marker::Model;

// The pages of RAM.
const RAM_PAGES: usize = 16;

// What is taken: slots, pages of RAM; the first program for which there was no page; the TLB, and whose each page of RAM is.
#[derive(Drop)]
pub(crate) struct Plan {
    pub(crate) used: usize,
    pub(crate) next: usize,
    pub(crate) full: Option<usize>,
    pub(crate) tlb: [u64; 192],
    pub(crate) pages: [Option<Owner>; 16],
}

// No more slots than pages are taken, and no more than 16.
impl Model for Plan {
    ghost use Rattle.std.specs.Prelude.{◌≤◌};
    ghost use Rattle.place.specs.Plan as P;

    ghost Value = { P.Plan };

    ghost view = { λ p. record { used = p.used; next = p.next; full = p.full; tlb = p.tlb; pages = p.pages } };

    ghost invariant = { λ p. (p.used ≤ 16) × (p.used ≤ p.next) };
}

// EntryHi of a page's pair under an ASID.
fn key(asid: usize, page: usize) -> u64
    requires { (asid < 4096) × (page < 2 ^ 23) }
    ensures { result ≡ P.key asid page }
{
    (page / 2 * 8192 + asid) as u64
}

// Where in the TLB a page's half of slot i stands.
fn lo_at(i: usize, page: usize) -> usize
    requires { i ≤ 16 }
    ensures { (result ≡ P.lo_at i page) × (result < 192) }
{
    i * 4 + 2 + page % 2
}

// EntryLo of a page of RAM.
#[tactic(auto, unfolding(crate::specs::Plan::lo_of))]
fn lo_of(next: usize, writable: bool) -> u64
    requires { next < 16 }
    ensures { result ≡ P.lo_of next writable }
{
    let bits = if writable { 6 } else { 2 };
    (next * 64 + bits) as u64
}

// EntryLo with D as well, if the page is now writable.
#[tactic(auto, unfolding(crate::specs::Plan::granted))]
fn granted(lo: u64, writable: bool) -> u64
    ensures { result ≡ P.granted lo writable }
{
    if writable { lo / 8 * 8 + 6 } else { lo }
}

// The first slot with this EntryHi, of those used; one past them where there is none.
fn find(tlb: &[u64; 192], hi: u64, used: usize) -> usize
    requires { used ≤ 16 }
    ensures { (result ≡ P.find tlb.now hi used 0) × (result ≤ used) }
{
    (0..used).find(|i| tlb[*i * 4 + 1] == hi).unwrap_or(used)
}

// The slots used, once slot i is.
#[tactic(auto, unfolding(crate::specs::Plan::more))]
fn more(used: usize, i: usize) -> usize
    requires { i ≤ 16 }
    ensures { result ≡ P.more used i }
{
    if i == used { i + 1 } else { used }
}

impl Plan {
    // A kernel's pages are taken, and nothing else.
    #[tactic(auto, unfolding(crate::specs::Plan::begun))]
    pub(crate) fn begun(kernel: usize) -> Plan
        ensures { result ≡ P.begun kernel }
    {
        let tlb = card::fresh().tlb;
        let pages = [None; 16];
        Plan {
            used: 0,
            next: kernel,
            full: None,
            tlb,
            pages,
        }
    }

    // The next page of RAM is taken.
    #[tactic(auto, unfolding(crate::specs::Plan::taken))]
    fn take(&mut self, asid: usize, page: usize, writable: bool, i: usize)
        requires { (i ≤ self.old.used) × ((self.old.next < 16) × ((asid < 4096) × (page < 2 ^ 23))) }
        ensures { self.new ≡ P.taken self.old asid page writable i }
    {
        let next = self.next;
        let used = more(self.used, i);
        self.tlb[i * 4 + 1] = key(asid, page);
        self.tlb[lo_at(i, page)] = lo_of(next, writable);
        self.pages[next] = Some(Owner {
            page: page as u32,
            asid,
        });
        self.used = used;
        self.next = next + 1;
    }

    // A page of a program.
    fn add(&mut self, asid: usize, page: usize, writable: bool)
        requires { (asid < 4096) × (page < 2 ^ 23) }
        ensures { self.new ≡ P.add self.old asid page writable }
    {
        let i = find(&self.tlb, key(asid, page), self.used);
        let at = lo_at(i, page);
        let lo = self.tlb[at];
        if lo != 0 {
            self.tlb[at] = granted(lo, writable);
        } else if self.next < RAM_PAGES {
            self.take(asid, page, writable, i);
        } else {
            self.full = self.full.or(Some(asid));
        }
    }

    // So many pages in order.
    fn add_run(&mut self, asid: usize, from: usize, writable: bool, n: usize)
        requires { (asid < 4096) × (from + n ≤ 2 ^ 22) }
        ensures { self.new ≡ P.add_run self.old asid from writable n }
    {
        for page in from..from + n {
            self.add(asid, page, writable);
        }
    }

    // The pages of header i of a program.
    #[tactic(auto, unfolding(crate::specs::Plan::add_segment))]
    fn add_segment(&mut self, asid: usize, file: &[u8], i: usize)
        requires { asid < 4096 }
        ensures { self.new ≡ P.add_segment self.old asid file.now i }
    {
        let g = elf::pages_at(Space::User, file, i);
        self.add_run(asid, g.first, g.writable, g.count);
    }

    // The pages of a program's segments.
    fn add_segments(&mut self, asid: usize, file: &[u8])
        requires { asid < 4096 }
        ensures { self.new ≡ P.add_all self.old asid file.now }
    {
        for i in 0..elf::count(file) {
            self.add_segment(asid, file, i);
        }
    }

    // A program's pages, and its stack's.
    #[tactic(auto, unfolding(crate::specs::Plan::add_program))]
    fn add_program(&mut self, asid: usize, file: &[u8])
        requires { asid < 4096 }
        ensures { self.new ≡ P.add_program self.old asid file.now }
    {
        self.add_segments(asid, file);
        self.add(asid, 0x7ffff, true);
    }

    // The programs' pages, from program 1 on.
    pub(crate) fn add_programs(&mut self, files: Files, n: u8)
        ensures { self.new ≡ P.add_programs self.old (F.file_of files.entry) n 1 }
    {
        for k in 1..n as usize + 1 {
            self.add_program(k, files.file(k));
        }
    }
}

// Where the pages of header i of a kernel end; 0 where it has none.
#[tactic(auto, unfolding(crate::specs::Plan::top_of))]
fn top_of(file: &[u8], i: usize) -> usize
    ensures { (result ≡ P.top_of file.now i) × (result ≤ 2 ^ 22) }
{
    let g = elf::pages_at(Space::Kernel, file, i);
    if g.count == 0 { 0 } else { g.first + g.count }
}

// The kernel's pages.
pub(crate) fn kernel_pages(file: &[u8]) -> usize
    ensures { result ≡ P.kernel_pages file.now }
{
    (0..elf::count(file)).fold(0, |top, i| top.max(top_of(file, i)))
}
