// The value of a symbol, by its exact name.
ghost use Rattle.std.specs.Prelude.{◌≤◌, ◌^◌, ◌+◌, ◌≡◌};
ghost use Rattle.elf.specs.Bytes as B;
ghost use Rattle.elf.specs.Symbol as S;

use crate::Section;
use crate::bytes::{byte, half, word};

// The bytes of a section header, and of a symbol.
const SECTION_SIZE: usize = 40;

const SYMBOL_SIZE: usize = 16;

// The type of a section of symbols.
const SYMBOLS: u32 = 2;

// Whether the section headers are of 40 bytes and all in the file.
#[tactic(auto, unfolding(crate::specs::Symbol::sectioned))]
fn sectioned(file: &[u8]) -> bool
    ensures { result ≡ S.sectioned file.now }
{
    usize::from(half(file, 46)) == SECTION_SIZE
        && word(file, 32) as usize + SECTION_SIZE * usize::from(half(file, 48)) <= file.len()
}

// Section i.
#[tactic(auto, unfolding(crate::specs::Symbol::section))]
fn section(file: &[u8], i: u32) -> Section
    ensures { result ≡ S.section file.now i }
{
    let at = word(file, 32) as usize + SECTION_SIZE * i as usize;
    Section {
        kind: word(file, at + 4),
        offset: word(file, at + 16),
        size: word(file, at + 20),
        link: word(file, at + 24),
    }
}

// Whether a section is in the file.
fn in_file(file: &[u8], s: Section) -> bool
    ensures { result ≡ S.in_file file.now s }
{
    s.offset as usize + s.size as usize <= file.len()
}

// Whether the bytes at an offset are these.
#[tactic(auto, unfolding(crate::specs::Symbol::same_from))]
fn same_from(file: &[u8], at: usize, name: &[u8]) -> bool
    requires { at ≤ 2 ^ 40 }
    ensures { result ≡ S.same_from file.now at name.now }
{
    name.iter()
        .enumerate()
        .all(|(i, x)| byte(file, at + i) == *x)
}

// Whether the name that begins at a number is this one.
#[tactic(auto, unfolding(crate::specs::Symbol::named))]
fn named(file: &[u8], names: Section, begin: u32, name: &[u8]) -> bool
    ensures { result ≡ S.named file.now names begin name.now }
{
    let at = names.offset as usize + begin as usize;
    begin as usize + name.len() < names.size as usize
        && byte(file, at + name.len()) == 0
        && same_from(file, at, name)
}

// Whether the symbol at an offset is one of a section and of no source file.
#[tactic(auto, unfolding(crate::specs::Symbol::defined))]
fn defined(file: &[u8], at: usize) -> bool
    requires { at ≤ 2 ^ 39 }
    ensures { result ≡ S.defined file.now at }
{
    half(file, at + 14) != 0 && byte(file, at + 12) % 16 != 4
}

// Whether the symbol at an offset is the one.
#[tactic(auto, unfolding(crate::specs::Symbol::is_symbol))]
fn is_symbol(file: &[u8], names: Section, name: &[u8], at: usize) -> bool
    requires { at ≤ 2 ^ 38 }
    ensures { result ≡ S.is_symbol file.now names name.now at }
{
    defined(file, at) && named(file, names, word(file, at), name)
}

// The first such symbol of so many from an offset on.
#[tactic(auto, unfolding(crate::specs::Symbol::symbol_from))]
fn symbol_from(file: &[u8], names: Section, name: &[u8], many: u32, from: u32) -> Option<usize>
    ensures { result ≡ S.symbol_from file.now names name.now many from }
{
    let at = from as usize;
    let j = (0..many).find(|j| is_symbol(file, names, name, at + SYMBOL_SIZE * *j as usize))?;
    Some(word(file, at + SYMBOL_SIZE * j as usize + 4) as usize)
}

// Of a section of symbols and its section of names.
#[tactic(auto, unfolding(crate::specs::Symbol::symbol_in))]
fn symbol_in(file: &[u8], symbols: Section, names: Section, name: &[u8]) -> Option<usize>
    ensures { result ≡ S.symbol_in file.now symbols names name.now }
{
    if in_file(file, symbols) && in_file(file, names) {
        let many = symbols.size / SYMBOL_SIZE as u32;
        symbol_from(file, names, name, many, symbols.offset)
    } else {
        None
    }
}

// Of a section of symbols.
#[tactic(auto, unfolding(crate::specs::Symbol::symbol_by))]
fn symbol_by(file: &[u8], symbols: Section, name: &[u8]) -> Option<usize>
    ensures { result ≡ S.symbol_by file.now symbols name.now }
{
    if symbols.link < u32::from(half(file, 48)) {
        symbol_in(file, symbols, section(file, symbols.link), name)
    } else {
        None
    }
}

// Of the first section of symbols.
#[tactic(auto, unfolding(crate::specs::Symbol::symbol_of))]
fn symbol_of(file: &[u8], name: &[u8]) -> Option<usize>
    ensures { result ≡ S.symbol_of file.now name.now (B.half file.now 48) 0 }
{
    let i = (0..half(file, 48)).find(|i| section(file, u32::from(*i)).kind == SYMBOLS)?;
    symbol_by(file, section(file, u32::from(i)), name)
}

// The value of a symbol; a name has 1 to 4,096 bytes.
#[tactic(auto, unfolding(crate::specs::Symbol::symbol_named))]
pub fn symbol_named(file: &[u8], name: &[u8]) -> Option<usize>
    ensures { result ≡ S.symbol_named file.now name.now }
{
    if 1 <= name.len() && name.len() <= 4096 && sectioned(file) {
        symbol_of(file, name)
    } else {
        None
    }
}
