// Memory: RAM from physical 0, ROM from 1FC00000, both big-endian.
#![tactic(auto)]

ghost use Rattle.std.specs.Prelude.{◌≡◌, ◌*◌, ◌%◌, ◌<◌, ◌≤◌, ◌^◌, length};
ghost use Rattle.memory.specs.Bytes as B;
ghost use Rattle.memory.specs.Memory as M;

mod loads;
mod stores;
mod unaligned;

pub use loads::{lb, lbu, ld, lh, lhu, lw, lwu};
pub use stores::{put_bytes, sb, sd, sdl, sdr, sh, sw, swl, swr};
pub use unaligned::{ldl, ldr, lwl, lwr};

// A physical address; 36 bits are used.
#[derive(Clone, Copy)]
pub struct PAddr(pub u64);

// The eight aligned bytes that hold an address as one number, the first byte on top: of RAM or of ROM.
#[derive(Clone, Copy)]
pub enum Eight {
    Ram(u64),
    Rom(u64),
}

// What goes out to memory: the low `size` bytes of `value` from `to` on, the top one first.
#[derive(Clone, Copy)]
pub struct Store {
    pub to: PAddr,
    pub size: u8,
    pub value: u64,
}

// Nothing answers at the address of a store.
#[derive(Clone, Copy)]
pub struct BusError;

// Where ROM starts.
const ROM_BASE: u64 = 0x1FC0_0000;

// RAM has the eight aligned bytes that hold an address.
fn in_ram(ram: &[u8], p: PAddr) -> bool
    ensures { result ≡ M.in_ram ram.now p }
{
    p.0 / 8 < (ram.len() / 8) as u64
}

// The number that the first eight bytes are, the first on top; with `|` it becomes one read and a swap of bytes.
fn eight_of(l: &[u8]) -> u64
    requires { 8 ≤ length l.now }
    ensures { result ≡ B.eight_of l.now }
{
    // Kept: a loop, since `from_be_bytes` takes an array, which .ci/arrays refuses here.
    let mut n = 0;
    for x in &l[..8] {
        n = n << 8 | u64::from(*x);
    }
    n
}

// Byte k of a number, from the right.
fn byte(x: u64, k: u8) -> u8
    requires { k < 8 }
    ensures { result ≡ B.byte x k }
{
    ((x >> (8 * k)) % 256) as u8
}

// The low `n` bytes of a number: the others are shifted out. In two halves, since no shift may be by 64.
fn kept_low(x: u64, n: u64) -> u64
    requires { n ≤ 8 }
    ensures { result ≡ x % 2 ^ (8 * n) }
{
    let half = 4 * (8 - n);
    x << half << half >> half >> half
}

// The eight aligned bytes that hold an address, as a part of RAM or of ROM; an empty part elsewhere.
pub fn part<'a>(ram: &'a [u8], rom: &'a [u8], p: PAddr) -> &'a [u8]
    ensures { (result.now ≡ M.part ram.now rom.now p) × (result.ref_ptr ≡ M.place ram.entry.ref_ptr rom.entry.ref_ptr ram.now rom.now p) }
{
    let at = p.0;
    let k = (at / 8) as usize;
    if k < ram.len() / 8 {
        return &ram[k * 8..k * 8 + 8];
    }
    if at < ROM_BASE {
        return &ram[0..0];
    }
    let j = ((at - ROM_BASE) / 8) as usize;
    if j < rom.len() / 8 {
        return &rom[j * 8..j * 8 + 8];
    }
    &ram[0..0]
}

// The same as one number, with whose it is; elsewhere none.
pub fn read<'a>(ram: &'a [u8], rom: &'a [u8], p: PAddr) -> Option<Eight>
    ensures { result ≡ M.read ram.now rom.now p }
{
    let bytes = part(ram, rom, p);
    if bytes.len() < 8 {
        return None;
    }
    let n = eight_of(bytes);
    if in_ram(ram, p) {
        Some(Eight::Ram(n))
    } else {
        Some(Eight::Rom(n))
    }
}
