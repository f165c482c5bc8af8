// Stores: which bytes go where, and putting them into RAM.
ghost use Rattle.std.specs.Prelude.{◌≡◌, ℕ, ◌+◌, ◌<◌, ◌≤◌, length};
ghost use Rattle.std.proofs.lemmas.List.Edits.{sets};
ghost use Rattle.memory.specs.Bytes as B;
ghost use Rattle.memory.specs.Stores as S;

use crate::{BusError, PAddr, Store, byte, in_ram};

// SB: the low byte.
// Kept: here and below one struct for each size, as short as a call of a shared function.
pub fn sb(p: PAddr, value: u64) -> Store
    ensures { result ≡ S.sb p value }
{
    Store {
        to: p,
        size: 1,
        value,
    }
}

// SH: the low two bytes.
pub fn sh(p: PAddr, value: u64) -> Store
    ensures { result ≡ S.sh p value }
{
    Store {
        to: p,
        size: 2,
        value,
    }
}

// SW: the low word.
pub fn sw(p: PAddr, value: u64) -> Store
    ensures { result ≡ S.sw p value }
{
    Store {
        to: p,
        size: 4,
        value,
    }
}

// SD: the whole register.
pub fn sd(p: PAddr, value: u64) -> Store
    ensures { result ≡ S.sd p value }
{
    Store {
        to: p,
        size: 8,
        value,
    }
}

// Left: the top of the register's low `size` bytes, from the address to the end of the aligned `size`.
fn left(size: u64, p: PAddr, value: u64) -> Store
    requires { (0 < size) × (size ≤ 8) }
    ensures { result ≡ S.store_left size p value }
{
    let b = p.0 % size;
    Store {
        to: p,
        size: (size - b) as u8,
        value: value >> (8 * b),
    }
}

// Right: the bottom of the register, from the start of the aligned `size` to the address.
fn right(size: u64, p: PAddr, value: u64) -> Store
    requires { (0 < size) × (size ≤ 8) }
    ensures { result ≡ S.store_right size p value }
{
    Store {
        to: PAddr(p.0 / size * size),
        size: (p.0 % size + 1) as u8,
        value,
    }
}

// SWL: left of a word.
pub fn swl(p: PAddr, value: u64) -> Store
    ensures { result ≡ S.swl p value }
{
    left(4, p, value)
}

// SWR: right of a word.
pub fn swr(p: PAddr, value: u64) -> Store
    ensures { result ≡ S.swr p value }
{
    right(4, p, value)
}

// SDL: left of a doubleword.
pub fn sdl(p: PAddr, value: u64) -> Store
    ensures { result ≡ S.sdl p value }
{
    left(8, p, value)
}

// SDR: right of a doubleword.
pub fn sdr(p: PAddr, value: u64) -> Store
    ensures { result ≡ S.sdr p value }
{
    right(8, p, value)
}

// Whether a store lands: RAM has its place, and its bytes stay within the eight aligned ones.
fn lands(ram: &[u8], s: Store) -> bool
    ensures { result ≡ S.lands ram.now s }
{
    in_ram(ram, s.to) && 1 <= s.size && s.to.0 % 8 + u64::from(s.size) <= 8
}

// The bytes of a store into a list, the top one first.
fn put(ram: &mut [u8], s: Store)
    requires { (s.size ≤ 8) × (s.to.0 + s.size ≤ length ram.old) }
    ensures { ram.new ≡ sets ram.old s.to.0 (B.bytes_of s.size s.value) }
{
    // Kept: a loop, since `to_be_bytes` gives an array, which .ci/arrays refuses here.
    let at = s.to.0 as usize;
    for k in 0..s.size {
        ram[at + k as usize] = byte(s.value, s.size - 1 - k);
    }
}

// A store to RAM, if there is one. Where it does not land, it is a bus error.
pub fn put_bytes(ram: &mut [u8], s: Option<Store>) -> Result<(), BusError>
    ensures { (result ≡ S.put_answer ram.old s) × (ram.new ≡ S.put_bytes ram.old s) }
{
    let Some(s) = s else {
        return Ok(());
    };
    if !lands(ram, s) {
        return Err(BusError);
    }
    put(ram, s);
    Ok(())
}
