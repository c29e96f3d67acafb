// Loads and stores.

ghost use Rattle.std.specs.Prelude.{◌≡◌, ◌==◌, ◌%◌, ◌+◌, ◌<◌, ◌≤◌, ◌^◌, ◌⊎◌, IfSome, length, nat_le};
ghost use Rattle.sil_base.specs.Bytes.{with_piece, low_bytes};
ghost use Rattle.rv_emulate.specs.EmulatorMemory.{load_from, loaded, store_into, stored};
ghost use Rattle.rv_emulate.specs.CpuView.{Puts, memory_of};

use crate::bytes::number_of;
use crate::memory::{REGION_BYTES, Regions};
use sil_base::{FIRST_CELL, FIRST_CONSTANT, FIRST_KIND, FIRST_SCRATCH, FIRST_TABLE};

#[inline(always)]
fn is_aligned(width: usize, address: u64) -> bool
    requires { (width ≡ 1) ⊎ (width ≡ 2) ⊎ (width ≡ 4) ⊎ (width ≡ 8) }
    ensures { result ≡ (address % width == 0) }
{
    address % width as u64 == 0
}

/// Whether there are `width` bytes at this index.
#[inline(always)]
fn has(bytes: &[u8], at: usize, width: usize) -> bool
    requires at { at < 2 ^ 32 }
    requires width { width ≤ 8 }
    ensures { result ≡ nat_le (at + width) (length bytes.now) }
{
    at + width <= bytes.len()
}

/// The number in `width` bytes at an address, where the region holds them.
#[inline(always)]
fn number_in(first: u64, bytes: &[u8], width: usize, address: u64) -> Option<u64>
    requires width { (width ≡ 1) ⊎ (width ≡ 2) ⊎ (width ≡ 4) ⊎ (width ≡ 8) }
    requires from { first ≤ address }
    requires near { address < 2 ^ 32 }
    ensures number { result ≡ load_from first bytes.now width address }
    ensures small { IfSome result (λ n. n < 256 ^ width) }
{
    let at = (address - first) as usize;
    if !has(bytes, at, width) {
        return None;
    }
    Some(number_of(&bytes[at..at + width]))
}

/// Puts the `width` lowest bytes of a number at this index.
#[inline(always)]
fn put(bytes: &mut [u8], at: usize, width: usize, value: u64)
    requires width { (width ≡ 1) ⊎ (width ≡ 2) ⊎ (width ≡ 4) ⊎ (width ≡ 8) }
    requires room { at + width ≤ length bytes.old }
    ensures { bytes.new ≡ with_piece at (low_bytes width value) bytes.old }
{
    let low = value.to_le_bytes();
    bytes[at..at + width].copy_from_slice(&low[..width]);
}

/// Puts the `width` lowest bytes of a number at an address, where the region holds them.
#[inline(always)]
fn put_in(first: u64, bytes: &mut [u8], width: usize, address: u64, value: u64) -> bool
    requires width { (width ≡ 1) ⊎ (width ≡ 2) ⊎ (width ≡ 4) ⊎ (width ≡ 8) }
    requires from { first ≤ address }
    requires near { address < 2 ^ 32 }
    ensures { Puts result (store_into first bytes.old width address value) bytes.old bytes.new }
{
    let at = (address - first) as usize;
    if !has(bytes, at, width) {
        return false;
    }
    put(bytes, at, width, value);
    true
}

/// The number in `width` bytes at an address; none where it is misaligned, or no region holds it.
#[tactic(auto, unfolding(crate::specs::EmulatorMemory::loaded))]
#[inline(always)]
pub(crate) fn load(constants: &[u8], regions: &Regions, width: usize, address: u64) -> Option<u64>
    requires width { (width ≡ 1) ⊎ (width ≡ 2) ⊎ (width ≡ 4) ⊎ (width ≡ 8) }
    requires few { length constants.now ≤ 2 ^ 26 }
    ensures number { result ≡ loaded constants.now (memory_of regions.now) width address }
    ensures small { IfSome result (λ n. n < 256 ^ width) }
{
    if !is_aligned(width, address) {
        return None;
    }
    match address / REGION_BYTES {
        0x10 => number_in(FIRST_CELL, &regions.cells, width, address),
        0x14 => number_in(FIRST_KIND, &regions.kinds, width, address),
        0x18 => number_in(FIRST_TABLE, &regions.tables, width, address),
        0x1a => number_in(FIRST_CONSTANT, constants, width, address),
        0x1b => number_in(FIRST_SCRATCH, &regions.scratch, width, address),
        _ => None,
    }
}

/// Stores the `width` lowest bytes of a number at an address, where it is aligned and a region that
/// can be stored to holds it.
#[tactic(auto, unfolding(crate::specs::EmulatorMemory::stored))]
#[inline(always)]
pub(crate) fn store(regions: &mut Regions, width: usize, address: u64, value: u64) -> bool
    requires { (width ≡ 1) ⊎ (width ≡ 2) ⊎ (width ≡ 4) ⊎ (width ≡ 8) }
    ensures { Puts result (stored (memory_of regions.old) width address value) (memory_of regions.old) (memory_of regions.new) }
{
    if !is_aligned(width, address) {
        return false;
    }
    match address / REGION_BYTES {
        0x10 => put_in(FIRST_CELL, &mut regions.cells, width, address, value),
        0x14 => put_in(FIRST_KIND, &mut regions.kinds, width, address, value),
        0x18 => put_in(FIRST_TABLE, &mut regions.tables, width, address, value),
        0x1b => put_in(FIRST_SCRATCH, &mut regions.scratch, width, address, value),
        _ => false,
    }
}
