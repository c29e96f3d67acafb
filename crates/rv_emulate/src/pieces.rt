// The bytes at an address, which calls hand to units.

ghost use Rattle.std.specs.Prelude.{◌≡◌, ◌-◌, [], ℕ, length, true};
ghost use Rattle.sil_base.specs.Bytes.{piece, with_piece};
ghost use Rattle.unit_io.specs.Tapes.{Tapes, TapeState};
ghost use Rattle.unit_io.specs.Units.{RoseAt, tapes_of};
ghost use Rattle.rv_emulate.specs.EmulatorMemory.{bytes_at, can_load, can_store, holds, with_bytes};
ghost use Rattle.rv_emulate.specs.CpuView.{memory_of};
ghost use Rattle.rv_emulate.specs.CpuTurns.{KeepsUnits};
ghost use Rattle.rv_emulate.specs.Ecalls.{bytes_read};
ghost use Rattle.rv_emulate.specs.UnitAnswers.{ReadsInto};

use crate::memory::{Regions, holds};
use sil_base::{FIRST_CELL, FIRST_CONSTANT, FIRST_KIND, FIRST_SCRATCH, FIRST_TABLE};
use unit_io::{UnitSet, UnitsRead};

/// The `n` bytes at an address of this region.
fn piece_of(first: u64, bytes: &[u8], n: u64, address: u64) -> &[u8]
    requires { holds first bytes.now n address ≡ true }
    ensures same { result.now ≡ piece (address - first) n bytes.now }
    ensures len { length result.now ≡ n }
{
    let at = (address - first) as usize;
    &bytes[at..at + n as usize]
}

/// The `n` bytes at an address, which one region holds; each holds none.
#[tactic(auto, unfolding(crate::specs::EmulatorMemory::bytes_at, crate::specs::EmulatorMemory::can_load, crate::specs::EmulatorMemory::can_store))]
pub(crate) fn bytes_at<'a>(
    constants: &'a [u8],
    regions: &'a Regions,
    n: u64,
    address: u64,
) -> &'a [u8]
    requires { can_load constants.now (memory_of regions.now) n address ≡ true }
    ensures same { result.now ≡ bytes_at constants.now (memory_of regions.now) n address }
    ensures len { length result.now ≡ n }
{
    if holds(FIRST_CELL, &regions.cells, n, address) {
        piece_of(FIRST_CELL, &regions.cells, n, address)
    } else if holds(FIRST_KIND, &regions.kinds, n, address) {
        piece_of(FIRST_KIND, &regions.kinds, n, address)
    } else if holds(FIRST_TABLE, &regions.tables, n, address) {
        piece_of(FIRST_TABLE, &regions.tables, n, address)
    } else if holds(FIRST_CONSTANT, constants, n, address) {
        piece_of(FIRST_CONSTANT, constants, n, address)
    } else if holds(FIRST_SCRATCH, &regions.scratch, n, address) {
        piece_of(FIRST_SCRATCH, &regions.scratch, n, address)
    } else {
        &[]
    }
}

/// Reads from unit k into the `n` bytes at an address of this region.
#[tactic(auto, using(crate::proofs::UnitLaws::keeps_units))]
fn read_in<U: UnitSet>(
    first: u64,
    bytes: &mut [u8],
    n: u64,
    address: u64,
    k: u32,
    units: &mut U,
) -> UnitsRead
    requires { holds first bytes.old n address ≡ true }
    ensures reads { ReadsInto k n (tapes_of (U.seen units.old)) (tapes_of (U.seen units.new)) result bytes.old bytes.new
        (λ t. with_piece (address - first) (bytes_read t (piece (address - first) n bytes.old)) bytes.old) }
    ensures failed { result ≡ UnitsRead.Failed → RoseAt k (U.seen units.old) (U.seen units.new) }
    ensures units { KeepsUnits (U.seen units.old) (U.seen units.new) }
{
    let at = (address - first) as usize;
    units.read(k, &mut bytes[at..at + n as usize])
}

/// Reads from unit k into the `n` bytes at an address, which one region that can be stored to holds;
/// each holds none.
#[tactic(auto, using(crate::proofs::UnitLaws::keeps_units), unfolding(crate::specs::EmulatorMemory::can_store))]
pub(crate) fn read_at<U: UnitSet>(
    regions: &mut Regions,
    n: u64,
    address: u64,
    k: u32,
    units: &mut U,
) -> UnitsRead
    requires { can_store (memory_of regions.old) n address ≡ true }
    ensures reads { ReadsInto k n (tapes_of (U.seen units.old)) (tapes_of (U.seen units.new)) result (memory_of regions.old) (memory_of regions.new)
        (λ t. with_bytes (memory_of regions.old) address (bytes_read t (bytes_at [] (memory_of regions.old) n address))) }
    ensures failed { result ≡ UnitsRead.Failed → RoseAt k (U.seen units.old) (U.seen units.new) }
    ensures units { KeepsUnits (U.seen units.old) (U.seen units.new) }
{
    if holds(FIRST_CELL, &regions.cells, n, address) {
        read_in(FIRST_CELL, &mut regions.cells, n, address, k, units)
    } else if holds(FIRST_KIND, &regions.kinds, n, address) {
        read_in(FIRST_KIND, &mut regions.kinds, n, address, k, units)
    } else if holds(FIRST_TABLE, &regions.tables, n, address) {
        read_in(FIRST_TABLE, &mut regions.tables, n, address, k, units)
    } else if holds(FIRST_SCRATCH, &regions.scratch, n, address) {
        read_in(FIRST_SCRATCH, &mut regions.scratch, n, address, k, units)
    } else {
        units.read(k, &mut [])
    }
}
