// Calls of the units in their places, whatever their type.
ghost use Rattle.std.specs.Prelude.{◌≡◌, ◌≤◌, ◌<◌, ◌+◌, length, Some, None, MatchOption, ◌⊎◌};
ghost use Rattle.std.specs.Option.{option_map};
ghost use Rattle.unit_io.specs.Numbered.{unit_at, with_unit, SameBut};
ghost use Rattle.unit_io.specs.Slots.{seen_of, seen_by, CallsUnit, ReadsUnit, WritesUnit};
ghost use Rattle.unit_io.specs.Units.{FinishesPlace, FinishesAll};

use crate::answers::{UnitAnswer, UnitsAnswer, UnitsRead};
use crate::unit::Unit;
use sil_base::Record;
use std::mem;

/// The place of number n, where it has one.
pub fn place_of(n: u32, places: usize) -> Option<usize>
    ensures { MatchOption result (n ≡ 0 ⊎ places < n)
        (λ place. (place + 1 ≡ n) × (place < places)) }
{
    let place = n.checked_sub(1)? as usize;
    if place < places { Some(place) } else { None }
}

/// Sets unit n, and gives back the one before.
pub fn attach<U: Unit>(slots: &mut [Option<U>], n: u32, unit: U) -> Option<U>
    requires first { 1 ≤ n }
    requires last { n ≤ length slots.old }
    ensures before { result ≡ unit_at slots.old n }
    ensures after { slots.new ≡ with_unit slots.old n (Some unit) }
{
    let place = (n - 1) as usize;
    mem::replace(&mut slots[place], Some(unit))
}

/// Takes unit n away, if it is there.
pub fn detach<U: Unit>(slots: &mut [Option<U>], n: u32) -> Option<U>
    ensures before { result ≡ unit_at slots.old n }
    ensures after { slots.new ≡ with_unit slots.old n None }
{
    let place = place_of(n, slots.len())?;
    mem::replace(&mut slots[place], None)
}

/// Reads from unit n, if it is there.
pub fn read<U: Unit>(slots: &mut [Option<U>], n: u32, into: &mut [u8]) -> UnitsRead
    ensures calls { CallsUnit n (seen_by U.tape U.faults slots.old)
        (seen_by U.tape U.faults slots.new)
        ((result ≡ UnitsRead.Absent) × (into.new ≡ into.old))
        (λ u v. ReadsUnit u v result into.old into.new) }
    ensures keeps { SameBut n slots.old slots.new }
{
    let Some(place) = place_of(n, slots.len()) else {
        return UnitsRead::Absent;
    };
    match &mut slots[place] {
        Some(unit) => unit.read(into).into(),
        None => UnitsRead::Absent,
    }
}

/// Writes records on a unit, in order up to the first that isn't written.
fn write_records<U: Unit>(unit: &mut U, records: &[Record]) -> UnitsAnswer
    ensures { WritesUnit records.now (seen_of U.tape U.faults unit.old)
        (seen_of U.tape U.faults unit.new) result }
{
    for record in records {
        match unit.write(record.bytes()) {
            UnitAnswer::Ok => {}
            UnitAnswer::Failed => return UnitsAnswer::Failed,
            UnitAnswer::Memory => return UnitsAnswer::Memory,
        }
    }
    UnitsAnswer::Ok
}

/// Writes records on unit n, if it is there.
pub fn write_all<U: Unit>(slots: &mut [Option<U>], n: u32, records: &[Record]) -> UnitsAnswer
    ensures calls { CallsUnit n (seen_by U.tape U.faults slots.old)
        (seen_by U.tape U.faults slots.new)
        (result ≡ UnitsAnswer.Absent)
        (λ u v. WritesUnit records.now u v result) }
    ensures keeps { SameBut n slots.old slots.new }
{
    let Some(place) = place_of(n, slots.len()) else {
        return UnitsAnswer::Absent;
    };
    match &mut slots[place] {
        Some(unit) => write_records(unit, records),
        None => UnitsAnswer::Absent,
    }
}

/// Finishes the unit in a place, if there is one, and counts a failure.
fn finish_slot<U: Unit>(slot: &mut Option<U>) -> u32
    ensures finished { FinishesPlace (option_map (seen_of U.tape U.faults) slot.old)
        (option_map (seen_of U.tape U.faults) slot.new) result }
    ensures few { result ≤ 1 }
{
    let Some(unit) = slot else {
        return 0;
    };
    match unit.finish() {
        UnitAnswer::Failed => 1,
        UnitAnswer::Ok | UnitAnswer::Memory => 0,
    }
}

/// Finishes each unit once, in order, and answers how many failed.
pub fn finish_all<U: Unit>(slots: &mut [Option<U>]) -> u32
    requires { length slots.old ≤ 15 }
    ensures { FinishesAll (seen_by U.tape U.faults slots.old)
        (seen_by U.tape U.faults slots.new) result }
{
    let mut failed = 0;
    for slot in slots.iter_mut() {
        failed += finish_slot(slot);
    }
    failed
}
