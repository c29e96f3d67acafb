// Numbered units, in boxes that the caller made.
ghost use Rattle.std.specs.Prelude.{◌≡◌, ◌≤◌, true, Some, None, count_by, is_some, replicate};
ghost use Rattle.unit_io.specs.Numbered.{unit_at, with_unit, SameBut};
ghost use Rattle.unit_io.specs.Tapes.{all_told, failed_finishes};
ghost use Rattle.unit_io.specs.Units.{AllUnits, no_units, tapes_of, FinishesAll};
ghost use Rattle.unit_io.specs.Slots.{seen_of, seen_by};
ghost use Rattle.unit_io.specs.Attached.{attached};

use crate::answers::{UnitsAnswer, UnitsRead};
use crate::moves::Move;
use crate::slots;
use crate::unit::Unit;
use crate::unit_set::UnitSet;
use sil_base::Record;

/// Fifteen places for units, numbered from 1. The units are in boxes, which the caller makes and
/// hands in.
#[derive(Drop)]
pub struct Units<U = Box<dyn Unit>> {
    slots: [Option<U>; 15],
}

impl UnitSet for Units<Box<dyn Unit>> {
    ghost seen = { λ u. seen_by (λ b. (Unit-box b).tape b.value) (λ b. (Unit-box b).faults b.value) u.slots };

    ghost keeps = { λ n u v. SameBut n u.slots v.slots };

    fn read(&mut self, n: u32, into: &mut [u8]) -> UnitsRead {
        slots::read(&mut self.slots, n, into)
    }

    fn write_all(&mut self, n: u32, records: &[Record]) -> UnitsAnswer {
        slots::write_all(&mut self.slots, n, records)
    }

    fn rewind(&mut self, n: u32) -> UnitsAnswer {
        Move::Rewind.make_at(&mut self.slots, n)
    }

    fn backspace(&mut self, n: u32) -> UnitsAnswer {
        Move::Backspace.make_at(&mut self.slots, n)
    }

    fn endfile(&mut self, n: u32) -> UnitsAnswer {
        Move::Endfile.make_at(&mut self.slots, n)
    }

    fn finish_all(&mut self) -> u32 {
        slots::finish_all(&mut self.slots)
    }
}

impl Units<Box<dyn Unit>> {
    /// No units.
    pub fn new() -> Units
        ensures attached { attached result ≡ replicate 15 None }
        ensures seen { ⟦<Units as UnitSet>⟧.seen result ≡ no_units }
    {
        Units {
            slots: [
                None, None, None, None, None, None, None, None, None, None, None, None, None, None,
                None,
            ],
        }
    }

    /// Sets unit n, and gives back the one before.
    pub fn attach(&mut self, n: u32, unit: Box<dyn Unit>) -> Option<Box<dyn Unit>>
        requires first { 1 ≤ n }
        requires last { n ≤ 15 }
        ensures before { result ≡ unit_at (attached self.old) n }
        ensures after { attached self.new ≡ with_unit (attached self.old) n (Some unit) }
        ensures seen { ⟦<Units as UnitSet>⟧.seen self.new ≡ with_unit (⟦<Units as UnitSet>⟧.seen self.old) n
            (Some (seen_of ⟦<Box<dyn Unit> as Unit>⟧.tape ⟦<Box<dyn Unit> as Unit>⟧.faults unit)) }
    {
        slots::attach(&mut self.slots, n, unit)
    }

    /// Takes unit n away, if it is there.
    pub fn detach(&mut self, n: u32) -> Option<Box<dyn Unit>>
        ensures before { result ≡ unit_at (attached self.old) n }
        ensures after { attached self.new ≡ with_unit (attached self.old) n None }
        ensures seen { ⟦<Units as UnitSet>⟧.seen self.new ≡ with_unit (⟦<Units as UnitSet>⟧.seen self.old) n None }
    {
        slots::detach(&mut self.slots, n)
    }

    /// Finishes each unit once, in the order of their numbers, lets each go, and answers how many
    /// finishes failed.
    pub fn close_all(mut self) -> u32
        ensures units { (after : AllUnits) × FinishesAll (⟦<Units as UnitSet>⟧.seen self) after result }
        ensures told { all_told (tapes_of (⟦<Units as UnitSet>⟧.seen self)) ≡ true
            → result ≡ failed_finishes (tapes_of (⟦<Units as UnitSet>⟧.seen self)) }
        ensures few { result ≤ count_by is_some (⟦<Units as UnitSet>⟧.seen self) }
    {
        self.finish_all()
    }
}
