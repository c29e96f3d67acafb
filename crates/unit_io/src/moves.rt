// The calls of a unit that take and give no bytes.
ghost use Rattle.std.specs.Prelude.{◌≡◌};
ghost use Rattle.unit_io.specs.Numbered.{SameBut};
ghost use Rattle.unit_io.specs.Slots.{MovesUnit, change_of, seen_of, seen_by, CallsUnit};

use crate::answers::UnitsAnswer;
use crate::slots::place_of;
use crate::unit::Unit;

/// A call that moves a unit's place, or cuts its tape there.
#[derive(Debug, Clone, Copy, PartialEq, Eq)]
pub enum Move {
    Rewind,
    Backspace,
    Endfile,
}

impl Move {
    /// Makes the move.
    fn make<U: Unit>(self, unit: &mut U) -> UnitsAnswer
        ensures { MovesUnit (change_of self) (seen_of U.tape U.faults unit.old)
            (seen_of U.tape U.faults unit.new) result }
    {
        match self {
            Move::Rewind => unit.rewind().into(),
            Move::Backspace => unit.backspace().into(),
            Move::Endfile => unit.endfile().into(),
        }
    }

    /// Makes the move on unit n, if it is there.
    pub fn make_at<U: Unit>(self, slots: &mut [Option<U>], n: u32) -> UnitsAnswer
        ensures calls { CallsUnit n (seen_by U.tape U.faults slots.old)
            (seen_by U.tape U.faults slots.new)
            (result ≡ UnitsAnswer.Absent)
            (λ u v. MovesUnit (change_of self) u v result) }
        ensures keeps { SameBut n slots.old slots.new }
    {
        let Some(place) = place_of(n, slots.len()) else {
            return UnitsAnswer::Absent;
        };
        match &mut slots[place] {
            Some(unit) => self.make(unit),
            None => UnitsAnswer::Absent,
        }
    }
}
