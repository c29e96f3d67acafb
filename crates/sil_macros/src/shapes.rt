//! What operands a macro takes.
ghost use Rattle.std.specs.Prelude.{◌≡◌};

use std::marker::Model;

/// What an operand stands for.
#[derive(Clone, Copy, PartialEq, Eq, Debug)]
pub enum Kind {
    /// The place of a descriptor.
    Descr,
    /// The place of a specifier.
    Spec,
    Number,
    Flag,
    /// A location, where null is the next statement.
    Goto,
    /// A location that has to be there.
    Required,
    /// The name of a syntax table.
    Table,
    /// CONTIN, STOP, STOPSH or ERROR.
    Key,
    Text,
    /// The name of a FORMAT statement.
    Format,
    /// A list of places of descriptors.
    Descrs,
    /// A list of places of specifiers.
    Specs,
    /// A list of locations.
    Gotos,
    /// An expression that isn't used.
    Free,
}

/// One operand of a shape; `optional` where it may be null.
#[derive(Clone, Copy, PartialEq, Eq, Debug)]
pub struct Place {
    pub kind: Kind,
    pub optional: bool,
}

/// The operands of a macro, in order.
#[derive(Debug, Drop)]
pub struct Shape {
    places: &'static [Place],
}

impl Model for Shape {
    ghost use Rattle.std.specs.Prelude.{List};
    ghost use Rattle.sil_macros.specs.declared.shapes.Place.{Place};

    ghost Value = { List Place };

    ghost view = { λ shape. shape.places.now };
}

impl Shape {
    /// A shape of these places.
    pub(crate) fn of(places: &'static [Place]) -> Shape
        ensures { result ≡ places.now }
    {
        Shape { places }
    }

    /// The places of the operands, in order.
    pub fn places(&self) -> &'static [Place]
        ensures { result.now ≡ self.now }
    {
        self.places
    }
}
