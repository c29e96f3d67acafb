// What the card of a macro is in a source.
ghost use Rattle.std.specs.Prelude.{◌≡◌};
ghost use Rattle.sil_symbols.specs.StatementParts.{part_of};

use sil_macros::Macro;

/// EQU; LHERE; a card that names nothing, and END; so many descriptors; the other data statements;
/// an executable statement.
#[derive(Clone, Copy, PartialEq, Eq, Debug)]
pub(crate) enum Part {
    Equation,
    Here,
    Unread,
    End,
    Descriptors(u64),
    Array,
    Buffer,
    String,
    Format,
    Executable,
}

/// What the card of this macro is.
pub(crate) fn part_of(name: Macro) -> Part
    ensures { result ≡ part_of name }
{
    match name {
        Macro::Equ => Part::Equation,
        Macro::Lhere => Part::Here,
        Macro::Title | Macro::Copy => Part::Unread,
        Macro::End => Part::End,
        Macro::Descr => Part::Descriptors(1),
        Macro::Spec => Part::Descriptors(2),
        Macro::Array => Part::Array,
        Macro::Buffer => Part::Buffer,
        Macro::String => Part::String,
        Macro::Format => Part::Format,
        _ => Part::Executable,
    }
}
