// Operands that are tables and actions.
ghost use Rattle.std.specs.Prelude.{◌≡◌};
ghost use Rattle.table_clauses.specs.SyntaxClauses.{key_at, table_at};

use sil_model::{Action, Arg};

/// The number of the table that the operand of a number is, counted from 0.
pub(crate) fn table(args: &[Arg], i: usize) -> Option<u16>
    ensures { result ≡ table_at args.now i }
{
    match args.get(i)? {
        Arg::Table(t) => Some(*t),
        _ => None,
    }
}

/// The action that the operand of a number is.
pub(crate) fn key(args: &[Arg], i: usize) -> Option<Action>
    ensures { result ≡ key_at args.now i }
{
    match args.get(i)? {
        Arg::Key(action) => Some(*action),
        _ => None,
    }
}
