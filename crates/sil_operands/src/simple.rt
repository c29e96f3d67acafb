// Operands that are a single name, or nothing.
ghost use Rattle.std.specs.Prelude.{◌≡◌, option_map};
ghost use Rattle.std.specs.List.{list_all};
ghost use Rattle.sil_operands.specs.Simple.{one_name, named_alone, is_null};

use crate::expr::{Factor, Term};
use crate::operand::Operand;

/// The name, where factors are just one.
fn one_name(factors: &[Factor]) -> Option<&[u8]>
    ensures { option_map (λ name. name.now) result ≡ one_name factors.now }
{
    match factors {
        [Factor::Name(name)] => Some(name.bytes()),
        _ => None,
    }
}

/// The name, where an expression is just one without a minus.
pub fn named_alone(terms: &[Term]) -> Option<&[u8]>
    ensures { option_map (λ name. name.now) result ≡ named_alone terms.now }
{
    match terms {
        [term] if !term.minus => one_name(term.factors.items()),
        _ => None,
    }
}

/// Whether an operand is nothing.
pub fn is_null(operand: &Operand) -> bool
    ensures { result ≡ is_null operand.now }
{
    matches!(operand, Operand::Null)
}

/// Whether all operands are nothing.
pub fn are_null(operands: &[Operand]) -> bool
    ensures { result ≡ list_all is_null operands.now }
{
    operands.iter().all(|operand| is_null(operand))
}
