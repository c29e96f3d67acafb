// From cards to statements.
ghost use Rattle.std.specs.Prelude.{◌≡◌, IfOk};
ghost use Rattle.sil_program.specs.Statements.{statement_of, statements_of};

use sil_cards::{Card, CardContents};
use sil_symbols::Stmt;
use std::alloc::{AllocError, Global};

fn statement_of(card: Card) -> Stmt
    ensures { result ≡ statement_of card }
{
    let CardContents {
        number,
        label,
        name,
        operands,
    } = card.into_contents();
    Stmt {
        card: number,
        label,
        name,
        operands,
    }
}

/// The statements of cards.
pub(crate) fn statements_of(alloc: Global, cards: Vec<Card>) -> Result<Vec<Stmt>, AllocError>
    ensures { IfOk result (λ v. v.items ≡ statements_of cards.items) }
{
    let mut statements = Vec::new(alloc);
    for card in cards {
        statements.push(statement_of(card))?;
    }
    Ok(statements)
}
