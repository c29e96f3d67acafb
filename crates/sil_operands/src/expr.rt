// Expressions: signed terms, each a product of factors.
ghost use Rattle.std.specs.Prelude.{◌≡◌};

use sil_base::{Items, Record};
use std::marker::Model;

/// A factor: a name, or a number.
#[derive(Debug, Drop)]
pub enum Factor {
    Name(Record),
    Number(u64),
}

/// A term: its sign, and the factors of its product.
#[derive(Debug, Drop)]
pub struct Term {
    pub minus: bool,
    pub factors: Items<Factor>,
}

/// An expression, which contracts see as the list of its terms.
#[derive(Debug, Drop)]
pub struct Expr {
    terms: Vec<Term>,
}

impl Model for Expr {
    ghost use Rattle.std.specs.Prelude.{List};
    ghost use Rattle.sil_operands.specs.declared.expr.Term.{Term};

    ghost Value = { List Term };

    ghost view = { λ e. e.terms.items };
}

impl Expr {
    /// The sum of these terms.
    pub fn of(terms: Vec<Term>) -> Expr
        ensures { result ≡ terms.items }
    {
        Expr { terms }
    }

    /// The terms, in order.
    pub fn terms(&self) -> &[Term]
        ensures { result.now ≡ self.now }
    {
        self.terms.as_slice()
    }

    /// The terms, given back.
    pub fn into_terms(self) -> Vec<Term>
        ensures { result.items ≡ self }
    {
        let Expr { terms } = self;
        terms
    }
}
