// Operands, and why a field has none.
ghost use Rattle.std.specs.Prelude.{◌≡◌, []};

use crate::expr::Expr;
use sil_base::{Items, Record};
use smallvec::SmallVec;
use std::alloc::{AllocError, AllocFailed, Global};
use std::marker::Model;
use thiserror::Error;

/// An operand: nothing, an expression, a list whose items are nothing or an expression, or a text.
#[derive(Debug, Default, Drop)]
pub enum Operand {
    #[default]
    Null,
    Expr(Expr),
    List(Items<Option<Expr>>),
    Text(Record),
}

/// Operands, six of them in place, which contracts see as their list.
#[derive(Debug, Drop)]
pub struct Operands {
    items: SmallVec<Operand, 6>,
}

impl Model for Operands {
    ghost use Rattle.std.specs.Prelude.{List};
    ghost use Rattle.sil_operands.specs.declared.operand.Operand.{Operand};

    ghost Value = { List Operand };

    ghost view = { λ o. o.items.items };
}

impl Operands {
    /// These operands.
    pub fn of(items: SmallVec<Operand, 6>) -> Operands
        ensures { result ≡ items.items }
    {
        Operands { items }
    }

    /// No operands.
    pub fn none(alloc: Global) -> Operands
        ensures { result ≡ [] }
    {
        Operands {
            items: SmallVec::new(alloc),
        }
    }

    /// The operands, in order.
    pub fn items(&self) -> &[Operand]
        ensures { result.now ≡ self.now }
    {
        self.items.as_slice()
    }

    /// The operands, given back.
    pub fn into_items(self) -> SmallVec<Operand, 6>
        ensures { result.items ≡ self }
    {
        let Operands { items } = self;
        items
    }
}

/// Why a field has no operands: it isn't in the grammar, has a list of more than 40 items or a
/// number above 2^64 - 1; or want of memory.
#[derive(Clone, Copy, PartialEq, Eq, Debug, Error)]
pub enum OperandFault {
    #[error("not an operand field")]
    Bad,
    #[error("out of memory")]
    Memory,
}

impl From<AllocError> for OperandFault {
    ghost use Rattle.std.specs.Prelude.{◌≡◌};
    ghost use Rattle.sil_operands.specs.declared.operand.OperandFault.TheVariants.{Memory};

    ghost from_gives = { λ _ fault. fault ≡ Memory };

    fn from(_: AllocError) -> OperandFault {
        OperandFault::Memory
    }
}

impl<T: Drop> From<AllocFailed<T>> for OperandFault {
    ghost use Rattle.std.specs.Prelude.{◌≡◌};
    ghost use Rattle.sil_operands.specs.declared.operand.OperandFault.TheVariants.{Memory};

    ghost from_gives = { λ _ fault. fault ≡ Memory };

    fn from(_: AllocFailed<T>) -> OperandFault {
        OperandFault::Memory
    }
}
