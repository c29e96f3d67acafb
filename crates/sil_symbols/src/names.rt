// The names that a source may use.
ghost use Rattle.std.specs.Prelude.{◌≡◌, ◌≤◌, length, IfOk};
ghost use Rattle.sil_symbols.specs.HeldNames.{parameter_in, label_in, origin_in, HoldsNames};

use crate::labels::labels_of;
use crate::origin::Origin;
use crate::stmt::Stmt;
use indexmap::IndexMap;
use layout_params::{ParamSymbols, Params};
use sil_base::MAX_CARDS;
use std::alloc::{AllocError, Global};

/// The values of the parameter symbols, and the places of the labels in the order of their
/// definition.
#[derive(Debug, Drop)]
pub(crate) struct Names {
    parameters: ParamSymbols,
    labels: IndexMap<Vec<u8>, u32>,
}

impl Names {
    /// The parameter symbols and the labels of these statements.
    pub(crate) fn of(
        alloc: Global,
        statements: &[Stmt],
        params: &Params,
    ) -> Result<Names, AllocError>
        requires { length statements.now ≤ MAX_CARDS }
        ensures { IfOk result (HoldsNames params.now statements.now) }
    {
        Ok(Names {
            parameters: params.symbols(),
            labels: labels_of(alloc, statements)?,
        })
    }

    /// The value of a parameter symbol.
    pub(crate) fn parameter(&self, name: &[u8]) -> Option<i64>
        ensures { result ≡ parameter_in self.now name.now }
    {
        self.parameters.value(name)
    }

    /// The place of the first statement with this label.
    pub(crate) fn label(&self, name: &[u8]) -> Option<u32>
        ensures { result ≡ label_in self.now name.now }
    {
        self.labels.get(name).copied()
    }

    /// Where a symbol comes from.
    pub(crate) fn origin(&self, name: &[u8]) -> Option<Origin>
        ensures { result ≡ origin_in self.now name.now }
    {
        match (self.parameter(name), self.label(name)) {
            (Some(value), _) => Some(Origin::Parameter(value)),
            (None, Some(place)) => Some(Origin::Label(place)),
            (None, None) => None,
        }
    }
}
