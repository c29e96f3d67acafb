// A source that was resolved.
ghost use Rattle.std.specs.Prelude.{◌≡◌, ◌≤◌, ◌<◌, length, IfSome};
ghost use Rattle.sil_symbols.specs.Resolved.{Resolves};
ghost use Rattle.sil_symbols.specs.Symbols.{value_of, value_of_name};
ghost use Rattle.sil_shapes.specs.HeldSources.{IsResolution, measure_in};
ghost use Rattle.sil_shapes.specs.Locations.{executable_count};
ghost use Rattle.sil_shapes.specs.ShapeRules.{location_of, flags_of, format_at};

use crate::locations::{executable_count, number_within, statement_at};
use layout_params::{Layout, Params};
use sil_base::MAX_CARDS;
use sil_operands::{Expr, named_alone};
use sil_symbols::{Stmt, Symbols};

/// The parameters, statements and symbols of a source, and the number of its executable statements.
#[derive(Clone, Copy)]
pub struct Resolution<'a> {
    pub params: &'a Params,
    pub statements: &'a [Stmt],
    pub symbols: &'a Symbols,
    pub count: u32,
}

impl<'a> Resolution<'a> {
    /// The source of these statements, of which these are the symbols.
    pub fn of(params: &'a Params, statements: &'a [Stmt], symbols: &'a Symbols) -> Resolution<'a>
        requires few { length statements.now ≤ MAX_CARDS }
        requires resolved { Resolves params.now statements.now symbols.now }
        ensures resolution { IsResolution result }
        ensures params { result.params.now ≡ params.now }
        ensures statements { result.statements.now ≡ statements.now }
    {
        Resolution {
            params,
            statements,
            symbols,
            count: executable_count(statements),
        }
    }
}

impl Resolution<'_> {
    /// The value of an expression.
    #[tactic(auto, using(crate::proofs::Resolved::resolved_value))]
    pub fn value_of(&self, expr: &Expr) -> Option<i64>
        requires { IsResolution self.now }
        ensures { result ≡ value_of self.now.params.now self.now.statements.now expr.now }
    {
        self.symbols.value(expr)
    }

    /// The value of a name.
    #[tactic(auto, using(crate::proofs::Resolved::resolved_name))]
    pub fn value_of_name(&self, name: &[u8]) -> Option<i64>
        requires { IsResolution self.now }
        ensures { result ≡ value_of_name self.now.params.now self.now.statements.now name.now }
    {
        self.symbols.get(name)
    }

    /// The statement whose entry an expression is.
    pub fn location_of(&self, expr: &Expr) -> Option<u32>
        requires { IsResolution self.now }
        ensures { result ≡ location_of (measure_in self.now) expr.now }
    {
        statement_at(
            self.params.numbers().descr(),
            self.count,
            self.value_of(expr)?,
        )
    }

    /// The flags that an expression is.
    pub fn flags_of(&self, expr: &Expr) -> Option<u32>
        requires { IsResolution self.now }
        ensures { result ≡ flags_of (measure_in self.now) expr.now }
    {
        Some(number_within(self.params.fmax(), self.value_of(expr)?)? as u32)
    }

    /// The place of the FORMAT that an expression names.
    #[tactic(auto, using(crate::proofs::Resolved::resolved_format))]
    pub fn format_at(&self, expr: &Expr) -> Option<u32>
        requires { IsResolution self.now }
        ensures { result ≡ format_at (measure_in self.now) expr.now }
    {
        self.symbols.format_of(named_alone(expr.terms())?)
    }
}
