// The descriptors of data statements, before their fields are bounded.
ghost use Rattle.std.specs.Prelude.{◌≡◌, ◌<◌, ◌^◌, true};
ghost use Rattle.sil_symbols.specs.Resolved.{Resolves};
ghost use Rattle.sil_symbols.specs.Symbols.{value_of};
ghost use Rattle.data_asm.specs.DataFields.{value_at, first_text, first_fields, second_fields, is_within, fit, as_number, descriptor};

use crate::source::ResolvedSource;
use layout_params::{Cell, Descr};
use sil_operands::Operand;

/// The fields of a descriptor.
#[derive(Clone, Copy, PartialEq, Eq, Debug)]
pub(crate) struct Fields {
    pub a: i64,
    pub f: i64,
    pub v: i64,
}

/// The value of an operand, 0 where it is missing or null.
#[tactic(auto, using(crate::proofs::FitLemmas::resolved_value))]
fn value_at(source: &ResolvedSource<'_>, operands: &[Operand], i: usize) -> i64
    requires { Resolves source.now.params.now source.now.statements.now source.now.symbols.now }
    ensures { result ≡ value_at (value_of source.now.params.now source.now.statements.now) operands.now i }
{
    match operands.get(i) {
        Some(Operand::Expr(expr)) => source.symbols.value(expr).unwrap_or(0),
        _ => 0,
    }
}

/// The value of the first operand, 0 where it is negative.
pub(crate) fn first_number(source: &ResolvedSource<'_>, operands: &[Operand]) -> u64
    requires { Resolves source.now.params.now source.now.statements.now source.now.symbols.now }
    ensures { result ≡ as_number (value_at (value_of source.now.params.now source.now.statements.now) operands.now 0) }
{
    u64::try_from(value_at(source, operands, 0)).unwrap_or(0)
}

/// The text of the first operand.
pub fn first_text(operands: &[Operand]) -> &[u8]
    ensures { result.now ≡ first_text operands.now }
{
    match operands.first() {
        Some(Operand::Text(text)) => text.bytes(),
        _ => b"",
    }
}

/// The descriptor of a DESCR, and the first of a SPEC.
pub(crate) fn first_fields(source: &ResolvedSource<'_>, operands: &[Operand]) -> Fields
    requires { Resolves source.now.params.now source.now.statements.now source.now.symbols.now }
    ensures { result ≡ first_fields (value_of source.now.params.now source.now.statements.now) operands.now }
{
    Fields {
        a: value_at(source, operands, 0),
        f: value_at(source, operands, 1),
        v: value_at(source, operands, 2),
    }
}

/// The second descriptor of a SPEC.
pub(crate) fn second_fields(source: &ResolvedSource<'_>, operands: &[Operand]) -> Fields
    requires { Resolves source.now.params.now source.now.statements.now source.now.symbols.now }
    ensures { result ≡ second_fields (value_of source.now.params.now source.now.statements.now) operands.now }
{
    Fields {
        a: value_at(source, operands, 3),
        f: 0,
        v: value_at(source, operands, 4),
    }
}

fn is_within(limit: u64, n: i64) -> bool
    ensures { result ≡ is_within limit n }
{
    match u64::try_from(n) {
        Ok(n) => n <= limit,
        Err(_) => false,
    }
}

impl Fields {
    /// Whether F and V are within these limits.
    pub(crate) fn fit(self, flags: u64, values: u64) -> bool
        ensures { result ≡ fit flags values self }
    {
        is_within(flags, self.f) && is_within(values, self.v)
    }

    /// The cell of a descriptor whose fields fit.
    pub(crate) fn descriptor(self, flags: u64, values: u64) -> Cell
        requires narrow { flags < 2 ^ 32 }
        requires fits { fit flags values self ≡ true }
        ensures { result ≡ descriptor self }
    {
        Cell::Descr(Descr {
            a: self.a,
            f: self.f as u32,
            v: self.v as u64,
        })
    }
}
