// The faults of data.
ghost use Rattle.std.specs.Prelude.{◌≡◌, IfOk};
ghost use Rattle.sil_symbols.specs.Resolved.{Resolves};
ghost use Rattle.data_asm.specs.DataFaults.{statement_fits, is_formatted, data_rule, data_faults};

use crate::fields::{first_fields, first_text, second_fields};
use crate::source::ResolvedSource;
use sil_base::{Fault, SOURCE_FILE, fault_at};
use sil_format::is_format;
use sil_macros::Macro;
use sil_symbols::Stmt;
use std::alloc::{AllocError, Global};

/// Whether each F of a statement, and each V or L, is within its limit.
fn statement_fits(source: &ResolvedSource<'_>, statement: &Stmt) -> bool
    requires { Resolves source.now.params.now source.now.statements.now source.now.symbols.now }
    ensures { result ≡ statement_fits source.now.params.now source.now.statements.now statement.now }
{
    let (flags, values) = (source.params.fmax(), source.params.vmax());
    let operands = statement.operands.items();
    match statement.name {
        Macro::Descr => first_fields(source, operands).fit(flags, values),
        Macro::Spec => {
            first_fields(source, operands).fit(flags, values)
                && second_fields(source, operands).fit(flags, values)
        }
        Macro::String => first_text(operands).len() as u64 <= values,
        _ => true,
    }
}

/// Whether a statement is no FORMAT, or one whose text is a format.
fn is_formatted(alloc: Global, statement: &Stmt) -> Result<bool, AllocError>
    ensures { IfOk result (λ is. is ≡ is_formatted statement.now) }
{
    match statement.name {
        Macro::Format => is_format(alloc, first_text(statement.operands.items())),
        _ => Ok(true),
    }
}

/// The least rule of data that a statement breaks.
fn data_rule(
    alloc: Global,
    source: &ResolvedSource<'_>,
    statement: &Stmt,
) -> Result<Option<u8>, AllocError>
    requires { Resolves source.now.params.now source.now.statements.now source.now.symbols.now }
    ensures { IfOk result (λ rule. rule ≡ data_rule source.now.params.now source.now.statements.now 0 statement.now) }
{
    if !statement_fits(source, statement) {
        Ok(Some(1))
    } else if !is_formatted(alloc, statement)? {
        Ok(Some(2))
    } else {
        Ok(None)
    }
}

/// The faults of the data of a source.
#[tactic(auto, unfolding(crate::specs::DataFaults::data_faults))]
pub(crate) fn data_faults(
    alloc: Global,
    source: &ResolvedSource<'_>,
) -> Result<Vec<Fault>, AllocError>
    requires { Resolves source.now.params.now source.now.statements.now source.now.symbols.now }
    ensures { IfOk result (λ v. v.items ≡ data_faults source.now.params.now source.now.statements.now) }
{
    let mut faults = Vec::new(alloc);
    for statement in source.statements {
        if let Some(rule) = data_rule(alloc, source, statement)? {
            faults.push(fault_at(SOURCE_FILE, b'A', statement.card, rule))?;
        }
    }
    Ok(faults)
}
