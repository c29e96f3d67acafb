// The static cells of a source.
ghost use Rattle.std.specs.Prelude.{◌≡◌, ◌<◌, ◌≤◌, ◌^◌, ◌+◌, ◌*◌, ◌++◌, ◌∷◌, ◌&&◌, [], length, replicate, All, IfOk, IfErr, OnOk, true, pos};
ghost use Rattle.std.specs.List.{list_all};
ghost use Rattle.sil_base.specs.Faults.{IsStopFor};
ghost use Rattle.sil_model.specs.Memory.{FitsCell};
ghost use Rattle.sil_model.specs.Start.{limits_of, zero_cell};
ghost use Rattle.sil_symbols.specs.Resolved.{Resolves};
ghost use Rattle.sil_symbols.specs.SymbolRules.{faults_of};
ghost use Rattle.sil_symbols.specs.Symbols.{value_of, extent, IsWithinLimits};
ghost use Rattle.data_asm.specs.DataFields.{fit, descriptor};
ghost use Rattle.data_asm.specs.Cells.{specifier, data_cells, cells_of, static_cells_of};
ghost use Rattle.data_asm.specs.CharacterCells.{text_cells};
ghost use Rattle.data_asm.specs.DataFaults.{statement_fits, is_formatted, data_faults};

use crate::faults::data_faults;
use crate::fields::{Fields, first_fields, first_number, first_text, second_fields};
use crate::source::ResolvedSource;
use crate::texts::{push_blanks, push_copies, push_text};
use layout_params::{Cell, Descr, Layout, Params};
use sil_base::{FIRST_CELL, FaultStop, Items};
use sil_macros::Macro;
use sil_symbols::{Stmt, Symbols, law_of_sizes, law_of_values};
use std::alloc::{AllocError, Global};

/// Why a source has no cells: the lines of data that break a rule, or want of memory.
pub type DataStop = FaultStop;

/// Appends so many descriptors of zeros.
fn push_zeros(cells: &mut Vec<Cell>, count: u64) -> Result<(), AllocError>
    ensures { OnOk result (cells.new.items ≡ cells.old.items ++ replicate count zero_cell) }
{
    push_copies(cells, count, Cell::Descr(Descr { a: 0, f: 0, v: 0 }))
}

/// Appends a descriptor whose fields are within these limits.
fn push_descriptor(
    cells: &mut Vec<Cell>,
    fields: Fields,
    flags: u64,
    values: u64,
) -> Result<(), AllocError>
    requires narrow { flags < 2 ^ 32 }
    requires fits { fit flags values fields ≡ true }
    ensures { OnOk result (cells.new.items ≡ cells.old.items ++ descriptor fields ∷ []) }
{
    cells.push(fields.descriptor(flags, values))?;
    Ok(())
}

/// Appends a specifier whose fields are within these limits.
fn push_specifier(
    cells: &mut Vec<Cell>,
    first: Fields,
    second: Fields,
    flags: u64,
    values: u64,
) -> Result<(), AllocError>
    requires narrow { flags < 2 ^ 32 }
    requires fits { (fit flags values first && fit flags values second) ≡ true }
    ensures { OnOk result (cells.new.items ≡ cells.old.items ++ descriptor first ∷ descriptor second ∷ []) }
{
    push_descriptor(cells, first, flags, values)?;
    push_descriptor(cells, second, flags, values)
}

/// Appends a string, whose characters begin at this address.
fn push_string(cells: &mut Vec<Cell>, size: usize, at: i64, text: &[u8]) -> Result<(), AllocError>
    requires some { 1 ≤ size }
    requires few { size ≤ 64 }
    ensures { OnOk result (cells.new.items
        ≡ cells.old.items ++ (specifier at (length text.now) ++ text_cells size text.now)) }
{
    cells.push(Cell::Descr(Descr { a: at, f: 0, v: 0 }))?;
    let length = text.len() as u64;
    cells.push(Cell::Descr(Descr {
        a: 0,
        f: 0,
        v: length,
    }))?;
    push_text(cells, size, text)
}

/// Appends the cells of a statement, whose third cell has this address.
fn push_data(
    cells: &mut Vec<Cell>,
    source: &ResolvedSource<'_>,
    at: i64,
    statement: &Stmt,
) -> Result<(), AllocError>
    requires resolved { Resolves source.now.params.now source.now.statements.now source.now.symbols.now }
    requires fits { statement_fits source.now.params.now source.now.statements.now statement.now ≡ true }
    ensures { OnOk result (cells.new.items ≡ cells.old.items
        ++ data_cells source.now.params.now.settings.sizes.descr
        (value_of source.now.params.now source.now.statements.now) at statement.now.name statement.now.operands) }
{
    let (flags, values) = (source.params.fmax(), source.params.vmax());
    let size = source.params.numbers().descr() as usize;
    let operands = statement.operands.items();
    match statement.name {
        Macro::Descr => push_descriptor(cells, first_fields(source, operands), flags, values),
        Macro::Spec => {
            let (first, second) = (
                first_fields(source, operands),
                second_fields(source, operands),
            );
            push_specifier(cells, first, second, flags, values)
        }
        Macro::Array => push_zeros(cells, first_number(source, operands)),
        Macro::Buffer => push_blanks(cells, size, first_number(source, operands)),
        Macro::String => push_string(cells, size, at, first_text(operands)),
        Macro::Format => push_text(cells, size, first_text(operands)),
        _ => Ok(()),
    }
}

/// Bytes are below 256.
fn law_of_bytes(_bytes: &[u8])
    ensures { All (λ c. c < 256) _bytes.now }
{}

/// The cells of a statement whose data are within their limits, and whose third cell has this
/// address, are cells of the machine.
fn law_of_data(source: &ResolvedSource<'_>, at: i64, statement: &Stmt)
    requires { statement_fits source.now.params.now source.now.statements.now statement.now ≡ true }
    ensures { All (FitsCell (limits_of source.now.params.now.settings))
        (data_cells source.now.params.now.settings.sizes.descr
        (value_of source.now.params.now source.now.statements.now) at statement.now.name statement.now.operands) }
{
    let _least = source.params.numbers();
    law_of_values();
    law_of_bytes(first_text(statement.operands.items()));
}

/// The address of the third cell after these, each of so many bytes.
#[tactic(auto, using(crate::proofs::CountLemmas::bytes_below))]
fn third_cell(size: u64, before: &[Cell]) -> i64
    requires bytes { size ≤ 64 }
    requires few { length before.now ≤ 2 ^ 20 }
    ensures { result ≡ pos (FIRST_CELL + (length before.now + 2) * size) }
{
    (FIRST_CELL + (before.len() as u64 + 2) * size) as i64
}

/// The static cells of a source whose data fit.
fn static_cells(alloc: Global, source: &ResolvedSource<'_>) -> Result<Vec<Cell>, AllocError>
    requires resolved { Resolves source.now.params.now source.now.statements.now source.now.symbols.now }
    requires few { length (static_cells_of source.now.params.now source.now.statements.now) ≤ 2 ^ 20 }
    requires fit { list_all (statement_fits source.now.params.now source.now.statements.now) source.now.statements.now ≡ true }
    ensures cells { IfOk result (λ v. v.items ≡ static_cells_of source.now.params.now source.now.statements.now) }
    ensures fit { IfOk result (λ v. All (FitsCell (limits_of source.now.params.now.settings)) v.items) }
{
    let size = source.params.numbers().descr();
    let mut cells = Vec::new(alloc);
    for statement in source.statements {
        let at = third_cell(size, cells.as_slice());
        law_of_data(source, at, statement);
        push_data(&mut cells, source, at, statement)?;
    }
    Ok(cells)
}

/// The static cells of statements, of which `symbols` are the symbols: those of each data
/// statement in order, or the lines that have an F, a V or an L that isn't within its limit (A1)
/// and those of a FORMAT whose text is no format (A2).
pub fn assemble(
    alloc: Global,
    statements: &[Stmt],
    symbols: &Symbols,
    params: &Params,
) -> Result<Vec<Cell>, DataStop>
    requires resolved { Resolves params.now statements.now symbols.now }
    requires limits { IsWithinLimits params.now statements.now }
    requires faultless { faults_of params.now statements.now ≡ [] }
    ensures faultless { IfOk result (λ v. data_faults params.now statements.now ≡ []) }
    ensures cells { IfOk result (λ v. v.items ≡ static_cells_of params.now statements.now) }
    ensures fit { IfOk result (λ v. All (FitsCell (limits_of params.now.settings)) v.items) }
    ensures formats { IfOk result (λ v. list_all is_formatted statements.now ≡ true) }
    ensures count { IfOk result (λ v. length v.items ≡ (extent params.now statements.now).cells) }
    ensures faults { IfErr result (IsStopFor (data_faults params.now statements.now)) }
{
    law_of_sizes();
    let source = ResolvedSource {
        params,
        statements,
        symbols,
    };
    let faults = data_faults(alloc, &source)?;
    if !faults.is_empty() {
        return Err(FaultStop::Faults(Items::of(faults)));
    }
    Ok(static_cells(alloc, &source)?)
}
