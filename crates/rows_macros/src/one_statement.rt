// Programs of one statement that calls a unit. The first of their three cells has the unit's number,
// the others have values.
ghost use Rattle.std.specs.Prelude.{◌≡◌, ◌≤◌, ◌∷◌, [], true, All, FitsSigned, IfOk, IfSome, length, sum_by};
ghost use Rattle.std.specs.Int.{w64};
ghost use Rattle.sil_format.specs.FormatGrammar.{IsFormat};
ghost use Rattle.layout_params.specs.Parameters.{AreLegal, standard};
ghost use Rattle.sil_model.specs.Fits.{Bounds, FitsRow};
ghost use Rattle.sil_model.specs.Needs.{has_needed};
ghost use Rattle.sil_model.specs.WellFormed.{IsWellFormed};
ghost use Rattle.rows_macros.specs.OneStatement.{no_specials};

use crate::row::CELL;
use layout_params::{
    Cell, Descr, ParamStop, Params, STANDARD_PARAMS, read_params, standard_text_is_standard,
};
use sil_base::{Items, Record};
use sil_format::{FormatStop, read_format};
use sil_machine::{Arg, Program, Specials, Statement};
use sil_macros::Macro;
use std::alloc::{AllocError, Global};

/// A macro that moves a unit.
#[derive(Clone, Copy, PartialEq, Eq, Debug)]
pub enum Move {
    Backspace,
    Endfile,
    Rewind,
}

/// The standard parameters.
pub fn standard_params(alloc: Global) -> Result<Params, ParamStop>
    ensures standard { IfOk result (λ p. p ≡ standard) }
    ensures legal { IfOk result AreLegal }
{
    standard_text_is_standard();
    read_params(alloc, STANDARD_PARAMS)
}

/// The program of a statement over three descriptors, with formats.
#[tactic(auto, using(crate::proofs::OneStatement::statements))]
fn only(
    alloc: Global,
    params: &Params,
    statement: Statement,
    a: i64,
    b: i64,
    c: i64,
    formats: Vec<Record>,
) -> Result<Program, AllocError>
    requires standard { params.now ≡ standard }
    requires legal { AreLegal params.now }
    requires fits { (bounds : Bounds) → bounds.formats ≡ formats.items → FitsRow bounds statement }
    requires needed { has_needed no_specials statement.name ≡ true }
    requires formats { All IsFormat formats.items }
    requires lengths { All (λ text. length text ≤ 256) formats.items }
    requires bytes { sum_by length formats.items ≤ 2097152 }
    ensures { IfOk result (λ p. IsWellFormed p params.now.settings) }
{
    let cells = vec![in alloc;
        Cell::Descr(Descr { a, f: 0, v: 0 }),
        Cell::Descr(Descr { a: b, f: 0, v: 0 }),
        Cell::Descr(Descr { a: c, f: 0, v: 0 }),
    ]?;
    Ok(Program {
        statements: Items::of(vec![in alloc; statement]?),
        cells: Items::of(cells),
        tables: Items::of(Vec::new(alloc)),
        formats: Items::of(formats),
        specials: Specials {
            over: None,
            under: None,
            stype: None,
            first: None,
            head: None,
            tail: None,
            int_code: None,
        },
    })
}

/// The statement of a move of the unit in the first cell.
fn move_of(alloc: Global, which: Move) -> Result<Statement, AllocError>
    ensures fits { IfOk result (λ s. (bounds : Bounds) → FitsRow bounds s) }
    ensures needed { IfOk result (λ s. has_needed no_specials s.name ≡ true) }
{
    let args = Items::of(vec![in alloc; Arg::Place(CELL)]?);
    match which {
        Move::Backspace => Ok(Statement {
            card: 1,
            name: Macro::Bkspce,
            args,
        }),
        Move::Endfile => Ok(Statement {
            card: 1,
            name: Macro::Enfile,
            args,
        }),
        Move::Rewind => Ok(Statement {
            card: 1,
            name: Macro::Rewind,
            args,
        }),
    }
}

/// The program that moves a unit.
#[tactic(auto, using(crate::proofs::OneStatement::statements))]
pub fn moving(alloc: Global, params: &Params, which: Move, unit: i64) -> Result<Program, AllocError>
    requires standard { params.now ≡ standard }
    requires legal { AreLegal params.now }
    ensures { IfOk result (λ p. IsWellFormed p params.now.settings) }
{
    let statement = move_of(alloc, which)?;
    only(alloc, params, statement, unit, 0, 0, Vec::new(alloc))
}

/// The places of as many of the two values.
#[tactic(auto, using(crate::proofs::OneStatement::statements))]
fn places(alloc: Global, count: usize) -> Result<Items<i64>, AllocError>
    ensures { IfOk result (λ l. (length l ≤ 40) × All (FitsSigned w64) l) }
{
    match count {
        0 => Ok(Items::of(Vec::new(alloc))),
        1 => Ok(Items::of(vec![in alloc; CELL + 16]?)),
        _ => Ok(Items::of(vec![in alloc; CELL + 16, CELL + 32]?)),
    }
}

/// The OUTPUT of as many of the two values by a format.
#[tactic(auto, using(crate::proofs::OneStatement::statements))]
fn output_of(alloc: Global, text: &[u8], count: usize) -> Result<Statement, AllocError>
    ensures fits { IfOk result (λ s. (bounds : Bounds) → bounds.formats ≡ text.now ∷ [] → FitsRow bounds s) }
    ensures needed { IfOk result (λ s. has_needed no_specials s.name ≡ true) }
{
    let items = places(alloc, count)?;
    let format = Record::of(alloc, text)?;
    let args = vec![in alloc; Arg::Place(CELL), Arg::Format(format), Arg::Places(items)]?;
    Ok(Statement {
        card: 1,
        name: Macro::Output,
        args: Items::of(args),
    })
}

/// The program that prints as many of two values on a unit, or none where the text is longer than
/// 256 bytes.
#[tactic(auto, using(crate::proofs::OneStatement::statements))]
pub fn printing(
    alloc: Global,
    params: &Params,
    text: &[u8],
    unit: i64,
    values: (i64, i64),
    count: usize,
) -> Result<Option<Program>, FormatStop>
    requires standard { params.now ≡ standard }
    requires legal { AreLegal params.now }
    ensures { IfOk result (λ o. IfSome o (λ p. IsWellFormed p params.now.settings)) }
{
    if text.len() > 256 {
        return Ok(None);
    }
    let _ = read_format(alloc, text)?;
    let statement = output_of(alloc, text, count)?;
    let formats = vec![in alloc; Record::of(alloc, text)?]?;
    let (one, two) = values;
    let program = only(alloc, params, statement, unit, one, two, formats)?;
    Ok(Some(program))
}
