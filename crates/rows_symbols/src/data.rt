// Data statements and their cells.
ghost use Rattle.std.specs.Prelude.{◌≡◌, IfOk, false};
ghost use Rattle.sil_symbols.specs.StatementParts.{part_of, is_end};

use data_asm::{DataStop, assemble};
use layout_params::{Cell, STANDARD_PARAMS, read_params};
use rows_source::texts::text_of;
use sil_base::{Record, decimal};
use sil_macros::Macro;
use sil_operands::{Operands, read_operands};
use sil_symbols::{Stmt, resolve};
use smallvec::SmallVec;
use std::alloc::{AllocError, Global};
use std::test::Fail;

/// The parameters of a layout with 24 bytes to a descriptor.
const WIDE_PARAMS: &[u8] =
    b"DESCR 24\nAOFF 0\nFOFF 8\nFLEN 4\nVOFF 16\nVLEN 8\nFNC 1\nMARK 2\nPTR 4\nSTTL 8\nTTL 16\nSTSIZE 64\nDYNSIZ 100\nOBSIZ 256\nUNITI 5\nUNITO 6\nUNITP 7\nDATE 01/01/70\n";

/// Macros, operand fields, and their cells, or the fault of the line: of a descriptor the three fields, of
/// characters all up to the last that isn't 0. The label is X.
static ROWS: [(Macro, &[u8], &[u8]); 16] = [
    (Macro::Descr, b"", b"0,0,0;"),
    (Macro::Descr, b"-7", b"-7,0,0;"),
    (Macro::Descr, b",2,3", b"0,2,3;"),
    (
        Macro::Descr,
        b"X+DESCR,65535,SIZLIM",
        b"1073741840,65535,4294967295;",
    ),
    (Macro::Descr, b"1,65536", b"1 A1;"),
    (Macro::Descr, b"1,-1", b"1 A1;"),
    (Macro::Descr, b"1,0,SIZLIM+1", b"1 A1;"),
    (Macro::Descr, b"1,0,-1", b"1 A1;"),
    (Macro::Spec, b"1,2,3,-4,5", b"1,2,3;-4,0,5;"),
    (Macro::Array, b"2", b"0,0,0;0,0,0;"),
    (Macro::Buffer, b"17", b"                ;                ;"),
    (Macro::Format, b"'(Q3)'", b"1 A2;"),
    (Macro::Format, b"''", b"1 A2;"),
    (Macro::Format, b"'(I5) X'", b"1 A2;"),
    (Macro::Format, b"'(I5)'", b"(I5);"),
    (
        Macro::Format,
        b"'(2I3,1H''/12H HELLO WORLD)'",
        b"(2I3,1H'/12H HEL;LO WORLD);",
    ),
];

/// The statement of card 1 with this operand field.
fn statement(alloc: Global, name: Macro, field: &[u8]) -> Result<Stmt, Fail>
    ensures { IfOk result (λ s. s.name ≡ name) }
{
    Ok(Stmt {
        card: 1,
        label: Record::of(alloc, b"X")?,
        name,
        operands: read_operands(alloc, field)?,
    })
}

/// The same, of a macro of the rows.
fn data_statement(alloc: Global, name: Macro, field: &[u8]) -> Result<Stmt, Fail>
    ensures { IfOk result (λ s. is_end (part_of s.name) ≡ false) }
{
    match name {
        Macro::Spec => statement(alloc, Macro::Spec, field),
        Macro::String => statement(alloc, Macro::String, field),
        Macro::Array => statement(alloc, Macro::Array, field),
        Macro::Buffer => statement(alloc, Macro::Buffer, field),
        Macro::Format => statement(alloc, Macro::Format, field),
        _ => statement(alloc, Macro::Descr, field),
    }
}

/// The cells of a source of one statement and END.
fn cells_of(
    alloc: Global,
    params: &[u8],
    statement: Stmt,
) -> Result<Result<Vec<Cell>, DataStop>, Fail>
    requires { is_end (part_of statement.name) ≡ false }
{
    if params.len() > 2_097_152 {
        return Err(Fail::new("long parameters"));
    }
    let params = read_params(alloc, params)?;
    let mut statements = Vec::new(alloc);
    statements.push(statement)?;
    statements.push(Stmt {
        card: 2,
        label: Record::of(alloc, b"")?,
        name: Macro::End,
        operands: Operands::of(SmallVec::new(alloc)),
    })?;
    let symbols = resolve(alloc, &statements, &params)?;
    Ok(assemble(alloc, &statements, &symbols, &params))
}

fn put_cell(out: &mut Vec<u8>, cell: &Cell) -> Result<(), AllocError> {
    match cell {
        Cell::Descr(descr) => {
            decimal(out, i128::from(descr.a))?;
            out.push(b',')?;
            decimal(out, i128::from(descr.f))?;
            out.push(b',')?;
            decimal(out, i128::from(descr.v))?;
        }
        Cell::Chars(bytes) => {
            let count = bytes
                .iter()
                .rposition(|byte| *byte != 0)
                .map_or(0, |last| last + 1);
            out.extend_from_slice(&bytes[..count])?;
        }
    }
    out.push(b';')?;
    Ok(())
}

/// The cells of a statement, or its faults, as a text.
fn shown(alloc: Global, params: &[u8], name: Macro, field: &[u8]) -> Result<Vec<u8>, Fail> {
    let statement = data_statement(alloc, name, field)?;
    let mut out = Vec::new(alloc);
    match cells_of(alloc, params, statement)? {
        Ok(cells) => {
            for cell in &cells {
                put_cell(&mut out, cell)?;
            }
        }
        Err(DataStop::Faults(faults)) => out = text_of(alloc, faults.items())?,
        Err(DataStop::Memory) => out.extend_from_slice(b"memory")?,
    }
    Ok(out)
}

#[test]
fn data_statements_have_their_cells(rt: HostRuntime) -> Result<(), Fail> {
    for &(name, field, expected) in &ROWS {
        let cells = shown(rt.alloc(), STANDARD_PARAMS, name, field)?;
        assert!(rt; cells.as_slice() == expected);
    }
    let string = shown(rt.alloc(), WIDE_PARAMS, Macro::String, b"'ABCDE'")?;
    assert!(rt; string.as_slice() == b"1073741872,0,0;0,0,5;ABCDE;".as_slice());
    Ok(())
}
