// The tables of a file, or its faults, as a text.
use layout_params::{STANDARD_PARAMS, read_params};
use sil_base::{Fault, Record, decimal};
use sil_macros::Macro;
use sil_model::{Action, Entry, Table};
use sil_operands::read_operands;
use sil_symbols::{Stmt, Symbols, resolve};
use std::alloc::{AllocError, Global};
use std::test::Fail;
use syntax_tables::{TableStop, bind, read_tables};

fn statement(
    alloc: Global,
    card: u32,
    label: &[u8],
    name: Macro,
    operands: &[u8],
) -> Result<Stmt, Fail> {
    Ok(Stmt {
        card,
        label: Record::of(alloc, label)?,
        name,
        operands: read_operands(alloc, operands)?,
    })
}

/// The symbols of a source where A is 7 and L the first statement's place, 1,879,048,192.
pub fn symbols_of(alloc: Global) -> Result<Symbols, Fail> {
    let mut statements = Vec::new(alloc);
    statements.push(statement(alloc, 1, b"A", Macro::Equ, b"7")?)?;
    statements.push(statement(alloc, 2, b"L", Macro::Lhere, b"")?)?;
    statements.push(statement(alloc, 3, b"", Macro::End, b"")?)?;
    let params = read_params(alloc, STANDARD_PARAMS)?;
    Ok(resolve(alloc, &statements, &params)?)
}

fn put_faults(text: &mut Vec<u8>, faults: &[Fault]) -> Result<(), AllocError> {
    for fault in faults {
        decimal(text, i128::from(fault.line.number))?;
        text.push(b' ')?;
        text.push(fault.code.letter)?;
        decimal(text, i128::from(fault.code.rule))?;
        text.push(b';')?;
    }
    Ok(())
}

/// The lines and rules of faults; `memory` where that was wanted.
pub fn stop_text(alloc: Global, stop: &TableStop) -> Result<Vec<u8>, AllocError> {
    let mut text = Vec::new(alloc);
    match stop {
        TableStop::Faults(faults) => put_faults(&mut text, faults.items())?,
        TableStop::Memory => text.extend_from_slice(b"memory")?,
    }
    Ok(text)
}

/// The letter of an action (H is STOPSH), with the number of the next table.
fn put_action(text: &mut Vec<u8>, action: Action) -> Result<(), AllocError> {
    match action {
        Action::Contin => text.push(b'C')?,
        Action::Goto(next) => {
            text.push(b'G')?;
            decimal(text, i128::from(next))?;
        }
        Action::Stop => text.push(b'S')?,
        Action::Stopsh => text.push(b'H')?,
        Action::Error => text.push(b'E')?,
    }
    Ok(())
}

/// A code, and the entry from there on.
fn put_entry(text: &mut Vec<u8>, code: usize, entry: Entry) -> Result<(), AllocError> {
    decimal(text, code as i128)?;
    put_action(text, entry.action)?;
    if let Some(value) = entry.put {
        text.push(b'=')?;
        decimal(text, i128::from(value))?;
    }
    text.push(b',')?;
    Ok(())
}

/// The codes at which the entries of a table change.
fn put_table(text: &mut Vec<u8>, table: &Table) -> Result<(), AllocError> {
    let mut before = None;
    for (code, entry) in table.entries.iter().enumerate() {
        if before != Some(*entry) {
            put_entry(text, code, *entry)?;
        }
        before = Some(*entry);
    }
    text.push(b';')?;
    Ok(())
}

/// The tables of a file, by the symbols.
pub fn tables_of(alloc: Global, file: &[u8], symbols: &Symbols) -> Result<Vec<Table>, TableStop> {
    if file.len() > 2_097_152 {
        return Ok(Vec::new(alloc));
    }
    let written = read_tables(alloc, file)?;
    bind(alloc, &written, symbols)
}

/// The tables of a file, or its faults.
pub fn shown(alloc: Global, file: &[u8], symbols: &Symbols) -> Result<Vec<u8>, AllocError> {
    let mut text = Vec::new(alloc);
    match tables_of(alloc, file, symbols) {
        Ok(tables) => {
            for table in &tables {
                put_table(&mut text, table)?;
            }
            Ok(text)
        }
        Err(stop) => stop_text(alloc, &stop),
    }
}
