// The files of a row: its source, tables, parameters, and those that the source copies.
use crate::block::Block;
use sil_base::MemoryStore;
use std::alloc::{AllocError, Global};

/// The word that a line begins with.
pub fn first_word(line: &str) -> &str {
    line.split(' ').next().unwrap_or("")
}

/// Puts all lines that a block has under a name.
fn put_part(text: &mut String, block: &Block, name: &str) -> Result<(), AllocError> {
    for part in &block.parts {
        if part.name.as_str() == name {
            text.push_str(part.text.as_str())?;
        }
    }
    Ok(())
}

/// A line of parameters, or the last one of a block that begins with the same name.
fn param_of<'a>(block: &'a Block, line: &'a str) -> &'a str {
    for other in block.params.iter().rev() {
        if first_word(other.as_str()) == first_word(line) {
            return other.as_str();
        }
    }
    line
}

/// Puts a line of parameters, or the one that the blocks have in its place.
fn put_param(text: &mut String, head: &Block, row: &Block, line: &str) -> Result<(), AllocError> {
    text.push_str(param_of(row, param_of(head, line)))?;
    text.push('\n')
}

/// The parameters of a layout, with the lines that the blocks have in place of others.
fn params_of(alloc: Global, layout: &str, head: &Block, row: &Block) -> Result<String, AllocError> {
    let mut text = String::new(alloc);
    for line in layout.lines() {
        put_param(&mut text, head, row, line)?;
    }
    Ok(text)
}

/// The source of a row, with what stands behind it.
fn source_of(alloc: Global, head: &Block, row: &Block) -> Result<String, AllocError> {
    let mut text = String::new(alloc);
    put_part(&mut text, row, "SRC")?;
    put_part(&mut text, row, "")?;
    put_part(&mut text, head, "")?;
    Ok(text)
}

/// Sets a file, unless the row is without it.
fn set(store: &mut MemoryStore, row: &Block, name: &str, text: &str) -> Result<(), AllocError> {
    for missing in &row.without {
        if missing.as_str() == name {
            return Ok(());
        }
    }
    store.set(name, text.as_bytes())
}

/// Sets the files that a block names.
fn set_named(store: &mut MemoryStore, block: &Block) -> Result<(), AllocError> {
    for part in &block.parts {
        if part.name.as_str() != "SRC" && !part.name.is_empty() {
            store.set(part.name.as_str(), part.text.as_bytes())?;
        }
    }
    Ok(())
}

/// The store of a row under a layout: SRC, TABLES, PARAMS and the files that it names.
pub fn store_of(
    alloc: Global,
    layout: &str,
    head: &Block,
    row: &Block,
) -> Result<MemoryStore, AllocError> {
    let mut store = MemoryStore::new(alloc, Vec::new(alloc));
    set(
        &mut store,
        row,
        "SRC",
        source_of(alloc, head, row)?.as_str(),
    )?;
    set(&mut store, row, "TABLES", "")?;
    let params = params_of(alloc, layout, head, row)?;
    set(&mut store, row, "PARAMS", params.as_str())?;
    set_named(&mut store, head)?;
    set_named(&mut store, row)?;
    Ok(store)
}
