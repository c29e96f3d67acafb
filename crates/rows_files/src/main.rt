// Runs the rows of files, and says of each file how many of its rows go as they say. The words are the
// folder of the files, and their names.
#![tactic(auto)]

mod block;
mod commands;
mod files;

use crate::block::Block;
use crate::commands::{Answer, answer_to, commands_of, is_as_told};
use crate::files::store_of;
use std::alloc::{AllocError, Global};
use std::process::ExitCode;
use std::{env, fs, io, slice};

/// A setting of a row, or that of the rows' head, or what it is where neither has one.
fn setting<'a>(row: &'a str, head: &'a str, usual: &'a str) -> &'a str {
    if !row.is_empty() {
        row
    } else if !head.is_empty() {
        head
    } else {
        usual
    }
}

/// The blocks of a text.
fn blocks_of(alloc: Global, text: &str) -> Result<Vec<Block>, AllocError> {
    let mut blocks = Vec::new(alloc);
    let mut block = Block::new(alloc);
    for line in text.lines() {
        if line.is_empty() {
            blocks.push(block)?;
            block = Block::new(alloc);
        } else {
            block.take(line)?;
        }
    }
    blocks.push(block)?;
    Ok(blocks)
}

/// Says of a row that it doesn't go as it says, and what a command answers.
fn tell(
    rt: &HostRuntime,
    row: &Block,
    layout: &str,
    command: &str,
    answer: &Answer,
) -> io::Result<()> {
    let notes = str::from_utf8(&answer.notes).unwrap_or("?");
    let printed = str::from_utf8(&answer.printed).unwrap_or("?");
    let shows = row.shows.as_str();
    println!(rt; "-- {shows}")?;
    println!(rt; "$ {command} ({layout})")?;
    println!(rt; "{notes}{printed}")
}

/// Whether each command answers as a row says, over files of its own.
fn each_is_as_told(
    rt: &HostRuntime,
    head: &Block,
    row: &Block,
    layout: &str,
    text: &str,
) -> io::Result<bool> {
    let alloc = rt.alloc();
    let steps = setting(row.steps.as_str(), head.steps.as_str(), "999");
    let mut all = true;
    for command in &commands_of(alloc, row, steps)? {
        let mut store = store_of(alloc, text, head, row)?;
        let answer = answer_to(alloc, &mut store, slice::from_ref(command))?;
        if !is_as_told(&answer, row) {
            tell(rt, row, layout, command.as_str(), &answer)?;
            all = false;
        }
    }
    Ok(all)
}

/// Whether the commands of a row together answer as it says.
fn all_are_as_told(
    rt: &HostRuntime,
    head: &Block,
    row: &Block,
    layout: &str,
    text: &str,
) -> io::Result<bool> {
    let mut store = store_of(rt.alloc(), text, head, row)?;
    let answer = answer_to(rt.alloc(), &mut store, &row.commands)?;
    if is_as_told(&answer, row) {
        return Ok(true);
    }
    tell(rt, row, layout, "..", &answer)?;
    Ok(false)
}

/// Whether a row goes as it says, under each of its layouts.
fn is_row_true(rt: &HostRuntime, folder: &str, head: &Block, row: &Block) -> io::Result<bool> {
    let layouts = setting(row.layouts.as_str(), head.layouts.as_str(), "standard");
    let mut all = true;
    for layout in layouts.split(' ') {
        let text = fs::read_to_string(rt, format!(in rt.alloc(); "{folder}/{layout}")?)?;
        let is = if row.commands.is_empty() {
            each_is_as_told(rt, head, row, layout, text.as_str())?
        } else {
            all_are_as_told(rt, head, row, layout, text.as_str())?
        };
        all = all && is;
    }
    Ok(all)
}

/// Runs the rows of a file; the answer says whether all go as they say.
fn run_file(rt: &HostRuntime, folder: &str, name: &str) -> io::Result<bool> {
    let text = fs::read_to_string(rt, format!(in rt.alloc(); "{folder}/{name}")?)?;
    let blocks = blocks_of(rt.alloc(), text.as_str())?;
    let none = Block::new(rt.alloc());
    let mut head = &none;
    let mut rows: u64 = 0;
    let mut so: u64 = 0;
    for block in &blocks {
        if block.is_head() {
            head = block;
        }
        if block.is_row() {
            rows = rows.wrapping_add(1);
            let is = is_row_true(rt, folder, head, block)?;
            so = so.wrapping_add(u64::from(is));
        }
    }
    println!(rt; "{name}: {so} of {rows} rows are so")?;
    Ok(so == rows)
}

/// Runs all files.
fn run(rt: &HostRuntime) -> io::Result<bool> {
    let mut words = env::args(rt)?.skip(1);
    let Some(folder) = words.next() else {
        return Ok(false);
    };
    let mut all = true;
    for name in words {
        let is = run_file(rt, folder.as_str(), name.as_str())?;
        all = all && is;
    }
    Ok(all)
}

fn main(rt: HostRuntime) -> ExitCode {
    match run(&rt) {
        Ok(true) => ExitCode::SUCCESS,
        _ => ExitCode::FAILURE,
    }
}
