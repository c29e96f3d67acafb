// What the lines of a parameter file give.
ghost use Rattle.std.specs.Prelude.{◌≡◌, ◌+◌, ◌≤◌, ◌<◌, [], length, position, None, is_some, IfSome, IfOk, IfErr, option_map};
ghost use Rattle.std.specs.List.{list_all};
ghost use Rattle.layout_params.specs.ParameterLines.{value_of, parts_of, breaks_form, entries_from};
ghost use Rattle.layout_params.specs.Entries.{entry_named, line_named, number_named, date_named};
ghost use Rattle.layout_params.specs.ParameterFaults.{form_fault, is_parameter, is_new_name, name_fault, missing_fault};
ghost use Rattle.sil_base.specs.Names.{texts_of};
ghost use Rattle.layout_params.specs.HeldEntries.{value_held, parts_held, entry_held, entries_held};
ghost use Rattle.layout_params.specs.Stops.{IsStopFor};

use crate::faults::fault;
use crate::lines::{is_skipped, number_of};
use crate::stop::ParamStop;
use sil_base::{Fault, MAX_FILE_BYTES, index_of_byte, is_name, is_one_of};
use std::alloc::Global;

const NAMES: [&[u8]; 18] = [
    b"DESCR", b"AOFF", b"FOFF", b"FLEN", b"VOFF", b"VLEN", b"FNC", b"MARK", b"PTR", b"STTL",
    b"TTL", b"STSIZE", b"DYNSIZ", b"OBSIZ", b"UNITI", b"UNITO", b"UNITP", b"DATE",
];

/// The value of a line: a number, or the bytes of a date.
#[derive(Clone, Copy)]
pub(crate) enum Value<'a> {
    Number(u64),
    Date(&'a [u8]),
}

/// A line that gives a value to a name, with its number.
#[derive(Clone, Copy)]
pub(crate) struct Entry<'a> {
    pub line: u32,
    pub name: &'a [u8],
    pub value: Value<'a>,
}

/// The value that a text gives to a name.
fn value_of<'a>(name: &[u8], text: &'a [u8]) -> Option<Value<'a>>
    ensures { option_map value_held result ≡ value_of name.now text.now }
{
    if name == b"DATE".as_slice() {
        return Some(Value::Date(text));
    }
    match number_of(text) {
        Some(number) => Some(Value::Number(number)),
        None => None,
    }
}

/// The name and the value of a line: a name, one blank, and a value.
fn parts_of(line: &[u8]) -> Option<(&[u8], Value<'_>)>
    ensures { option_map parts_held result ≡ parts_of line.now }
{
    let at = index_of_byte(line, b' ')?;
    let name = &line[..at];
    if !is_name(name) {
        return None;
    }
    match value_of(name, &line[at + 1..]) {
        Some(value) => Some((name, value)),
        None => None,
    }
}

fn breaks_form(line: &[u8]) -> bool
    ensures { result ≡ breaks_form line.now }
{
    !is_skipped(line) && parts_of(line).is_none()
}

/// The place of the first line that isn't of the form.
fn first_broken(lines: &[&[u8]]) -> Option<usize>
    ensures place { result ≡ position breaks_form (texts_of lines.now) }
    ensures within { IfSome result (λ at. at < length lines.now) }
{
    lines.iter().position(|line| breaks_form(line))
}

/// The fault of the first line that isn't of the form.
pub(crate) fn form_fault(lines: &[&[u8]]) -> Option<Fault>
    requires { length lines.now ≤ MAX_FILE_BYTES }
    ensures { result ≡ form_fault (texts_of lines.now) }
{
    match first_broken(lines) {
        Some(at) => Some(fault(1, at as u32 + 1)),
        None => None,
    }
}

fn is_parameter(name: &[u8]) -> bool
    ensures { result ≡ is_parameter name.now }
{
    is_one_of(name, &NAMES)
}

/// The first entry of a name.
fn entry_named<'a>(entries: &[Entry<'a>], name: &[u8]) -> Option<Entry<'a>>
    ensures { option_map entry_held result ≡ entry_named (entries_held entries.now) name.now }
{
    for entry in entries {
        if entry.name == name {
            return Some(*entry);
        }
    }
    None
}

/// Whether a name is a parameter's, and no entry has it.
fn is_new_name(entries: &[Entry<'_>], name: &[u8]) -> bool
    ensures { result ≡ is_new_name (entries_held entries.now) name.now }
{
    is_parameter(name) && entry_named(entries, name).is_none()
}

/// The entries of lines, whose names are distinct parameters.
pub(crate) fn entries_of<'a>(alloc: Global, lines: &[&'a [u8]]) -> Result<Vec<Entry<'a>>, ParamStop>
    requires { length lines.now ≤ MAX_FILE_BYTES }
    ensures entries { IfOk result (λ v. entries_held v.items ≡ entries_from 1 (texts_of lines.now)) }
    ensures names { IfOk result (λ v. name_fault [] (entries_from 1 (texts_of lines.now)) ≡ None) }
    ensures fault { IfErr result (IsStopFor (name_fault [] (entries_from 1 (texts_of lines.now)))) }
{
    let mut entries: Vec<Entry<'a>> = Vec::new(alloc);
    for (index, line) in lines.iter().enumerate() {
        let Some((name, value)) = parts_of(line) else {
            continue;
        };
        let number = index as u32 + 1;
        if !is_new_name(&entries, name) {
            return Err(ParamStop::Fault(fault(2, number)));
        }
        entries.push(Entry {
            line: number,
            name,
            value,
        })?;
    }
    Ok(entries)
}

/// Whether each of some names has an entry.
fn are_named(entries: &[Entry<'_>], names: &[&[u8]]) -> bool
    ensures { result ≡ list_all (λ name. is_some (entry_named (entries_held entries.now) name)) (texts_of names.now) }
{
    names
        .iter()
        .all(|name| entry_named(entries, name).is_some())
}

/// The fault of a name that is missing, by the number of lines.
pub(crate) fn missing_fault(lines: u32, entries: &[Entry<'_>]) -> Option<Fault>
    requires { lines ≤ MAX_FILE_BYTES }
    ensures { result ≡ missing_fault lines (entries_held entries.now) }
{
    if are_named(entries, &NAMES) {
        None
    } else {
        Some(fault(3, lines + 1))
    }
}

/// The line that gives a value to a name, 0 where there is none.
pub(crate) fn line_named(entries: &[Entry<'_>], name: &[u8]) -> u32
    ensures { result ≡ line_named (entries_held entries.now) name.now }
{
    match entry_named(entries, name) {
        Some(entry) => entry.line,
        None => 0,
    }
}

/// The number that is given to a name, 0 where there is none.
pub(crate) fn number_named(entries: &[Entry<'_>], name: &[u8]) -> u64
    ensures { result ≡ number_named (entries_held entries.now) name.now }
{
    let Some(entry) = entry_named(entries, name) else {
        return 0;
    };
    match entry.value {
        Value::Number(number) => number,
        Value::Date(_) => 0,
    }
}

/// The date that is given to a name, empty where there is none.
pub(crate) fn date_named<'a>(entries: &[Entry<'a>], name: &[u8]) -> &'a [u8]
    ensures { result.now ≡ date_named (entries_held entries.now) name.now }
{
    let Some(entry) = entry_named(entries, name) else {
        return b"";
    };
    match entry.value {
        Value::Number(_) => b"",
        Value::Date(text) => text,
    }
}
