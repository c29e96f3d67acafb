// How tables lie in an image: sixteen bytes for each entry.
ghost use Rattle.std.specs.Prelude.{◌≡◌, ◌++◌, IfOk, OnOk};
ghost use Rattle.std.specs.List.{flat_map};
ghost use Rattle.sil_micro.specs.TableWords.{action_number, next_table, puts};
ghost use Rattle.rv_operations.specs.EntryBytes.{put_value};
ghost use Rattle.sil_install.specs.TableBytes.{entry_bytes, bytes_of};

use image_file::table_entry;
use sil_model::{Action, Entry, Table};
use std::alloc::{AllocError, Global};

/// The number of an action.
fn action_number(action: Action) -> u8
    ensures { result ≡ action_number action }
{
    match action {
        Action::Contin => 0,
        Action::Goto(_) => 1,
        Action::Stop => 2,
        Action::Stopsh => 3,
        Action::Error => 4,
    }
}

/// The next table of GOTO, and 0 of the other actions.
fn next_table(action: Action) -> u16
    ensures { result ≡ next_table action }
{
    match action {
        Action::Goto(next) => next,
        _ => 0,
    }
}

/// Whether there is a PUT.
fn put_flag(put: Option<i64>) -> u8
    ensures { result ≡ puts put }
{
    match put {
        Some(_) => 1,
        None => 0,
    }
}

/// The value of a PUT, 0 where there is none.
fn put_value(put: Option<i64>) -> u64
    ensures { result ≡ put_value put }
{
    match put {
        Some(value) => value.cast_unsigned(),
        None => 0,
    }
}

/// Appends the bytes of an entry.
#[tactic(auto, unfolding(crate::specs::TableBytes::entry_bytes))]
fn put_entry(bytes: &mut Vec<u8>, entry: &Entry) -> Result<(), AllocError>
    ensures { OnOk result (bytes.new.items ≡ bytes.old.items ++ entry_bytes entry.now) }
{
    bytes.extend_from_slice(&table_entry(
        action_number(entry.action),
        put_flag(entry.put),
        next_table(entry.action),
        put_value(entry.put),
    ))?;
    Ok(())
}

/// Appends the bytes of entries.
fn put_entries(bytes: &mut Vec<u8>, entries: &[Entry]) -> Result<(), AllocError>
    ensures { OnOk result (bytes.new.items ≡ bytes.old.items ++ flat_map entry_bytes entries.now) }
{
    for entry in entries {
        put_entry(bytes, entry)?;
    }
    Ok(())
}

/// Appends the bytes of a table.
#[tactic(auto, unfolding(crate::specs::TableBytes::bytes_of))]
fn put_table(bytes: &mut Vec<u8>, table: &Table) -> Result<(), AllocError>
    ensures { OnOk result (bytes.new.items ≡ bytes.old.items ++ bytes_of table.now) }
{
    put_entries(bytes, &table.entries)
}

/// The bytes of tables.
pub(crate) fn table_bytes(alloc: Global, tables: &[Table]) -> Result<Vec<u8>, AllocError>
    ensures { IfOk result (λ v. v.items ≡ flat_map bytes_of tables.now) }
{
    let mut bytes = Vec::new(alloc);
    for table in tables {
        put_table(&mut bytes, table)?;
    }
    Ok(bytes)
}
