// The syntax tables of a run.
ghost use Rattle.std.specs.Prelude.{◌≡◌, IfOk};
ghost use Rattle.string_clauses.specs.Walks.{left_by};
ghost use Rattle.table_clauses.specs.SyntaxClauses.{entries_at, entry_in, set_entries};

use sil_model::{Entry, Table};
use std::alloc::{AllocError, Global};
use std::marker::Model;

/// The tables that statements change, which contracts see as a list of tables.
#[derive(Drop)]
pub struct Tables {
    tables: Vec<Table>,
}

impl Model for Tables {
    ghost use Rattle.std.specs.Prelude.{List};
    ghost use Rattle.sil_model.specs.declared.table.Table as table;

    ghost Value = { List table.Table };

    ghost view = { λ t. t.tables.items };
}

impl Tables {
    /// A copy of these tables.
    pub fn of(alloc: Global, tables: &[Table]) -> Result<Tables, AllocError>
        ensures { IfOk result (λ t. t ≡ tables.now) }
    {
        let mut copies = Vec::new(alloc);
        for table in tables {
            copies.push(Table {
                entries: table.entries,
            })?;
        }
        Ok(Tables { tables: copies })
    }

    /// The entry of a character in the table of a number.
    pub(crate) fn entry(&self, t: u16, c: u8) -> Option<Entry>
        ensures { result ≡ entry_in self.now t c }
    {
        let table = self.tables.get(usize::from(t))?;
        table.entries.get(usize::from(c)).copied()
    }

    /// The entries of the table of a number.
    pub(crate) fn entries(&self, t: u16) -> Option<[Entry; 256]>
        ensures { result ≡ entries_at self.now t }
    {
        let table = self.tables.get(usize::from(t))?;
        Some(table.entries)
    }

    /// Puts other entries into the table of a number.
    pub(crate) fn set_entries(&mut self, t: u16, entries: [Entry; 256]) -> Option<()>
        ensures { set_entries self.old t entries ≡ left_by result self.new }
    {
        let table = self.tables.get_mut(usize::from(t))?;
        table.entries = entries;
        Some(())
    }
}
