// The names of the files that a program is made from.
ghost use Rattle.std.specs.Prelude.{◌≡◌, IfOk, IsUtf8};

use sil_base::Record;
use std::alloc::{AllocError, Global};
use std::marker::Model;
use std::str;

/// The names of a source, of its tables file and of its parameter file, which are in UTF-8.
#[derive(Debug, Drop)]
pub struct SourceNames {
    pub source: Record,
    pub tables: Record,
    pub params: Record,
}

impl Model for SourceNames {
    ghost use Rattle.sil_check.specs.SourceNames.{Names, AreTexts};

    ghost Value = { Names };

    ghost view = { λ n. record { source = n.source; tables = n.tables; params = n.params } };

    ghost invariant = { λ n. AreTexts (record { source = n.source; tables = n.tables; params = n.params }) };
}

/// The text of a name.
fn text(name: &Record) -> &str
    requires { IsUtf8 name.now }
    ensures { result.now ≡ name.now }
{
    match str::from_utf8(name.bytes()) {
        Ok(text) => text,
        Err(_) => unreachable!(),
    }
}

impl SourceNames {
    /// The names of a source, of its tables and of its parameters.
    pub fn of(
        alloc: Global,
        source: &str,
        tables: &str,
        params: &str,
    ) -> Result<SourceNames, AllocError>
        ensures { IfOk result (λ n. n ≡ (record { source = source.now; tables = tables.now; params = params.now })) }
    {
        Ok(SourceNames {
            source: Record::of(alloc, source.as_bytes())?,
            tables: Record::of(alloc, tables.as_bytes())?,
            params: Record::of(alloc, params.as_bytes())?,
        })
    }

    /// The name of the source.
    pub fn source(&self) -> &str
        ensures { result.now ≡ self.now.source }
    {
        text(&self.source)
    }

    /// The name of the tables file.
    pub fn tables(&self) -> &str
        ensures { result.now ≡ self.now.tables }
    {
        text(&self.tables)
    }

    /// The name of the parameter file.
    pub fn params(&self) -> &str
        ensures { result.now ≡ self.now.params }
    {
        text(&self.params)
    }
}
