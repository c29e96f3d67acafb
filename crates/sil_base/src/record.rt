// A record: the bytes of one line.
ghost use Rattle.std.specs.Prelude.{◌≡◌, ℕ, List, IfOk};

use std::alloc::{AllocError, Global};
use std::marker::Model;

/// A record, which contracts see as the list of its bytes.
#[derive(Debug, Drop)]
pub struct Record {
    bytes: Vec<u8>,
}

impl Model for Record {
    ghost Value = { List ℕ };

    ghost view = { λ r. r.bytes.items };
}

impl Record {
    /// A record of these bytes.
    pub fn of(alloc: Global, bytes: &[u8]) -> Result<Record, AllocError>
        ensures { IfOk result (λ r. r ≡ bytes.now) }
    {
        Ok(Record {
            bytes: Vec::from_slice(alloc, bytes)?,
        })
    }

    /// Its bytes.
    pub fn bytes(&self) -> &[u8]
        ensures { result.now ≡ self.now }
    {
        self.bytes.as_slice()
    }
}
