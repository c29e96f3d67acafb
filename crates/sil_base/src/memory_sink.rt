// A sink in memory.
ghost use Rattle.std.specs.Prelude.{◌≡◌, ◌≤◌, Some, []};
ghost use Rattle.sil_base.specs.Causes.{Rose};
ghost use Rattle.sil_base.specs.Sinks.{Puts};
ghost use Rattle.sil_base.specs.MemoryCalls.{PutsInMemory};

use crate::sink::{Put, Sink};
use std::alloc::Global;
use std::marker::Model;

/// A sink in memory, some of whose calls fail.
#[derive(Debug, Drop)]
pub struct MemorySink {
    bytes: Vec<u8>,
    fails: Vec<u64>,
    calls: u64,
    faults: u64,
}

impl Model for MemorySink {
    ghost use Rattle.sil_base.specs.MemoryStates.{SinkState};

    ghost Value = { SinkState };

    ghost view = { λ s. record { text = s.bytes.items; fails = s.fails.items; calls = s.calls; faults = s.faults } };
}

impl MemorySink {
    /// An empty sink. Its puts are numbered from 1, and those in `fails` fail.
    pub fn new(alloc: Global, fails: Vec<u64>) -> MemorySink
        ensures { result ≡ record { text = []; fails = fails.items; calls = 0; faults = 0 } }
    {
        MemorySink {
            bytes: Vec::new(alloc),
            fails,
            calls: 0,
            faults: 0,
        }
    }

    /// What has been put.
    pub fn bytes(&self) -> &[u8]
        ensures { result.now ≡ self.now.text }
    {
        self.bytes.as_slice()
    }
}

impl Sink for MemorySink {
    ghost text = { λ s. Some s.text };

    ghost faults = { λ s. s.faults };

    fn put(&mut self, bytes: &[u8]) -> Put
        ensures text { Puts result bytes.now (Some self.old.text) (Some self.new.text) }
        ensures count { self.old.faults ≤ self.new.faults }
        ensures failed { result ≡ Put.Failed → Rose self.old.faults self.new.faults }
        ensures state { PutsInMemory result bytes.now self.old self.new }
    {
        self.calls = self.calls.saturating_add(1);
        if self.fails.contains(&self.calls) {
            self.faults = self.faults.saturating_add(1);
            return Put::Failed;
        }
        if self.bytes.extend_from_slice(bytes).is_err() {
            return Put::Memory;
        }
        Put::Ok
    }
}
