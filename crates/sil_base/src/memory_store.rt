// A store in memory.
ghost use Rattle.std.specs.Prelude.{◌≡◌, ◌≤◌, Some, true, OnOk, OnErr};
ghost use Rattle.std.specs.Option.{option_map};
ghost use Rattle.std.specs.FinMap as map;
ghost use Rattle.sil_base.specs.Causes.{Rose, call_fails};
ghost use Rattle.sil_base.specs.Stores.{Loads, Saves, LoadedWithin};
ghost use Rattle.sil_base.specs.MemoryCalls.{LoadsFromMemory, SavesInMemory};
ghost use Rattle.sil_base.specs.MemoryStates.{counted};

use crate::record::Record;
use crate::store::{Load, Save, Store};
use std::alloc::{AllocError, Global};
use std::collections::VecDeque;
use std::marker::Model;

/// Files in memory, some of whose calls fail. It keeps every save, the newest first.
#[derive(Debug, Drop)]
pub struct MemoryStore {
    alloc: Global,
    log: VecDeque<(Record, Vec<u8>)>,
    fails: Vec<u64>,
    calls: u64,
    faults: u64,
}

impl Model for MemoryStore {
    ghost use Rattle.sil_base.specs.MemoryStates.{StoreState, store_state_code};
    ghost use Rattle.sil_base.specs.Logs.{files_of};

    ghost Value = { StoreState };

    ghost coded = { store_state_code };

    ghost view = { λ s. record { files = files_of s.log.items; fails = s.fails.items; calls = s.calls; faults = s.faults } };
}

impl MemoryStore {
    /// An empty store. Its loads and saves are numbered together from 1, and those in `fails` fail.
    pub fn new(alloc: Global, fails: Vec<u64>) -> MemoryStore
        ensures { result ≡ record { files = map.empty; fails = fails.items; calls = 0; faults = 0 } }
    {
        MemoryStore {
            alloc,
            log: VecDeque::new(alloc),
            fails,
            calls: 0,
            faults: 0,
        }
    }

    /// Sets a file. This is no numbered call.
    pub fn set(&mut self, name: &str, bytes: &[u8]) -> Result<(), AllocError>
        ensures ok { OnOk result (self.new ≡ record self.old { files = map.insert self.old.files name.now bytes.now }) }
        ensures err { OnErr result (self.new ≡ self.old) }
    {
        let name = Record::of(self.alloc, name.as_bytes())?;
        let bytes = Vec::from_slice(self.alloc, bytes)?;
        self.log.push_front((name, bytes))?;
        Ok(())
    }

    /// A file, if it is there.
    pub fn get(&self, name: &str) -> Option<&[u8]>
        ensures { option_map (λ file. file.now) result ≡ map.get self.now.files name.now }
    {
        for (key, bytes) in &self.log {
            if name.as_bytes() == key.bytes() {
                return Some(bytes.as_slice());
            }
        }
        None
    }

    /// Counts a call, and says whether it is one that fails.
    fn count_call(&mut self) -> bool
        ensures state { self.new ≡ counted self.old }
        ensures fails { result ≡ call_fails self.old.calls self.old.fails }
        ensures count { self.old.faults ≤ self.new.faults }
    {
        self.calls = self.calls.saturating_add(1);
        let fails = self.fails.contains(&self.calls);
        if fails {
            self.faults = self.faults.saturating_add(1);
        }
        fails
    }
}

impl Store for MemoryStore {
    ghost files = { λ s. Some s.files };

    ghost faults = { λ s. s.faults };

    fn load(&mut self, name: &str, limit: u64, into: &mut Vec<u8>) -> Load
        ensures loaded { Loads result name.now limit into.new.items (Some self.old.files) }
        ensures within { LoadedWithin result limit into.new.items }
        ensures kept { Some self.new.files ≡ Some self.old.files }
        ensures count { self.old.faults ≤ self.new.faults }
        ensures failed { result ≡ Load.Failed → Rose self.old.faults self.new.faults }
        ensures state { LoadsFromMemory result self.old self.new }
    {
        into.clear();
        if self.count_call() {
            return Load::Failed;
        }
        let Some(bytes) = self.get(name) else {
            return Load::Missing;
        };
        if bytes.len() as u64 > limit {
            return Load::TooLong;
        }
        match into.extend_from_slice(bytes) {
            Ok(()) => Load::Ok,
            Err(_) => Load::Memory,
        }
    }

    fn save(&mut self, name: &str, bytes: &[u8]) -> Save
        ensures saved { Saves result name.now bytes.now (Some self.old.files) (Some self.new.files) }
        ensures count { self.old.faults ≤ self.new.faults }
        ensures failed { result ≡ Save.Failed → Rose self.old.faults self.new.faults }
        ensures state { SavesInMemory result name.now bytes.now self.old self.new }
    {
        if self.count_call() {
            return Save::Failed;
        }
        match self.set(name, bytes) {
            Ok(()) => Save::Ok,
            Err(_) => Save::Memory,
        }
    }
}
