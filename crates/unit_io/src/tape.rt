// A unit in memory.
ghost use Rattle.std.specs.Prelude.{◌≡◌, ◌≤◌, Some, IfSome, true, vec_len};
ghost use Rattle.sil_base.specs.Causes.{Rose};
ghost use Rattle.unit_io.specs.Tapes.{next_fails, called};

use crate::answers::{ReadAnswer, UnitAnswer};
use crate::unit::Unit;
use sil_base::Record;
use std::alloc::Global;

/// A tape in memory, some of whose calls fail.
#[derive(Drop)]
pub struct Tape {
    alloc: Global,
    records: Vec<Record>,
    place: usize,
    calls: u64,
    fails: Vec<u64>,
    faults: u64,
    ghost in_range: { place ≤ vec_len records },
}

impl Tape {
    /// A tape at its first record. Its calls other than `known` are numbered from 1, and those in
    /// `fails` fail.
    pub fn new(alloc: Global, records: Vec<Record>, fails: Vec<u64>) -> Tape
        ensures { ⟦<Tape as Unit>⟧.tape result ≡ Some (record { records = records.items; place = 0; calls = 0; fails = fails.items }) }
    {
        Tape {
            alloc,
            records,
            place: 0,
            calls: 0,
            fails,
            faults: 0,
        }
    }

    /// Counts a call, and says whether it is one that fails.
    fn call_fails(&mut self) -> bool
        ensures fails { IfSome (⟦<Tape as Unit>⟧.tape self.old) (λ t. result ≡ next_fails t) }
        ensures called { IfSome (⟦<Tape as Unit>⟧.tape self.old) (λ t. ⟦<Tape as Unit>⟧.tape self.new ≡ Some (called t)) }
        ensures records { self.new.records ≡ self.old.records }
        ensures count { self.old.faults ≤ self.new.faults }
        ensures rose { result ≡ true → Rose self.old.faults self.new.faults }
    {
        self.calls = self.calls.saturating_add(1);
        let fails = self.fails.contains(&self.calls);
        if fails {
            self.faults = self.faults.saturating_add(1);
        }
        fails
    }
}

impl Unit for Tape {
    ghost tape = { λ t. Some (record { records = t.records.items; place = t.place; calls = t.calls; fails = t.fails.items }) };

    ghost faults = { λ t. t.faults };

    fn read(&mut self, into: &mut [u8]) -> ReadAnswer {
        if self.call_fails() {
            return ReadAnswer::Failed;
        }
        let Some(record) = self.records.get(self.place) else {
            return ReadAnswer::End;
        };
        let bytes = record.bytes();
        let count = bytes.len().min(into.len());
        into[..count].copy_from_slice(&bytes[..count]);
        self.place += 1;
        ReadAnswer::Rec(count)
    }

    fn write(&mut self, bytes: &[u8]) -> UnitAnswer {
        let Ok(record) = Record::of(self.alloc, bytes) else {
            return UnitAnswer::Memory;
        };
        if self.records.reserve(1).is_err() {
            return UnitAnswer::Memory;
        }
        if self.call_fails() {
            return UnitAnswer::Failed;
        }
        self.records.truncate(self.place);
        let Ok(()) = self.records.push(record) else {
            unreachable!()
        };
        self.place += 1;
        UnitAnswer::Ok
    }

    fn rewind(&mut self) -> UnitAnswer {
        if self.call_fails() {
            return UnitAnswer::Failed;
        }
        self.place = 0;
        UnitAnswer::Ok
    }

    fn backspace(&mut self) -> UnitAnswer {
        if self.call_fails() {
            return UnitAnswer::Failed;
        }
        self.place = self.place.saturating_sub(1);
        UnitAnswer::Ok
    }

    fn endfile(&mut self) -> UnitAnswer {
        if self.call_fails() {
            return UnitAnswer::Failed;
        }
        self.records.truncate(self.place);
        UnitAnswer::Ok
    }

    fn finish(&mut self) -> UnitAnswer {
        if self.call_fails() {
            return UnitAnswer::Failed;
        }
        UnitAnswer::Ok
    }

    fn known(&self) -> Option<&[Record]> {
        Some(self.records.as_slice())
    }
}
