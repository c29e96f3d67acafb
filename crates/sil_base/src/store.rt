// Where files are kept.
ghost use Rattle.std.specs.Prelude.{◌≡◌, ◌≤◌, ℕ, Option};
ghost use Rattle.sil_base.specs.Causes.{Rose};
ghost use Rattle.sil_base.specs.Files.{Files};
ghost use Rattle.sil_base.specs.Stores.{Loads, Saves, LoadedWithin};

/// What a load answers.
#[derive(Debug, Clone, Copy, PartialEq, Eq, Drop)]
pub enum Load {
    Ok,
    Missing,
    TooLong,
    Failed,
    Memory,
}

/// What a save answers.
#[derive(Debug, Clone, Copy, PartialEq, Eq, Drop)]
pub enum Save {
    Ok,
    Failed,
    Memory,
}

/// A keeper of files by name.
pub trait Store {
    /// The files that it holds, where the store tells them.
    ghost files: { Self → Option Files };

    /// How often it has failed, a count that never falls.
    ghost faults: { Self → ℕ };

    /// Reads a whole file of at most `limit` bytes. Without an `Ok`, `into` is empty.
    fn load(&mut self, name: &str, limit: u64, into: &mut Vec<u8>) -> Load
        ensures loaded { Loads result name.now limit into.new.items (files self.old) }
        ensures within { LoadedWithin result limit into.new.items }
        ensures kept { files self.new ≡ files self.old }
        ensures count { faults self.old ≤ faults self.new }
        ensures failed { result ≡ Load.Failed → Rose (faults self.old) (faults self.new) };

    /// Sets one file. Without an `Ok`, that file alone may have changed.
    fn save(&mut self, name: &str, bytes: &[u8]) -> Save
        ensures saved { Saves result name.now bytes.now (files self.old) (files self.new) }
        ensures count { faults self.old ≤ faults self.new }
        ensures failed { result ≡ Save.Failed → Rose (faults self.old) (faults self.new) };
}
