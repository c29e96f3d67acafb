// Where notes go.
ghost use Rattle.std.specs.Prelude.{◌≡◌, ◌≤◌, ℕ, List, Option};
ghost use Rattle.sil_base.specs.Causes.{Rose};
ghost use Rattle.sil_base.specs.Sinks.{Puts};

/// What a put answers.
#[derive(Debug, Clone, Copy, PartialEq, Eq, Drop)]
pub enum Put {
    Ok,
    Failed,
    Memory,
}

/// A place to put bytes.
pub trait Sink {
    /// The bytes put so far, where the sink tells them.
    ghost text: { Self → Option (List ℕ) };

    /// How often it has failed, a count that never falls.
    ghost faults: { Self → ℕ };

    /// Appends the bytes. Otherwise a part of them from the front may have been appended.
    fn put(&mut self, bytes: &[u8]) -> Put
        ensures text { Puts result bytes.now (text self.old) (text self.new) }
        ensures count { faults self.old ≤ faults self.new }
        ensures failed { result ≡ Put.Failed → Rose (faults self.old) (faults self.new) };
}
