// The parameters as symbols of a source.
ghost use Rattle.std.specs.Prelude.{◌≡◌};
ghost use Rattle.layout_params.specs.ParameterSymbols.{symbol_in};

use sil_base::index_of;
use std::marker::Model;

const NAMES: [&[u8]; 17] = [
    b"DESCR", b"SPEC", b"CPA", b"CPD", b"ALPHSZ", b"SIZLIM", b"FNC", b"MARK", b"PTR", b"STTL",
    b"TTL", b"STSIZE", b"DYNSIZ", b"OBSIZ", b"UNITI", b"UNITO", b"UNITP",
];

/// The values of the parameter symbols, which contracts see in the order of their names.
#[derive(Debug, Drop)]
pub struct ParamSymbols {
    pub(crate) values: [u64; 17],
}

impl Model for ParamSymbols {
    ghost use Rattle.std.specs.Prelude.{ℕ, List, ◌<◌, ◌^◌, slice_index};

    ghost Value = { List ℕ };

    ghost view = { λ s. s.values };

    ghost invariant = { λ s. (i : ℕ) → i < 17 → slice_index s.values i < 2 ^ 63 };
}

impl ParamSymbols {
    /// The value of a parameter symbol; none where the name isn't one.
    pub fn value(&self, name: &[u8]) -> Option<i64>
        ensures { result ≡ symbol_in self.now name.now }
    {
        match index_of(name, &NAMES) {
            Some(at) => Some(self.values[at] as i64),
            None => None,
        }
    }
}
