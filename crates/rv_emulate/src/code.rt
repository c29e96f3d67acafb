// The part of an image that a run reads and can't change.

ghost use Rattle.std.specs.Prelude.{◌≤◌, ◌<◌, ◌^◌, length};
ghost use Rattle.rv_emulate.specs.Ranges.{Rises};

use crate::flat::Flat;
use std::alloc::Global;

/// The instruction of each word, the constants, the places of the statements, and where calls have
/// memory from.
#[derive(Drop)]
pub(crate) struct Code {
    pub(crate) flats: Vec<Flat>,
    pub(crate) constants: Vec<u8>,
    pub(crate) places: Vec<u64>,
    pub(crate) alloc: Global,
    ghost few_flats: { length flats.items < 2 ^ 28 },
    ghost few_constants: { length constants.items ≤ 2 ^ 26 },
    ghost few_places: { length places.items < 2 ^ 28 },
    ghost rising: { Rises places.items },
}
