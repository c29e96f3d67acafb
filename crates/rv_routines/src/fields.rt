// Where the fields of descriptors stand, as instructions have it.
ghost use Rattle.std.specs.Prelude.{◌≡◌, ◌<◌, ◌≤◌, pos};
ghost use Rattle.layout_params.specs.Packing.{place_of, width_of};
ghost use Rattle.rv_routines.specs.FieldCodes.{bits_of, load_op, store_op};

use layout_params::{Field, Layout};
use rv_isa::{IOp, SOp};

/// The place of a field in a descriptor, in bytes.
pub fn place_of<L: Layout>(layout: &L, field: Field) -> u64
    ensures value { result ≡ place_of (L.sizes layout.now) field }
    ensures small { result < 64 }
{
    match field {
        Field::A => layout.a_at(),
        Field::F => layout.f_at(),
        Field::V => layout.v_at(),
    }
}

/// Its bytes.
pub fn width_of<L: Layout>(layout: &L, field: Field) -> u64
    ensures { result ≡ width_of (L.sizes layout.now) field }
{
    match field {
        Field::A => 8,
        Field::F => layout.f_len(),
        Field::V => layout.v_len(),
    }
}

/// The bits that a number in it may have: of V 48 at most.
pub fn bits_of<L: Layout>(layout: &L, field: Field) -> u8
    ensures value { result ≡ bits_of (L.sizes layout.now) field }
    ensures most { result ≤ 64 }
{
    match field {
        Field::A => 64,
        Field::F => 8 * layout.f_len() as u8,
        Field::V => (8 * layout.v_len() as u8).min(48),
    }
}

/// The load of so many bytes, without a sign.
pub fn load_op(bytes: u64) -> IOp
    ensures { result ≡ load_op bytes }
{
    match bytes {
        1 => IOp::Lbu,
        2 => IOp::Lhu,
        4 => IOp::Lwu,
        _ => IOp::Ld,
    }
}

/// The store of so many bytes.
pub fn store_op(bytes: u64) -> SOp
    ensures { result ≡ store_op bytes }
{
    match bytes {
        1 => SOp::Sb,
        2 => SOp::Sh,
        4 => SOp::Sw,
        _ => SOp::Sd,
    }
}

/// The bytes of a descriptor, as an immediate.
pub fn descr_of<L: Layout>(layout: &L) -> i16
    ensures { result ≡ pos (L.sizes layout.now).descr }
{
    layout.descr() as i16
}

/// A place in a descriptor, as an immediate.
pub fn small(place: u64) -> i16
    requires { place < 64 }
    ensures { result ≡ pos place }
{
    place as i16
}
