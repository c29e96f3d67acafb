// The bytes of a cell.

ghost use Rattle.std.specs.Prelude.{◌≡◌, ◌+◌, ◌*◌, ◌^◌, ◌<◌, ◌≤◌, ◌⊎◌, FitsSigned, length, replicate, take};
ghost use Rattle.std.specs.Int.{w64};
ghost use Rattle.sil_base.specs.Bytes.{number, low_bytes, piece, with_piece};
ghost use Rattle.layout_params.specs.declared.cell.Descr.{Descr as Descriptor};
ghost use Rattle.layout_params.specs.Packing.{packing, with_fields, IsPacked, PacksDescr, FitsFields, fields_of, width_of, with_field, set_field};

use crate::cell::{Cell, Descr, Field};
use crate::layout::Layout;

/// Writes the bytes of a cell, the free bytes of a descriptor as 0.
pub fn pack_cell<L: Layout>(layout: &L, cell: &Cell, out: &mut [u8])
    requires size { length out.old ≡ (L.sizes layout.now).descr }
    requires fits { FitsFields (L.sizes layout.now) cell.now }
    ensures bytes { out.new ≡ packing (L.sizes layout.now) cell.now }
    ensures packed { IsPacked (L.sizes layout.now) cell.now out.new }
{
    match cell {
        Cell::Descr(descr) => pack_descr(layout, descr, out),
        Cell::Chars(chars) => pack_chars(layout, chars, out),
    }
}

fn pack_descr<L: Layout>(layout: &L, descr: &Descr, out: &mut [u8])
    requires { length out.old ≡ (L.sizes layout.now).descr }
    ensures bytes { out.new ≡ with_fields (L.sizes layout.now) descr.now (replicate (L.sizes layout.now).descr 0) }
    ensures whole { FitsSigned w64 descr.now.a }
{
    out.fill(0);
    put_low_bytes(out, layout.a_at(), 8, descr.a.cast_unsigned());
    put_low_bytes(out, layout.f_at(), layout.f_len(), u64::from(descr.f));
    put_low_bytes(out, layout.v_at(), layout.v_len(), descr.v);
}

fn pack_chars<L: Layout>(layout: &L, chars: &[u8; 64], out: &mut [u8])
    requires { length out.old ≡ (L.sizes layout.now).descr }
    ensures { out.new ≡ take (L.sizes layout.now).descr chars.now }
{
    let len = layout.descr() as usize;
    out.copy_from_slice(&chars[..len]);
}

// the lowest bytes of a number, the lowest first
fn put_low_bytes(out: &mut [u8], at: u64, len: u64, value: u64)
    requires width { (len ≡ 1) ⊎ (len ≡ 2) ⊎ (len ≡ 4) ⊎ (len ≡ 8) }
    requires room { at + len ≤ length out.old }
    ensures { out.new ≡ with_piece at (low_bytes len value) out.old }
{
    let at = at as usize;
    let len = len as usize;
    let bytes = value.to_le_bytes();
    out[at..at + len].copy_from_slice(&bytes[..len]);
}

/// The descriptor that its bytes stand for; free bytes are not read.
pub fn unpack_descr<L: Layout>(layout: &L, bytes: &[u8]) -> Descr
    requires { length bytes.now ≡ (L.sizes layout.now).descr }
    ensures packed { (d : Descriptor) → FitsSigned w64 d.a → PacksDescr (L.sizes layout.now) d bytes.now → result ≡ d }
    ensures one { PacksDescr (L.sizes layout.now) result bytes.now }
    ensures fields { result ≡ fields_of (L.sizes layout.now) bytes.now }
{
    Descr {
        a: number_at(bytes, layout.a_at(), 8).cast_signed(),
        f: number_at(bytes, layout.f_at(), layout.f_len()) as u32,
        v: number_at(bytes, layout.v_at(), layout.v_len()),
    }
}

/// Writes one field of a descriptor and leaves the other bytes. The value of A is given by its
/// bits.
pub fn pack_field<L: Layout>(layout: &L, field: Field, value: u64, out: &mut [u8])
    requires size { length out.old ≡ (L.sizes layout.now).descr }
    requires fits { value < 2 ^ (8 * width_of (L.sizes layout.now) field) }
    ensures bytes { out.new ≡ with_field (L.sizes layout.now) field value out.old }
    ensures packed { (d : Descriptor) → PacksDescr (L.sizes layout.now) d out.old
        → PacksDescr (L.sizes layout.now) (set_field field value d) out.new }
{
    match field {
        Field::A => put_low_bytes(out, layout.a_at(), 8, value),
        Field::F => put_low_bytes(out, layout.f_at(), layout.f_len(), value),
        Field::V => put_low_bytes(out, layout.v_at(), layout.v_len(), value),
    }
}

// the number in these bytes, the lowest first
fn number_at(bytes: &[u8], at: u64, len: u64) -> u64
    requires width { len ≤ 8 }
    requires room { at + len ≤ length bytes.now }
    ensures value { result ≡ number (piece at len bytes.now) }
    ensures range { result < 256 ^ len }
{
    number_in(&bytes[at as usize..(at + len) as usize])
}

fn number_in(bytes: &[u8]) -> u64
    requires { length bytes.now ≤ 8 }
    ensures value { result ≡ number bytes.now }
    ensures range { result < 256 ^ length bytes.now }
{
    match bytes.split_first() {
        Some((first, rest)) => u64::from(*first) + 256 * number_in(rest),
        None => 0,
    }
}
