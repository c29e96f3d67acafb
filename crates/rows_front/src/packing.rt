// Cells and their bytes.
ghost use Rattle.std.proofs.Common.{rules};

use layout_params::{
    Cell, Descr, Field, Layout, Numbers, Packed16, Wide24, pack_cell, pack_field, unpack_descr,
};

/// F of one byte at 3, A at 16, V of eight bytes at 32
struct Wide;

impl Layout for Wide {
    ghost sizes = { λ _. record { descr = 40; a_at = 16; f_at = 3; f_len = 1; v_at = 32; v_len = 8 } };

    ghost legal = { λ _. Prim.search rules };

    fn descr(&self) -> u64 {
        40
    }

    fn a_at(&self) -> u64 {
        16
    }

    fn f_at(&self) -> u64 {
        3
    }

    fn f_len(&self) -> u64 {
        1
    }

    fn v_at(&self) -> u64 {
        32
    }

    fn v_len(&self) -> u64 {
        8
    }
}

#[test]
fn a_descriptor_is_packed_little_endian(rt: HostRuntime) {
    let mut out = [0xffu8; 16];
    let cell = Cell::Descr(Descr { a: -2, f: 4, v: 7 });
    pack_cell(&Packed16, &cell, &mut out);
    let want: [u8; 16] = [
        0xfe, 0xff, 0xff, 0xff, 0xff, 0xff, 0xff, 0xff, 4, 0, 0, 0, 7, 0, 0, 0,
    ];
    assert!(rt; out == want);
}

#[test]
fn fields_stand_where_the_layout_says(rt: HostRuntime) {
    let mut out = [0xffu8; 40];
    let cell = Cell::Descr(Descr { a: 1, f: 5, v: 9 });
    pack_cell(&Wide, &cell, &mut out);
    let mut want = [0u8; 40];
    want[3] = 5;
    want[16] = 1;
    want[32] = 9;
    assert!(rt; out == want);
}

#[test]
fn characters_are_packed_as_they_are(rt: HostRuntime) {
    let mut chars = [0u8; 64];
    chars[0] = b'S';
    chars[15] = b'L';
    let mut out = [0xffu8; 16];
    pack_cell(&Packed16, &Cell::Chars(chars), &mut out);
    assert!(rt; out == *b"S\0\0\0\0\0\0\0\0\0\0\0\0\0\0L");
}

#[test]
fn numbers_are_a_layout_where_legal(rt: HostRuntime) {
    let numbers = Numbers::new(24, 0, 8, 4, 16, 8);
    assert!(rt; numbers.is_some_and(|n| n.descr() == 24 && n.v_at() == 16));
    assert!(rt; Numbers::new(24, 4, 8, 4, 16, 8).is_none());
}

#[test]
fn a_wide_descriptor_is_packed_and_read(rt: HostRuntime) {
    let mut out = [0xffu8; 24];
    let descr = Descr { a: -2, f: 4, v: 7 };
    pack_cell(&Wide24, &Cell::Descr(descr), &mut out);
    let want: [u8; 24] = [
        0xfe, 0xff, 0xff, 0xff, 0xff, 0xff, 0xff, 0xff, 4, 0, 0, 0, 0, 0, 0, 0, 7, 0, 0, 0, 0, 0,
        0, 0,
    ];
    assert!(rt; out == want);
    out[13] = 9;
    assert!(rt; unpack_descr(&Wide24, &out) == descr);
}

#[test]
fn a_field_is_written_alone(rt: HostRuntime) {
    let mut out = [0xffu8; 16];
    pack_field(&Packed16, Field::A, 3, &mut out);
    pack_field(&Packed16, Field::F, 0x0102, &mut out);
    pack_field(&Packed16, Field::V, 5, &mut out);
    let want: [u8; 16] = [3, 0, 0, 0, 0, 0, 0, 0, 2, 1, 0xff, 0xff, 5, 0, 0, 0];
    assert!(rt; out == want);
}
