// What a layout of descriptors is, the standard one and a wider one.

ghost use Rattle.std.specs.Prelude.{◌≡◌, IsTrue};
ghost use Rattle.std.proofs.Common.{rules};
ghost use Rattle.layout_params.specs.Sizes.{Sizes, is_legal, packed_16, wide_24};

/// Where the fields of a descriptor stand, and how wide they are, all in bytes. A has eight bytes.
pub trait Layout {
    ghost sizes: { Self → Sizes };

    /// The bytes of a descriptor.
    fn descr(&self) -> u64
        ensures { result ≡ (sizes self.now).descr };

    /// The place of the A field.
    fn a_at(&self) -> u64
        ensures { result ≡ (sizes self.now).a_at };

    /// The place of the F field.
    fn f_at(&self) -> u64
        ensures { result ≡ (sizes self.now).f_at };

    /// The width of the F field: 1, 2 or 4.
    fn f_len(&self) -> u64
        ensures { result ≡ (sizes self.now).f_len };

    /// The place of the V field.
    fn v_at(&self) -> u64
        ensures { result ≡ (sizes self.now).v_at };

    /// The width of the V field: 2, 4 or 8.
    fn v_len(&self) -> u64
        ensures { result ≡ (sizes self.now).v_len };

    ghost legal: { (x : Self) → IsTrue (is_legal (sizes x)) };
}

/// Sixteen bytes: A in the first eight, F of two bytes at 8, V of four bytes at 12.
#[derive(Clone, Copy, PartialEq, Eq, Debug)]
pub struct Packed16;

impl Layout for Packed16 {
    ghost sizes = { λ _. packed_16 };

    ghost legal = { λ _. Prim.search rules };

    fn descr(&self) -> u64 {
        16
    }

    fn a_at(&self) -> u64 {
        0
    }

    fn f_at(&self) -> u64 {
        8
    }

    fn f_len(&self) -> u64 {
        2
    }

    fn v_at(&self) -> u64 {
        12
    }

    fn v_len(&self) -> u64 {
        4
    }
}

/// Twenty-four bytes: A in the first eight, F of four bytes at 8, V of eight bytes at 16.
#[derive(Clone, Copy, PartialEq, Eq, Debug)]
pub struct Wide24;

impl Layout for Wide24 {
    ghost sizes = { λ _. wide_24 };

    ghost legal = { λ _. Prim.search rules };

    fn descr(&self) -> u64 {
        24
    }

    fn a_at(&self) -> u64 {
        0
    }

    fn f_at(&self) -> u64 {
        8
    }

    fn f_len(&self) -> u64 {
        4
    }

    fn v_at(&self) -> u64 {
        16
    }

    fn v_len(&self) -> u64 {
        8
    }
}
