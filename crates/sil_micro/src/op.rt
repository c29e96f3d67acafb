// The micro operations.
ghost use Rattle.std.specs.Prelude.{◌≡◌};
ghost use Rattle.sil_micro.specs.Operations.{weight};

use layout_params::Field;

/// What `Const` sets: a number, or one that rests on the layout, the parameters or the program:
/// DESCR, OBSIZ, the flags STTL and TTL, the eight bytes of DATE as a little-endian number, the
/// addresses of the first cells of the hidden buffer, of dynamic storage and of the stack, and the
/// number of all cells.
#[derive(Clone, Copy, PartialEq, Eq, Debug)]
pub enum Fixed {
    Number(i64),
    Descr,
    Obsiz,
    Sttl,
    Ttl,
    Date,
    Hidden,
    Dynamic,
    Stack,
    Cells,
}

/// What is computed of two registers, on 64 bits: sums, differences and products wrap, `MulHigh` is
/// the high half of the signed product, `Div` and `Rem` are those of RISC-V.
#[derive(Clone, Copy, PartialEq, Eq, Debug)]
pub enum Arith {
    Add,
    Sub,
    Mul,
    MulHigh,
    And,
    Or,
    Div,
    Rem,
}

/// Where a jump goes: to the operation of a number, counted from 0, or to the first one of a
/// statement.
#[derive(Clone, Copy, PartialEq, Eq, Debug)]
pub enum Target {
    Op(u32),
    Statement(u32),
}

/// What is asked of two registers; `Ltu` and `Geu` see them without a sign.
#[derive(Clone, Copy, PartialEq, Eq, Debug)]
pub enum Test {
    Eq,
    Ne,
    Lt,
    Ge,
    Ltu,
    Geu,
}

/// Areas of words of 64 bits, by their numbers. `State`: 0 is the stack's top, 1 the one below, 2
/// the steps taken. `Scratch`: 0 to 8,189. `Tables`: two for each entry, the first is
/// action + 256 * has-put + 65,536 * next table, the second what it puts. `Kind`: by the number of a
/// cell, 0 for a descriptor and 1 for characters. `Bytes`: eight characters, by their address, a
/// multiple of 8.
#[derive(Clone, Copy, PartialEq, Eq, Debug)]
pub enum Area {
    State,
    Scratch,
    Tables,
    Kind,
    Bytes,
}

/// The text of a call on a unit: none, the code's format of a number, or the characters at the
/// address in one register, as many as another register says.
#[derive(Clone, Copy, PartialEq, Eq, Debug)]
pub enum Text {
    None,
    Format(u32),
    Chars { at: u8, len: u8 },
}

/// The values of a call on a unit: none, the first words of the scratch, or characters as in `Text`.
#[derive(Clone, Copy, PartialEq, Eq, Debug)]
pub enum Values {
    None,
    Words { count: u8 },
    Chars { at: u8, len: u8 },
}

/// One operation. `to`, `from`, `left`, `right`, `at`, `a`, `f`, `v`, `entry`, `unit`, `by` and `len`
/// are registers, from 0 to 15. The calls on units are 2 (read), 3 (write), 4 (rewind),
/// 5 (backspace) and 6 (end of file).
#[derive(Clone, Copy, PartialEq, Eq, Debug)]
pub enum Op {
    Const {
        to: u8,
        value: Fixed,
    },
    Copy {
        to: u8,
        from: u8,
    },
    Arith {
        kind: Arith,
        to: u8,
        left: u8,
        right: u8,
    },
    Jump {
        to: Target,
    },
    JumpIf {
        test: Test,
        left: u8,
        right: u8,
        to: Target,
    },
    JumpEntry {
        entry: u8,
    },
    JumpReturn {
        entry: u8,
    },
    LoadField {
        field: Field,
        to: u8,
        at: u8,
    },
    StoreField {
        field: Field,
        at: u8,
        from: u8,
    },
    StoreCell {
        at: u8,
        a: u8,
        f: u8,
        v: u8,
    },
    LoadChar {
        to: u8,
        at: u8,
    },
    StoreChar {
        at: u8,
        from: u8,
    },
    LoadWord {
        area: Area,
        to: u8,
        at: u8,
    },
    StoreWord {
        area: Area,
        at: u8,
        from: u8,
    },
    UnitCall {
        call: u8,
        unit: u8,
        to: u8,
        text: Text,
        values: Values,
    },
    Begin {
        statement: u32,
    },
    End {
        by: u8,
    },
}

impl Op {
    /// The most instructions that the operation becomes, and the most that it runs.
    pub fn weight(self) -> u64
        ensures { result ≡ weight self }
    {
        match self {
            Op::Const { .. }
            | Op::Copy { .. }
            | Op::Arith { .. }
            | Op::Jump { .. }
            | Op::JumpIf { .. } => 8,
            _ => 28,
        }
    }
}
