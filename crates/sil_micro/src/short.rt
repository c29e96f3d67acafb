// Short spellings of operations.

/// One operation: `op!(number 1, n)` sets register 1 to n, `op!(load A 2, 1)` loads the A field at
/// the address in register 1 into register 2.
#[macro_export]
macro_rules! op {
    (begin $statement:expr) => {
        $crate::Op::Begin {
            statement: $statement,
        }
    };
    (end $by:literal) => {
        $crate::Op::End { by: $by }
    };
    (number $to:literal, $n:expr) => {
        $crate::Op::Const {
            to: $to,
            value: $crate::Fixed::Number($n),
        }
    };
    (fixed $to:literal, $value:ident) => {
        $crate::Op::Const {
            to: $to,
            value: $crate::Fixed::$value,
        }
    };
    (copy $to:literal, $from:literal) => {
        $crate::Op::Copy {
            to: $to,
            from: $from,
        }
    };
    (jump $kind:ident($n:expr)) => {
        $crate::Op::Jump {
            to: $crate::Target::$kind($n),
        }
    };
    (jump_if $test:ident $left:literal, $right:literal, $kind:ident($n:expr)) => {
        $crate::Op::JumpIf {
            test: $crate::Test::$test,
            left: $left,
            right: $right,
            to: $crate::Target::$kind($n),
        }
    };
    (load $field:ident $to:literal, $at:literal) => {
        $crate::Op::LoadField {
            field: $crate::Field::$field,
            to: $to,
            at: $at,
        }
    };
    (store $field:ident $at:literal, $from:literal) => {
        $crate::Op::StoreField {
            field: $crate::Field::$field,
            at: $at,
            from: $from,
        }
    };
    (store_cell $at:literal, $a:literal, $f:literal, $v:literal) => {
        $crate::Op::StoreCell {
            at: $at,
            a: $a,
            f: $f,
            v: $v,
        }
    };
    (load_char $to:literal, $at:literal) => {
        $crate::Op::LoadChar { to: $to, at: $at }
    };
    (store_char $at:literal, $from:literal) => {
        $crate::Op::StoreChar {
            at: $at,
            from: $from,
        }
    };
    (load_word $area:ident $to:literal, $at:literal) => {
        $crate::Op::LoadWord {
            area: $crate::Area::$area,
            to: $to,
            at: $at,
        }
    };
    (store_word $area:ident $at:literal, $from:literal) => {
        $crate::Op::StoreWord {
            area: $crate::Area::$area,
            at: $at,
            from: $from,
        }
    };
    ($kind:ident $to:literal, $left:literal, $right:literal) => {
        $crate::Op::Arith {
            kind: $crate::Arith::$kind,
            to: $to,
            left: $left,
            right: $right,
        }
    };
}
