// Codes that grow.
use layout_params::Field;
use sil_base::Record;
use sil_micro::{Area, Arith, Code, Fixed, Op, Target, Test, Text, Values, op};
use std::alloc::{AllocError, Global};
use std::test::Fail;

/// A code with two statements, the second with a return part.
fn two_statements(alloc: Global) -> Result<Code, AllocError> {
    let mut code = Code::new(alloc);
    code.reserve_statements(2)?;
    let mut formats = Vec::new(alloc);
    formats.push(Record::of(alloc, b"(1H )")?)?;
    code.set_data(3, formats);
    code.begin_statement(0);
    code.append(&[op!(begin 0), op!(number 1, 7), op!(jump_if Eq 1, 1, Op(3))])?;
    code.begin_statement(1);
    code.push(op!(begin 1))?;
    code.append(&[op!(jump Op(1))])?;
    code.begin_return(1);
    code.push(op!(end 1))?;
    Ok(code)
}

#[test]
fn a_code_grows_statement_by_statement(rt: HostRuntime) -> Result<(), Fail> {
    let code = two_statements(rt.alloc())?;
    let ops = [
        Op::Begin { statement: 0 },
        Op::Const {
            to: 1,
            value: Fixed::Number(7),
        },
        Op::JumpIf {
            test: Test::Eq,
            left: 1,
            right: 1,
            to: Target::Op(3),
        },
        Op::Begin { statement: 1 },
        Op::Jump { to: Target::Op(5) },
        Op::End { by: 1 },
    ];
    assert!(rt; code.ops() == ops.as_slice());
    assert_eq!(rt;
        (code.entry(0), code.entry(1), code.entry(2)),
        (Some(0), Some(3), None)
    );
    assert_eq!(rt;
        (code.returns(0), code.returns(1), code.returns(2)),
        (None, Some(5), None)
    );
    assert_eq!(rt; (code.statements(), code.static_cells()), (2, 3));
    assert_eq!(rt; code.formats().len(), 1);
    assert!(rt; code.formats()[0].bytes() == b"(1H )".as_slice());
    Ok(())
}

#[test]
fn operations_weigh_8_or_28(rt: HostRuntime) -> Result<(), Fail> {
    let light = [
        op!(fixed 0, Date),
        op!(copy 1, 15),
        op!(MulHigh 1, 2, 3),
        op!(jump Statement(2)),
        op!(jump_if Geu 1, 2, Op(1)),
    ];
    let heavy = [
        op!(begin 0),
        op!(end 0),
        op!(load A 1, 2),
        op!(store V 1, 2),
        op!(store_cell 1, 2, 3, 4),
        op!(load_char 1, 2),
        op!(store_char 1, 2),
        op!(load_word Tables 1, 2),
        op!(store_word Bytes 1, 2),
        Op::JumpEntry { entry: 1 },
        Op::JumpReturn { entry: 1 },
        Op::UnitCall {
            call: 3,
            unit: 1,
            to: 2,
            text: Text::Format(0),
            values: Values::Words { count: 40 },
        },
    ];
    assert!(rt; light.iter().all(|op| op.weight() == 8));
    assert!(rt; heavy.iter().all(|op| op.weight() == 28));
    assert!(rt;
        light[2]
            == Op::Arith {
                kind: Arith::MulHigh,
                to: 1,
                left: 2,
                right: 3
            }
    );
    assert!(rt;
        heavy[2]
            == Op::LoadField {
                field: Field::A,
                to: 1,
                at: 2
            }
    );
    assert!(rt;
        heavy[8]
            == Op::StoreWord {
                area: Area::Bytes,
                at: 1,
                from: 2
            }
    );
    Ok(())
}

/// So many operations, pushed one by one.
fn pushed(alloc: Global, count: u32) -> Result<usize, AllocError> {
    let mut code = Code::new(alloc);
    for n in 0..count {
        if code.ops().len() < 4_000_000_000 {
            code.push(op!(number 1, i64::from(n)))?;
        }
    }
    Ok(code.ops().len())
}

#[test]
fn a_million_operations_are_pushed(rt: HostRuntime) -> Result<(), Fail> {
    assert_eq!(rt; pushed(rt.alloc(), 1_000_000)?, 1_000_000);
    Ok(())
}
