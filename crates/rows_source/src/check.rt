// Shapes of operands, and the programs of sources.
use layout_params::{Cell, Descr, STANDARD_PARAMS};
use sil_base::MemoryStore;
use sil_check::{CheckStop, Checked, SourceNames, check, fits};
use sil_macros::Macro;
use sil_model::{Statement, number, place};
use sil_operands::read_operands;
use std::alloc::Global;

/// A macro, an operand field, and whether the operands have the macro's shape.
static SHAPES: [(Macro, &[u8], bool); 48] = [
    (Macro::Movd, b"A,B", true),
    (Macro::Movd, b"-A+1,B*2", true),
    (Macro::Movd, b"A,B,,", true),
    (Macro::Movd, b"A", false),
    (Macro::Movd, b",B", false),
    (Macro::Movd, b"A,B,C", false),
    (Macro::Movd, b"A,(B)", false),
    (Macro::Movd, b"A,'B'", false),
    (Macro::Init, b"", true),
    (Macro::Init, b",", true),
    (Macro::Init, b"A", false),
    (Macro::Descr, b"", true),
    (Macro::Descr, b",,V", true),
    (Macro::Descr, b"1,2,3,4", false),
    (Macro::Array, b"", false),
    (Macro::String, b"'A'", true),
    (Macro::String, b"A", false),
    (Macro::String, b"", false),
    (Macro::Setf, b"D,1", true),
    (Macro::Setf, b"D", false),
    (Macro::Acomp, b"A,B", true),
    (Macro::Acomp, b"A,B,,X+1", true),
    (Macro::Acomp, b"A,B,(X)", false),
    (Macro::Branch, b"X", true),
    (Macro::Branch, b",X", false),
    (Macro::Branch, b"X,'E'", false),
    (Macro::Clertb, b"+T,+ERROR", true),
    (Macro::Clertb, b"T,STOPSH", true),
    (Macro::Clertb, b"T,GOTO", false),
    (Macro::Clertb, b"T,-STOP", false),
    (Macro::Clertb, b"-T,CONTIN", false),
    (Macro::Clertb, b"T*1,CONTIN", false),
    (Macro::Clertb, b"5,CONTIN", false),
    (Macro::Output, b"U,F", true),
    (Macro::Output, b"U,F,A", true),
    (Macro::Output, b"U,F,(A,B)", true),
    (Macro::Output, b"U,F,(A,)", false),
    (Macro::Output, b"U,F+1", false),
    (Macro::Output, b"U,'F'", false),
    (Macro::Push, b"", false),
    (Macro::Push, b"()", false),
    (Macro::Spush, b"(S,S+1)", true),
    (Macro::Selbra, b"D", true),
    (Macro::Selbra, b"D,(,B)", true),
    (Macro::Selbra, b"D,'B'", false),
    (Macro::Rcall, b",P,,(,B)", true),
    (Macro::Rcall, b"D,,(A)", false),
    (Macro::Proc, b"(X)", false),
];

/// The program of a source, by its tables file and its parameter file.
pub fn checked(
    alloc: Global,
    source: &[u8],
    tables: &[u8],
    params: &[u8],
) -> Result<Checked, CheckStop> {
    let mut store = MemoryStore::new(alloc, Vec::new(alloc));
    store.set("SRC", source)?;
    store.set("TABLES", tables)?;
    store.set("PARAMS", params)?;
    let names = SourceNames::of(alloc, "SRC", "TABLES", "PARAMS")?;
    check(alloc, &mut store, &names)
}

/// The card of a statement, its macro, and its operands as places and as a number.
fn row(statement: &Statement) -> (u32, Macro, Option<i64>, Option<i64>, Option<i64>) {
    let args = statement.args.items();
    (
        statement.card,
        statement.name,
        place(args, 0),
        place(args, 1),
        number(args, 1),
    )
}

#[test]
fn operands_have_shapes(rt: HostRuntime) {
    for (name, field, expected) in &SHAPES {
        let operands = read_operands(rt.alloc(), field).expect(&rt, "operands");
        assert_eq!(rt; fits(*name, &operands), *expected);
    }
}

#[test]
fn statements_in_order(rt: HostRuntime) {
    let source =
        b"* three\n MOVD X,A+2*DESCR\nA ARRAY 3\n INCRA X,-9223372036854775807-1\nX DESCR 7,1,2\n ENDEX X-DESCR\n END\n";
    let checked = checked(rt.alloc(), source, b"", STANDARD_PARAMS).expect(&rt, "a program");
    let (x, last) = (Some(0x4000_0030), Some(0x4000_0020));
    let rows = [
        (2, Macro::Movd, x, last, None),
        (4, Macro::Incra, x, None, Some(i64::MIN)),
        (6, Macro::Endex, last, None, None),
    ];
    for (statement, expected) in checked.program.statements.items().iter().zip(rows.iter()) {
        assert_eq!(rt; row(statement), *expected);
    }
    assert_eq!(rt; checked.program.statements.items().len(), 3);
    let zero = Cell::Descr(Descr { a: 0, f: 0, v: 0 });
    let seven = Cell::Descr(Descr { a: 7, f: 1, v: 2 });
    assert_eq!(rt;
        checked.program.cells.items(),
        [zero, zero, zero, seven].as_slice()
    );
}

#[test]
fn special_symbols(rt: HostRuntime) {
    let source =
        b"I EQU 4294967295\n ENDEX Z\nOVER ENDEX Z\nINTR10 LHERE\nZ DESCR\nSTYPE DESCR\nFRSGPT EQU -5\n END\n";
    let checked = checked(rt.alloc(), source, b"", STANDARD_PARAMS).expect(&rt, "a program");
    let specials = checked.program.specials;
    assert_eq!(rt; (specials.over, specials.under), (Some(1), None));
    assert_eq!(rt;
        (specials.stype, specials.first),
        (Some(0x4000_0010), Some(-5))
    );
    assert_eq!(rt; (specials.head, specials.tail), (None, None));
    assert_eq!(rt; specials.int_code, Some(4_294_967_295));
}
