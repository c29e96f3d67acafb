// Sources and the values of their symbols.
use layout_params::{Params, STANDARD_PARAMS, read_params};
use rows_source::texts::text_of;
use sil_base::{Record, decimal};
use sil_macros::{Macro, macro_of};
use sil_operands::{Operand, read_operands};
use sil_symbols::{Stmt, SymbolStop, resolve};
use std::alloc::{AllocError, Global};
use std::test::Fail;

/// Sources, and names with their values.
static VALUES: [(&str, &[u8], Option<i64>); 25] = [
    ("A LHERE\n END", b"A", Some(1_879_048_192)),
    (
        "B ARRAY 3\nC LHERE\nX DESCR C\n END",
        b"C",
        Some(1_073_741_872),
    ),
    (
        "B ARRAY 3\nC LHERE\nX DESCR C\n END",
        b"X",
        Some(1_073_741_872),
    ),
    (
        "B ARRAY 3\nC LHERE\nX DESCR C\n END",
        b"B",
        Some(1_073_741_824),
    ),
    (
        "A EQU B+1\nB EQU 2\nN ARRAY A\nM LHERE\n END",
        b"A",
        Some(3),
    ),
    (
        "A EQU B+1\nB EQU 2\nN ARRAY A\nM LHERE\n END",
        b"M",
        Some(1_073_741_872),
    ),
    ("S STRING 'ABCDE'\nT DESCR\n END", b"T", Some(1_073_741_872)),
    (
        "S STRING 'ABCDEFGHIJKLMNOPQ'\nT DESCR\n END",
        b"T",
        Some(1_073_741_888),
    ),
    ("S STRING\nT DESCR\n END", b"T", Some(1_073_741_856)),
    ("S SPEC\nT DESCR\n END", b"T", Some(1_073_741_856)),
    ("B BUFFER 17\nT LHERE\n END", b"T", Some(1_073_741_856)),
    ("B BUFFER 16\nT LHERE\n END", b"T", Some(1_073_741_840)),
    ("F FORMAT '(X)'\nT LHERE\n END", b"T", Some(1_073_741_840)),
    (
        "F FORMAT X\nT LHERE\nX EQU 1\n END",
        b"T",
        Some(1_073_741_824),
    ),
    (
        " MOVD X,X\nX DESCR\nL LHERE\n END",
        b"L",
        Some(1_073_741_840),
    ),
    (
        "X DESCR\n MOVD X,X\nA EQU 1\nL LHERE\n END",
        b"L",
        Some(1_879_048_208),
    ),
    (
        "X DESCR\nL MOVD X,X\nM PROC\n END",
        b"M",
        Some(1_879_048_208),
    ),
    ("A EQU X+DESCR\nX DESCR\n END", b"A", Some(1_073_741_840)),
    ("A EQU 2*3+4*5-1\n END", b"A", Some(25)),
    ("A EQU -9223372036854775807-1\n END", b"A", Some(i64::MIN)),
    (" END", b"SIZLIM", Some(4_294_967_295)),
    (" END", b"SPEC", Some(32)),
    (" END", b"UNITO", Some(6)),
    (" END", b"Q", None),
    ("A END", b"A", None),
];

fn standard(alloc: Global) -> Result<Params, Fail> {
    Ok(read_params(alloc, STANDARD_PARAMS)?)
}

/// The statement of a line with single blanks between its fields.
fn statement_of(alloc: Global, card: u32, line: &str) -> Result<Stmt, Fail> {
    let mut fields = line.split(' ');
    let label = fields.next().unwrap_or("");
    let operation = fields.next().unwrap_or("");
    Ok(Stmt {
        card,
        label: Record::of(alloc, label.as_bytes())?,
        name: macro_of(operation.as_bytes()).unwrap_or(Macro::Title),
        operands: read_operands(alloc, fields.next().unwrap_or("").as_bytes())?,
    })
}

fn statements_of(alloc: Global, source: &str) -> Result<Vec<Stmt>, Fail> {
    let mut statements = Vec::new(alloc);
    for (i, line) in source.split('\n').enumerate() {
        if i < 1000 {
            statements.push(statement_of(alloc, i as u32 + 1, line)?)?;
        }
    }
    Ok(statements)
}

fn stop_text(alloc: Global, stop: &SymbolStop) -> Result<Vec<u8>, AllocError> {
    match stop {
        SymbolStop::Faults(faults) => text_of(alloc, faults.items()),
        SymbolStop::Memory => Vec::from_slice(alloc, b"memory"),
    }
}

/// The cards and rules of the faults of statements; `memory` where that was wanted.
fn report(alloc: Global, statements: &[Stmt], params: &Params) -> Result<Vec<u8>, AllocError> {
    if statements.len() > 40_000 {
        return Ok(Vec::new(alloc));
    }
    match resolve(alloc, statements, params).err() {
        Some(stop) => stop_text(alloc, &stop),
        None => Ok(Vec::new(alloc)),
    }
}

#[test]
fn symbols_have_their_values(rt: HostRuntime) -> Result<(), Fail> {
    let params = standard(rt.alloc())?;
    for &(source, name, expected) in &VALUES {
        let statements = statements_of(rt.alloc(), source)?;
        if statements.len() <= 1000 {
            let symbols = resolve(rt.alloc(), &statements, &params)?;
            assert_eq!(rt; symbols.get(name), expected, "at {source}");
        }
    }
    Ok(())
}

/// The field `An+1`, or the label `An` with nothing after the number.
fn numbered(alloc: Global, n: usize, after: &[u8]) -> Result<Vec<u8>, AllocError> {
    let mut text = Vec::from_slice(alloc, b"A")?;
    decimal(&mut text, n as i128)?;
    text.extend_from_slice(after)?;
    Ok(text)
}

/// The EQU with the label of one number, which is one more than that of another.
fn equation(alloc: Global, place: usize, named: usize) -> Result<Stmt, Fail> {
    let field = numbered(alloc, named, b"+1")?;
    let operands = read_operands(alloc, &field)?;
    Ok(Stmt {
        card: 1,
        label: Record::of(alloc, &numbered(alloc, place, b"")?)?,
        name: Macro::Equ,
        operands,
    })
}

/// So many EQUs, the first of which names the last, and each other the one before it; then two
/// lines.
fn chain(alloc: Global, count: usize, line: &str) -> Result<Vec<Stmt>, Fail> {
    let mut statements = Vec::new(alloc);
    for place in 0..count {
        let named = if place == 0 { count } else { place - 1 };
        statements.push(equation(alloc, place, named)?)?;
    }
    statements.push(statement_of(alloc, 1, line)?)?;
    statements.push(statement_of(alloc, 2, " END")?)?;
    Ok(statements)
}

/// The same statements, the last first.
fn reversed(alloc: Global, mut statements: Vec<Stmt>) -> Result<Vec<Stmt>, AllocError> {
    let mut others = Vec::new(alloc);
    for _ in 0..statements.len() {
        if let Some(statement) = statements.pop() {
            others.push(statement)?;
        }
    }
    Ok(others)
}

#[test]
fn long_chains_have_their_values(rt: HostRuntime) -> Result<(), Fail> {
    let params = standard(rt.alloc())?;
    let statements = chain(rt.alloc(), 39_998, "A39998 EQU 0")?;
    assert_eq!(rt; last_value(rt.alloc(), &statements, &params)?, Some(39_998));
    let statements = reversed(rt.alloc(), statements)?;
    assert_eq!(rt; last_value(rt.alloc(), &statements, &params)?, Some(39_998));
    let statements = chain(rt.alloc(), 39_998, "A39998 EQU A39997")?;
    assert_eq!(rt; faults_in(rt.alloc(), &statements, &params), Some(39_999));
    Ok(())
}

/// The value of A39997.
fn last_value(
    alloc: Global,
    statements: &[Stmt],
    params: &Params,
) -> Result<Option<i64>, SymbolStop> {
    if statements.len() > 40_000 {
        return Ok(None);
    }
    Ok(resolve(alloc, statements, params)?.get(b"A39997"))
}

fn count_of(stop: &SymbolStop) -> Option<usize> {
    match stop {
        SymbolStop::Faults(faults) => Some(faults.items().len()),
        SymbolStop::Memory => None,
    }
}

/// How many faults there are.
fn faults_in(alloc: Global, statements: &[Stmt], params: &Params) -> Option<usize> {
    if statements.len() > 40_000 {
        return None;
    }
    match resolve(alloc, statements, params).err() {
        Some(stop) => count_of(&stop),
        None => Some(0),
    }
}

#[test]
fn executable_statements_have_a_limit(rt: HostRuntime) -> Result<(), Fail> {
    let params = standard(rt.alloc())?;
    let mut statements = Vec::new(rt.alloc());
    for _ in 0..16_384 {
        statements.push(statement_of(rt.alloc(), 1, " PROC")?)?;
    }
    statements.push(statement_of(rt.alloc(), 9, " END")?)?;
    assert_eq!(rt; faults_in(rt.alloc(), &statements, &params), Some(0));
    statements.push(statement_of(rt.alloc(), 1, " PROC")?)?;
    assert!(rt; report(rt.alloc(), &statements, &params)?.as_slice() == b"9 V4;".as_slice());
    Ok(())
}

#[test]
fn formats_and_expressions_are_looked_up(rt: HostRuntime) -> Result<(), Fail> {
    let params = standard(rt.alloc())?;
    let statements = statements_of(rt.alloc(), "X DESCR\nF FORMAT '(X)'\nG FORMAT\n END")?;
    if statements.len() > 40_000 {
        return Ok(());
    }
    let symbols = resolve(rt.alloc(), &statements, &params)?;
    assert_eq!(rt; symbols.format_of(b"F"), Some(1));
    assert_eq!(rt; symbols.format_of(b"G"), Some(2));
    assert_eq!(rt; symbols.format_of(b"X"), None);
    assert_eq!(rt; symbols.format_of(b"DESCR"), None);
    assert_eq!(rt; symbols.format_of(b"Q"), None);
    let operands = read_operands(rt.alloc(), b"F-X*1+2,Q")?;
    let [Operand::Expr(first), Operand::Expr(second)] = operands.items() else {
        panic!(rt; "two expressions");
    };
    assert_eq!(rt; symbols.value(first), Some(18));
    assert_eq!(rt; symbols.value(second), None);
    Ok(())
}
