// Fields and their operands.
use sil_base::{Items, Record, decimal, is_name};
use sil_operands::{Expr, Factor, Operand, OperandFault, Operands, Term, read_operands};
use smallvec::SmallVec;
use std::alloc::{AllocError, Global};
use std::test::Fail;

/// Fields, and their operands as `put_operands` writes them, or that they are bad.
static FIELDS: [(&[u8], &[u8]); 49] = [
    (b"'IT''S',,(A,)", b"text IT'S|null|list +A;none;|"),
    (b"A+2*B-1", b"+A+2*B-1|"),
    (b"", b"null|"),
    (b",", b"null|"),
    (b",,", b"null|null|null|"),
    (b"A,", b"+A|null|"),
    (b"A,,B", b"+A|null|+B|"),
    (b"()", b"list none;|"),
    (b"(,)", b"list none;none;|"),
    (b"(-A*2,B+1)", b"list -A*2;+B+1;|"),
    (b"-A", b"-A|"),
    (b"+A", b"+A|"),
    (b"+A-B", b"+A-B|"),
    (b"''", b"text |"),
    (b"''''", b"text '|"),
    (b"' (A),''B'", b"text  (A),'B|"),
    (b"'A,B',C", b"text A,B|+C|"),
    (b"'+',-1", b"text +|-1|"),
    (b"0", b"+0|"),
    (b"000000000000000000000042", b"+42|"),
    (b"18446744073709551615", b"+18446744073709551615|"),
    (b"ABCDEFGHIJKLMNOP", b"+ABCDEFGHIJKLMNOP|"),
    (b"Ab9*x", b"+Ab9*x|"),
    (b"A,B,C,D,E,F,G", b"+A|+B|+C|+D|+E|+F|+G|"),
    (b"(A", b"bad"),
    (b"A+", b"bad"),
    (b"'X", b"bad"),
    (b"1A", b"bad"),
    (b"18446744073709551616", b"bad"),
    (b"100000000000000000000000", b"bad"),
    (b"ABCDEFGHIJKLMNOPQ", b"bad"),
    (b"(A,(B))", b"bad"),
    (b"(A)B", b"bad"),
    (b"A B", b"bad"),
    (b"A**B", b"bad"),
    (b"A--B", b"bad"),
    (b"*A", b"bad"),
    (b"A*", b"bad"),
    (b"+", b"bad"),
    (b"(+)", b"bad"),
    (b"A)", b"bad"),
    (b"('A')", b"bad"),
    (b"'A'B", b"bad"),
    (b"A'B'", b"bad"),
    (b"'''", b"bad"),
    (b"(A,B", b"bad"),
    (b"A.B", b"bad"),
    (b"A, B", b"bad"),
    (b"\xc1", b"bad"),
];

fn put_factor(out: &mut Vec<u8>, factor: &Factor) -> Result<(), AllocError> {
    match factor {
        Factor::Name(name) => out.extend_from_slice(name.bytes()),
        Factor::Number(number) => decimal(out, i128::from(*number)),
    }
}

/// A sign, and the factors with stars between them.
fn put_term(out: &mut Vec<u8>, term: &Term) -> Result<(), AllocError> {
    let mut before = if term.minus { b'-' } else { b'+' };
    for factor in term.factors.items() {
        out.push(before)?;
        put_factor(out, factor)?;
        before = b'*';
    }
    Ok(())
}

fn put_expr(out: &mut Vec<u8>, expr: &Expr) -> Result<(), AllocError> {
    for term in expr.terms() {
        put_term(out, term)?;
    }
    Ok(())
}

fn put_items(out: &mut Vec<u8>, items: &[Option<Expr>]) -> Result<(), AllocError> {
    for item in items {
        match item {
            Some(expr) => put_expr(out, expr)?,
            None => out.extend_from_slice(b"none")?,
        }
        out.push(b';')?;
    }
    Ok(())
}

fn put_operand(out: &mut Vec<u8>, operand: &Operand) -> Result<(), AllocError> {
    match operand {
        Operand::Null => out.extend_from_slice(b"null"),
        Operand::Expr(expr) => put_expr(out, expr),
        Operand::List(items) => {
            out.extend_from_slice(b"list ")?;
            put_items(out, items.items())
        }
        Operand::Text(text) => {
            out.extend_from_slice(b"text ")?;
            out.extend_from_slice(text.bytes())
        }
    }
}

/// Operands, each with a bar after it.
fn put_operands(out: &mut Vec<u8>, operands: &[Operand]) -> Result<(), AllocError> {
    for operand in operands {
        put_operand(out, operand)?;
        out.push(b'|')?;
    }
    Ok(())
}

/// The operands of a field, as a text.
fn text_of(alloc: Global, field: &[u8]) -> Result<Vec<u8>, AllocError> {
    let mut out = Vec::new(alloc);
    match read_operands(alloc, field) {
        Ok(operands) => put_operands(&mut out, operands.items())?,
        Err(OperandFault::Bad) => out.extend_from_slice(b"bad")?,
        Err(OperandFault::Memory) => out.extend_from_slice(b"memory")?,
    }
    Ok(out)
}

/// A list of so many null items.
fn list_of(alloc: Global, count: usize) -> Result<Vec<u8>, AllocError> {
    let mut field = Vec::from_slice(alloc, b"(".as_slice())?;
    for _ in 1..count {
        field.push(b',')?;
    }
    field.push(b')')?;
    Ok(field)
}

#[test]
fn fields_are_read_or_bad(rt: HostRuntime) -> Result<(), Fail> {
    for &(field, expected) in &FIELDS {
        assert!(rt; text_of(rt.alloc(), field)?.as_slice() == expected);
    }
    Ok(())
}

#[test]
fn a_list_has_at_most_40_items(rt: HostRuntime) -> Result<(), Fail> {
    let text = text_of(rt.alloc(), &list_of(rt.alloc(), 40)?)?;
    assert_eq!(rt; text.split(|byte| *byte == b';').count(), 41);
    assert!(rt; text_of(rt.alloc(), &list_of(rt.alloc(), 41)?)?.as_slice() == b"bad".as_slice());
    Ok(())
}

#[test]
fn values_give_their_parts_back(rt: HostRuntime) -> Result<(), Fail> {
    let alloc = rt.alloc();
    let factors = Items::of(vec![in alloc;
        Factor::Name(Record::of(alloc, b"A")?),
        Factor::Number(2),
    ]?);
    let expr = Expr::of(vec![in alloc;
        Term {
            minus: true,
            factors
        },
    ]?);
    assert_eq!(rt; expr.terms().len(), 1);
    let again = Expr::of(expr.into_terms());
    let mut items = SmallVec::new(alloc);
    items.push(Operand::Expr(again))?;
    items.push(Operand::default())?;
    let operands = Operands::of(Operands::of(items).into_items());
    let mut out = Vec::new(alloc);
    put_operands(&mut out, operands.items())?;
    assert!(rt; out.as_slice() == b"-A*2|null|".as_slice());
    Ok(())
}

static NAMES: [(&[u8], bool); 7] = [
    (b"A", true),
    (b"z9", true),
    (b"ABCDEFGHIJKLMNOP", true),
    (b"", false),
    (b"1A", false),
    (b"A_", false),
    (b"ABCDEFGHIJKLMNOPQ", false),
];

#[test]
fn names_have_1_to_16_letters_and_digits(rt: HostRuntime) {
    for &(name, is) in &NAMES {
        assert_eq!(rt; is_name(name), is);
    }
}
