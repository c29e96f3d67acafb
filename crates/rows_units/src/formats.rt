// Formats, how they are read, and the records that they lay out.
use sil_base::{Record, decimal};
use sil_format::{DataKind, FormatStop, Item, Laid, Value, lay_out, read_format};
use std::alloc::{AllocError, Global};
use std::test::Fail;

/// Formats, and their items as `put_item` writes them.
const READ: [(&[u8], &[u8]); 33] = [
    (b"()", b""),
    (b" ( ) ", b""),
    (b"(X)", b"1X;"),
    (b"(1X)", b"1X;"),
    (b"(1000X)", b"1000X;"),
    (b"(0001000X)", b"1000X;"),
    (b"(1 0 X)", b"10X;"),
    (b"(I1)", b"1I1;"),
    (b"(I255)", b"1I255;"),
    (b"(I007)", b"1I7;"),
    (b"(1000I3)", b"1000I3;"),
    (b"( 2 I 1 2 , 3 X )", b"2I12;3X;"),
    (b"(A1)", b"1A;"),
    (b" ( 3 A 1 ) ", b"3A;"),
    (b"(F5.2)", b"1F5.2;"),
    (b"(F5.0)", b"1F5.0;"),
    (b"(2F255.255)", b"2F255.255;"),
    (b"(F 1 0 . 0 9)", b"1F10.9;"),
    (b"(1HX)", b"HX;"),
    (b"(6H HELLO)", b"H HELLO;"),
    (b"( 0 6 H HELLO )", b"H HELLO;"),
    (b"(1H))", b"H);"),
    (b"(7H) (,/ 1,X)", b"H) (,/ 1;1X;"),
    (b"(1HX,1HY)", b"HX;HY;"),
    (b"(2I3,1HX/I2)", b"2I3;HX;/;1I2;"),
    (b"(/)", b"/;"),
    (b"(//I3)", b"/;/;1I3;"),
    (b"(I3/)", b"1I3;/;"),
    (b"(I3/I2)", b"1I3;/;1I2;"),
    (b"(I3 / 2X)", b"1I3;/;2X;"),
    (b"(I3,/,I2)", b"1I3;/;1I2;"),
    (b"(I3/,I2)", b"1I3;/;1I2;"),
    (b"(I3,/I2)", b"1I3;/;1I2;"),
];

const BAD: [&[u8]; 60] = [
    b"",
    b" ",
    b"(",
    b")",
    b"X",
    b"(X",
    b"X)",
    b"()X",
    b"()()",
    b"())",
    b"((I3))",
    b"(I3)I3",
    b"(,)",
    b"(,I3)",
    b"(I3,)",
    b"(/,)",
    b"(,/)",
    b"(I3,,I3)",
    b"(I3I3)",
    b"(I3 I3)",
    b"(XX)",
    b"(1HXX)",
    b"(0X)",
    b"(1001X)",
    b"(18446744073709551617X)",
    b"(0I3)",
    b"(1001I3)",
    b"(0A1)",
    b"(0F5.2)",
    b"(0HX)",
    b"(H)",
    b"(HX)",
    b"(I)",
    b"(I0)",
    b"(I256)",
    b"(F)",
    b"(F5)",
    b"(F5.)",
    b"(F.2)",
    b"(F0.0)",
    b"(F5.6)",
    b"(F256.0)",
    b"(F5,2)",
    b"(A)",
    b"(A2)",
    b"(A01)",
    b"(A11)",
    b"(Q3)",
    b"(3)",
    b"(2/)",
    b"(i3)",
    b"(-1X)",
    b"(+1X)",
    b"(\tX)",
    b"(5HABC)",
    b"(3H12)",
    b"(1HX",
    b"(1HX))",
    b"(1001HX)",
    b"(I3;I3)",
];

/// Formats, values, and the records, each with a bar after it.
const LAID: [(&[u8], &[Value], &[u8]); 34] = [
    (
        b"(2I3,1HX/I2)",
        &[Value::Number(1), Value::Number(2), Value::Number(3)],
        b"  1  2X| 3|",
    ),
    (b"()", &[], b"|"),
    (b"()", &[Value::Number(1)], b"unfit"),
    (b"(A1)", &[Value::Number(1)], b"unfit"),
    (b"(I3)", &[Value::Char(b'1')], b"unfit"),
    (b"(I3)", &[Value::Number(1234)], b"***|"),
    (b"(I3)", &[Value::Number(123)], b"123|"),
    (b"(I5)", &[Value::Number(-7)], b"   -7|"),
    (b"(I2)", &[Value::Number(-10)], b"**|"),
    (b"(I1)", &[Value::Number(0)], b"0|"),
    (
        b"(I20)",
        &[Value::Number(i64::MIN)],
        b"-9223372036854775808|",
    ),
    (
        b"(I19)",
        &[Value::Number(i64::MIN)],
        b"*******************|",
    ),
    (
        b"(I19)",
        &[Value::Number(i64::MAX)],
        b"9223372036854775807|",
    ),
    (b"(I3)", &[Value::Number(1), Value::Number(2)], b"  1|  2|"),
    (b"(3HX= ,I1)", &[Value::Number(1)], b"X= 1|"),
    (b"(6H HELLO)", &[], b" HELLO|"),
    (b"(6H HELLO)", &[Value::Char(b'A')], b"unfit"),
    (b"(2X)", &[Value::Number(1)], b"unfit"),
    (b"(2X)", &[], b"  |"),
    (b"(I3)", &[], b"|"),
    (b"(I3,2X)", &[Value::Number(1)], b"  1  |"),
    (b"(I3,2X,I3,3X)", &[Value::Number(1)], b"  1  |"),
    (b"(I3/)", &[Value::Number(1)], b"  1||"),
    (b"(/)", &[], b"||"),
    (b"(/)", &[Value::Number(1)], b"unfit"),
    (
        b"(1HX/I1)",
        &[Value::Number(1), Value::Number(2)],
        b"X|1|X|2|",
    ),
    (
        b"(2A1)",
        &[Value::Char(b'A'), Value::Char(b' '), Value::Char(b'C')],
        b"A |C|",
    ),
    (
        b"(A1,I2)",
        &[Value::Char(b'A'), Value::Number(7), Value::Char(b'B')],
        b"A 7|B|",
    ),
    (b"(F5.2)", &[Value::Number(1)], b"real"),
    (b"(F5.2)", &[Value::Char(b'A')], b"real"),
    (b"(F5.2)", &[], b"|"),
    (b"(I3,F5.2)", &[Value::Number(1)], b"  1|"),
    (b"(F5.2,A1)", &[Value::Number(1), Value::Number(1)], b"real"),
    (
        b"(A1,F5.2)",
        &[Value::Number(1), Value::Number(1)],
        b"unfit",
    ),
];

/// Formats, and the bytes of the one record that they lay out of the number 1; none where it is unfit.
const LONG: [(&[u8], Option<usize>); 8] = [
    (b"(1000X,1000X,1000X,1000X,96X,I1)", None),
    (b"(1000X,1000X,1000X,1000X,95X,I1)", Some(4096)),
    (b"(I1,1000X,1000X,1000X,1000X,95X)", Some(4096)),
    (b"(I1,1000X,1000X,1000X,1000X,96X)", None),
    (b"(1000X,1000X,1000X,1000X,I96)", Some(4096)),
    (b"(1000X,1000X,1000X,1000X,I97)", None),
    (b"(1000X,1000X,1000X,1000X,I89,7H1234567)", Some(4096)),
    (b"(1000X,1000X,1000X,1000X,I90,7H1234567)", None),
];

fn put_number(out: &mut Vec<u8>, number: u16) -> Result<(), AllocError> {
    decimal(out, i128::from(number))
}

fn put_kind(out: &mut Vec<u8>, kind: DataKind) -> Result<(), AllocError> {
    match kind {
        DataKind::Integer { width } => {
            out.push(b'I')?;
            put_number(out, width)
        }
        DataKind::Character => Ok(out.push(b'A')?),
        DataKind::Real { width, decimals } => {
            out.push(b'F')?;
            put_number(out, width)?;
            out.push(b'.')?;
            put_number(out, decimals)
        }
    }
}

/// An item, with a semicolon after it.
fn put_item(out: &mut Vec<u8>, item: &Item) -> Result<(), AllocError> {
    match item {
        Item::Blanks(count) => {
            put_number(out, *count)?;
            out.push(b'X')?;
        }
        Item::Text(text) => {
            out.push(b'H')?;
            out.extend_from_slice(text.bytes())?;
        }
        Item::NewRecord => out.push(b'/')?,
        Item::Data { count, kind } => {
            put_number(out, *count)?;
            put_kind(out, *kind)?;
        }
    }
    Ok(out.push(b';')?)
}

fn is_read_as(alloc: Global, bytes: &[u8], expected: &[u8]) -> Result<bool, FormatStop> {
    let format = read_format(alloc, bytes)?;
    let mut out = Vec::new(alloc);
    for item in format.items() {
        put_item(&mut out, item)?;
    }
    Ok(out.as_slice() == expected)
}

fn is_bad(alloc: Global, bytes: &[u8]) -> Result<bool, FormatStop> {
    match read_format(alloc, bytes) {
        Ok(_) => Ok(false),
        Err(FormatStop::Bad) => Ok(true),
        Err(FormatStop::Memory) => Err(FormatStop::Memory),
    }
}

/// Records, each with a bar after it.
fn put_records(out: &mut Vec<u8>, records: &[Record]) -> Result<(), AllocError> {
    for record in records {
        out.extend_from_slice(record.bytes())?;
        out.push(b'|')?;
    }
    Ok(())
}

fn is_laid_as(
    alloc: Global,
    bytes: &[u8],
    values: &[Value],
    expected: &[u8],
) -> Result<bool, FormatStop> {
    let format = read_format(alloc, bytes)?;
    let mut out = Vec::new(alloc);
    match lay_out(alloc, &format, values)? {
        Laid::Records(records) => put_records(&mut out, records.items())?,
        Laid::Real => out.extend_from_slice(b"real")?,
        Laid::Unfit => out.extend_from_slice(b"unfit")?,
    }
    Ok(out.as_slice() == expected)
}

/// The bytes of the one record that a format lays out of the number 1; none where it is unfit.
fn record_length(alloc: Global, bytes: &[u8]) -> Result<Option<usize>, FormatStop> {
    let format = read_format(alloc, bytes)?;
    match lay_out(alloc, &format, &[Value::Number(1)])? {
        Laid::Records(records) => match records.items() {
            [record] => Ok(Some(record.bytes().len())),
            _ => Ok(Some(0)),
        },
        Laid::Real => Ok(Some(0)),
        Laid::Unfit => Ok(None),
    }
}

#[test]
fn formats_are_read(rt: HostRuntime) -> Result<(), Fail> {
    for &(bytes, expected) in READ.iter() {
        assert!(rt; is_read_as(rt.alloc(), bytes, expected)?);
    }
    Ok(())
}

#[test]
fn other_bytes_are_no_format(rt: HostRuntime) -> Result<(), Fail> {
    for bytes in BAD.iter() {
        assert!(rt; is_bad(rt.alloc(), bytes)?);
    }
    Ok(())
}

#[test]
fn values_are_laid_out(rt: HostRuntime) -> Result<(), Fail> {
    for &(bytes, values, expected) in LAID.iter() {
        assert!(rt; is_laid_as(rt.alloc(), bytes, values, expected)?);
    }
    Ok(())
}

#[test]
fn records_have_at_most_4096_bytes(rt: HostRuntime) -> Result<(), Fail> {
    for &(bytes, expected) in LONG.iter() {
        assert!(rt; record_length(rt.alloc(), bytes)? == expected);
    }
    Ok(())
}

#[test]
fn a_format_starts_again_for_each_of_many_values(rt: HostRuntime) -> Result<(), Fail> {
    let format = read_format(rt.alloc(), b"(I5)")?;
    let values = vec![in rt.alloc(); Value::Number(42); 20_000]?;
    let Laid::Records(records) = lay_out(rt.alloc(), &format, values.as_slice())? else {
        panic!(rt; "no records");
    };
    assert_eq!(rt; records.items().len(), 20_000);
    Ok(())
}
