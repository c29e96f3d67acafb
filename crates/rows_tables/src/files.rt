// Tables files, with their tables or their faults.
use crate::texts::{shown, symbols_of};
use std::test::Fail;

/// Files, and the codes at which the entries of their tables change.
static TABLES: [(&[u8], &[u8]); 20] = [
    (b"", b""),
    (b"\n* none\n", b""),
    (b"BEGIN T\nELSE STOP\nEND T", b"0S,;"),
    (b"BEGIN T\nELSE STOP\nEND T\n\n", b"0S,;"),
    (
        b"BEGIN T\nFOR('A',66,48-57) STOP\nELSE ERROR\nEND T\n",
        b"0E,48S,58E,65S,67E,;",
    ),
    (
        b"BEGIN T\nFOR('a ''(,)') CONTIN\nELSE STOP\nEND T\n",
        b"0S,32C,33S,39C,42S,44C,45S,97C,98S,;",
    ),
    (
        b"BEGIN T\nFOR(',\t,',1) CONTIN\nELSE STOP\nEND T\n",
        b"0S,1C,2S,9C,10S,44C,45S,;",
    ),
    (b"BEGIN T\nFOR('') STOP\nELSE CONTIN\nEND T\n", b"0C,;"),
    (
        b"BEGIN T\nFOR(5-5) CONTIN\nELSE STOP\nEND T\n",
        b"0S,5C,6S,;",
    ),
    (b"BEGIN T\nFOR(0-255) CONTIN\nELSE STOP\nEND T\n", b"0C,;"),
    (
        b"BEGIN T\nFOR(255) CONTIN\nELSE STOP\nEND T\n",
        b"0S,255C,;",
    ),
    (
        b"BEGIN T\nFOR(00065) CONTIN\nELSE STOP\nEND T\n",
        b"0S,65C,66S,;",
    ),
    (
        b"BEGIN T\nFOR(48-57) CONTIN\nFOR(50,65) ERROR\nELSE STOP\nEND T\n",
        b"0S,48C,58S,65E,66S,;",
    ),
    (
        b"BEGIN T\nFOR(50,65) ERROR\nFOR(48-57) CONTIN\nELSE STOP\nEND T\n",
        b"0S,48C,50E,51C,58S,65E,66S,;",
    ),
    (
        b"BEGIN T\nFOR(1) PUT(A*2-1) GOTO(U)\nELSE PUT(L) STOPSH\nEND T\nBEGIN U\nELSE GOTO(T)\nEND U\n",
        b"0H=1879048192,1G1=13,2H=1879048192,;0G0,;",
    ),
    (
        b"BEGIN T\nELSE PUT(-9223372036854775807-1) ERROR\nEND T\n",
        b"0E=-9223372036854775808,;",
    ),
    (
        b"\r\n* 'comment\r\n\r\nBEGIN T\r\n*\r\n\tELSE \t STOP \t\r\n  END\tT",
        b"0S,;",
    ),
    (b"BEGIN BEGIN\nELSE GOTO(BEGIN)\nEND BEGIN\n", b"0G0,;"),
    (
        b"BEGIN t\nELSE GOTO(T)\nEND t\nBEGIN T\nELSE GOTO(t)\nEND T\n",
        b"0G1,;0G0,;",
    ),
    (
        b"BEGIN T\nFOR('A')\tPUT(A) STOP\nFOR('B') PUT(A+1)\tSTOP\nELSE STOP\nEND T\n",
        b"0S,65S=7,66S=8,67S,;",
    ),
];

/// Files with lines of no form, or that no table allows there.
static BAD_FORM: [(&[u8], &[u8]); 28] = [
    (b"BEGIN T", b"2 T2;"),
    (b"BEGIN T\n", b"2 T2;"),
    (b"BEGIN T\nELSE STOP\n\n\n", b"5 T2;"),
    (b"FOR(1) STOP", b"1 T2;"),
    (b"ELSE STOP", b"1 T2;"),
    (b"END T", b"1 T2;"),
    (b"FOR() STOP", b"1 T1;"),
    (b"BEGIN T\nELSE STOP\nEND U\n", b"3 T2;"),
    (b"BEGIN T\nELSE STOP\nEND t\n", b"3 T2;"),
    (b"BEGIN T\nFOR(1) STOP\nEND T\n", b"3 T2;"),
    (b"BEGIN T\nELSE STOP\nELSE STOP\nEND T\n", b"3 T2;"),
    (b"BEGIN T\nELSE STOP\nFOR(1) STOP\nEND T\n", b"3 T2;"),
    (b"BEGIN T\nBEGIN U\n", b"2 T2;"),
    (b"BEGIN T\nELSE GOTO(Q)\nEND T\nEND T\n", b"4 T2;"),
    (
        b"BEGIN T\nELSE STOP\nEND T\nBEGIN T\nELSE STOP\nEND T\n?\n",
        b"7 T1;",
    ),
    (b"BEGIN T\n \nELSE STOP\nEND T\n", b"2 T1;"),
    (b"BEGIN T\n *\nELSE STOP\nEND T\n", b"2 T1;"),
    (b"BEGIN\n", b"1 T1;"),
    (b"BEGIN T U\n", b"1 T1;"),
    (b"BEGIN 1T\n", b"1 T1;"),
    (b"BEGIN ABCDEFGHIJKLMNOPQ\n", b"1 T1;"),
    (b"begin T\n", b"1 T1;"),
    (b"BEGIN T\r\r\n", b"1 T1;"),
    (b"BEGIN T\nELSE STOP\nEND\n", b"3 T1;"),
    (b"BEGIN T\nELSE\nEND T\n", b"2 T1;"),
    (b"BEGIN T\nELSE PUT(1)\nEND T\n", b"2 T1;"),
    (b"BEGIN T\nELSE PUT(1) STOP STOP\nEND T\n", b"2 T1;"),
    (b"BEGIN T\nELSE STOP PUT(1)\nEND T\n", b"2 T1;"),
];

/// Second lines of a table that are of no form.
static BAD_LINES: [&[u8]; 30] = [
    b"FOR(7-6) STOP",
    b"FOR(256) STOP",
    b"FOR(0-256) STOP",
    b"FOR(18446744073709551617) STOP",
    b"FOR(+1) STOP",
    b"FOR(-1) STOP",
    b"FOR(1-) STOP",
    b"FOR(1-2-3) STOP",
    b"FOR(1,) STOP",
    b"FOR(,) STOP",
    b"FOR(A) STOP",
    b"FOR('A) STOP",
    b"FOR(A') STOP",
    b"FOR('A'B) STOP",
    b"FOR('A' 'B') STOP",
    b"FOR(1, 2) STOP",
    b"FOR('A'-'B') STOP",
    b"FOR (1) STOP",
    b"FOR(1)STOP",
    b"FOR(1 STOP",
    b"FOR STOP",
    b"FOR(1) STOPS",
    b"FOR(1) GOTO()",
    b"FOR(1) GOTO(1X)",
    b"FOR(1) GOTO T",
    b"FOR(1) PUT() STOP",
    b"FOR(1) PUT(1,2) STOP",
    b"FOR(1) PUT('A') STOP",
    b"FOR(1) PUT((1)) STOP",
    b"FOR(1) PUT(18446744073709551616) STOP",
];

/// Files with names of no table, and expressions without a value.
static UNBOUND: [(&[u8], &[u8]); 5] = [
    (
        b"BEGIN T\nELSE STOP\nEND T\nBEGIN T\nELSE GOTO(Q)\nEND T",
        b"4 T3;5 T5;",
    ),
    (
        b"BEGIN T\nFOR(1) PUT(Q) STOP\nFOR(2) PUT(Q) GOTO(t)\n\nELSE PUT(9223372036854775808) STOP\nEND T\n",
        b"2 T6;3 T5;5 T6;",
    ),
    (
        b"BEGIN T\nELSE PUT(18446744073709551615) STOP\nEND T\n",
        b"2 T6;",
    ),
    (b"BEGIN T\nELSE PUT(T) STOP\nEND T\n", b"2 T6;"),
    (
        b"BEGIN T\nELSE GOTO(A)\nEND T\nBEGIN U\nELSE STOP\nEND U\nBEGIN T\nELSE STOP\nEND T\nBEGIN U\nELSE STOP\nEND U\n",
        b"2 T5;7 T3;10 T3;",
    ),
];

#[test]
fn files_have_their_tables(rt: HostRuntime) -> Result<(), Fail> {
    let symbols = symbols_of(rt.alloc())?;
    for (i, &(file, expected)) in TABLES.iter().enumerate() {
        assert!(rt;
            shown(rt.alloc(), file, &symbols)?.as_slice() == expected,
            "at {i}"
        );
    }
    Ok(())
}

#[test]
fn lines_have_faults_of_form(rt: HostRuntime) -> Result<(), Fail> {
    let symbols = symbols_of(rt.alloc())?;
    for (i, &(file, expected)) in BAD_FORM.iter().enumerate() {
        assert!(rt;
            shown(rt.alloc(), file, &symbols)?.as_slice() == expected,
            "at {i}"
        );
    }
    for (i, &line) in BAD_LINES.iter().enumerate() {
        let mut file = Vec::from_slice(rt.alloc(), b"BEGIN T\n")?;
        file.extend_from_slice(line)?;
        file.extend_from_slice(b"\nELSE STOP\nEND T\n")?;
        assert!(rt;
            shown(rt.alloc(), &file, &symbols)?.as_slice() == b"2 T1;".as_slice(),
            "at {i}"
        );
    }
    Ok(())
}

#[test]
fn names_and_values_have_faults(rt: HostRuntime) -> Result<(), Fail> {
    let symbols = symbols_of(rt.alloc())?;
    for (i, &(file, expected)) in UNBOUND.iter().enumerate() {
        assert!(rt;
            shown(rt.alloc(), file, &symbols)?.as_slice() == expected,
            "at {i}"
        );
    }
    Ok(())
}
