// Parameter files: their faults and their values.
use layout_params::{
    Layout, ParamStop, STANDARD_PARAMS, fields_are_apart, legal_values_break_no_rule,
    packing_is_packed, read_params,
};
use std::alloc::{AllocError, Global};
use std::test::Fail;

/// The standard parameters
static LINES: [&[u8]; 18] = [
    b"DESCR 16",
    b"AOFF 0",
    b"FOFF 8",
    b"FLEN 2",
    b"VOFF 12",
    b"VLEN 4",
    b"FNC 1",
    b"MARK 2",
    b"PTR 4",
    b"STTL 8",
    b"TTL 16",
    b"STSIZE 64",
    b"DYNSIZ 100",
    b"OBSIZ 256",
    b"UNITI 5",
    b"UNITO 6",
    b"UNITP 7",
    b"DATE 01/01/70",
];

/// A line that takes the place of a standard one, and the rule and the line of the fault
static CHANGES: [(usize, &[u8], Option<(u8, u32)>); 76] = [
    (1, b"DESCR 12", Some((4, 1))),
    (1, b"DESCR 8", Some((4, 1))),
    (1, b"DESCR 20", Some((4, 1))),
    (1, b"DESCR 24", None),
    (1, b"DESCR 64", None),
    (1, b"DESCR 72", Some((4, 1))),
    (2, b"AOFF 4", Some((5, 2))),
    (2, b"AOFF 8", Some((8, 5))),
    (2, b"AOFF 16", Some((5, 2))),
    (3, b"FOFF 9", Some((6, 3))),
    (3, b"FOFF 10", None),
    (3, b"FOFF 12", Some((8, 5))),
    (3, b"FOFF 16", Some((6, 3))),
    (4, b"FLEN 0", Some((6, 4))),
    (4, b"FLEN 1", None),
    (4, b"FLEN 3", Some((6, 4))),
    (4, b"FLEN 4", None),
    (4, b"FLEN 8", Some((6, 4))),
    (5, b"VOFF 8", Some((8, 5))),
    (5, b"VOFF 14", Some((7, 5))),
    (5, b"VOFF 16", Some((7, 5))),
    (6, b"VLEN 1", Some((7, 6))),
    (6, b"VLEN 2", None),
    (6, b"VLEN 8", Some((7, 5))),
    (6, b"VLEN 16", Some((7, 6))),
    (7, b"FNC 0", Some((9, 7))),
    (7, b"FNC 3", Some((9, 7))),
    (7, b"FNC 32768", None),
    (7, b"FNC 65536", Some((9, 7))),
    (8, b"MARK 1", Some((9, 8))),
    (11, b"TTL 8", Some((9, 11))),
    (12, b"STSIZE 15", Some((10, 12))),
    (12, b"STSIZE 16", None),
    (12, b"STSIZE 65536", None),
    (12, b"STSIZE 65537", Some((10, 12))),
    (13, b"DYNSIZ 0", None),
    (13, b"DYNSIZ 900000", None),
    (13, b"DYNSIZ 900001", Some((11, 13))),
    (14, b"OBSIZ 0", Some((12, 14))),
    (14, b"OBSIZ 1", None),
    (14, b"OBSIZ 4096", None),
    (14, b"OBSIZ 4097", Some((12, 14))),
    (15, b"UNITI 0", Some((13, 15))),
    (15, b"UNITI 1", None),
    (15, b"UNITI 15", None),
    (15, b"UNITI 16", Some((13, 15))),
    (16, b"UNITO 16", Some((13, 16))),
    (17, b"UNITP 0", Some((13, 17))),
    (18, b"DATE 01/01/7", Some((14, 18))),
    (18, b"DATE 01/01/700", Some((14, 18))),
    (18, b"DATE ", Some((14, 18))),
    (18, b"DATE", Some((1, 18))),
    (18, b"DATE ~~ ~~ ~~", None),
    (18, b"DATE 01/01/7\x7f", Some((14, 18))),
    (18, b"DATE 01/01/7\t", Some((14, 18))),
    (7, b"FNC 0000000000000000001", None),
    (7, b"FNC 00000000000000000001", Some((1, 7))),
    (7, b"FNC 9223372036854775807", Some((9, 7))),
    (7, b"FNC 9223372036854775808", Some((1, 7))),
    (7, b"FNC  1", Some((1, 7))),
    (7, b"FNC 1 ", Some((1, 7))),
    (7, b" FNC 1", Some((1, 7))),
    (7, b"FNC", Some((1, 7))),
    (7, b"FNC ", Some((1, 7))),
    (7, b"FNC -1", Some((1, 7))),
    (7, b"FNC\t1", Some((1, 7))),
    (7, b"F!C 1", Some((1, 7))),
    (7, b" ", Some((1, 7))),
    (7, b"A1234567890123456 1", Some((1, 7))),
    (7, b"A123456789012345 1", Some((2, 7))),
    (7, b"fnc 1", Some((2, 7))),
    (7, b"SPEC 1", Some((2, 7))),
    (7, b"MARK 2", Some((2, 8))),
    (7, b"FNC 1\r", None),
    (7, b"", Some((3, 19))),
    (7, b"*FNC 1", Some((3, 19))),
];

/// Two such lines
static PAIRS: [((usize, &[u8]), (usize, &[u8]), Option<(u8, u32)>); 11] = [
    ((1, b"DESCR 12"), (11, b"TTL 8"), Some((4, 1))),
    ((2, b"AOFF 4"), (17, b"UNITP"), Some((1, 17))),
    ((1, b"DESCR 12"), (7, b"FOO 1"), Some((2, 7))),
    ((3, b"FOFF 9"), (4, b"FLEN 3"), Some((6, 4))),
    ((5, b"FOO 1"), (9, b"FOO 1"), Some((2, 5))),
    ((5, b"5"), (9, b"9"), Some((1, 5))),
    ((7, b"TTL 3"), (11, b"FNC 5"), Some((9, 11))),
    ((15, b"UNITP 0"), (17, b"UNITI 0"), Some((13, 17))),
    ((17, b"DATE 01/01/70"), (18, b"DATE 1"), Some((2, 18))),
    ((1, b"DATE 01/01/70"), (18, b"DESCR 16"), None),
    ((14, b"*"), (18, b"DATE 1"), Some((3, 19))),
];

/// Whole files
static FILES: [(&[u8], Option<(u8, u32)>); 5] = [
    (b"", Some((3, 1))),
    (b"\n\n", Some((3, 3))),
    (b"DESCR 16\nAOFF 0", Some((3, 3))),
    (b"* a comment\n? 1\n", Some((1, 2))),
    (STANDARD_PARAMS, None),
];

/// Names, and their values under the standard parameters.
static SYMBOLS: [(&[u8], Option<i64>); 20] = [
    (b"DESCR", Some(16)),
    (b"SPEC", Some(32)),
    (b"CPA", Some(1)),
    (b"CPD", Some(16)),
    (b"ALPHSZ", Some(256)),
    (b"SIZLIM", Some(4_294_967_295)),
    (b"FNC", Some(1)),
    (b"MARK", Some(2)),
    (b"PTR", Some(4)),
    (b"STTL", Some(8)),
    (b"TTL", Some(16)),
    (b"STSIZE", Some(64)),
    (b"DYNSIZ", Some(100)),
    (b"OBSIZ", Some(256)),
    (b"UNITI", Some(5)),
    (b"UNITO", Some(6)),
    (b"UNITP", Some(7)),
    (b"AOFF", None),
    (b"DATE", None),
    (b"descr", None),
];

/// The standard lines, with others in the places of some numbers.
fn text_with(alloc: Global, changes: &[(usize, &[u8])]) -> Result<Vec<u8>, AllocError> {
    let mut text = Vec::new(alloc);
    for (i, standard) in LINES.iter().enumerate() {
        let mut line = *standard;
        for (number, other) in changes {
            if *number == i.wrapping_add(1) {
                line = other;
            }
        }
        text.extend_from_slice(line)?;
        text.push(b'\n')?;
    }
    Ok(text)
}

/// The rule and the line of a file's fault
fn fault_in(alloc: Global, text: &[u8]) -> Result<Option<(u8, u32)>, ParamStop> {
    if text.len() > 2_097_152 {
        return Ok(None);
    }
    match read_params(alloc, text) {
        Ok(_) => Ok(None),
        Err(ParamStop::Fault(fault)) => Ok(Some((fault.code.rule, fault.line.number))),
        Err(ParamStop::Memory) => Err(ParamStop::Memory),
    }
}

#[test]
fn each_rule_has_its_line_and_the_least_comes_first(rt: HostRuntime) -> Result<(), Fail> {
    for &(number, line, fault) in &CHANGES {
        let text = text_with(rt.alloc(), &[(number, line)])?;
        assert_eq!(rt; fault_in(rt.alloc(), &text)?, fault);
    }
    for &(one, other, fault) in &PAIRS {
        let text = text_with(rt.alloc(), &[one, other])?;
        assert_eq!(rt; fault_in(rt.alloc(), &text)?, fault);
    }
    for &(text, fault) in &FILES {
        assert_eq!(rt; fault_in(rt.alloc(), text)?, fault);
    }
    Ok(())
}

#[test]
fn values_are_read_in_any_order(rt: HostRuntime) -> Result<(), Fail> {
    packing_is_packed();
    fields_are_apart();
    legal_values_break_no_rule();
    let text =
        b"DATE 24-12-99\r\nUNITP 1\nUNITO 2\nUNITI 3\n* units\n\nOBSIZ 17\nDYNSIZ 18\nSTSIZE 19\nTTL 1\nSTTL 2\nPTR 64\nMARK 128\nFNC 32\nVLEN 2\nVOFF 30\nFLEN 1\nFOFF 29\nAOFF 8\nDESCR 0032";
    let params = read_params(rt.alloc(), text)?;
    let numbers = params.numbers();
    assert_eq!(rt; (numbers.descr(), numbers.a_at()), (32, 8));
    assert_eq!(rt; (numbers.f_at(), numbers.f_len()), (29, 1));
    assert_eq!(rt; (numbers.v_at(), numbers.v_len()), (30, 2));
    assert_eq!(rt; (params.fmax(), params.vmax()), (255, 65535));
    assert_eq!(rt; (params.stack_size(), params.dynamic_size()), (19, 18));
    assert_eq!(rt; params.settings().bucket_count(), 17);
    assert!(rt; params.settings().flags() == [32u64, 128, 64, 2, 1]);
    assert!(rt; params.date() == *b"24-12-99");
    assert_eq!(rt; params.symbol(b"UNITO"), Some(2));
    Ok(())
}

#[test]
fn symbols_have_the_values_of_the_file(rt: HostRuntime) -> Result<(), Fail> {
    let params = read_params(rt.alloc(), STANDARD_PARAMS)?;
    for &(name, value) in &SYMBOLS {
        assert_eq!(rt; params.symbol(name), value);
    }
    Ok(())
}
