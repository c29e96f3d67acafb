// The macros and the shapes of their operands.
use sil_macros::{
    Kind, Place, is_assembly, law_of_macros, macro_at, macro_of, name_of, number_of_macro, shape,
};
use std::alloc::{AllocError, Global};
use std::test::Fail;

/// The macros in the order of their numbers: the name, the letters of the operands, `?` after one that may be
/// null, and `assembly` after those of the assembly. L and LL may always be null.
const TABLE: &[u8] = b"ACOMP D,D,L,L,L
ACOMPC D,N,L,L,L
ADDLG S,D
ADDSIB D,D
ADDSON D,D
ADJUST D,D,D
ADREAL D,D,D,L,L
AEQL D,D,L,L
AEQLC D,N,L,L
AEQLIC D,N,N,L,L
APDSP S,S
ARRAY N assembly
BKSIZE D,D
BKSPCE D
BRANCH R,E?
BRANIC D,N
BUFFER N assembly
CHKVAL D,D,S,L,L,L
CLERTB T,K
COPY  assembly
CPYPAT D,D,D,D,D,D
DATE S
DECRA D,N
DEQL D,D,L,L
DESCR N?,N?,N? assembly
DIVIDE D,D,D,L,L
DVREAL D,D,D,L,L
END  assembly
ENDEX D
ENFILE D
EQU N assembly
EXPINT D,D,D,L,L
EXREAL D,D,D,L,L
FORMAT X assembly
FSHRTN S,N
GETAC D,D,N
GETBAL S,D,L,L
GETD D,D,D
GETDC D,D,N
GETLG D,S
GETLTH D,D
GETSIZ D,D
GETSPC S,D,N
INCRA D,N
INCRV D,N
INIT 
INSERT D,D
INTRL D,D
INTSPC S,D
ISTACK 
LCOMP S,S,L,L,L
LEQLC S,N,L,L
LEXCMP S,S,L,L,L
LHERE  assembly
LINK D,D,D,D,L,L
LINKOR D,D
LOAD D,S,S,L,L
LOCAPT D,D,D,L,L
LOCAPV D,D,D,L,L
LOCSP S,D
LVALUE D,D
MAKNOD D,D,D,D,D,D?
MNREAL D,D
MNSINT D,D,L,L
MOVA D,D
MOVBLK D,D,D
MOVD D,D
MOVDIC D,N,D,N
MOVV D,D
MPREAL D,D,D,L,L
MSTIME D
MULT D,D,D,L,L
MULTC D,D,N
ORDVST 
OUTPUT D,M,DD?
PLUGTB T,K,S
POP DD
PROC E?
PSTACK D
PUSH DD
PUTAC D,N,D
PUTD D,D,D
PUTDC D,N,D
PUTLG S,D
PUTSPC D,N,S
PUTVC D,N,D
RCALL D?,R,DD?,LL
RCOMP D,D,L,L,L
REALST S,D
REMSP S,S,S
RESETF D,F
REWIND D
RLINT D,D,L,L
RPLACE S,S,S
RRTURN D?,N?
RSETFI D,F
SBREAL D,D,D,L,L
SELBRA D,LL
SETAC D,N
SETAV D,D
SETF D,F
SETFI D,F
SETLC S,N
SETSIZ D,D
SETSP S,S
SETVA D,D
SETVC D,N
SHORTN S,N
SPCINT D,S,L,L
SPEC N?,N?,N?,N?,N? assembly
SPOP SS
SPREAL D,S,L,L
SPUSH SS
STPRNT D,D,S
STREAD S,D,L,L,L
STREAM S,S,T,L,L,L
STRING X assembly
SUBSP S,S,S,L,L
SUBTRT D,D,D,L,L
SUM D,D,D,L,L
TESTF D,F,L,L
TESTFI D,F,L,L
TITLE  assembly
TOP D,D,D
TRIMSP S,S
UNLOAD S
VARID D,S
VCMPIC D,N,D,L,L,L
VEQL D,D,L,L
VEQLC D,N,L,L";

fn letters(place: &Place) -> &'static [u8] {
    match (place.kind, place.optional) {
        (Kind::Descr, false) => b"D",
        (Kind::Descr, true) => b"D?",
        (Kind::Spec, false) => b"S",
        (Kind::Number, false) => b"N",
        (Kind::Number, true) => b"N?",
        (Kind::Flag, false) => b"F",
        (Kind::Goto, true) => b"L",
        (Kind::Required, false) => b"R",
        (Kind::Table, false) => b"T",
        (Kind::Key, false) => b"K",
        (Kind::Text, false) => b"X",
        (Kind::Format, false) => b"M",
        (Kind::Descrs, false) => b"DD",
        (Kind::Descrs, true) => b"DD?",
        (Kind::Specs, false) => b"SS",
        (Kind::Gotos, true) => b"LL",
        (Kind::Free, true) => b"E?",
        _ => b"none",
    }
}

fn spelled(alloc: Global, places: &[Place]) -> Result<Vec<u8>, AllocError> {
    let mut text = Vec::new(alloc);
    for place in places {
        if !text.is_empty() {
            text.extend_from_slice(b",")?;
        }
        text.extend_from_slice(letters(place))?;
    }
    Ok(text)
}

#[test]
fn each_macro_has_its_row(rt: HostRuntime) -> Result<(), Fail> {
    let mut number = 0u16;
    for line in TABLE.split(|b| *b == b'\n') {
        let mut words = line.split(|b| *b == b' ');
        let name = words.next().ok_or("no name")?;
        let operands = words.next().ok_or("no operands")?;
        let m = macro_of(name).ok_or("no macro")?;
        assert_eq!(rt; number_of_macro(m), number);
        assert_eq!(rt; macro_at(number), Some(m));
        assert!(rt; name_of(m) == name);
        let text = spelled(rt.alloc(), shape(m).places())?;
        assert!(rt; text.as_slice() == operands);
        assert_eq!(rt; is_assembly(m), words.next().is_some());
        assert!(rt; number < 130);
        number += 1;
    }
    assert_eq!(rt; number, 130);
    Ok(())
}

#[test]
fn what_is_no_macro_is_none(rt: HostRuntime) {
    law_of_macros();
    assert_eq!(rt; macro_at(130), None);
    assert_eq!(rt; macro_at(u16::MAX), None);
    for name in [
        b"MOVE".as_slice(),
        b"",
        b"movd",
        b"MOVD ",
        b"ACOM",
        b"VEQLCC",
    ] {
        assert_eq!(rt; macro_of(name), None);
    }
}
