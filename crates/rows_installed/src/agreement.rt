// The abstract machine and the installed image under cells of every size, with fields in each order,
// on sources that are made from seeds.
use crate::ends::ends_so;
use crate::texts::Sizes;
use std::alloc::{AllocError, Global};
use std::process::Abort;
use std::test::Fail;

/// The orders of A, F and V.
static ORDERS: [[usize; 3]; 6] = [
    [0, 1, 2],
    [0, 2, 1],
    [1, 0, 2],
    [1, 2, 0],
    [2, 0, 1],
    [2, 1, 0],
];

/// The widths of A, F and V.
static WIDTHS: [[u64; 3]; 3] = [[8, 1, 2], [8, 2, 4], [8, 4, 8]];

/// Lines of a source over two descriptors, an array, a buffer and specifiers, with L and M as locations.
static LINES: [&[u8]; 128] = [
    b" ENDEX A\n",
    b" ENDEX B\n",
    b" INCRA A,7\n",
    b" INCRA B,999999999999\n",
    b" INCRA C+DESCR,0-1\n",
    b" MOVD A,B\n",
    b" MOVD B,A\n",
    b" MOVD C+DESCR,A\n",
    b" MOVD B,C+DESCR\n",
    b" MOVD D,B\n",
    b" MOVD A,D\n",
    b" MOVD A,B+1\n",
    b" INCRA C-1,1\n",
    b" SETAC A,B\n",
    b" SETAC B,C+DESCR\n",
    b" SETAC C,DESCR\n",
    b" SETAC A,0-9223372036854775807-1\n",
    b" SETAC B,0-1\n",
    b" SETAC A,9223372036854775807\n",
    b" ADJUST A,B,C\n",
    b" ADJUST C,A,B\n",
    b" DECRA A,1\n",
    b" GETAC A,B,DESCR\n",
    b" GETD A,B,C\n",
    b" GETDC C,A,DESCR\n",
    b" GETDC B,A,0-DESCR\n",
    b" GETSIZ A,B\n",
    b" INCRV A,1\n",
    b" INCRV B,SIZLIM\n",
    b" MOVA A,B\n",
    b" MOVV B,A\n",
    b" MOVDIC A,DESCR,B,DESCR\n",
    b" PUTAC A,DESCR,B\n",
    b" PUTD A,C,B\n",
    b" PUTDC B,DESCR,A\n",
    b" PUTVC A,DESCR,C\n",
    b" SETF A,FNC+PTR\n",
    b" RESETF A,FNC\n",
    b" SETFI B,MARK\n",
    b" RSETFI A,TTL\n",
    b" SETAV A,B\n",
    b" SETSIZ A,B\n",
    b" SETVA A,B\n",
    b" SETVC B,SIZLIM\n",
    b" ACOMP A,B,L,,M\n",
    b" ACOMPC A,7,L,M\n",
    b" AEQL A,B,M,L\n",
    b" AEQLC B,0,,L\n",
    b" AEQLIC A,DESCR,0,L,M\n",
    b" CHKVAL A,B,S,L,,M\n",
    b" DEQL A,B,L,M\n",
    b" LCOMP S,S+DESCR,L,M\n",
    b" LEQLC S,5,L,M\n",
    b" TESTF A,FNC,L,M\n",
    b" TESTFI B,PTR,M,L\n",
    b" VCMPIC A,DESCR,B,L,M\n",
    b" VEQL A,B,L,M\n",
    b" VEQLC A,2,L,M\n",
    b" DIVIDE A,B,C,L,M\n",
    b" MNSINT A,B,L\n",
    b" MULT A,B,C+DESCR,L\n",
    b" MULTC B,A,3\n",
    b" SUBTRT A,B,C,L,\n",
    b" SUM C,A,B,L,M\n",
    b" ADDLG S,A\n",
    b" ADDLG T,C\n",
    b" BKSIZE A,B\n",
    b" BKSIZE C,A\n",
    b" FSHRTN S,1\n",
    b" FSHRTN T,2\n",
    b" GETLG A,S\n",
    b" GETLG B,T\n",
    b" GETLTH A,B\n",
    b" GETLTH C,A\n",
    b" GETSPC S,B,0\n",
    b" GETSPC T,B,DESCR\n",
    b" LOCSP S,B\n",
    b" LOCSP T,C\n",
    b" PUTLG S,A\n",
    b" PUTLG T,C\n",
    b" PUTSPC B,0,S\n",
    b" PUTSPC B,DESCR,T\n",
    b" REMSP S,T,S\n",
    b" REMSP T,T,S\n",
    b" SETLC S,3\n",
    b" SETLC T,7\n",
    b" SETSP S,T\n",
    b" SETSP S+DESCR,T\n",
    b" SHORTN T,1\n",
    b" SHORTN S,6\n",
    b" SUBSP S,T,U,L,M\n",
    b" SUBSP T,S,U,M,L\n",
    b" APDSP T,U\n",
    b" APDSP T,T\n",
    b" APDSP S,T\n",
    b" APDSP V,U\n",
    b" DATE S\n",
    b" DATE T\n",
    b" DATE B\n",
    b" DATE D\n",
    b" GETBAL T,A,L,M\n",
    b" GETBAL V,A,M,L\n",
    b" GETBAL U,B,L,M\n",
    b" GETBAL S,A,L,M\n",
    b" INTSPC T,A\n",
    b" INTSPC S,B\n",
    b" INTSPC T,C\n",
    b" INTSPC V,A\n",
    b" LEXCMP T,U,L,,M\n",
    b" LEXCMP U,T,M,L\n",
    b" LEXCMP V,V,L,M,L\n",
    b" LEXCMP S,T,L,M\n",
    b" RPLACE T,U,U\n",
    b" RPLACE V,U,T\n",
    b" RPLACE U,V,V\n",
    b" RPLACE T,S,S\n",
    b" SPCINT A,T,L,M\n",
    b" SPCINT B,V,L,M\n",
    b" SPCINT A,U,M,L\n",
    b" SPCINT C,S,L\n",
    b" TRIMSP T,U\n",
    b" TRIMSP S,T\n",
    b" TRIMSP V,V\n",
    b" TRIMSP U,S\n",
    b" VARID A,T\n",
    b" VARID B,U\n",
    b" VARID C,V\n",
    b" VARID A,S\n",
];

/// The next number of a seed.
fn next(seed: u64) -> u64 {
    seed.wrapping_mul(6_364_136_223_846_793_005)
        .wrapping_add(1_442_695_040_888_963_407)
}

/// Fields of these widths in this order, each at the next place where it may stand; none where they
/// are longer than the cell.
fn sizes_of(descr: u64, order: &[usize; 3], widths: &[u64; 3]) -> Option<Sizes> {
    let mut places = [0; 3];
    let mut end: u64 = 0;
    for &field in order {
        let width = *widths.get(field)?;
        if width == 0 || end > 64 {
            return None;
        }
        let at = end.wrapping_add((width - end % width) % width);
        *places.get_mut(field)? = at;
        end = at.wrapping_add(width);
    }
    if end > descr {
        return None;
    }
    Some([
        descr, places[0], places[1], widths[1], places[2], widths[2], 64,
    ])
}

/// What each source ends with.
const LAST: &[u8] =
    b"L ENDEX A\nM ENDEX B\nA DESCR 4,3,2\nB DESCR C,8,1\nC ARRAY 2\nD BUFFER 1\nS SPEC A,0,1,2,5\n DESCR\nT SPEC D,0,3,1,6\nU STRING 'AB 12(C)  '\nV STRING '-45'\nI EQU 3\n END\n";

/// Up to seven statements, and two more.
fn source_of(alloc: Global, seed: u64) -> Result<Vec<u8>, AllocError> {
    let mut source = Vec::new(alloc);
    let mut now = next(seed);
    for _ in 0..now >> 61 {
        now = next(now);
        source.extend_from_slice(LINES[(now >> 57) as usize])?;
    }
    source.extend_from_slice(LAST)?;
    Ok(source)
}

/// Every size of cell from 16 to 64, each order of the fields that it has room for, and three widths, with a seed each.
#[test]
fn the_image_ends_as_the_machine_in_every_layout(rt: HostRuntime) -> Result<(), Fail> {
    let alloc = rt.alloc();
    let mut layouts: u64 = 0;
    for eighths in 2..9 {
        for order in &ORDERS {
            for widths in &WIDTHS {
                if let Some(sizes) = sizes_of(8 * eighths, order, widths) {
                    let source = source_of(alloc, layouts)?;
                    assert!(rt; ends_so(alloc, &source, &sizes, 9, None)?, "{layouts}");
                    layouts = layouts.wrapping_add(1);
                }
            }
        }
    }
    assert_eq!(rt; layouts, 116);
    Ok(())
}
