// What single instructions leave, by the RISC-V unprivileged manual.
use crate::code::{end_after, lands, place_after};
use layout_params::ParamStop;
use rv_emulate::CpuEnd;
use rv_isa::{BOp, Instr, ROp, encode};
use std::alloc::Global;
use std::test::Fail;

/// Where the instruction stands, behind three registers' numbers.
const PLACE: u64 = 0x1_00cc;

const NEXT: u64 = PLACE + 4;

const ALL: u64 = 0xffff_ffff_ffff_ffff;

const MIN: u64 = 0x8000_0000_0000_0000;

const MAX: u64 = 0x7fff_ffff_ffff_ffff;

/// The least number of 32 bits, extended by its sign.
const MIN_W: u64 = 0xffff_ffff_8000_0000;

/// An operation, x6 and x7, and the result.
static R_ROWS: [(ROp, u64, u64, u64); 119] = [
    (ROp::Add, ALL, 1, 0),
    (ROp::Add, MAX, 1, MIN),
    (ROp::Add, 5, 7, 12),
    (ROp::Sub, 0, 1, ALL),
    (ROp::Sub, MIN, 1, MAX),
    (ROp::Sub, 7, 5, 2),
    (ROp::Sll, 1, 63, MIN),
    (ROp::Sll, 1, 64, 1),
    (ROp::Sll, ALL, 4, 0xffff_ffff_ffff_fff0),
    (ROp::Sll, 3, 0xffff_ffff_ffff_ffc1, 6),
    (ROp::Srl, MIN, 63, 1),
    (ROp::Srl, MIN, 64, MIN),
    (ROp::Srl, ALL, 4, 0xfff_ffff_ffff_ffff),
    (ROp::Srl, 6, 0xffff_ffff_ffff_ffc1, 3),
    (ROp::Sra, MIN, 63, ALL),
    (ROp::Sra, MAX, 62, 1),
    (ROp::Sra, MIN, 64, MIN),
    (ROp::Sra, 0xffff_ffff_ffff_fff8, 1, 0xffff_ffff_ffff_fffc),
    (ROp::Sra, ALL, 5, ALL),
    (ROp::Slt, ALL, 0, 1),
    (ROp::Slt, 0, ALL, 0),
    (ROp::Slt, MIN, MAX, 1),
    (ROp::Slt, 5, 5, 0),
    (ROp::Sltu, ALL, 0, 0),
    (ROp::Sltu, 0, ALL, 1),
    (ROp::Sltu, MIN, MAX, 0),
    (ROp::Sltu, 5, 5, 0),
    (ROp::Xor, ALL, 15, 0xffff_ffff_ffff_fff0),
    (ROp::Xor, 0xff00, 4080, 0xf0f0),
    (ROp::Or, 0xff00, 4080, 0xfff0),
    (ROp::Or, MIN, 1, 0x8000_0000_0000_0001),
    (ROp::And, 0xff00, 4080, 3840),
    (ROp::And, ALL, MAX, MAX),
    (ROp::Mul, ALL, ALL, 1),
    (ROp::Mul, MIN, 2, 0),
    (ROp::Mul, 0x1_0000_0000, 0x1_0000_0000, 0),
    (ROp::Mul, 3, ALL, 0xffff_ffff_ffff_fffd),
    (ROp::Mulh, ALL, ALL, 0),
    (ROp::Mulh, MIN, MIN, 0x4000_0000_0000_0000),
    (ROp::Mulh, MIN, ALL, 0),
    (ROp::Mulh, MAX, MAX, 0x3fff_ffff_ffff_ffff),
    (ROp::Mulh, ALL, 1, ALL),
    (ROp::Mulh, 5, 7, 0),
    (ROp::Mulhsu, ALL, ALL, ALL),
    (ROp::Mulhsu, MIN, ALL, MIN),
    (ROp::Mulhsu, 1, ALL, 0),
    (ROp::Mulhsu, 2, ALL, 1),
    (ROp::Mulhsu, MIN, 2, ALL),
    (ROp::Mulhu, ALL, ALL, ALL - 1),
    (ROp::Mulhu, MIN, 2, 1),
    (ROp::Mulhu, 0x1_0000_0000, 0x1_0000_0000, 1),
    (ROp::Mulhu, 5, 7, 0),
    (ROp::Div, MIN, ALL, MIN),
    (ROp::Div, 7, 0, ALL),
    (ROp::Div, 0xffff_ffff_ffff_fff9, 2, 0xffff_ffff_ffff_fffd),
    (ROp::Div, 7, ALL - 1, 0xffff_ffff_ffff_fffd),
    (ROp::Div, 0xffff_ffff_ffff_fff9, ALL - 1, 3),
    (ROp::Div, MIN, 1, MIN),
    (ROp::Div, 0, 0, ALL),
    (ROp::Divu, 5, 0, ALL),
    (ROp::Divu, ALL, 2, MAX),
    (ROp::Divu, MIN, ALL, 0),
    (ROp::Divu, 7, 2, 3),
    (ROp::Rem, MIN, ALL, 0),
    (ROp::Rem, 7, 0, 7),
    (ROp::Rem, 0xffff_ffff_ffff_fff9, 2, ALL),
    (ROp::Rem, 7, ALL - 1, 1),
    (ROp::Rem, 0xffff_ffff_ffff_fff9, ALL - 1, ALL),
    (ROp::Rem, MIN, 0, MIN),
    (ROp::Remu, 5, 0, 5),
    (ROp::Remu, ALL, 2, 1),
    (ROp::Remu, MIN, ALL, MIN),
    (ROp::Remu, 7, 2, 1),
    (ROp::Addw, 0x7fff_ffff, 1, MIN_W),
    (ROp::Addw, 0x1_0000_0000, 5, 5),
    (ROp::Addw, ALL, 1, 0),
    (ROp::Addw, 0xffff_ffff, 0, ALL),
    (ROp::Subw, 0, 1, ALL),
    (ROp::Subw, 0x8000_0000, 1, 0x7fff_ffff),
    (ROp::Subw, 0x1_0000_0000, 0, 0),
    (ROp::Subw, 0, 0x8000_0000, MIN_W),
    (ROp::Sllw, 1, 31, MIN_W),
    (ROp::Sllw, 1, 32, 1),
    (ROp::Sllw, 0x8000_0000, 1, 0),
    (ROp::Sllw, 0x1_0000_0001, 4, 16),
    (ROp::Srlw, 0x8000_0000, 31, 1),
    (ROp::Srlw, 0x8000_0000, 32, MIN_W),
    (ROp::Srlw, ALL, 0, ALL),
    (ROp::Srlw, ALL, 4, 0xfff_ffff),
    (ROp::Sraw, 0x8000_0000, 31, ALL),
    (ROp::Sraw, 0x8000_0000, 32, MIN_W),
    (ROp::Sraw, 0x7fff_ffff, 30, 1),
    (ROp::Sraw, 0x1_0000_0008, 1, 4),
    (ROp::Mulw, 0x1_0000_0003, 5, 15),
    (ROp::Mulw, 0x8000_0000, 1, MIN_W),
    (ROp::Mulw, ALL, ALL, 1),
    (ROp::Mulw, 0x1_0000, 0x1_0000, 0),
    (ROp::Divw, 0x8000_0000, ALL, MIN_W),
    (ROp::Divw, 7, 0, ALL),
    (ROp::Divw, 7, 0x1_0000_0000, ALL),
    (ROp::Divw, 0xffff_ffff_ffff_fff9, 2, 0xffff_ffff_ffff_fffd),
    (ROp::Divw, 0xffff_ffff, 1, ALL),
    (ROp::Divw, 0xffff_fff9, 2, 0xffff_ffff_ffff_fffd),
    (ROp::Divuw, 5, 0, ALL),
    (ROp::Divuw, 0xffff_ffff, 1, ALL),
    (ROp::Divuw, ALL, 2, 0x7fff_ffff),
    (ROp::Divuw, 7, 0x1_0000_0000, ALL),
    (ROp::Divuw, 0x8000_0000, 0xffff_ffff, 0),
    (ROp::Remw, 0x8000_0000, ALL, 0),
    (ROp::Remw, 7, 0, 7),
    (ROp::Remw, 0x8000_0000, 0, MIN_W),
    (ROp::Remw, 0xffff_ffff_ffff_fff9, 2, ALL),
    (ROp::Remw, 7, ALL - 1, 1),
    (ROp::Remw, 0xffff_fff9, 2, ALL),
    (ROp::Remuw, 5, 0, 5),
    (ROp::Remuw, 0x8000_0000, 0, MIN_W),
    (ROp::Remuw, ALL, 2, 1),
    (ROp::Remuw, 0xffff_ffff, 0x8000_0000, 0x7fff_ffff),
    (ROp::Remuw, 0x8000_0000, 0xffff_ffff, MIN_W),
];

/// A word of format I from x6 to x5, x6, and the result. Loads find the bytes 0x80 to 0x87 at 0x6800_0000.
static I_ROWS: [(u32, u64, u64); 55] = [
    (0x7ff3_0293, 1, 2048), // addi x5, x6, 2047
    (0x8003_0293, 0, 0xffff_ffff_ffff_f800), // addi x5, x6, -2048
    (0xfff3_0293, 0, ALL), // addi x5, x6, -1
    (0x0013_0293, ALL, 0), // addi x5, x6, 1
    (0xfff3_2293, ALL - 1, 1), // slti x5, x6, -1
    (0xfff3_2293, 0, 0), // slti x5, x6, -1
    (0x0003_2293, MIN, 1), // slti x5, x6, 0
    (0x0053_2293, 5, 0), // slti x5, x6, 5
    (0xfff3_3293, ALL - 1, 1), // sltiu x5, x6, -1
    (0xfff3_3293, ALL, 0), // sltiu x5, x6, -1
    (0x0013_3293, 0, 1), // sltiu x5, x6, 1
    (0x0013_3293, 1, 0), // sltiu x5, x6, 1
    (0xfff3_4293, 0, ALL), // xori x5, x6, -1
    (0x0f03_4293, 255, 15), // xori x5, x6, 240
    (0x8003_6293, 1, 0xffff_ffff_ffff_f801), // ori x5, x6, -2048
    (0x0f03_6293, 15, 255), // ori x5, x6, 240
    (0xfff3_7293, MIN, MIN), // andi x5, x6, -1
    (0x0f03_7293, 255, 240), // andi x5, x6, 240
    (0x03f3_1293, 1, MIN), // slli x5, x6, 63
    (0x0203_1293, 1, 0x1_0000_0000), // slli x5, x6, 32
    (0x0003_1293, 7, 7), // slli x5, x6, 0
    (0x03f3_5293, MIN, 1), // srli x5, x6, 63
    (0x0203_5293, ALL, 0xffff_ffff), // srli x5, x6, 32
    (0x0003_5293, ALL, ALL), // srli x5, x6, 0
    (0x43f3_5293, MIN, ALL), // srai x5, x6, 63
    (0x4203_5293, MIN, MIN_W), // srai x5, x6, 32
    (0x4003_5293, ALL, ALL), // srai x5, x6, 0
    (0x4013_5293, 5, 2), // srai x5, x6, 1
    (0x0013_029b, 0x7fff_ffff, MIN_W), // addiw x5, x6, 1
    (0xfff3_029b, 0, ALL), // addiw x5, x6, -1
    (0x0003_029b, 0x1_0000_0005, 5), // addiw x5, x6, 0
    (0x0003_029b, 0x8000_0000, MIN_W), // addiw x5, x6, 0
    (0x01f3_129b, 1, MIN_W), // slliw x5, x6, 31
    (0x0013_129b, 0x8000_0000, 0), // slliw x5, x6, 1
    (0x0043_129b, 0x1_0000_0001, 16), // slliw x5, x6, 4
    (0x01f3_529b, 0x8000_0000, 1), // srliw x5, x6, 31
    (0x0003_529b, 0x8000_0000, MIN_W), // srliw x5, x6, 0
    (0x0043_529b, ALL, 0xfff_ffff), // srliw x5, x6, 4
    (0x41f3_529b, 0x8000_0000, ALL), // sraiw x5, x6, 31
    (0x4003_529b, 0x8000_0000, MIN_W), // sraiw x5, x6, 0
    (0x4013_529b, 0x1_0000_0008, 4), // sraiw x5, x6, 1
    (0x0003_0283, 0x6800_0000, 0xffff_ffff_ffff_ff80), // lb x5, 0(x6)
    (0x0073_0283, 0x6800_0000, 0xffff_ffff_ffff_ff87), // lb x5, 7(x6)
    (0x0003_1283, 0x6800_0000, 0xffff_ffff_ffff_8180), // lh x5, 0(x6)
    (0x0063_1283, 0x6800_0000, 0xffff_ffff_ffff_8786), // lh x5, 6(x6)
    (0x0003_2283, 0x6800_0000, 0xffff_ffff_8382_8180), // lw x5, 0(x6)
    (0x0043_2283, 0x6800_0000, 0xffff_ffff_8786_8584), // lw x5, 4(x6)
    (0x0003_3283, 0x6800_0000, 0x8786_8584_8382_8180), // ld x5, 0(x6)
    (0x0003_4283, 0x6800_0000, 128), // lbu x5, 0(x6)
    (0x0073_4283, 0x6800_0000, 135), // lbu x5, 7(x6)
    (0x0003_5283, 0x6800_0000, 0x8180), // lhu x5, 0(x6)
    (0x0063_5283, 0x6800_0000, 0x8786), // lhu x5, 6(x6)
    (0x0003_6283, 0x6800_0000, 0x8382_8180), // lwu x5, 0(x6)
    (0x0043_6283, 0x6800_0000, 0x8786_8584), // lwu x5, 4(x6)
    (0xfff3_4283, 0x6800_0001, 128), // lbu x5, -1(x6)
];

/// A branch of x6 and x7, and whether it is taken.
static BRANCHES: [(BOp, u64, u64, bool); 22] = [
    (BOp::Beq, 5, 5, true),
    (BOp::Beq, ALL, 0, false),
    (BOp::Beq, MIN, MAX, false),
    (BOp::Bne, 5, 5, false),
    (BOp::Bne, ALL, 0, true),
    (BOp::Bne, 0, MIN, true),
    (BOp::Blt, ALL, 0, true),
    (BOp::Blt, 0, ALL, false),
    (BOp::Blt, 5, 5, false),
    (BOp::Blt, MIN, MAX, true),
    (BOp::Bge, ALL, 0, false),
    (BOp::Bge, 0, ALL, true),
    (BOp::Bge, 5, 5, true),
    (BOp::Bge, MIN, MAX, false),
    (BOp::Bltu, ALL, 0, false),
    (BOp::Bltu, 0, ALL, true),
    (BOp::Bltu, 5, 5, false),
    (BOp::Bltu, MIN, MAX, false),
    (BOp::Bgeu, ALL, 0, true),
    (BOp::Bgeu, 0, ALL, false),
    (BOp::Bgeu, 5, 5, true),
    (BOp::Bgeu, MAX, MIN, false),
];

/// A word, x6, and the place and x5 after it.
static PLACES: [(u32, u64, u64, u64); 11] = [
    (0x8000_02b7, 0, NEXT, MIN_W),
    (0x7fff_f2b7, 0, NEXT, 0x7fff_f000),
    (0x0000_1297, 0, NEXT, PLACE + 0x1000),
    (0xffff_f297, 0, NEXT, PLACE - 0x1000),
    (0x8000_0297, 0, NEXT, PLACE + 0xffff_ffff_8000_0000),
    (0x0080_02ef, 0, PLACE + 8, NEXT),
    (0xffdf_f06f, 0, PLACE - 4, 0),
    (0x0003_02e7, PLACE + 8, PLACE + 8, NEXT),
    (0x0033_02e7, PLACE + 6, PLACE + 8, NEXT),
    (0x0ff0_000f, 0, NEXT, 0),
    (0x0010_0013, 0, NEXT, 0),
];

/// A jump out of the code, x6, and the place that it goes to.
static FAR: [(u32, u64, u64); 4] = [
    (0x0020_02ef, 0, PLACE + 2),
    (0x0003_02e7, 0x2_0000, 0x2_0000),
    (0x0033_02e7, 0x2_0000, 0x2_0002),
    (0xfff3_0067, 0, 0xffff_ffff_ffff_fffe),
];

/// A store of x7 to x6, x7, and the eight bytes there afterwards, which were all ones.
static STORES: [(u32, u64, u64); 6] = [
    (0x0073_0023, 0x1234, 0xffff_ffff_ffff_ff34),
    (0x0073_00a3, 0x1234, 0xffff_ffff_ffff_34ff),
    (0x0073_1023, 0x1_8765, 0xffff_ffff_ffff_8765),
    (0x0073_1323, 0x8765, 0x8765_ffff_ffff_ffff),
    (0x0073_2223, 0x1_8765_4321, 0x8765_4321_ffff_ffff),
    (0x0073_3023, MIN, MIN),
];

/// How a run ends that makes x6, x7 and the x5 that is expected, and then goes on with these words.
fn end_of(
    alloc: Global,
    words: &[u32],
    (x, y): (u64, u64),
    expected: u64,
) -> Result<Option<CpuEnd>, ParamStop> {
    end_after(alloc, &[(6, x), (7, y), (8, expected)], words)
}

#[test]
fn operations_give_the_results_of_the_manual(rt: HostRuntime) -> Result<(), Fail> {
    assert_eq!(rt; place_after(3), PLACE);
    for &(op, x, y, result) in &R_ROWS {
        let word = encode(Instr::R {
            op,
            rd: 5,
            rs1: 6,
            rs2: 7,
        });
        let end = end_of(rt.alloc(), &[word], (x, y), result)?;
        assert_eq!(rt; end, lands(NEXT), "{op:?} {x} {y}");
    }
    for &(word, x, result) in &I_ROWS {
        let end = end_of(rt.alloc(), &[word], (x, 0), result)?;
        assert_eq!(rt; end, lands(NEXT), "{word} {x}");
    }
    Ok(())
}

#[test]
fn branches_and_jumps_go_to_their_places(rt: HostRuntime) -> Result<(), Fail> {
    for &(op, x, y, taken) in &BRANCHES {
        let word = encode(Instr::B {
            op,
            rs1: 6,
            rs2: 7,
            imm: -8,
        });
        let place = if taken { PLACE - 8 } else { NEXT };
        let end = end_of(rt.alloc(), &[word], (x, y), 0)?;
        assert_eq!(rt; end, lands(place), "{op:?} {x} {y}");
    }
    for &(word, x, place, result) in &PLACES {
        let end = end_of(rt.alloc(), &[word], (x, 0), result)?;
        assert_eq!(rt; end, lands(place), "{word} {x}");
    }
    for &(word, x, place) in &FAR {
        let end = end_of(rt.alloc(), &[word], (x, 0), 0)?;
        assert_eq!(rt; end, Some(CpuEnd::Fetch(place)), "{word} {x}");
    }
    Ok(())
}

#[test]
fn stores_write_their_bytes_alone(rt: HostRuntime) -> Result<(), Fail> {
    for &(word, y, result) in &STORES {
        let words = [0xfff0_0293, 0x0053_3023, word, 0x0003_3283];
        let end = end_of(rt.alloc(), &words, (0x6c00_0000, y), result)?;
        assert_eq!(rt; end, lands(PLACE + 16), "{word} {y}");
    }
    Ok(())
}
