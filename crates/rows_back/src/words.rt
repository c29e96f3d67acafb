// Words of the RISC-V unprivileged manual's formats, put together by hand.

use rv_isa::{BOp, IOp, Instr, ROp, SOp, UOp, decode, encode};
use std::process::Abort;

/// Word, operation, rd, rs1 and rs2.
static R_WORDS: [(u32, ROp, u8, u8, u8); 28] = [
    (0x00a1_08b3, ROp::Add, 17, 2, 10),
    (0x0020_9fb3, ROp::Sll, 31, 1, 2),
    (0x0070_ad33, ROp::Slt, 26, 1, 7),
    (0x0110_bd33, ROp::Sltu, 26, 1, 17),
    (0x0020_c2b3, ROp::Xor, 5, 1, 2),
    (0x0015_58b3, ROp::Srl, 17, 10, 1),
    (0x01a1_62b3, ROp::Or, 5, 2, 26),
    (0x01a0_f533, ROp::And, 10, 1, 26),
    (0x41f2_8133, ROp::Sub, 2, 5, 31),
    (0x4015_5d33, ROp::Sra, 26, 10, 1),
    (0x0278_8d33, ROp::Mul, 26, 17, 7),
    (0x0222_90b3, ROp::Mulh, 1, 5, 2),
    (0x0272_ad33, ROp::Mulhsu, 26, 5, 7),
    (0x03a1_38b3, ROp::Mulhu, 17, 2, 26),
    (0x0278_c0b3, ROp::Div, 1, 17, 7),
    (0x022f_dd33, ROp::Divu, 26, 31, 2),
    (0x031d_60b3, ROp::Rem, 1, 26, 17),
    (0x0271_7fb3, ROp::Remu, 31, 2, 7),
    (0x01fd_00bb, ROp::Addw, 1, 26, 31),
    (0x0028_90bb, ROp::Sllw, 1, 17, 2),
    (0x00a2_dd3b, ROp::Srlw, 26, 5, 10),
    (0x4078_8fbb, ROp::Subw, 31, 17, 7),
    (0x41a8_d2bb, ROp::Sraw, 5, 17, 26),
    (0x02a2_83bb, ROp::Mulw, 7, 5, 10),
    (0x03f2_c13b, ROp::Divw, 2, 5, 31),
    (0x03a0_d13b, ROp::Divuw, 2, 1, 26),
    (0x02a8_e3bb, ROp::Remw, 7, 17, 10),
    (0x02af_f2bb, ROp::Remuw, 5, 31, 10),
];

/// Word, operation, rd, rs1 and immediate.
static I_WORDS: [(u32, IOp, u8, u8, i16); 25] = [
    (0x7ff0_8893, IOp::Addi, 17, 1, 2047),
    (0x8005_2d13, IOp::Slti, 26, 10, -2048),
    (0xfff1_3293, IOp::Sltiu, 5, 2, -1),
    (0x0080_c893, IOp::Xori, 17, 1, 8),
    (0x3ffd_6113, IOp::Ori, 2, 26, 1023),
    (0xf9c2_f393, IOp::Andi, 7, 5, -100),
    (0x03fd_1513, IOp::Slli, 10, 26, 63),
    (0x0283_d893, IOp::Srli, 17, 7, 40),
    (0x4205_5093, IOp::Srai, 1, 10, 32),
    (0x008d_0f83, IOp::Lb, 31, 26, 8),
    (0x800f_9083, IOp::Lh, 1, 31, -2048),
    (0x3ffd_2383, IOp::Lw, 7, 26, 1023),
    (0xf9c3_bf83, IOp::Ld, 31, 7, -100),
    (0x7ff5_4d03, IOp::Lbu, 26, 10, 2047),
    (0x3ff0_d283, IOp::Lhu, 5, 1, 1023),
    (0x0082_e503, IOp::Lwu, 10, 5, 8),
    (0xf9c8_80e7, IOp::Jalr, 1, 17, -100),
    (0x8003_829b, IOp::Addiw, 5, 7, -2048),
    (0x0011_1f9b, IOp::Slliw, 31, 2, 1),
    (0x0108_d51b, IOp::Srliw, 10, 17, 16),
    (0x4015_511b, IOp::Sraiw, 2, 10, 1),
    (0x0ff0_000f, IOp::Fence, 0, 0, 255),
    (0x4001_5093, IOp::Srai, 1, 2, 0),
    (0x41f1_509b, IOp::Sraiw, 1, 2, 31),
    (0x8001_008f, IOp::Fence, 1, 2, -2048),
];

/// Word, operation, rs1, rs2 and immediate.
static S_WORDS: [(u32, SOp, u8, u8, i16); 4] = [
    (0x7e5d_0fa3, SOp::Sb, 26, 5, 2047),
    (0xffa5_1fa3, SOp::Sh, 10, 26, -1),
    (0xfe7f_afa3, SOp::Sw, 31, 7, -1),
    (0x7ead_3fa3, SOp::Sd, 26, 10, 2047),
];

/// Word, operation, rs1, rs2 and immediate.
static B_WORDS: [(u32, BOp, u8, u8, i16); 6] = [
    (0x8011_0063, BOp::Beq, 2, 1, -4096),
    (0x7e53_9fe3, BOp::Bne, 7, 5, 4094),
    (0xfff1_4ee3, BOp::Blt, 2, 31, -4),
    (0x0012_d0e3, BOp::Bge, 5, 1, 2048),
    (0x81a8_e0e3, BOp::Bltu, 17, 26, -2048),
    (0x0071_7f63, BOp::Bgeu, 2, 7, 30),
];

/// Word, operation, rd and upper 20 bits.
static U_WORDS: [(u32, UOp, u8, u32); 2] = [
    (0x8000_1537, UOp::Lui, 10, 0x80001),
    (0xffff_f097, UOp::Auipc, 1, 0xfffff),
];

/// Word, rd and immediate.
static J_WORDS: [(u32, u8, i32); 4] = [
    (0x8000_02ef, 5, -1048576),
    (0x7fff_f8ef, 17, 1048574),
    (0x0010_0d6f, 26, 2048),
    (0xffdf_f2ef, 5, -4),
];

/// The word is read as the instruction, and the instruction has the word.
fn expect(rt: &impl Abort, word: u32, instr: Instr) {
    let read = decode(word);
    assert_eq!(rt; read, Some(instr));
    if let Some(i) = read {
        assert_eq!(rt; encode(i), word);
    }
}

#[test]
fn every_instruction_has_its_word(rt: HostRuntime) {
    for &(word, op, rd, rs1, rs2) in &R_WORDS {
        expect(&rt, word, Instr::R { op, rd, rs1, rs2 });
    }
    for &(word, op, rd, rs1, imm) in &I_WORDS {
        expect(&rt, word, Instr::I { op, rd, rs1, imm });
    }
    for &(word, op, rs1, rs2, imm) in &S_WORDS {
        expect(&rt, word, Instr::S { op, rs1, rs2, imm });
    }
    for &(word, op, rs1, rs2, imm) in &B_WORDS {
        expect(&rt, word, Instr::B { op, rs1, rs2, imm });
    }
    for &(word, op, rd, imm) in &U_WORDS {
        expect(&rt, word, Instr::U { op, rd, imm });
    }
    for &(word, rd, imm) in &J_WORDS {
        expect(&rt, word, Instr::J { rd, imm });
    }
    expect(&rt, 0x0000_0073, Instr::Ecall);
}

/// A word of the manual, and its instruction.
static MANUAL: [(u32, Instr); 6] = [
    (
        0x0010_0093,
        Instr::I {
            op: IOp::Addi,
            rd: 1,
            rs1: 0,
            imm: 1,
        },
    ),
    (
        0x0020_81b3,
        Instr::R {
            op: ROp::Add,
            rd: 3,
            rs1: 1,
            rs2: 2,
        },
    ),
    (
        0x0083_6283,
        Instr::I {
            op: IOp::Lwu,
            rd: 5,
            rs1: 6,
            imm: 8,
        },
    ),
    (
        0x0053_3823,
        Instr::S {
            op: SOp::Sd,
            rs1: 6,
            rs2: 5,
            imm: 16,
        },
    ),
    (
        0xfe20_8ee3,
        Instr::B {
            op: BOp::Beq,
            rs1: 1,
            rs2: 2,
            imm: -4,
        },
    ),
    (0x0000_006f, Instr::J { rd: 0, imm: 0 }),
];

/// EBREAK, FENCE.I, C.LI, the word of zeros and of ones, an amount of 32 in a W form, SLLI and SRAI with another
/// bit above the amount, an R form with another funct7, MULW's row with MULH's funct3, LD's opcode with funct3 7,
/// a store and a branch of no row, JALR with funct3 1, and a CSR instruction.
static NO_ROWS: [u32; 15] = [
    0x0010_0073,
    0x0000_100f,
    0x0000_4501,
    0x0000_0000,
    0xffff_ffff,
    0x0201_109b,
    0x0401_1093,
    0x6001_5093,
    0x0420_81b3,
    0x0220_91bb,
    0x0083_7283,
    0x0053_4823,
    0xfe20_aee3,
    0x0000_9067,
    0x3000_1073,
];

#[test]
fn words_of_the_manual_have_their_instructions(rt: HostRuntime) {
    for &(word, instr) in &MANUAL {
        expect(&rt, word, instr);
    }
    for &word in &NO_ROWS {
        assert_eq!(rt; decode(word), None);
    }
}
