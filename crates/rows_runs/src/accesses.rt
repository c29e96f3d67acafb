// What each region may be used for, and which calls can be made.
use rows_back::code::{answer_after, end_after, lands, place_after};
use rv_emulate::{CpuEnd, CpuStep};
use std::test::Fail;

/// Where an instruction stands behind the number of one register.
const PLACE: u64 = 0x1_004c;

const LOAD: CpuStep = CpuStep::Ended(CpuEnd::Load(PLACE));

const STORE: CpuStep = CpuStep::Ended(CpuEnd::Store(PLACE));

/// A load to x5 or a store of x0, the address in x6, and what it answers, in an image of 166 cells of 16 bytes, one
/// table and nine constants.
static REGIONS: [(u32, u64, CpuStep); 36] = [
    (0x0003_3283, 0x4000_0000, CpuStep::Next),
    (0x0003_3283, 0x4000_0a58, CpuStep::Next),
    (0x0003_3283, 0x4000_0a60, LOAD),
    (0x0003_3283, 0x3fff_fff8, LOAD),
    (0x0003_4283, 0x5000_00a5, CpuStep::Next),
    (0x0003_4283, 0x5000_00a6, LOAD),
    (0x0003_3283, 0x6000_0ff8, CpuStep::Next),
    (0x0003_3283, 0x6000_1000, LOAD),
    (0x0003_4283, 0x6800_0008, CpuStep::Next),
    (0x0003_4283, 0x6800_0009, LOAD),
    (0x0003_3283, 0x6800_0008, LOAD),
    (0x0003_3283, 0x6c00_fff8, CpuStep::Next),
    (0x0003_3283, 0x6c01_0000, LOAD),
    (0x0003_6283, 0x0001_0000, LOAD),
    (0x0003_4283, 0, LOAD),
    (0x0003_3283, 0xffff_ffff_ffff_fff8, LOAD),
    (0x0003_1283, 0x6c00_0001, LOAD),
    (0x0003_2283, 0x6c00_0002, LOAD),
    (0x0003_3283, 0x6c00_0004, LOAD),
    (0x0003_1283, 0x6c00_0002, CpuStep::Next),
    (0x0003_2283, 0x6c00_0004, CpuStep::Next),
    (0x0003_3023, 0x4000_0a58, CpuStep::Next),
    (0x0003_3023, 0x4000_0a60, STORE),
    (0x0003_0023, 0x5000_00a5, CpuStep::Next),
    (0x0003_0023, 0x5000_00a6, STORE),
    (0x0003_3023, 0x6000_0ff8, CpuStep::Next),
    (0x0003_3023, 0x6000_1000, STORE),
    (0x0003_0023, 0x6800_0000, STORE),
    (0x0003_3023, 0x6c00_fff8, CpuStep::Next),
    (0x0003_3023, 0x6c01_0000, STORE),
    (0x0003_2023, 0x0001_0000, STORE),
    (0x0003_1023, 0x6c00_0001, STORE),
    (0x0003_2023, 0x6c00_0002, STORE),
    (0x0003_3023, 0x6c00_0004, STORE),
    (0x0003_1023, 0x6c00_0002, CpuStep::Next),
    (0x0003_2023, 0x6c00_0004, CpuStep::Next),
];

/// Where a call stands behind the numbers of nine registers.
pub const CALL: u64 = 0x1_024c;

/// A call whose answer is stored: the first eight bytes of the cells become ones, then the answer is
/// written over them, and loaded from there to x5.
pub const ANSWER: [u32; 6] = [
    0x0000_0073, // ecall
    0x4000_0337, // lui x6, 0x40000
    0xfff0_0293, // addi x5, x0, -1
    0x0053_3023, // sd x5, 0(x6)
    0x00a3_3023, // sd x10, 0(x6)
    0x0003_3283, // ld x5, 0(x6)
];

/// Where a run is behind these words.
pub const ANSWERED: u64 = CALL + 24;

pub const CONSTANTS: u64 = 0x6800_0000;

pub const SCRATCH: u64 = 0x6c00_0000;

const ALL: u64 = 0xffff_ffff_ffff_ffff;

/// a7, a0 to a5 and s10, and what the call answers.
type Row = (u64, [u64; 6], u64, CpuStep);

/// In an image of one statement, 166 cells of 16 bytes, one table and nine constants.
static GOOD: [Row; 16] = [
    (2, [5, SCRATCH, 10, 0, 0, 0], 0, CpuStep::Next),
    (2, [5, ALL, 0, 0, 0, 0], 9, CpuStep::Next),
    (2, [0, 0x4000_0000, 2656, 0, 0, 0], 0, CpuStep::Next),
    (2, [ALL, 0x5000_0000, 166, 0, 0, 0], 0, CpuStep::Next),
    (2, [5, 0x6000_0ff0, 16, 0, 0, 0], 0, CpuStep::Next),
    (3, [6, CONSTANTS, 9, SCRATCH, 65536, 0], 0, CpuStep::Next),
    (3, [6, CONSTANTS, 0, SCRATCH, 40, 1], 0, CpuStep::Next),
    (3, [6, SCRATCH, 256, CONSTANTS, 1, 1], 0, CpuStep::Next),
    (3, [6, ALL, 0, 8, 0, 1], 0, CpuStep::Next),
    (4, [1, 0, 0, 0, 0, 0], 0, CpuStep::Next),
    (5, [16, 0, 0, 0, 0, 0], 0, CpuStep::Next),
    (6, [0, ALL, ALL, ALL, ALL, ALL], 0, CpuStep::Next),
    (1, [1, 0, 0, 0, 0, 0], 1, CpuStep::Ended(CpuEnd::Exit(1))),
    (1, [2, 0, 0, 0, 0, 0], 1, CpuStep::Ended(CpuEnd::Trap(1))),
    (
        1,
        [3, 0, 0, 0, 0, 0],
        0,
        CpuStep::Ended(CpuEnd::Undefined(0)),
    ),
    (1, [4, 0, 0, 0, 0, 0], 1, CpuStep::Ended(CpuEnd::Budget)),
];

/// a7, a0 to a5 and s10.
static BAD: [(u64, [u64; 6], u64); 20] = [
    (0, [0, 0, 0, 0, 0, 0], 0),
    (7, [0, 0, 0, 0, 0, 0], 0),
    (ALL, [0, 0, 0, 0, 0, 0], 0),
    (1, [6, 0, 0, 0, 0, 0], 0),
    (1, [ALL, 0, 0, 0, 0, 0], 0),
    (1, [0, 0, 0, 0, 0, 0], 2),
    (1, [5, 0, 0, 0, 0, 0], 0),
    (2, [5, CONSTANTS, 1, 0, 0, 0], 0),
    (2, [5, 0x6c00_fffa, 7, 0, 0, 0], 0),
    (2, [5, 0x1_0000, 4, 0, 0, 0], 0),
    (2, [5, SCRATCH, ALL, 0, 0, 0], 0),
    (3, [6, SCRATCH, 257, SCRATCH, 0, 0], 0),
    (3, [6, CONSTANTS, 10, SCRATCH, 0, 0], 0),
    (3, [6, CONSTANTS, 9, SCRATCH, 0, 2], 0),
    (3, [6, CONSTANTS, 9, SCRATCH, 65537, 0], 0),
    (3, [6, CONSTANTS, 9, SCRATCH, 41, 1], 0),
    (3, [6, CONSTANTS, 9, 0x6c00_0004, 0, 1], 0),
    (3, [6, CONSTANTS, 9, 0x6c00_fff8, 2, 1], 0),
    (3, [6, CONSTANTS, 9, ALL, 2, 0], 0),
    (3, [6, CONSTANTS, 9, CONSTANTS, 2, 1], 0),
];

/// The registers of a call, with what it answers in x8.
pub fn registers(a7: u64, operands: &[u64; 6], s10: u64, answer: u64) -> [(u32, u64); 9] {
    let [a0, a1, a2, a3, a4, a5] = *operands;
    [
        (10, a0),
        (11, a1),
        (12, a2),
        (13, a3),
        (14, a4),
        (15, a5),
        (17, a7),
        (26, s10),
        (8, answer),
    ]
}

#[test]
fn regions_are_loaded_and_stored_by_their_rights(rt: HostRuntime) -> Result<(), Fail> {
    assert_eq!(rt; place_after(1), PLACE);
    for &(word, address, answer) in &REGIONS {
        assert_eq!(rt;
            answer_after(rt.alloc(), &[(6, address)], word)?,
            Some(answer),
            "{word} {address}"
        );
    }
    Ok(())
}

#[test]
fn calls_on_absent_units_answer_4_and_others_end(rt: HostRuntime) -> Result<(), Fail> {
    assert_eq!(rt; place_after(9), CALL);
    for (a7, operands, s10, answer) in &GOOD {
        let registers = registers(*a7, operands, *s10, 4);
        let end = end_after(rt.alloc(), &registers, &ANSWER)?;
        let expected = match answer {
            CpuStep::Next => lands(ANSWERED),
            CpuStep::Ended(end) => Some(*end),
        };
        assert_eq!(rt; end, expected, "{a7} {operands:?}");
    }
    for (a7, operands, s10) in &BAD {
        let registers = registers(*a7, operands, *s10, 4);
        let answer = answer_after(rt.alloc(), &registers, 0x0000_0073)?;
        let bad = CpuStep::Ended(CpuEnd::BadCall(CALL));
        assert_eq!(rt; answer, Some(bad), "{a7} {operands:?}");
    }
    Ok(())
}
