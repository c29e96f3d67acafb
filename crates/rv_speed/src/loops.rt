// The loops that are timed, each by its words.

/// A loop, which never ends by itself.
#[derive(Clone, Copy, PartialEq, Eq)]
pub enum Loop {
    Mixed,
    Arithmetic,
    Bytes,
    Halves,
    Singles,
    Doubles,
    Branches,
    Calls,
    Division,
    Fields,
}

/// The loop of this name.
pub fn named(name: &str) -> Option<Loop> {
    match name {
        "mixed" => Some(Loop::Mixed),
        "arithmetic" => Some(Loop::Arithmetic),
        "bytes" => Some(Loop::Bytes),
        "halves" => Some(Loop::Halves),
        "singles" => Some(Loop::Singles),
        "doubles" => Some(Loop::Doubles),
        "branches" => Some(Loop::Branches),
        "calls" => Some(Loop::Calls),
        "division" => Some(Loop::Division),
        "fields" => Some(Loop::Fields),
        _ => None,
    }
}

/// The words of a loop.
pub fn words_of(chosen: Loop) -> &'static [u32] {
    match chosen {
        Loop::Mixed => &MIXED,
        Loop::Arithmetic => &ARITHMETIC,
        Loop::Bytes => &BYTES,
        Loop::Halves => &HALVES,
        Loop::Singles => &SINGLES,
        Loop::Doubles => &DOUBLES,
        Loop::Branches => &BRANCHES,
        Loop::Calls => &CALLS,
        Loop::Division => &DIVISION,
        Loop::Fields => &FIELDS,
    }
}

/// x8 is the first place of scratch. The loop counts in x5, mixes the count into x6 and x7, and keeps
/// x7 in memory.
const MIXED: [u32; 9] = [
    0x6c000437, // lui x8, 0x6c000
    0x00128293, // addi x5, x5, 1
    0x00530333, // add x6, x6, x5
    0x025303b3, // mul x7, x6, x5
    0x00743423, // sd x7, x8, 8
    0x00843483, // ld x9, x8, 8
    0x4034d493, // srai x9, x9, 3
    0x00934333, // xor x6, x6, x9
    0xfe0292e3, // bne x5, x0, -28
];

/// Sums, bits, shifts and comparisons.
const ARITHMETIC: [u32; 12] = [
    0x00128293, // addi x5, x5, 1
    0x00530333, // add x6, x6, x5
    0x00731393, // slli x7, x6, 7
    0x00734333, // xor x6, x6, x7
    0x00935393, // srli x7, x6, 9
    0x40730333, // sub x6, x6, x7
    0x005334b3, // sltu x9, x6, x5
    0x005373b3, // and x7, x6, x5
    0x007484bb, // addw x9, x9, x7
    0x0054e533, // or x10, x9, x5
    0x0035059b, // addiw x11, x10, 3
    0xfc029ae3, // bne x5, x0, -44
];

/// Stores and loads of one byte.
const BYTES: [u32; 10] = [
    0x6c000437, // lui x8, 0x6c000
    0x00128293, // addi x5, x5, 1
    0x04540023, // sb x5, x8, 64
    0x04040303, // lb x6, x8, 64
    0x04144383, // lbu x7, x8, 65
    0x046400a3, // sb x6, x8, 65
    0x04240483, // lb x9, x8, 66
    0x04740123, // sb x7, x8, 66
    0x04044503, // lbu x10, x8, 64
    0xfe0290e3, // bne x5, x0, -32
];

/// Stores and loads of two bytes.
const HALVES: [u32; 10] = [
    0x6c000437, // lui x8, 0x6c000
    0x00128293, // addi x5, x5, 1
    0x04541023, // sh x5, x8, 64
    0x04041303, // lh x6, x8, 64
    0x04245383, // lhu x7, x8, 66
    0x04641123, // sh x6, x8, 66
    0x04441483, // lh x9, x8, 68
    0x04741223, // sh x7, x8, 68
    0x04045503, // lhu x10, x8, 64
    0xfe0290e3, // bne x5, x0, -32
];

/// Stores and loads of four bytes.
const SINGLES: [u32; 10] = [
    0x6c000437, // lui x8, 0x6c000
    0x00128293, // addi x5, x5, 1
    0x04542023, // sw x5, x8, 64
    0x04042303, // lw x6, x8, 64
    0x04446383, // lwu x7, x8, 68
    0x04642223, // sw x6, x8, 68
    0x04842483, // lw x9, x8, 72
    0x04742423, // sw x7, x8, 72
    0x04046503, // lwu x10, x8, 64
    0xfe0290e3, // bne x5, x0, -32
];

/// Stores and loads of eight bytes.
const DOUBLES: [u32; 10] = [
    0x6c000437, // lui x8, 0x6c000
    0x00128293, // addi x5, x5, 1
    0x04543023, // sd x5, x8, 64
    0x04043303, // ld x6, x8, 64
    0x04843383, // ld x7, x8, 72
    0x04643423, // sd x6, x8, 72
    0x05043483, // ld x9, x8, 80
    0x04743823, // sd x7, x8, 80
    0x04043503, // ld x10, x8, 64
    0xfe0290e3, // bne x5, x0, -32
];

/// Branches, taken and not taken.
const BRANCHES: [u32; 11] = [
    0x00128293, // addi x5, x5, 1
    0x0012f313, // andi x6, x5, 1
    0x00030463, // beq x6, x0, 8
    0x00138393, // addi x7, x7, 1
    0x0072c463, // blt x5, x7, 8
    0x0072f463, // bgeu x5, x7, 8
    0x00148493, // addi x9, x9, 1
    0x0053e463, // bltu x7, x5, 8
    0x00248493, // addi x9, x9, 2
    0xfc02dee3, // bge x5, x0, -36
    0xfd9ff06f, // jal x0, -40
];

/// A routine is called and returns.
const CALLS: [u32; 7] = [
    0x014000ef, // jal x1, 20
    0x00128293, // addi x5, x5, 1
    0x00000097, // auipc x1, 0
    0x00c080e7, // jalr x1, x1, 12
    0xff1ff06f, // jal x0, -16
    0x00130313, // addi x6, x6, 1
    0x00008067, // jalr x0, x1, 0
];

/// Quotients and remainders.
const DIVISION: [u32; 10] = [
    0x04d00413, // addi x8, x0, 77
    0x00128293, // addi x5, x5, 1
    0x00b29313, // slli x6, x5, 11
    0x028343b3, // div x7, x6, x8
    0x028364b3, // rem x9, x6, x8
    0x028353b3, // divu x7, x6, x8
    0x028374b3, // remu x9, x6, x8
    0x0283453b, // divw x10, x6, x8
    0x028375bb, // remuw x11, x6, x8
    0xfe0290e3, // bne x5, x0, -32
];

/// A field of the first cell is read, raised and written, as installed programs do it: each time a
/// shared routine tests that the address is a descriptor's.
const FIELDS: [u32; 29] = [
    0x40000437, // lui x8, 0x40000
    0x00040513, // addi x10, x8, 0
    0x00000597, // auipc x11, 0
    0x028585e7, // jalr x11, x11, 40
    0x00053603, // ld x12, x10, 0
    0x00160613, // addi x12, x12, 1
    0x00040513, // addi x10, x8, 0
    0x00000597, // auipc x11, 0
    0x014585e7, // jalr x11, x11, 20
    0x00c53023, // sd x12, x10, 0
    0x00128293, // addi x5, x5, 1
    0xfc029ce3, // bne x5, x0, -40
    0x40000e37, // lui x28, 0x40000
    0x41c50e33, // sub x28, x10, x28
    0x01000e93, // addi x29, x0, 16
    0x03de7f33, // remu x30, x28, x29
    0x020f1463, // bne x30, x0, 40
    0x03de5e33, // divu x28, x28, x29
    0x00001eb7, // lui x29, 0x1
    0xfa0e8e93, // addi x29, x29, -96
    0x01de7c63, // bgeu x28, x29, 24
    0x50000eb7, // lui x29, 0x50000
    0x01de0e33, // add x28, x28, x29
    0x000e4e03, // lbu x28, x28, 0
    0x000e1463, // bne x28, x0, 8
    0x00058067, // jalr x0, x11, 0
    0x00100893, // addi x17, x0, 1
    0x00300513, // addi x10, x0, 3
    0x00000073, // ecall
];
