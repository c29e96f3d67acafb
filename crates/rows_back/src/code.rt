// Words that are run in an image of their own.
use image_file::Image;
use layout_params::{ParamStop, STANDARD_PARAMS, read_params};
use rv_emulate::{Cpu, CpuEnd, CpuStep};
use rv_isa::{BOp, Instr, encode};
use sil_macros::Macro;
use std::alloc::{AllocError, Global};
use unit_io::{UnitSet, Units};

/// An image of these words and constants, and a table, with 166 cells of 16 bytes, whose one statement is at the
/// first of the words.
fn image_with(alloc: Global, words: &[u32], constants: &[u8]) -> Result<Option<Image>, ParamStop> {
    Ok(Image::new(
        &read_params(alloc, STANDARD_PARAMS)?,
        Vec::from_slice(alloc, &[(0x1_0000, 1, Macro::Endex)])?,
        Vec::from_slice(alloc, words)?,
        Vec::from_slice(alloc, constants)?,
        Vec::new(alloc),
        Vec::new(alloc),
        vec![in alloc; 0u8; 4096]?,
    ))
}

/// An image of these words and nine constants.
pub fn image_of(alloc: Global, words: &[u32]) -> Result<Option<Image>, ParamStop> {
    let constants = [0x80, 0x81, 0x82, 0x83, 0x84, 0x85, 0x86, 0x87, 2];
    image_with(alloc, words, &constants)
}

pub fn cpu_of(alloc: Global, words: &[u32]) -> Result<Option<Cpu>, ParamStop> {
    let Some(image) = image_of(alloc, words)? else {
        return Ok(None);
    };
    Ok(Some(Cpu::new(alloc, &image, 1)?))
}

/// How a run of these words ends within a thousand instructions.
pub fn end_of(alloc: Global, words: &[u32]) -> Result<Option<CpuEnd>, ParamStop> {
    let Some(mut cpu) = cpu_of(alloc, words)? else {
        return Ok(None);
    };
    Ok(Some(cpu.run(&mut Units::new(), 1000)))
}

/// Words that make a number in a register: SLLI by eight and ORI of the next byte, eight times.
fn make_number(words: &mut Vec<u32>, register: u32, number: u64) -> Result<(), AllocError> {
    let both = register << 7 | register << 15;
    for byte in number.to_be_bytes() {
        words.push(0x0080_1013 | both)?;
        words.push(0x0000_6013 | both | u32::from(byte) << 20)?;
    }
    Ok(())
}

/// Where the words stand behind so many registers' numbers, a jump and two tests.
pub fn place_after(registers: u64) -> u64 {
    registers.wrapping_mul(64).wrapping_add(0x1_000c)
}

/// Words that make registers, then these words. Before them and behind them stand tests that x5 is x8, each of
/// which jumps by 64 where that is so, to a word that is no instruction.
fn code_of(alloc: Global, registers: &[(u32, u64)], words: &[u32]) -> Result<Vec<u32>, AllocError> {
    let test = encode(Instr::B {
        op: BOp::Beq,
        rs1: 5,
        rs2: 8,
        imm: 64,
    });
    let mut code = Vec::new(alloc);
    for (register, number) in registers {
        make_number(&mut code, *register, *number)?;
    }
    code.push(encode(Instr::J { rd: 0, imm: 12 }))?;
    code.extend_from_slice(&[test; 2])?;
    code.extend_from_slice(words)?;
    code.extend_from_slice(&[test; 3])?;
    code.extend_from_slice(&[0; 40])?;
    Ok(code)
}

/// How a run of such words ends.
pub fn end_after(
    alloc: Global,
    registers: &[(u32, u64)],
    words: &[u32],
) -> Result<Option<CpuEnd>, ParamStop> {
    end_of(alloc, &code_of(alloc, registers, words)?)
}

/// How a run of such words ends, over these constants and on these units.
pub fn end_on<U: UnitSet>(
    alloc: Global,
    constants: &[u8],
    registers: &[(u32, u64)],
    words: &[u32],
    units: &mut U,
) -> Result<Option<CpuEnd>, ParamStop> {
    let code = code_of(alloc, registers, words)?;
    let Some(image) = image_with(alloc, &code, constants)? else {
        return Ok(None);
    };
    let mut cpu = Cpu::new(alloc, &image, 1)?;
    Ok(Some(cpu.run(units, 1000)))
}

/// How it ends where it comes to this place, and x5 is x8 there.
pub fn lands(place: u64) -> Option<CpuEnd> {
    Some(CpuEnd::Illegal(place.wrapping_add(64)))
}

/// What the first of such words answers.
pub fn answer_after(
    alloc: Global,
    registers: &[(u32, u64)],
    word: u32,
) -> Result<Option<CpuStep>, ParamStop> {
    let Some(mut cpu) = cpu_of(alloc, &code_of(alloc, registers, &[word])?)? else {
        return Ok(None);
    };
    let mut units = Units::new();
    for _ in registers {
        let _ = cpu.run(&mut units, 16);
    }
    let _ = cpu.step(&mut units);
    Ok(Some(cpu.step(&mut units)))
}
