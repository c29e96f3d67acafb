// The instructions that statements take, far below their bound of 2,000 and more each.

use image_file::load_image;
use rows_go::go::{files, go};
use rv_emulate::{Cpu, CpuEnd};
use std::alloc::{AllocError, Global};
use std::test::Fail;
use unit_io::Units;

/// Sources, and a bound within which they have not ended by one instruction.
static ROWS: [(&[u8], u128); 3] = [
    (b" ENDEX X\nX DESCR\n END\n", 37),
    (b" INCRA X,0\n ENDEX X\nX DESCR\n END\n", 81),
    (b" MOVD X,X\n ENDEX X\nX DESCR\n END\n", 124),
];

/// How the image of a source ends within so many instructions.
fn ends_within(alloc: Global, source: &[u8], instructions: u128) -> Result<CpuEnd, AllocError> {
    let answer = go(alloc, files(alloc, source, &[])?, "9")?;
    let bytes = answer.image.unwrap_or(Vec::new(alloc));
    let Ok(image) = load_image(alloc, &bytes) else {
        return Ok(CpuEnd::Memory);
    };
    let mut units = Units::new();
    let mut cpu = Cpu::new(alloc, &image, 9)?;
    Ok(cpu.run(&mut units, instructions))
}

/// The start takes 7 instructions, ENDEX 31, INCRA 44 and MOVD 87.
#[test]
fn each_statement_takes_few_instructions(rt: HostRuntime) -> Result<(), Fail> {
    let alloc = rt.alloc();
    for &(source, short) in &ROWS {
        let early = ends_within(alloc, source, short)?;
        assert!(rt; matches!(early, CpuEnd::Runaway));
        let whole = ends_within(alloc, source, short + 1)?;
        assert!(rt; matches!(whole, CpuEnd::Exit(0)));
    }
    Ok(())
}
