// The abstract machine and the installed image, on sources that are made from seeds.
ghost use Rattle.std.specs.Prelude.{◌≤◌};

use crate::programs::checked_of;
use image_runs::run_image;
use rows_go::go::{files, go};
use rv_emulate::CpuEnd;
use sil_machine::{End, sim};
use std::alloc::{AllocError, Global};
use std::test::Fail;
use unit_io::Units;

/// The next number of a seed.
fn next(seed: u64) -> u64 {
    seed.wrapping_mul(6_364_136_223_846_793_005)
        .wrapping_add(1_442_695_040_888_963_407)
}

/// A line by a number.
fn line(choice: u64) -> &'static [u8] {
    match choice % 7 {
        0 => b" ENDEX A\n",
        1 => b" ENDEX B\n",
        2 => b" INCRA A,7\n",
        3 => b" INCRA B,999999999\n",
        4 => b" MOVD A,B\n",
        5 => b" MOVD B,A\n",
        _ => b" MOVD A,A\n",
    }
}

/// Up to eight statements over two descriptors.
fn source_of(alloc: Global, seed: u64) -> Result<Vec<u8>, AllocError> {
    let mut source = Vec::new(alloc);
    let mut now = next(seed);
    for _ in 0..now >> 61 {
        now = next(now);
        source.extend_from_slice(line(now >> 33))?;
    }
    source.extend_from_slice(b"A DESCR 4\nB DESCR\n END\n")?;
    Ok(source)
}

/// Whether the ends are the same.
fn agree(end: End, cpu: CpuEnd) -> bool {
    match (end, cpu) {
        (End::Exit(a), CpuEnd::Exit(b)) => a == b,
        (End::Undefined(a), CpuEnd::Undefined(b)) => a == b,
        (End::Budget, CpuEnd::Budget) => true,
        _ => false,
    }
}

/// Whether the machine and the image that is saved for a source end alike within n steps.
fn ends_alike(alloc: Global, source: &[u8], n: u64) -> Result<bool, Fail>
    requires { n ≤ 9 }
{
    let answer = go(alloc, files(alloc, source, &[])?, "9")?;
    let image = answer.image.unwrap_or(Vec::new(alloc));
    let checked = checked_of(alloc, source)?;
    let mut units = Units::new();
    let end = sim(alloc, &checked.program, &checked.params, n, &mut units);
    match run_image(alloc, &image, n, &mut units) {
        Ok(cpu) => Ok(agree(end, cpu)),
        Err(_) => Ok(false),
    }
}

#[test]
fn the_image_ends_as_the_machine(rt: HostRuntime) -> Result<(), Fail> {
    let alloc = rt.alloc();
    for seed in 0..300 {
        let source = source_of(alloc, seed)?;
        assert!(rt; ends_alike(alloc, &source, seed % 10)?);
    }
    Ok(())
}
