// Runs of the emulator, from their start to their end.
use image_file::Image;
use layout_params::{STANDARD_PARAMS, read_params};
use rows_back::code::{cpu_of, end_of, image_of};
use rv_emulate::{Cpu, CpuEnd, CpuStep, budget};
use sil_macros::Macro;
use std::test::Fail;
use unit_io::Units;

/// Words, and how a run of them ends.
static ENDS: [(&[u32], CpuEnd); 8] = [
    // ends by calls: an exit, a trap by a constant, and a call of no number
    (&[0x0010_0513, 0x0010_0893, 0x0000_0073], CpuEnd::Exit(1)),
    (
        &[0x6800_02b7, 0x0082_c503, 0x0010_0893, 0x0000_0073],
        CpuEnd::Trap(0),
    ),
    (&[0x0090_0893, 0x0000_0073], CpuEnd::BadCall(0x1_0004)),
    // an end by a unit fault after a call that didn't fail
    (
        &[
            0x0040_0893,
            0x0000_0073,
            0x0010_0893,
            0x0050_0513,
            0x0000_0073,
        ],
        CpuEnd::BadCall(0x1_0010),
    ),
    // no instruction, a store to the constants, a load off its places, and a fetch past the end
    (&[0], CpuEnd::Illegal(0x1_0000)),
    (&[0x6800_02b7, 0x0002_8023], CpuEnd::Store(0x1_0004)),
    (&[0x6c00_02b7, 0x0042_b303], CpuEnd::Load(0x1_0004)),
    (&[0x0010_0513], CpuEnd::Fetch(0x1_0004)),
];

#[test]
fn calls_and_faults_end_runs(rt: HostRuntime) -> Result<(), Fail> {
    for &(words, end) in &ENDS {
        assert_eq!(rt; end_of(rt.alloc(), words)?, Some(end));
    }
    Ok(())
}

#[test]
fn a_run_goes_on_after_its_budget_and_not_after_its_end(rt: HostRuntime) -> Result<(), Fail> {
    let mut units = Units::new();
    let Some(mut cpu) = cpu_of(rt.alloc(), &[0x0000_006f])? else {
        panic!(rt; "an image of a loop");
    };
    assert_eq!(rt; cpu.met(), Some(0));
    assert_eq!(rt; cpu.step(&mut units), CpuStep::Next);
    assert_eq!(rt; cpu.run(&mut units, 10), CpuEnd::Runaway);
    assert_eq!(rt; cpu.run(&mut units, 0), CpuEnd::Runaway);
    let Some(mut cpu) = cpu_of(rt.alloc(), &[0x0010_0893, 0x0000_0073])? else {
        panic!(rt; "an image of an exit");
    };
    assert_eq!(rt; cpu.run(&mut units, 2), CpuEnd::Exit(0));
    assert_eq!(rt; cpu.run(&mut units, 0), CpuEnd::Exit(0));
    assert_eq!(rt; cpu.step(&mut units), CpuStep::Ended(CpuEnd::Exit(0)));
    assert_eq!(rt; cpu.met(), None);
    Ok(())
}

#[test]
fn budgets_count_cells_and_statements(rt: HostRuntime) -> Result<(), Fail> {
    let Some(image) = image_of(rt.alloc(), &[0])? else {
        panic!(rt; "an image of a word");
    };
    assert_eq!(rt; budget(&image, 1), 11_780_000);
    Ok(())
}

#[test]
fn a_statement_is_met_at_its_place(rt: HostRuntime) -> Result<(), Fail> {
    let alloc = rt.alloc();
    let image = Image::new(
        &read_params(alloc, STANDARD_PARAMS)?,
        Vec::from_slice(
            alloc,
            &[(0x1_0000, 1, Macro::Movd), (0x1_0008, 2, Macro::Endex)],
        )?,
        Vec::from_slice(alloc, &[0x0010_0893u32, 0x0000_0513, 0x0000_0073])?,
        Vec::new(alloc),
        Vec::new(alloc),
        Vec::new(alloc),
        Vec::new(alloc),
    );
    let Some(image) = image else {
        panic!(rt; "an image of two statements");
    };
    let mut cpu = Cpu::new(alloc, &image, 1)?;
    let mut units = Units::new();
    let rows = [
        (Some(0), CpuStep::Next),
        (None, CpuStep::Next),
        (Some(1), CpuStep::Ended(CpuEnd::Exit(0))),
    ];
    for (met, answer) in rows {
        assert_eq!(rt; cpu.met(), met);
        assert_eq!(rt; cpu.step(&mut units), answer);
    }
    Ok(())
}
