// Sources that are installed, by the end of their image's run and of the abstract machine's.
ghost use Rattle.std.specs.Prelude.{◌≤◌};

use crate::texts::{Sizes, params_of};
use image_runs::run_image;
use rv_emulate::CpuEnd;
use sil_base::MemoryStore;
use sil_check::{Checked, SourceNames, check};
use sil_install::install;
use sil_machine::{End, sim};
use std::alloc::Global;
use std::test::Fail;
use unit_io::Units;

/// The program of a source without tables, under a layout.
pub fn checked_of(alloc: Global, source: &[u8], sizes: &Sizes) -> Result<Checked, Fail> {
    let mut store = MemoryStore::new(alloc, Vec::new(alloc));
    store.set("SRC", source)?;
    store.set("TABLES", b"")?;
    store.set("PARAMS", &params_of(alloc, sizes)?)?;
    let names = SourceNames::of(alloc, "SRC", "TABLES", "PARAMS")?;
    match check(alloc, &mut store, &names) {
        Ok(checked) => Ok(checked),
        Err(_) => Err(Fail::new("a program")),
    }
}

/// How the image of a program ends within n steps.
pub fn image_end(alloc: Global, checked: &Checked, n: u64) -> Result<CpuEnd, Fail>
    requires { n ≤ 9999 }
{
    let image = install(alloc, checked)?;
    match run_image(alloc, &image, n, &mut Units::new()) {
        Ok(end) => Ok(end),
        Err(_) => Err(Fail::new("an image")),
    }
}

/// Whether the ends are the same.
pub fn agree(end: End, cpu: CpuEnd) -> bool {
    match (end, cpu) {
        (End::Exit(a), CpuEnd::Exit(b)) => a == b,
        (End::Trap(a), CpuEnd::Trap(b)) => a == b,
        (End::Undefined(a), CpuEnd::Undefined(b)) => a == b,
        (End::Budget, CpuEnd::Budget) => true,
        _ => false,
    }
}

/// Whether the machine and the image end alike within n steps, and so.
pub fn ends_so(
    alloc: Global,
    source: &[u8],
    sizes: &Sizes,
    n: u64,
    wanted: Option<End>,
) -> Result<bool, Fail>
    requires { n ≤ 9999 }
{
    let checked = checked_of(alloc, source, sizes)?;
    let end = sim(
        alloc,
        &checked.program,
        &checked.params,
        n,
        &mut Units::new(),
    );
    let so = match wanted {
        Some(wanted) => agree(wanted, image_end(alloc, &checked, n)?),
        None => true,
    };
    Ok(so && agree(end, image_end(alloc, &checked, n)?))
}
