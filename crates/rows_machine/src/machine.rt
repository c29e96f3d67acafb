// Runs of the abstract machine, whole and step by step.
ghost use Rattle.std.specs.Prelude.{◌≡◌, ◌≤◌, IfOk};
ghost use Rattle.layout_params.specs.Parameters.{AreLegal, standard};
ghost use Rattle.sil_model.specs.WellFormed.{IsWellFormed};

use crate::programs::checked_of;
use layout_params::{
    Cell, Descr, ParamStop, Params, STANDARD_PARAMS, read_params, standard_text_is_standard,
};
use sil_base::Items;
use sil_machine::{Arg, End, Program, Specials, Statement, Step, sim, start};
use sil_macros::Macro;
use std::alloc::{AllocError, Global};
use std::test::Fail;
use unit_io::Units;

/// Executable statements, X, the bound on steps, and the end.
static ROWS: [(&str, &str, u64, End); 10] = [
    (" ENDEX X", "0", 1, End::Exit(0)),
    (" ENDEX X", "0", 0, End::Budget),
    (" ENDEX X", "1", 1, End::Exit(1)),
    ("*", "1", 0, End::Undefined(0)),
    (" MOVD X,ONE\n INCRA X,2\n ENDEX X", "0", 3, End::Exit(1)),
    (" INCRA X,5\n MOVD X,Z\n ENDEX X", "0", 3, End::Exit(0)),
    (" INCRA X,5\n MOVD X,Z\n ENDEX X", "0", 2, End::Budget),
    // sums wrap
    (
        " INCRA X,1\n ENDEX X",
        "9223372036854775807",
        2,
        End::Exit(1),
    ),
    (
        " INCRA X,9223372036854775807\n INCRA X,2\n ENDEX X",
        "9223372036854775807",
        3,
        End::Exit(0),
    ),
    // the place after the last statement
    (" MOVD X,X", "0", 1, End::Undefined(1)),
];

/// The end that a machine comes to within n steps.
#[tactic(auto, using(crate::proofs::Lists::can_step))]
fn stopped(
    alloc: Global,
    program: &Program,
    params: &Params,
    n: u64,
) -> Result<Option<End>, AllocError>
    requires { IsWellFormed program.now params.now.settings }
{
    let mut machine = start(alloc, program, params)?;
    let mut units = Units::new();
    for _ in 0..n {
        if machine.steps() > 9 {
            return Ok(None);
        }
        if let Step::Stop(end) = machine.step(&mut units) {
            return Ok(Some(end));
        }
    }
    Ok(None)
}

/// Whether a run of at most n steps and a machine, step by step, both end so.
fn ends(
    alloc: Global,
    program: &Program,
    params: &Params,
    n: u64,
    end: End,
) -> Result<bool, AllocError>
    requires well_formed { IsWellFormed program.now params.now.settings }
    requires few { n ≤ 8 }
{
    let mut units = Units::new();
    let met = sim(alloc, program, params, n, &mut units);
    let (steps, stop) = if end == End::Budget {
        (n, None)
    } else {
        (n + 1, Some(end))
    };
    Ok(met == end && stopped(alloc, program, params, steps)? == stop)
}

/// Whether a source of these statements ends so.
fn source_ends(alloc: Global, statements: &str, x: &str, n: u64, end: End) -> Result<bool, Fail> {
    let source = format!(in alloc; "{statements}\nX DESCR {x}\nZ DESCR\nONE DESCR 1\n END\n")?;
    let checked = checked_of(alloc, source.as_bytes())?;
    if n > 8 {
        return Ok(false);
    }
    Ok(ends(alloc, &checked.program, &checked.params, n, end)?)
}

#[test]
fn sources_end_by_steps_as_by_runs(rt: HostRuntime) -> Result<(), Fail> {
    for &(statements, x, n, end) in &ROWS {
        let is = source_ends(rt.alloc(), statements, x, n, end)?;
        assert!(rt; is, "{statements} {x} {n}");
    }
    Ok(())
}

fn standard_params(alloc: Global) -> Result<Params, ParamStop>
    ensures standard { IfOk result (λ p. p ≡ standard) }
    ensures legal { IfOk result AreLegal }
{
    standard_text_is_standard();
    read_params(alloc, STANDARD_PARAMS)
}

/// The program of an ENDEX by this address over one descriptor.
#[tactic(auto, using(crate::proofs::Lists::all_one))]
fn ending_at(alloc: Global, params: &Params, d: i64) -> Result<Program, AllocError>
    requires standard { params.now ≡ standard }
    requires legal { AreLegal params.now }
    ensures { IfOk result (λ p. IsWellFormed p params.now.settings) }
{
    let statement = Statement {
        card: 1,
        name: Macro::Endex,
        args: Items::of(vec![in alloc; Arg::Place(d)]?),
    };
    let cell = Cell::Descr(Descr { a: 0, f: 0, v: 0 });
    Ok(Program {
        statements: Items::of(vec![in alloc; statement]?),
        cells: Items::of(vec![in alloc; cell]?),
        tables: Items::of(Vec::new(alloc)),
        formats: Items::of(Vec::new(alloc)),
        specials: Specials {
            over: None,
            under: None,
            stype: None,
            first: None,
            head: None,
            tail: None,
            int_code: None,
        },
    })
}

#[test]
fn addresses_of_no_cell_are_undefined(rt: HostRuntime) -> Result<(), Fail> {
    let alloc = rt.alloc();
    let params = standard_params(alloc)?;
    let rows = [
        (0x4000_0000, End::Exit(0)),
        (0x4000_0001, End::Undefined(0)),
        (0x3fff_fff0, End::Undefined(0)),
    ];
    for (d, end) in rows {
        let program = ending_at(alloc, &params, d)?;
        assert!(rt; ends(alloc, &program, &params, 1, end)?, "{d}");
    }
    Ok(())
}

#[test]
fn a_machine_that_has_ended_stays_so(rt: HostRuntime) -> Result<(), Fail> {
    let checked = checked_of(rt.alloc(), b" ENDEX X\nX DESCR\n END\n")?;
    let mut machine = start(rt.alloc(), &checked.program, &checked.params)?;
    let mut units = Units::new();
    assert_eq!(rt; machine.step(&mut units), Step::Stop(End::Exit(0)));
    assert_eq!(rt; machine.step(&mut units), Step::Stop(End::Exit(0)));
    assert_eq!(rt; machine.steps(), 1);
    Ok(())
}
