// What a statement does, by its macro.
ghost use Rattle.std.specs.Prelude.{◌≡◌, ◌≤◌, ℕ, Err, false, true};
ghost use Rattle.unit_io.specs.Tapes.{Tapes};
ghost use Rattle.unit_io.specs.Units.{RoseAt, tapes_of};
ghost use Rattle.sil_model.specs.Prints.{writes_records};
ghost use Rattle.sil_model.specs.UnitMacros.{calls_unit};
ghost use Rattle.sil_runs.specs.Table.{clause};
ghost use Rattle.sil_machine.specs.KeptUnits.{KeepsUnits};
ghost use Rattle.sil_machine.specs.MachineParts.{Meets, left_by, state_of};
ghost use Rattle.sil_machine.specs.UnitStatements.{IsCut};

use crate::calls::{branic, rcall, rrturn};
use crate::parts::{Parts, Stop};
use crate::site::Site;
use crate::stack::{istack, pop, pstack, push, spop, spush};
use crate::system::{init, mstime};
use crate::units::{backspace, endfile, output, rewind};
use crate::walks::{is_walk, perform_walk};
use choice_clauses::{
    acomp, acompc, aeql, aeqlc, aeqlic, chkval, deql, divide, lcomp, leqlc, mnsint, mult, multc,
    subtrt, sum, testf, testfi, vcmpic, veql, veqlc,
};
use descr_clauses::{
    adjust, decra, getac, getd, getdc, getsiz, incra, incrv, mova, movd, movdic, movv, putac, putd,
    putdc, putvc, resetf, rsetfi, setac, setav, setf, setfi, setsiz, setva, setvc,
};
use flow_clauses::{branch, endex, load, selbra};
use sil_base::MAX_STEPS;
use sil_macros::Macro;
use sil_model::Flow;
use spec_clauses::{
    addlg, bksize, fshrtn, getlg, getlth, getspc, locsp, putlg, putspc, remsp, setlc, setsp,
    shortn, subsp,
};
use std::alloc::Global;
use unit_io::UnitSet;

/// What a statement does whose macro calls a unit.
#[tactic(auto, unfolding(sil_runs::specs::Table::clause, descr_clauses::specs::DescrTable::descr_clause, choice_clauses::specs::ChoiceTable::choice_clause, flow_clauses::specs::FlowTable::flow_clause, unit_clauses::specs::UnitTable::unit_clause, spec_clauses::specs::SpecTable::spec_clause, string_clauses::specs::StringTable::string_clause), using(crate::proofs::Meeting::meets, crate::proofs::KeptUnits::kept_units))]
fn perform_on_units<U: UnitSet>(
    alloc: Global,
    name: Macro,
    site: &Site,
    parts: &mut Parts,
    units: &mut U,
) -> Result<Flow, Stop>
    requires { calls_unit name ≡ true }
    ensures meets { (k steps : ℕ) → let s = state_of k steps parts.old (tapes_of (U.seen units.old))
        in Meets s (clause name site.now s) result (state_of k steps parts.new (tapes_of (U.seen units.new))) }
    ensures printing { result ≡ Err Stop.Memory → writes_records name ≡ true }
    ensures cut { result ≡ Err Stop.Memory → IsCut name site.now parts.old.cells (tapes_of (U.seen units.old)) (tapes_of (U.seen units.new)) }
    ensures faults { (unit : ℕ) → result ≡ Err (Stop.UnitFault unit) → RoseAt unit (U.seen units.old) (U.seen units.new) }
    ensures kept { KeepsUnits (U.seen units.old) (U.seen units.new) }
{
    match name {
        Macro::Bkspce => backspace(site, parts, units),
        Macro::Enfile => endfile(site, parts, units),
        Macro::Output => output(alloc, site, parts, units),
        Macro::Rewind => rewind(site, parts, units),
        _ => Err(Stop::Undefined),
    }
}

/// What a statement does whose macro calls no unit.
#[tactic(auto, unfolding(sil_runs::specs::Table::clause, descr_clauses::specs::DescrTable::descr_clause, choice_clauses::specs::ChoiceTable::choice_clause, flow_clauses::specs::FlowTable::flow_clause, unit_clauses::specs::UnitTable::unit_clause, spec_clauses::specs::SpecTable::spec_clause, flow_clauses::specs::FlowClauses::nothing, flow_clauses::specs::FlowClauses::trap))]
fn perform_alone(name: Macro, site: &Site, steps: u64, parts: &mut Parts) -> Option<Flow>
    requires few { steps ≤ MAX_STEPS }
    requires alone { calls_unit name ≡ false }
    ensures { (k : ℕ) (tapes : Tapes) → clause name site.now (state_of k steps parts.old tapes) ≡ left_by result (state_of k steps parts.new tapes) }
{
    if is_walk(name) {
        return perform_walk(name, site, parts);
    }
    match name {
        Macro::Acomp => acomp(site.args(), &parts.cells),
        Macro::Acompc => acompc(site.args(), &parts.cells),
        Macro::Addlg => addlg(site.args(), &mut parts.cells),
        Macro::Adjust => adjust(site.args(), &mut parts.cells),
        Macro::Aeql => aeql(site.args(), &parts.cells),
        Macro::Aeqlc => aeqlc(site.args(), &parts.cells),
        Macro::Aeqlic => aeqlic(site.args(), &parts.cells),
        Macro::Bksize => bksize(site.args(), site.params(), &mut parts.cells),
        Macro::Branch => branch(site.args(), &parts.cells),
        Macro::Branic => branic(site, &parts.cells),
        Macro::Chkval => chkval(site.args(), &parts.cells),
        Macro::Decra => decra(site.args(), &mut parts.cells),
        Macro::Deql => deql(site.args(), &parts.cells),
        Macro::Divide => divide(site.args(), &mut parts.cells),
        Macro::Endex => endex(site.args(), &parts.cells),
        Macro::Fshrtn => fshrtn(site.args(), &mut parts.cells),
        Macro::Getac => getac(site.args(), &mut parts.cells),
        Macro::Getd => getd(site.args(), &mut parts.cells),
        Macro::Getdc => getdc(site.args(), &mut parts.cells),
        Macro::Getlg => getlg(site.args(), &mut parts.cells),
        Macro::Getlth => getlth(site.args(), &mut parts.cells),
        Macro::Getsiz => getsiz(site.args(), &mut parts.cells),
        Macro::Getspc => getspc(site.args(), &mut parts.cells),
        Macro::Incra => incra(site.args(), &mut parts.cells),
        Macro::Incrv => incrv(site.args(), &mut parts.cells),
        Macro::Init => init(site, &mut parts.cells),
        Macro::Istack => istack(site, parts),
        Macro::Lcomp => lcomp(site.args(), &parts.cells),
        Macro::Leqlc => leqlc(site.args(), &parts.cells),
        Macro::Load => load(site.args(), &parts.cells),
        Macro::Locsp => locsp(site.args(), &mut parts.cells),
        Macro::Mnsint => mnsint(site.args(), &mut parts.cells),
        Macro::Mova => mova(site.args(), &mut parts.cells),
        Macro::Movd => movd(site.args(), &mut parts.cells),
        Macro::Movdic => movdic(site.args(), &mut parts.cells),
        Macro::Movv => movv(site.args(), &mut parts.cells),
        Macro::Mstime => mstime(site, steps, parts),
        Macro::Mult => mult(site.args(), &mut parts.cells),
        Macro::Multc => multc(site.args(), &mut parts.cells),
        Macro::Pop => pop(site, parts),
        Macro::Pstack => pstack(site, parts),
        Macro::Push => push(site, parts),
        Macro::Putac => putac(site.args(), &mut parts.cells),
        Macro::Putd => putd(site.args(), &mut parts.cells),
        Macro::Putdc => putdc(site.args(), &mut parts.cells),
        Macro::Putlg => putlg(site.args(), &mut parts.cells),
        Macro::Putspc => putspc(site.args(), &mut parts.cells),
        Macro::Putvc => putvc(site.args(), &mut parts.cells),
        Macro::Rcall => rcall(site, parts),
        Macro::Remsp => remsp(site.args(), &mut parts.cells),
        Macro::Resetf => resetf(site.args(), &mut parts.cells),
        Macro::Rrturn => rrturn(site, parts),
        Macro::Rsetfi => rsetfi(site.args(), &mut parts.cells),
        Macro::Selbra => selbra(site.args(), &parts.cells),
        Macro::Setac => setac(site.args(), &mut parts.cells),
        Macro::Setav => setav(site.args(), &mut parts.cells),
        Macro::Setf => setf(site.args(), &mut parts.cells),
        Macro::Setfi => setfi(site.args(), &mut parts.cells),
        Macro::Setlc => setlc(site.args(), &mut parts.cells),
        Macro::Setsiz => setsiz(site.args(), &mut parts.cells),
        Macro::Setsp => setsp(site.args(), &mut parts.cells),
        Macro::Setva => setva(site.args(), &mut parts.cells),
        Macro::Setvc => setvc(site.args(), &mut parts.cells),
        Macro::Shortn => shortn(site.args(), &mut parts.cells),
        Macro::Spop => spop(site, parts),
        Macro::Spush => spush(site, parts),
        Macro::Subsp => subsp(site.args(), &mut parts.cells),
        Macro::Subtrt => subtrt(site.args(), &mut parts.cells),
        Macro::Sum => sum(site.args(), &mut parts.cells),
        Macro::Testf => testf(site.args(), &parts.cells),
        Macro::Testfi => testfi(site.args(), &parts.cells),
        Macro::Vcmpic => vcmpic(site.args(), &parts.cells),
        Macro::Veql => veql(site.args(), &parts.cells),
        Macro::Veqlc => veqlc(site.args(), &parts.cells),
        Macro::Ordvst | Macro::Proc | Macro::Unload => Some(Flow::Next),
        Macro::Adreal
        | Macro::Dvreal
        | Macro::Exreal
        | Macro::Intrl
        | Macro::Link
        | Macro::Mnreal
        | Macro::Mpreal
        | Macro::Rcomp
        | Macro::Realst
        | Macro::Rlint
        | Macro::Sbreal
        | Macro::Spreal => Some(Flow::Trap),
        _ => None,
    }
}

/// What a statement of this macro does.
#[tactic(auto, using(crate::proofs::Meeting::meets, crate::proofs::KeptUnits::kept_units))]
pub fn perform<U: UnitSet>(
    alloc: Global,
    name: Macro,
    site: &Site,
    steps: u64,
    parts: &mut Parts,
    units: &mut U,
) -> Result<Flow, Stop>
    requires { steps ≤ MAX_STEPS }
    ensures meets { (k : ℕ) → let s = state_of k steps parts.old (tapes_of (U.seen units.old))
        in Meets s (clause name site.now s) result (state_of k steps parts.new (tapes_of (U.seen units.new))) }
    ensures stays { calls_unit name ≡ false → U.seen units.new ≡ U.seen units.old }
    ensures printing { result ≡ Err Stop.Memory → writes_records name ≡ true }
    ensures cut { result ≡ Err Stop.Memory → IsCut name site.now parts.old.cells (tapes_of (U.seen units.old)) (tapes_of (U.seen units.new)) }
    ensures faults { (unit : ℕ) → result ≡ Err (Stop.UnitFault unit) → RoseAt unit (U.seen units.old) (U.seen units.new) }
    ensures kept { KeepsUnits (U.seen units.old) (U.seen units.new) }
{
    if calls_unit(name) {
        perform_on_units(alloc, name, site, parts, units)
    } else {
        match perform_alone(name, site, steps, parts) {
            Some(flow) => Ok(flow),
            None => Err(Stop::Undefined),
        }
    }
}

/// Whether the macro calls a unit.
fn calls_unit(name: Macro) -> bool
    ensures { result ≡ calls_unit name }
{
    matches!(
        name,
        Macro::Bkspce
            | Macro::Enfile
            | Macro::Output
            | Macro::Rewind
            | Macro::Stprnt
            | Macro::Stread
    )
}
