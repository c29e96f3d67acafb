// The expansion of a statement whose macro is one on specifiers.
ghost use Rattle.std.specs.Prelude.{◌≡◌, ◌*◌, ◌<◌, ◌≤◌, All, OnOk, IsTrue, length};
ghost use Rattle.sil_macros.specs.MacroRows.{row};
ghost use Rattle.spec_clauses.specs.SpecTable.{spec_visits, spec_clause};
ghost use Rattle.sil_model.specs.Fits.{fit};
ghost use Rattle.sil_model.specs.Prints.{writes_records};
ghost use Rattle.sil_micro.specs.Expands.{Expands};
ghost use Rattle.sil_micro.specs.Pieces.{weights};
ghost use Rattle.exp_common.specs.Locations.{LocatesWithin};
ghost use Rattle.exp_spec.specs.Group.{is_spec};

use crate::blocks::{bksize, getlth};
use crate::lengths::{addlg, fshrtn, getlg, putlg, setlc, shortn};
use crate::operands::{
    descr_number_spec, descr_spec, spec_descr, spec_descr_number, spec_number, three_specs,
    three_specs_answer, two_descrs, two_specs,
};
use crate::specifiers::{getspc, locsp, putspc, remsp, setsp, subsp};
use sil_base::MAX_STATEMENTS;
use sil_macros::Macro;
use sil_micro::{Code, MAX_PIECE_WEIGHT, has_room};
use sil_model::{Specials, Statement};
use std::alloc::{AllocError, Global};

/// Whether a macro is one on specifiers.
pub fn is_spec(name: Macro) -> bool
    ensures { result ≡ is_spec name }
{
    matches!(
        name,
        Macro::Addlg
            | Macro::Bksize
            | Macro::Fshrtn
            | Macro::Getlg
            | Macro::Getlth
            | Macro::Getspc
            | Macro::Locsp
            | Macro::Putlg
            | Macro::Putspc
            | Macro::Remsp
            | Macro::Setlc
            | Macro::Setsp
            | Macro::Shortn
            | Macro::Subsp
    )
}

/// Expands statement number `at`. After an error the code may have a part of the statement's
/// operations.
#[tactic(auto, unfolding(spec_clauses::specs::SpecTable::spec_clause))]
pub fn expand_spec(
    alloc: Global,
    statement: &Statement,
    at: u32,
    specials: &Specials,
    code: &mut Code,
) -> Result<(), AllocError>
    requires group { IsTrue (is_spec statement.now.name) }
    requires fits { IsTrue (fit (row statement.now.name).places statement.now.args) }
    requires locations { All (LocatesWithin (length code.old.entries)) statement.now.args }
    requires number { at < length code.old.entries }
    requires few { length code.old.entries ≤ MAX_STATEMENTS }
    requires light { weights code.old.ops ≤ MAX_PIECE_WEIGHT * at }
    ensures { OnOk result (Expands code.old code.new at specials.now statement.now.args (spec_clause statement.now.name) (spec_visits statement.now.name) (writes_records statement.now.name)) }
{
    let _ = alloc;
    has_room(code, at);
    let args = statement.args.items();
    match statement.name {
        Macro::Addlg => {
            let (s, d) = spec_descr(args);
            addlg(code, at, specials, s, d)
        }
        Macro::Bksize => {
            let (d1, d2) = two_descrs(args);
            bksize(code, at, specials, d1, d2)
        }
        Macro::Fshrtn => {
            let (s, n) = spec_number(args);
            fshrtn(code, at, specials, s, n)
        }
        Macro::Getlg => {
            let (d, s) = descr_spec(args);
            getlg(code, at, specials, d, s)
        }
        Macro::Getlth => {
            let (d1, d2) = two_descrs(args);
            getlth(code, at, specials, d1, d2)
        }
        Macro::Getspc => {
            let (s, d, n) = spec_descr_number(args);
            getspc(code, at, specials, s, d, n)
        }
        Macro::Locsp => {
            let (s, d) = spec_descr(args);
            locsp(code, at, specials, s, d)
        }
        Macro::Putlg => {
            let (s, d) = spec_descr(args);
            putlg(code, at, specials, s, d)
        }
        Macro::Putspc => {
            let (d, n, s) = descr_number_spec(args);
            putspc(code, at, specials, d, n, s)
        }
        Macro::Remsp => {
            let (s1, s2, s3) = three_specs(args);
            remsp(code, at, specials, s1, s2, s3)
        }
        Macro::Setlc => {
            let (s, n) = spec_number(args);
            setlc(code, at, specials, s, n)
        }
        Macro::Setsp => {
            let (s1, s2) = two_specs(args);
            setsp(code, at, specials, s1, s2)
        }
        Macro::Shortn => {
            let (s, n) = spec_number(args);
            shortn(code, at, specials, s, n)
        }
        Macro::Subsp => {
            let (s1, s2, s3, to) = three_specs_answer(args);
            subsp(code, at, specials, s1, s2, s3, to)
        }
        _ => unreachable!(),
    }
}
