// The expansion of a statement whose macro is one of descriptors.
ghost use Rattle.std.specs.Prelude.{◌*◌, ◌<◌, ◌≤◌, OnOk, IsTrue, length};
ghost use Rattle.sil_macros.specs.MacroRows.{row};
ghost use Rattle.descr_clauses.specs.DescrTable.{descr_visits, descr_clause};
ghost use Rattle.sil_model.specs.Fits.{fit};
ghost use Rattle.sil_model.specs.Prints.{writes_records};
ghost use Rattle.sil_micro.specs.Expands.{Expands};
ghost use Rattle.sil_micro.specs.Pieces.{weights};
ghost use Rattle.exp_descr.specs.Group.{is_descr};

use crate::descriptors::{
    adjust, decra, getac, getd, getdc, getsiz, incra, incrv, mova, movd, movdic, movv, putac, putd,
    putdc, putvc, resetf, rsetfi, setac, setav, setf, setfi, setsiz, setva, setvc,
};
use crate::operands::{
    place_flag, place_number, place_number_place, place_number_twice, places_number, three_places,
    two_places,
};
use sil_base::MAX_STATEMENTS;
use sil_macros::Macro;
use sil_micro::{Code, MAX_PIECE_WEIGHT, has_room};
use sil_model::{Specials, Statement};
use std::alloc::{AllocError, Global};

/// Expands statement number `at`. After an error the code may have a part of the statement's
/// operations.
#[tactic(auto, unfolding(descr_clauses::specs::DescrTable::descr_clause))]
pub fn expand_descr(
    alloc: Global,
    statement: &Statement,
    at: u32,
    specials: &Specials,
    code: &mut Code,
) -> Result<(), AllocError>
    requires group { IsTrue (is_descr statement.now.name) }
    requires fits { IsTrue (fit (row statement.now.name).places statement.now.args) }
    requires number { at < length code.old.entries }
    requires few { length code.old.entries ≤ MAX_STATEMENTS }
    requires light { weights code.old.ops ≤ MAX_PIECE_WEIGHT * at }
    ensures { OnOk result (Expands code.old code.new at specials.now statement.now.args (descr_clause statement.now.name) (descr_visits statement.now.name) (writes_records statement.now.name)) }
{
    let _ = alloc;
    has_room(code, at);
    let args = statement.args.items();
    match statement.name {
        Macro::Adjust => {
            let (d1, d2, d3) = three_places(args);
            adjust(code, at, specials, d1, d2, d3)
        }
        Macro::Decra => {
            let (d, n) = place_number(args);
            decra(code, at, specials, d, n)
        }
        Macro::Getac => {
            let (d1, d2, n) = places_number(args);
            getac(code, at, specials, d1, d2, n)
        }
        Macro::Getd => {
            let (d1, d2, d3) = three_places(args);
            getd(code, at, specials, d1, d2, d3)
        }
        Macro::Getdc => {
            let (d1, d2, n) = places_number(args);
            getdc(code, at, specials, d1, d2, n)
        }
        Macro::Getsiz => {
            let (d1, d2) = two_places(args);
            getsiz(code, at, specials, d1, d2)
        }
        Macro::Incra => {
            let (d, n) = place_number(args);
            incra(code, at, specials, d, n)
        }
        Macro::Incrv => {
            let (d, n) = place_number(args);
            incrv(code, at, specials, d, n)
        }
        Macro::Mova => {
            let (d1, d2) = two_places(args);
            mova(code, at, specials, d1, d2)
        }
        Macro::Movd => {
            let (d1, d2) = two_places(args);
            movd(code, at, specials, d1, d2)
        }
        Macro::Movdic => {
            let (d1, n1, d2, n2) = place_number_twice(args);
            movdic(code, at, specials, d1, n1, d2, n2)
        }
        Macro::Movv => {
            let (d1, d2) = two_places(args);
            movv(code, at, specials, d1, d2)
        }
        Macro::Putac => {
            let (d1, n, d2) = place_number_place(args);
            putac(code, at, specials, d1, n, d2)
        }
        Macro::Putd => {
            let (d1, d2, d3) = three_places(args);
            putd(code, at, specials, d1, d2, d3)
        }
        Macro::Putdc => {
            let (d1, n, d2) = place_number_place(args);
            putdc(code, at, specials, d1, n, d2)
        }
        Macro::Putvc => {
            let (d1, n, d2) = place_number_place(args);
            putvc(code, at, specials, d1, n, d2)
        }
        Macro::Resetf => {
            let (d, flags) = place_flag(args);
            resetf(code, at, specials, d, flags)
        }
        Macro::Rsetfi => {
            let (d, flags) = place_flag(args);
            rsetfi(code, at, specials, d, flags)
        }
        Macro::Setac => {
            let (d, n) = place_number(args);
            setac(code, at, specials, d, n)
        }
        Macro::Setav => {
            let (d1, d2) = two_places(args);
            setav(code, at, specials, d1, d2)
        }
        Macro::Setf => {
            let (d, flags) = place_flag(args);
            setf(code, at, specials, d, flags)
        }
        Macro::Setfi => {
            let (d, flags) = place_flag(args);
            setfi(code, at, specials, d, flags)
        }
        Macro::Setsiz => {
            let (d1, d2) = two_places(args);
            setsiz(code, at, specials, d1, d2)
        }
        Macro::Setva => {
            let (d1, d2) = two_places(args);
            setva(code, at, specials, d1, d2)
        }
        Macro::Setvc => {
            let (d, n) = place_number(args);
            setvc(code, at, specials, d, n)
        }
        _ => unreachable!(),
    }
}
