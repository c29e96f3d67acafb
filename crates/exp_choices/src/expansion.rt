// The expansion of a statement whose macro compares, or is one on integers.
ghost use Rattle.std.specs.Prelude.{◌≡◌, ◌*◌, ◌<◌, ◌≤◌, All, OnOk, IsTrue, length};
ghost use Rattle.sil_macros.specs.MacroRows.{row};
ghost use Rattle.choice_clauses.specs.ChoiceTable.{choice_visits, choice_clause};
ghost use Rattle.sil_model.specs.Fits.{fit};
ghost use Rattle.sil_model.specs.Prints.{writes_records};
ghost use Rattle.sil_micro.specs.Expands.{Expands};
ghost use Rattle.sil_micro.specs.Pieces.{weights};
ghost use Rattle.exp_choices.specs.Group.{is_choice};
ghost use Rattle.exp_common.specs.Locations.{LocatesWithin};

use crate::comparisons::{
    acomp, acompc, aeql, aeqlc, aeqlic, chkval, deql, lcomp, leqlc, testf, testfi, vcmpic, veql,
    veqlc,
};
use crate::integers::{divide, mnsint, mult, multc, subtrt, sum};
use crate::operands::{
    place_flag_answer, place_number_answer, place_number_order, place_number_place_order,
    place_numbers_answer, places_answer, places_number, places_order, places_spec_order,
    spec_number_answer, specs_order, three_places_answer,
};
use sil_base::MAX_STATEMENTS;
use sil_macros::Macro;
use sil_micro::{Code, MAX_PIECE_WEIGHT, has_room};
use sil_model::{Specials, Statement};
use std::alloc::{AllocError, Global};

/// Whether a macro compares or is one on integers.
pub fn is_choice(name: Macro) -> bool
    ensures { result ≡ is_choice name }
{
    matches!(
        name,
        Macro::Acomp
            | Macro::Acompc
            | Macro::Aeql
            | Macro::Aeqlc
            | Macro::Aeqlic
            | Macro::Chkval
            | Macro::Deql
            | Macro::Divide
            | Macro::Lcomp
            | Macro::Leqlc
            | Macro::Mnsint
            | Macro::Mult
            | Macro::Multc
            | Macro::Subtrt
            | Macro::Sum
            | Macro::Testf
            | Macro::Testfi
            | Macro::Vcmpic
            | Macro::Veql
            | Macro::Veqlc
    )
}

/// Expands statement number `at`. After an error the code may have a part of the statement's
/// operations.
#[tactic(auto, unfolding(choice_clauses::specs::ChoiceTable::choice_clause))]
pub fn expand_choice(
    alloc: Global,
    statement: &Statement,
    at: u32,
    specials: &Specials,
    code: &mut Code,
) -> Result<(), AllocError>
    requires group { IsTrue (is_choice statement.now.name) }
    requires fits { IsTrue (fit (row statement.now.name).places statement.now.args) }
    requires locations { All (LocatesWithin (length code.old.entries)) statement.now.args }
    requires number { at < length code.old.entries }
    requires few { length code.old.entries ≤ MAX_STATEMENTS }
    requires light { weights code.old.ops ≤ MAX_PIECE_WEIGHT * at }
    ensures { OnOk result (Expands code.old code.new at specials.now statement.now.args (choice_clause statement.now.name) (choice_visits statement.now.name) (writes_records statement.now.name)) }
{
    let _ = alloc;
    has_room(code, at);
    let args = statement.args.items();
    match statement.name {
        Macro::Acomp => {
            let (d1, d2, to) = places_order(args);
            acomp(code, at, specials, d1, d2, to)
        }
        Macro::Acompc => {
            let (d, n, to) = place_number_order(args);
            acompc(code, at, specials, d, n, to)
        }
        Macro::Aeql => {
            let (d1, d2, to) = places_answer(args);
            aeql(code, at, specials, d1, d2, to)
        }
        Macro::Aeqlc => {
            let (d, n, to) = place_number_answer(args);
            aeqlc(code, at, specials, d, n, to)
        }
        Macro::Aeqlic => {
            let (d, n1, n2, to) = place_numbers_answer(args);
            aeqlic(code, at, specials, d, n1, n2, to)
        }
        Macro::Chkval => {
            let (d1, d2, s, to) = places_spec_order(args);
            chkval(code, at, specials, d1, d2, s, to)
        }
        Macro::Deql => {
            let (d1, d2, to) = places_answer(args);
            deql(code, at, specials, d1, d2, to)
        }
        Macro::Divide => {
            let (d1, d2, d3, to) = three_places_answer(args);
            divide(code, at, specials, d1, d2, d3, to)
        }
        Macro::Lcomp => {
            let (s1, s2, to) = specs_order(args);
            lcomp(code, at, specials, s1, s2, to)
        }
        Macro::Leqlc => {
            let (s, n, to) = spec_number_answer(args);
            leqlc(code, at, specials, s, n, to)
        }
        Macro::Mnsint => {
            let (d1, d2, to) = places_answer(args);
            mnsint(code, at, specials, d1, d2, to)
        }
        Macro::Mult => {
            let (d1, d2, d3, to) = three_places_answer(args);
            mult(code, at, specials, d1, d2, d3, to)
        }
        Macro::Multc => {
            let (d1, d2, n) = places_number(args);
            multc(code, at, specials, d1, d2, n)
        }
        Macro::Subtrt => {
            let (d1, d2, d3, to) = three_places_answer(args);
            subtrt(code, at, specials, d1, d2, d3, to)
        }
        Macro::Sum => {
            let (d1, d2, d3, to) = three_places_answer(args);
            sum(code, at, specials, d1, d2, d3, to)
        }
        Macro::Testf => {
            let (d, flags, to) = place_flag_answer(args);
            testf(code, at, specials, d, flags, to)
        }
        Macro::Testfi => {
            let (d, flags, to) = place_flag_answer(args);
            testfi(code, at, specials, d, flags, to)
        }
        Macro::Vcmpic => {
            let (d1, n, d2, to) = place_number_place_order(args);
            vcmpic(code, at, specials, d1, n, d2, to)
        }
        Macro::Veql => {
            let (d1, d2, to) = places_answer(args);
            veql(code, at, specials, d1, d2, to)
        }
        Macro::Veqlc => {
            let (d, n, to) = place_number_answer(args);
            veqlc(code, at, specials, d, n, to)
        }
        _ => unreachable!(),
    }
}
