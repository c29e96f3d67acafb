// The expansion of a statement whose macro walks characters.
ghost use Rattle.std.specs.Prelude.{◌≡◌, ◌*◌, ◌<◌, ◌≤◌, ◌^◌, All, IfSome, OnOk, IsTrue, length};
ghost use Rattle.sil_macros.specs.MacroRows.{row};
ghost use Rattle.string_clauses.specs.StringTable.{string_clause, string_visits};
ghost use Rattle.sil_model.specs.Fits.{fit};
ghost use Rattle.sil_model.specs.Prints.{writes_records};
ghost use Rattle.sil_micro.specs.Expands.{Expands};
ghost use Rattle.sil_micro.specs.Pieces.{weights};
ghost use Rattle.string_runtime.specs.Group.{is_string};
ghost use Rattle.exp_common.specs.Locations.{LocatesWithin};

use crate::copies::{apdsp, date, rplace};
use crate::integers::{intspc, spcint};
use crate::operands::{
    descr_spec, descr_spec_answer, one_spec, spec_descr, spec_descr_answer, specs_order,
    three_specs, two_specs,
};
use crate::scans::{getbal, lexcmp, trimsp, varid};
use sil_base::MAX_STATEMENTS;
use sil_macros::Macro;
use sil_micro::{Code, MAX_PIECE_WEIGHT, has_room};
use sil_model::{Specials, Statement};
use std::alloc::{AllocError, Global};

/// Whether a macro walks characters and is expanded so far.
pub fn is_string(name: Macro) -> bool
    ensures { result ≡ is_string name }
{
    matches!(
        name,
        Macro::Apdsp
            | Macro::Date
            | Macro::Getbal
            | Macro::Intspc
            | Macro::Lexcmp
            | Macro::Rplace
            | Macro::Spcint
            | Macro::Trimsp
            | Macro::Varid
    )
}

/// Expands statement number `at`. After an error the code may have a part of the statement's
/// operations.
pub fn expand_string(
    alloc: Global,
    statement: &Statement,
    at: u32,
    specials: &Specials,
    code: &mut Code,
) -> Result<(), AllocError>
    requires group { IsTrue (is_string statement.now.name) }
    requires fits { IsTrue (fit (row statement.now.name).places statement.now.args) }
    requires value { IfSome specials.now.int_code (λ v. v < 2 ^ 63) }
    requires locations { All (LocatesWithin (length code.old.entries)) statement.now.args }
    requires number { at < length code.old.entries }
    requires few { length code.old.entries ≤ MAX_STATEMENTS }
    requires light { weights code.old.ops ≤ MAX_PIECE_WEIGHT * at }
    ensures { OnOk result (Expands code.old code.new at specials.now statement.now.args (string_clause statement.now.name) (string_visits statement.now.name) (writes_records statement.now.name)) }
{
    let _ = alloc;
    has_room(code, at);
    let args = statement.args.items();
    match statement.name {
        Macro::Apdsp => {
            let (s1, s2) = two_specs(args);
            apdsp(code, at, specials, s1, s2)
        }
        Macro::Date => {
            let s = one_spec(args);
            date(code, at, specials, s)
        }
        Macro::Getbal => {
            let (s, d, to) = spec_descr_answer(args);
            getbal(code, at, specials, s, d, to)
        }
        Macro::Intspc => {
            let (s, d) = spec_descr(args);
            intspc(code, at, specials, s, d)
        }
        Macro::Lexcmp => {
            let (s1, s2, to) = specs_order(args);
            lexcmp(code, at, specials, s1, s2, to)
        }
        Macro::Rplace => {
            let (s1, s2, s3) = three_specs(args);
            rplace(code, at, specials, s1, s2, s3)
        }
        Macro::Spcint => {
            let (d, s, to) = descr_spec_answer(args);
            spcint(code, at, specials, d, s, to)
        }
        Macro::Trimsp => {
            let (s1, s2) = two_specs(args);
            trimsp(code, at, specials, s1, s2)
        }
        Macro::Varid => {
            let (d, s) = descr_spec(args);
            varid(code, at, specials, d, s)
        }
        _ => unreachable!(),
    }
}
