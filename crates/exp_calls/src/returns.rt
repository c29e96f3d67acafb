// Returns from procedures.
ghost use Rattle.std.specs.Prelude.{◌≡◌, ◌+◌, ◌*◌, ◌<◌, ◌≤◌, ◌^◌, ◌∷◌, [], OnOk, IsTrue, length};
ghost use Rattle.sil_macros.specs.MacroRows.{row};
ghost use Rattle.sil_macros.specs.OperandPlaces.{D, N, maybe};
ghost use Rattle.sil_model.specs.Fits.{fit};
ghost use Rattle.sil_micro.specs.Codes.{appended};
ghost use Rattle.sil_micro.specs.Pieces.{weights};
ghost use Rattle.exp_calls.specs.CallHalves.{ExpandsReturn, numbered};
ghost use Rattle.exp_calls.specs.Group.{is_return};
ghost use Rattle.exp_calls.specs.ReturnParts.{flagged, frame_read_code, hand_over_code, number_or_absent, place_or_absent, top_code};

use sil_base::MAX_STATEMENTS;
use sil_macros::Macro;
use sil_micro::{Code, MAX_PIECE_WEIGHT, Op, has_room, op};
use sil_model::{Arg, Specials, Statement};
use std::alloc::{AllocError, Global};

/// Whether a macro returns from a procedure.
pub fn is_return(name: Macro) -> bool
    ensures { result ≡ is_return name }
{
    matches!(name, Macro::Rrturn)
}

/// Expands statement number `at`, an RRTURN, up to its jump to the return part of its call. After an
/// error the code may have a part of the statement's operations.
pub fn expand_return(
    alloc: Global,
    statement: &Statement,
    at: u32,
    specials: &Specials,
    code: &mut Code,
) -> Result<(), AllocError>
    requires group { IsTrue (is_return statement.now.name) }
    requires fits { IsTrue (fit (row statement.now.name).places statement.now.args) }
    requires number { at < length code.old.entries }
    requires few { length code.old.entries ≤ MAX_STATEMENTS }
    requires light { weights code.old.ops ≤ MAX_PIECE_WEIGHT * at }
    ensures { OnOk result (ExpandsReturn code.old code.new at specials.now statement.now.args) }
{
    let _ = alloc;
    has_room(code, at);
    match statement.name {
        Macro::Rrturn => {
            let (place, number) = maybe_place_number(statement.args.items());
            rrturn(code, at, specials, place, number)
        }
        _ => unreachable!(),
    }
}

/// `RRTURN D?,N?`: the frame goes, and D and N are handed over to the call.
fn rrturn(
    code: &mut Code,
    k: u32,
    specials: &Specials,
    place: Option<i64>,
    number: Option<i64>,
) -> Result<(), AllocError>
    requires statement { k < length code.old.entries }
    requires room { length code.old.ops + 1500 < 2 ^ 32 }
    ensures { OnOk result (ExpandsReturn code.old code.new k specials.now (place_or_absent place ∷ number_or_absent number ∷ [])) }
{
    let _ = specials;
    code.begin_statement(k);
    append_frame_read(code, k)?;
    append_top(code)?;
    append_hand_over(code, place, number)?;
    Ok(())
}

/// The two cells of the frame are read.
fn append_frame_read(code: &mut Code, k: u32) -> Result<(), AllocError>
    requires room { length code.old.ops + 500 < 2 ^ 32 }
    ensures grown { OnOk result (code.new ≡ appended code.old (frame_read_code k)) }
    ensures count { OnOk result (length code.new.ops ≡ length code.old.ops + 11) }
{
    code.append(&[
        op!(begin k),
        op!(number 4, 0),
        op!(number 5, 1),
        op!(load_word State 6, 5),
        op!(fixed 7, Descr),
        op!(Add 8, 6, 7),
        op!(load A 9, 8),
        op!(number 10, 2),
        op!(Mul 10, 10, 7),
        op!(Add 8, 6, 10),
        op!(load A 11, 8),
    ])?;
    Ok(())
}

/// Undefined, where the saved top is neither the cell before the stack nor a cell of it.
fn append_top(code: &mut Code) -> Result<(), AllocError>
    requires room { length code.old.ops + 500 < 2 ^ 32 }
    ensures grown { OnOk result (code.new ≡ appended code.old top_code) }
    ensures count { OnOk result (length code.new.ops ≡ length code.old.ops + 14) }
{
    code.append(&[
        op!(fixed 12, Stack),
        op!(Sub 12, 12, 7),
        op!(fixed 13, Cells),
        op!(Mul 13, 13, 7),
        op!(number 14, 0x4000_0000),
        op!(Add 13, 14, 13),
        op!(Sub 13, 13, 7),
        op!(jump_if Lt 9, 12, Op(12)),
        op!(jump_if Lt 13, 9, Op(12)),
        op!(Sub 14, 9, 12),
        op!(Rem 14, 14, 7),
        op!(jump_if Eq 14, 4, Op(14)),
        op!(number 6, 3),
        op!(end 6),
    ])?;
    Ok(())
}

/// The frame goes, and a place and a number are handed over.
fn append_hand_over(
    code: &mut Code,
    place: Option<i64>,
    number: Option<i64>,
) -> Result<(), AllocError>
    requires room { length code.old.ops + 500 < 2 ^ 32 }
    ensures { OnOk result (code.new ≡ appended code.old (hand_over_code place number)) }
{
    let at = or_zero(place);
    let has = flag(place);
    let n = or_zero(number);
    code.append(&[
        op!(store_word State 4, 6),
        op!(store_word State 5, 9),
        op!(number 1, at),
        op!(number 2, has),
        op!(number 3, n),
        Op::JumpReturn { entry: 11 },
    ])?;
    Ok(())
}

/// A number, and 0 where there is none.
fn or_zero(number: Option<i64>) -> i64
    ensures { result ≡ numbered number }
{
    match number {
        Some(n) => n,
        None => 0,
    }
}

/// 1 where there is a place, else 0.
fn flag(place: Option<i64>) -> i64
    ensures { result ≡ flagged place }
{
    match place {
        Some(_) => 1,
        None => 0,
    }
}

/// The operands of a statement whose macro returns.
fn maybe_place_number(args: &[Arg]) -> (Option<i64>, Option<i64>)
    requires { IsTrue (fit (maybe D ∷ maybe N ∷ []) args.now) }
    ensures { args.now ≡ place_or_absent result.0 ∷ number_or_absent result.1 ∷ [] }
{
    match args {
        [Arg::Absent, Arg::Absent] => (None, None),
        [Arg::Absent, Arg::Number(n)] => (None, Some(*n)),
        [Arg::Place(at), Arg::Absent] => (Some(*at), None),
        [Arg::Place(at), Arg::Number(n)] => (Some(*at), Some(*n)),
        _ => unreachable!(),
    }
}
