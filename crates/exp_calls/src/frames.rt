// The call's own part: its frame goes onto the stack, and the procedure follows.
ghost use Rattle.std.specs.Prelude.{◌≡◌, ◌+◌, ◌<◌, ◌≤◌, ◌^◌, OnOk, length};
ghost use Rattle.sil_micro.specs.Codes.{appended};
ghost use Rattle.exp_calls.specs.CallParts.{call_code, enter_code, frame_code};

use exp_stack::{
    append_gather, append_guard, append_line, append_places, append_scatter, append_up,
};
use sil_micro::{Code, op};
use std::alloc::AllocError;

/// The two cells of the frame of call `k` go to the values.
fn append_frame(code: &mut Code, k: u32) -> Result<(), AllocError>
    requires room { length code.old.ops + 500 < 2 ^ 32 }
    ensures grown { OnOk result (code.new ≡ appended code.old (frame_code k)) }
    ensures count { OnOk result (length code.new.ops ≡ length code.old.ops + 17) }
{
    code.append(&[
        op!(load_word State 6, 5),
        op!(number 2, 200),
        op!(store_word Scratch 2, 6),
        op!(Add 2, 2, 5),
        op!(store_word Scratch 2, 4),
        op!(Add 2, 2, 5),
        op!(store_word Scratch 2, 4),
        op!(Add 2, 2, 5),
        op!(number 6, i64::from(k)),
        op!(Mul 6, 6, 11),
        op!(number 7, 0x7000_0000),
        op!(Add 6, 7, 6),
        op!(store_word Scratch 2, 6),
        op!(Add 2, 2, 5),
        op!(store_word Scratch 2, 4),
        op!(Add 2, 2, 5),
        op!(store_word Scratch 2, 4),
    ])?;
    Ok(())
}

/// The tops are set, and the procedure follows.
fn append_enter(code: &mut Code, procedure: u32) -> Result<(), AllocError>
    requires room { length code.old.ops + 500 < 2 ^ 32 }
    ensures grown { OnOk result (code.new ≡ appended code.old (enter_code procedure)) }
    ensures count { OnOk result (length code.new.ops ≡ length code.old.ops + 4) }
{
    code.append(&[
        op!(load_word State 6, 4),
        op!(store_word State 5, 6),
        op!(store_word State 4, 12),
        op!(jump Statement(procedure)),
    ])?;
    Ok(())
}

/// The frame of call `k` and the arguments go onto the stack, or it goes to `over` where there is no
/// room; the procedure follows.
pub(crate) fn append_call(
    code: &mut Code,
    k: u32,
    over: Option<u32>,
    procedure: u32,
    places: &[i64],
) -> Result<(), AllocError>
    requires room { length code.old.ops + 1500 < 2 ^ 32 }
    requires few { length places.now ≤ 40 }
    ensures grown { OnOk result (code.new ≡ appended code.old (call_code k over procedure places.now)) }
    ensures count { OnOk result (length code.new.ops ≤ length code.old.ops + 300) }
{
    let count = places.len() as u32;
    append_up(code, k, 2 + count)?;
    append_guard(code, over)?;
    append_places(code, 0, places)?;
    append_line(code, 100, 2 + count)?;
    append_frame(code, k)?;
    append_gather(code, 206, count)?;
    append_scatter(code, 2 + count)?;
    append_enter(code, procedure)?;
    Ok(())
}
