// The call's return part: what it does with what a return hands over.
ghost use Rattle.std.specs.Prelude.{◌≡◌, ◌+◌, ◌*◌, ◌<◌, ◌≤◌, ◌^◌, OnOk, length};
ghost use Rattle.sil_micro.specs.Codes.{appended};
ghost use Rattle.exp_calls.specs.CallParts.{given_code, located_code, return_code};

use exp_common::lead;
use sil_micro::{Code, op};
use std::alloc::AllocError;

/// A return's descriptor goes to the call's, where both are there.
fn append_given(code: &mut Code, descriptor: Option<i64>) -> Result<(), AllocError>
    requires room { length code.old.ops + 500 < 2 ^ 32 }
    ensures grown { OnOk result (code.new ≡ appended code.old (given_code descriptor)) }
    ensures count { OnOk result (length code.new.ops ≤ length code.old.ops + 7) }
{
    match descriptor {
        None => Ok(()),
        Some(place) => {
            code.append(&[
                op!(number 4, 0),
                op!(jump_if Eq 2, 4, Op(7)),
                op!(load A 5, 1),
                op!(load F 6, 1),
                op!(load V 7, 1),
                op!(number 8, place),
                op!(store_cell 8, 5, 6, 7),
            ])?;
            Ok(())
        }
    }
}

/// It goes to the location of call `k` that the return's number says.
fn append_located(code: &mut Code, k: u32, locations: &[Option<u32>]) -> Result<(), AllocError>
    requires number { k < 2 ^ 31 }
    requires room { length code.old.ops + 500 < 2 ^ 32 }
    requires few { length locations.now ≤ 100 }
    ensures grown { OnOk result (code.new ≡ appended code.old (located_code k 1 locations.now)) }
    ensures count { OnOk result (length code.new.ops ≡ length code.old.ops + 2 * length locations.now) }
{
    for (i, location) in locations.iter().enumerate() {
        let to = lead(k, *location);
        code.append(&[
            op!(number 4, 1 + i as i64),
            op!(jump_if Eq 3, 4, Statement(to)),
        ])?;
    }
    Ok(())
}

/// The return part of call `k`.
pub(crate) fn append_return(
    code: &mut Code,
    k: u32,
    descriptor: Option<i64>,
    locations: &[Option<u32>],
) -> Result<(), AllocError>
    requires number { k < 2 ^ 31 }
    requires room { length code.old.ops + 600 < 2 ^ 32 }
    requires few { length locations.now ≤ 40 }
    ensures grown { OnOk result (code.new ≡ appended code.old (return_code descriptor k locations.now)) }
{
    append_given(code, descriptor)?;
    append_located(code, k, locations)?;
    Ok(())
}
