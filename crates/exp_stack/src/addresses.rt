// Addresses that go to scratch words.
ghost use Rattle.std.specs.Prelude.{◌≡◌, ◌+◌, ◌*◌, ◌<◌, ◌≤◌, ◌^◌, OnOk, length};
ghost use Rattle.sil_micro.specs.Codes.{appended};
ghost use Rattle.exp_stack.specs.ListParts.{line_code, places_code};

use sil_micro::{Code, op};
use std::alloc::AllocError;

/// The places go to the scratch words from `first` on.
pub fn append_places(code: &mut Code, first: u32, places: &[i64]) -> Result<(), AllocError>
    requires room { length code.old.ops + 500 < 2 ^ 32 }
    requires few { length places.now ≤ 100 }
    requires small { first ≤ 1000 }
    ensures grown { OnOk result (code.new ≡ appended code.old (places_code first places.now)) }
    ensures count { OnOk result (length code.new.ops ≡ length code.old.ops + 3 * length places.now) }
{
    for (i, place) in places.iter().enumerate() {
        code.append(&[
            op!(number 1, i64::from(first) + i as i64),
            op!(number 2, *place),
            op!(store_word Scratch 1, 2),
        ])?;
    }
    Ok(())
}

/// The addresses of so many cells go there, from the one in register 10 on.
pub fn append_line(code: &mut Code, first: u32, count: u32) -> Result<(), AllocError>
    requires room { length code.old.ops + 500 < 2 ^ 32 }
    ensures grown { OnOk result (code.new ≡ appended code.old (line_code first count)) }
    ensures count { OnOk result (length code.new.ops ≡ length code.old.ops + 8) }
{
    code.append(&[
        op!(number 1, i64::from(first)),
        op!(number 3, i64::from(count)),
        op!(jump_if Eq 3, 4, Op(8)),
        op!(store_word Scratch 1, 10),
        op!(Add 10, 10, 11),
        op!(Add 1, 1, 5),
        op!(Sub 3, 3, 5),
        op!(jump Op(2)),
    ])?;
    Ok(())
}
