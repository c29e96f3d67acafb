// Records that are written by a format.
ghost use Rattle.std.specs.Prelude.{◌≡◌, ◌+◌, ◌*◌, ◌<◌, ◌≤◌, ◌^◌, List, Contains, OnOk, true, length};
ghost use Rattle.sil_macros.specs.declared.names.Macro.TheVariants.{Output};
ghost use Rattle.unit_clauses.specs.UnitTable.{unit_visits};
ghost use Rattle.unit_clauses.specs.UnitClauses.{output};
ghost use Rattle.sil_model.specs.declared.program.Arg.{Arg};
ghost use Rattle.sil_micro.specs.Codes.{appended};
ghost use Rattle.exp_units.specs.InFormats.{ExpandsIn};
ghost use Rattle.exp_units.specs.OutputOperands.{IsOutput};
ghost use Rattle.exp_units.specs.UnitParts.{items_code};

use crate::calls::{append_call, append_head};
use crate::formats::format_number;
use sil_base::Record;
use sil_micro::{Code, Text, Values, op};
use sil_model::Specials;
use std::alloc::AllocError;

/// The A fields at the places go to the first scratch words.
fn append_items(code: &mut Code, places: &[i64]) -> Result<(), AllocError>
    requires room { length code.old.ops + 500 < 2 ^ 32 }
    requires few { length places.now ≤ 100 }
    ensures grown { OnOk result (code.new ≡ appended code.old (items_code 0 places.now)) }
    ensures count { OnOk result (length code.new.ops ≡ length code.old.ops + 4 * length places.now) }
{
    for (i, place) in places.iter().enumerate() {
        code.append(&[
            op!(number 1, *place),
            op!(load A 2, 1),
            op!(number 3, i as i64),
            op!(store_word Scratch 3, 2),
        ])?;
    }
    Ok(())
}

/// `OUTPUT D,M,DD?`: the records of format M and of the A fields of the items are written on unit
/// D.A.
pub(crate) fn output(
    code: &mut Code,
    k: u32,
    specials: &Specials,
    d: i64,
    text: &Record,
    places: &[i64],
) -> Result<(), AllocError>
    requires statement { k < length code.old.entries }
    requires room { length code.old.ops + 1500 < 2 ^ 32 }
    requires few { length places.now ≤ 40 }
    requires format { Contains code.old.formats text.now }
    requires few_formats { length code.old.formats < 2 ^ 32 }
    ensures { OnOk result ((args : List Arg) → IsOutput args d text.now places.now → ExpandsIn code.old code.new k specials.now args output (unit_visits Output) true) }
{
    let number = format_number(code.formats(), text);
    let count = places.len() as u8;
    code.begin_statement(k);
    append_head(code, k, d)?;
    append_items(code, places)?;
    append_call(code, 3, Text::Format(number), Values::Words { count })?;
    Ok(())
}
