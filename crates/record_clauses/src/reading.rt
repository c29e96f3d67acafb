// What a record is read into.
ghost use Rattle.std.specs.Prelude.{◌≡◌, ◌<◌, ◌^◌, IfSome};
ghost use Rattle.record_clauses.specs.RecordClauses.{to_read};

use sil_model::{Arg, Cells, Flow, a_field, goto, place};
use string_clauses::{first, length};
use unit_calls::unit_number;

/// What is read: a record of a unit, into so many characters from an address on; and where a record,
/// the end of the records and a failure lead.
#[derive(Clone, Copy, PartialEq, Eq, Debug)]
pub struct Reading {
    pub unit: u32,
    pub at: i64,
    pub count: u64,
    pub at_end: Flow,
    pub failure: Flow,
    pub success: Flow,
}

/// What a STREAD of these operands reads.
#[tactic(auto, unfolding(crate::specs::RecordClauses::to_read))]
pub fn what_is_read(args: &[Arg], cells: &Cells) -> Option<Reading>
    ensures value { result ≡ to_read args.now cells.now }
    ensures small { IfSome result (λ r. r.count < 2 ^ 48) }
{
    let s = place(args, 0)?;
    let d = place(args, 1)?;
    let at_end = goto(args, 2)?;
    let failure = goto(args, 3)?;
    let success = goto(args, 4)?;
    let count = length(cells, s)?;
    let at = first(cells, count, s)?;
    let a = a_field(cells, d)?;
    Some(Reading {
        unit: unit_number(a.cast_unsigned()),
        at,
        count,
        at_end,
        failure,
        success,
    })
}
