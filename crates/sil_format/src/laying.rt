// The records of a format and values.
ghost use Rattle.std.specs.Prelude.{◌≡◌, ◌+◌, ◌++◌, [], ◌∷◌, List, Bool, length, nat_lt, replicate, sum_by, IfOk, MatchResult};
ghost use Rattle.sil_format.specs.Records.{Step, item_steps, steps_of, data_count, has_data, records_of, KeepsLimit};
ghost use Rattle.sil_format.specs.Records.Step.{Put, One};
ghost use Rattle.sil_format.specs.Layout.{outcome, all_records, Stops};
ghost use Rattle.sil_format.specs.declared.value.Laid.TheVariants.{Records};
ghost use Rattle.sil_format.specs.declared.value.Value.{Value};

use crate::fields::{Field, field_of};
use crate::format::{DataKind, Format, Item};
use crate::sheet::{Sheet, Stop};
use crate::value::{Laid, Value};
use std::alloc::{AllocError, Global};

/// Puts the first value by a data item of this kind; the values that are left.
fn put_value<'a>(
    alloc: Global,
    sheet: &mut Sheet,
    kind: DataKind,
    values: &'a [Value],
) -> Result<&'a [Value], Stop>
    ensures laid { (again : Bool) (more : List Step) → MatchResult result
        (λ left. outcome again sheet.old (One kind ∷ more) values.now
        ≡ outcome again sheet.new more left.now)
        (λ stop. Stops stop (outcome again sheet.old (One kind ∷ more) values.now) sheet.new) }
    ensures taken { IfOk result (λ left. length left.now + 1 ≡ length values.now) }
{
    let Some((value, left)) = values.split_first() else {
        return Err(Stop::NoValue);
    };
    match field_of(alloc, kind, *value)? {
        Field::Bytes(bytes) => {
            if !sheet.put(bytes.items())? {
                return Err(Stop::Unfit);
            }
            Ok(left)
        }
        Field::Real => Err(Stop::Real),
        Field::Unfit => Err(Stop::Unfit),
    }
}

/// Puts so many values by data items of one kind; the values that are left.
fn put_values<'a>(
    alloc: Global,
    sheet: &mut Sheet,
    count: u16,
    kind: DataKind,
    values: &'a [Value],
) -> Result<&'a [Value], Stop>
    ensures laid { (again : Bool) (more : List Step) → MatchResult result
        (λ left. outcome again sheet.old (replicate count (One kind) ++ more) values.now
        ≡ outcome again sheet.new more left.now)
        (λ stop. Stops stop
        (outcome again sheet.old (replicate count (One kind) ++ more) values.now) sheet.new) }
    ensures taken { IfOk result (λ left. length left.now + count ≡ length values.now) }
{
    let mut left = values;
    for _ in 0..count {
        left = put_value(alloc, sheet, kind, left)?;
    }
    Ok(left)
}

/// Puts bytes that take no value.
fn put_bytes(sheet: &mut Sheet, bytes: &[u8]) -> Result<(), Stop>
    ensures { (again : Bool) (more : List Step) (values : List Value) → MatchResult result
        (λ _. outcome again sheet.old (Put bytes.now ∷ more) values ≡ outcome again sheet.new more values)
        (λ stop. Stops stop (outcome again sheet.old (Put bytes.now ∷ more) values) sheet.new) }
{
    if !sheet.put(bytes)? {
        return Err(Stop::Unfit);
    }
    Ok(())
}

/// Puts an item; the values that are left.
fn put_item<'a>(
    alloc: Global,
    sheet: &mut Sheet,
    item: &Item,
    values: &'a [Value],
) -> Result<&'a [Value], Stop>
    ensures laid { (again : Bool) (more : List Step) → MatchResult result
        (λ left. outcome again sheet.old (item_steps item.now ++ more) values.now
        ≡ outcome again sheet.new more left.now)
        (λ stop. Stops stop
        (outcome again sheet.old (item_steps item.now ++ more) values.now) sheet.new) }
    ensures taken { IfOk result (λ left. length left.now + data_count item.now ≡ length values.now) }
{
    match item {
        Item::Blanks(count) => {
            let blanks = vec![in alloc; b' '; usize::from(*count)]?;
            put_bytes(sheet, blanks.as_slice())?;
            Ok(values)
        }
        Item::Text(text) => {
            put_bytes(sheet, text.bytes())?;
            Ok(values)
        }
        Item::NewRecord => {
            sheet.end_record(alloc)?;
            Ok(values)
        }
        Item::Data { count, kind } => put_values(alloc, sheet, *count, *kind, values),
    }
}

/// Puts all items once; the values that are left.
fn put_items<'a>(
    alloc: Global,
    sheet: &mut Sheet,
    items: &[Item],
    values: &'a [Value],
) -> Result<&'a [Value], Stop>
    ensures laid { (again : Bool) (more : List Step) → MatchResult result
        (λ left. outcome again sheet.old (steps_of items.now ++ more) values.now
        ≡ outcome again sheet.new more left.now)
        (λ stop. Stops stop
        (outcome again sheet.old (steps_of items.now ++ more) values.now) sheet.new) }
    ensures taken { IfOk result (λ left. length left.now + sum_by data_count items.now ≡ length values.now) }
{
    let mut left = values;
    for item in items {
        left = put_item(alloc, sheet, item, left)?;
    }
    Ok(left)
}

fn takes_value(item: &Item) -> bool
    ensures { result ≡ nat_lt 0 (data_count item.now) }
{
    match item {
        Item::Data { count, .. } => *count > 0,
        Item::Blanks(_) | Item::Text(_) | Item::NewRecord => false,
    }
}

fn has_data(items: &[Item]) -> bool
    ensures { result ≡ has_data items.now }
{
    items.iter().any(takes_value)
}

/// Puts all items, again and again while values are left.
fn put_all(alloc: Global, sheet: &mut Sheet, items: &[Item], values: &[Value]) -> Result<(), Stop>
    requires { (sheet.old.ended.items ≡ []) × (sheet.old.last.items ≡ []) }
    ensures { MatchResult result
        (λ _. records_of items.now values.now ≡ Records (all_records sheet.new))
        (λ stop. Stops stop (records_of items.now values.now) sheet.new) }
{
    let again = has_data(items);
    let mut left = put_items(alloc, sheet, items, values)?;
    while !left.is_empty() {
        if !again {
            return Err(Stop::Unfit);
        }
        sheet.end_record(alloc)?;
        left = put_items(alloc, sheet, items, left)?;
    }
    Ok(())
}

/// The records that items lay out of values.
fn laid_by(alloc: Global, items: &[Item], values: &[Value]) -> Result<Laid, AllocError>
    ensures { IfOk result (λ laid. laid ≡ records_of items.now values.now) }
{
    let mut sheet = Sheet::new(alloc);
    match put_all(alloc, &mut sheet, items, values) {
        Ok(()) | Err(Stop::NoValue) => sheet.finish(alloc),
        Err(Stop::Real) => Ok(Laid::Real),
        Err(Stop::Unfit) => Ok(Laid::Unfit),
        Err(Stop::Memory) => Err(AllocError),
    }
}

/// The records that a format lays out of values.
pub fn lay_out(alloc: Global, format: &Format, values: &[Value]) -> Result<Laid, AllocError>
    ensures exact { IfOk result (λ laid. laid ≡ records_of format.now values.now) }
    ensures limit { IfOk result KeepsLimit }
{
    laid_by(alloc, format.items(), values)
}
