// Lists of places whose descriptors are read and written.
ghost use Rattle.std.specs.Prelude.{◌≡◌, ◌≤◌, length, take, map, All, IfSome, option_map};
ghost use Rattle.sil_model.specs.Access.{a_at, written};
ghost use Rattle.sil_format.specs.declared.value.Value.TheVariants.{Number};
ghost use Rattle.sil_model.specs.Lists.{all_a_read, all_read, all_written, line};
ghost use Rattle.sil_model.specs.Memory.{FitsDescr, SameShape};
ghost use Rattle.flow_clauses.specs.Carried.{carried};

use layout_params::Descr;
use sil_base::MAX_LIST_ITEMS;
use sil_format::Value;
use sil_model::{Cells, a_field};

/// So many addresses, each a step on from the one before.
#[tactic(auto, using(crate::proofs::Turns::lines))]
pub fn line(at: i64, step: i64, count: usize) -> [i64; MAX_LIST_ITEMS]
    requires { count ≤ MAX_LIST_ITEMS }
    ensures { take count result ≡ line at step count }
{
    let mut places = [0; MAX_LIST_ITEMS];
    let mut next = at;
    for i in 0..count {
        places[i] = next;
        next = next.wrapping_add(step);
    }
    places
}

/// The descriptors at the places.
pub fn read_all(cells: &Cells, places: &[i64]) -> Option<[Descr; MAX_LIST_ITEMS]>
    requires { length places.now ≤ MAX_LIST_ITEMS }
    ensures reads { all_read cells.now places.now ≡ option_map (take (length places.now)) result }
    ensures fits { IfSome result (λ values. All (FitsDescr cells.now.limits) (take (length places.now) values)) }
{
    let mut values = [Descr { a: 0, f: 0, v: 0 }; MAX_LIST_ITEMS];
    for (i, place) in places.iter().enumerate() {
        values[i] = cells.descr(*place)?;
    }
    Some(values)
}

/// The A field at a place, as a value of a format.
fn value(cells: &Cells, at: i64) -> Option<Value>
    ensures { result ≡ option_map Number (a_at cells.now at) }
{
    Some(Value::Number(a_field(cells, at)?))
}

/// The A fields at the places, as values of a format.
pub fn read_values(cells: &Cells, places: &[i64]) -> Option<[Value; MAX_LIST_ITEMS]>
    requires { length places.now ≤ MAX_LIST_ITEMS }
    ensures { option_map (map Number) (all_a_read cells.now places.now) ≡ option_map (take (length places.now)) result }
{
    let mut values = [Value::Number(0); MAX_LIST_ITEMS];
    for (i, place) in places.iter().enumerate() {
        values[i] = value(cells, *place)?;
    }
    Some(values)
}

/// Writes as many descriptors to the places, in order.
pub fn write_all(cells: &mut Cells, places: &[i64], values: &[Descr]) -> Option<()>
    requires many { length places.now ≤ length values.now }
    requires fits { All (FitsDescr cells.old.limits) values.now }
    ensures writes { all_written cells.old places.now values.now ≡ written result cells.new }
    ensures keeps { SameShape cells.old cells.new }
{
    for (i, place) in places.iter().enumerate() {
        cells.set_descr(*place, values[i])?;
    }
    Some(())
}

/// The descriptors at the sources go to the targets: all are read before one is written.
pub fn carry(cells: &mut Cells, sources: &[i64], targets: &[i64]) -> Option<()>
    requires few { length sources.now ≤ MAX_LIST_ITEMS }
    requires same { length targets.now ≡ length sources.now }
    ensures writes { carried cells.old sources.now targets.now ≡ written result cells.new }
    ensures keeps { SameShape cells.old cells.new }
{
    let values = read_all(cells, sources)?;
    write_all(cells, targets, &values[..sources.len()])
}
