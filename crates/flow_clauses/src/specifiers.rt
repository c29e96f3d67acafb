// Lists of places whose specifiers are read and written.
ghost use Rattle.std.specs.Prelude.{◌≡◌, ◌≤◌, length, take, All, IfSome, option_map};
ghost use Rattle.sil_model.specs.Access.{written};
ghost use Rattle.sil_model.specs.Lists.{all_specs_read, all_specs_written};
ghost use Rattle.sil_model.specs.Memory.{SameShape};
ghost use Rattle.sil_model.specs.Specifiers.{FitsSpec};
ghost use Rattle.flow_clauses.specs.Carried.{specs_carried};

use sil_base::MAX_LIST_ITEMS;
use sil_model::{Cells, Specifier, set_spec, spec};

/// The specifiers at the places.
fn read_specs(cells: &Cells, places: &[i64]) -> Option<[Specifier; MAX_LIST_ITEMS]>
    requires { length places.now ≤ MAX_LIST_ITEMS }
    ensures reads { all_specs_read cells.now places.now ≡ option_map (take (length places.now)) result }
    ensures fits { IfSome result (λ values. All (FitsSpec cells.now.limits) (take (length places.now) values)) }
{
    let mut values = [Specifier::default(); MAX_LIST_ITEMS];
    for (i, place) in places.iter().enumerate() {
        values[i] = spec(cells, *place)?;
    }
    Some(values)
}

/// Writes as many specifiers to the places, in order.
fn write_specs(cells: &mut Cells, places: &[i64], values: &[Specifier]) -> Option<()>
    requires many { length places.now ≤ length values.now }
    requires fits { All (FitsSpec cells.old.limits) values.now }
    ensures writes { all_specs_written cells.old places.now values.now ≡ written result cells.new }
    ensures keeps { SameShape cells.old cells.new }
{
    for (i, place) in places.iter().enumerate() {
        set_spec(cells, *place, &values[i])?;
    }
    Some(())
}

/// The specifiers at the sources go to the targets: all are read before one is written.
pub fn carry_specs(cells: &mut Cells, sources: &[i64], targets: &[i64]) -> Option<()>
    requires few { length sources.now ≤ MAX_LIST_ITEMS }
    requires same { length targets.now ≡ length sources.now }
    ensures writes { specs_carried cells.old sources.now targets.now ≡ written result cells.new }
    ensures keeps { SameShape cells.old cells.new }
{
    let values = read_specs(cells, sources)?;
    write_specs(cells, targets, &values[..sources.len()])
}
