// The macros on the sizes of blocks of storage, one function each.
ghost use Rattle.std.specs.Prelude.{◌≡◌, ◌<◌, ◌≤◌, ◌^◌, pos};
ghost use Rattle.std.specs.Int.{w64, int_wrap};
ghost use Rattle.sil_model.specs.Access.{set_descr_at, written};
ghost use Rattle.sil_model.specs.Effects.{after_flow};
ghost use Rattle.spec_clauses.specs.SpecifierClauses.{block_size, getlth, sized_block, string_size, wrapped_alone};

use layout_params::{Descr, Params};
use sil_model::{Arg, Cells, Flow, a_field, place, set_integer};

/// The bytes of so many cells, and of those that so many characters take, which are one at least.
#[tactic(auto, unfolding(crate::specs::SpecifierClauses::string_size))]
fn string_size(size: u64, cells: u64, length: i64) -> u64
    requires least { 16 ≤ size }
    requires most { size ≤ 64 }
    requires few { cells ≤ 4 }
    ensures { result ≡ string_size size cells length }
{
    let characters = length.max(1) as u64;
    size * (cells + characters.div_ceil(size))
}

/// The size of the block with a title.
fn block_size(flag: u64, size: u64, title: &Descr) -> u64
    requires least { 16 ≤ size }
    requires most { size ≤ 64 }
    requires small { title.now.v < 2 ^ 48 }
    ensures { result ≡ block_size flag size title.now }
{
    if u64::from(title.f) & flag == flag {
        string_size(size, 4, title.v as i64)
    } else {
        title.v + size
    }
}

/// The number as an A field holds it, modulo 2^64.
fn wrapped(n: u64) -> i64
    ensures { result ≡ int_wrap w64 (pos n) }
{
    n.cast_signed()
}

/// Makes the cell at an address the number modulo 2^64, with 0 as F and V.
fn set_size(cells: &mut Cells, at: i64, n: u64) -> Option<()>
    ensures { set_descr_at cells.old at (wrapped_alone n) ≡ written result cells.new }
{
    set_integer(cells, at, wrapped(n))
}

/// `BKSIZE D1,D2` with t = [D2.A]: D1 := (d * (4 + max(t.V, 1) / d rounded up), 0, 0) where t.F has
/// the flag of string titles, else (t.V + d, 0, 0).
#[tactic(auto, unfolding(crate::specs::SpecifierClauses::sized_block))]
pub fn bksize(args: &[Arg], params: &Params, cells: &mut Cells) -> Option<Flow>
    ensures { sized_block params.now.settings.string_title_flag args.now cells.old ≡ after_flow result cells.new }
{
    let d1 = place(args, 0)?;
    let d2 = place(args, 1)?;
    let at = a_field(cells, d2)?;
    let title = cells.descr(at)?;
    let [_, _, _, flag, _] = params.flags();
    set_size(cells, d1, block_size(flag, cells.cell_size(), &title))?;
    Some(Flow::Next)
}

/// `GETLTH D1,D2`: D1 := (d * (3 + max(D2.A, 1) / d rounded up), 0, 0).
#[tactic(auto, unfolding(crate::specs::SpecifierClauses::getlth))]
pub fn getlth(args: &[Arg], cells: &mut Cells) -> Option<Flow>
    ensures { getlth args.now cells.old ≡ after_flow result cells.new }
{
    let d1 = place(args, 0)?;
    let d2 = place(args, 1)?;
    let n = a_field(cells, d2)?;
    set_size(cells, d1, string_size(cells.cell_size(), 3, n))?;
    Some(Flow::Next)
}
