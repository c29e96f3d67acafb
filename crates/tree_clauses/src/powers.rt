// Powers of integers.
ghost use Rattle.std.specs.Prelude.{◌≡◌};
ghost use Rattle.std.specs.Int.{int_pow};
ghost use Rattle.sil_model.specs.Effects.{after_flow};
ghost use Rattle.sil_model.specs.Integers.{in_range};
ghost use Rattle.tree_clauses.specs.PatternClauses.{expint, power};

use crate::patterns::deliver;
use sil_model::{Arg, Cells, Flow, a_field, goto, place};

/// The power by a number, where 64 bits hold it. By 64 and more they hold the powers of 0, 1 and -1
/// alone, which are those by any other such number that is even, or odd, too.
fn natural_power(x: i64, n: u64) -> Option<i64>
    ensures { result ≡ in_range (int_pow x n) }
{
    if n < 64 {
        x.checked_pow(n as u32)
    } else {
        x.checked_pow(64 + (n % 2) as u32)
    }
}

/// The power, where 64 bits hold it; none by a negative one, and none of 0 by 0.
#[tactic(auto, unfolding(crate::specs::PatternClauses::power))]
fn exact_power(x: i64, y: i64) -> Option<i64>
    ensures { result ≡ power x y }
{
    if y < 0 || (y == 0 && x == 0) {
        None
    } else if y == 0 {
        Some(1)
    } else {
        natural_power(x, y.cast_unsigned())
    }
}

/// `EXPINT D1,D2,D3,LF,LS`: D2.A to the power D3.A.
#[tactic(auto, unfolding(crate::specs::PatternClauses::expint))]
pub fn expint(args: &[Arg], cells: &mut Cells) -> Option<Flow>
    ensures { expint args.now cells.old ≡ after_flow result cells.new }
{
    let d1 = place(args, 0)?;
    let d2 = place(args, 1)?;
    let d3 = place(args, 2)?;
    let failure = goto(args, 3)?;
    let success = goto(args, 4)?;
    let x = cells.descr(d2)?;
    let y = a_field(cells, d3)?;
    deliver(cells, d1, &x, exact_power(x.a, y), failure, success)
}
