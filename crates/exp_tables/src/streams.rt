// The walk over characters by syntax tables.
ghost use Rattle.std.specs.Prelude.{◌≡◌, ◌+◌, ◌<◌, ◌≤◌, ◌^◌, ◌∷◌, [], All, None, OnOk, Some, false, length};
ghost use Rattle.sil_macros.specs.declared.names.Macro.TheVariants.{Stream};
ghost use Rattle.sil_model.specs.declared.program.Arg.TheVariants.{Goto, Place, Table};
ghost use Rattle.sil_micro.specs.Expands.{Expands};
ghost use Rattle.exp_common.specs.Locations.{LocatesWithin};
ghost use Rattle.table_clauses.specs.SyntaxTable.{table_clause, table_visits};

use crate::operands::ByWalk;
use crate::parts::{append_part, append_read, append_walk};
use sil_base::MAX_STATEMENTS;
use sil_micro::{Code, op};
use sil_model::Specials;
use std::alloc::AllocError;

/// `STREAM S1,S2,T,L1,L2,L3`: the characters of S2 are walked from T on; S1 := those up to the end
/// of the walk, and S2 loses them.
pub fn stream(
    code: &mut Code,
    k: u32,
    specials: &Specials,
    s1: i64,
    s2: i64,
    t: u16,
    to: ByWalk,
) -> Result<(), AllocError>
    requires statement { k < length code.old.entries }
    requires few { length code.old.entries ≤ MAX_STATEMENTS }
    requires room { length code.old.ops + 1500 < 2 ^ 32 }
    requires within { All (LocatesWithin (length code.old.entries)) (Place s1 ∷ Place s2 ∷ Table t ∷ Goto to.error ∷ Goto to.run_out ∷ Goto to.stop ∷ []) }
    ensures { OnOk result (Expands code.old code.new k specials.now (Place s1 ∷ Place s2 ∷ Table t ∷ Goto to.error ∷ Goto to.run_out ∷ Goto to.stop ∷ []) (table_clause Stream) (table_visits Stream) false) }
{
    match specials.stype {
        None => unmarked(code, k, specials, s1, s2, t, to),
        Some(stype) => marked(code, k, specials, s1, s2, t, to, stype),
    }
}

// where there is no STYPE
fn unmarked(
    code: &mut Code,
    k: u32,
    specials: &Specials,
    s1: i64,
    s2: i64,
    t: u16,
    to: ByWalk,
) -> Result<(), AllocError>
    requires statement { k < length code.old.entries }
    requires room { length code.old.ops + 1500 < 2 ^ 32 }
    requires place { specials.now.stype ≡ None }
    ensures { OnOk result (Expands code.old code.new k specials.now (Place s1 ∷ Place s2 ∷ Table t ∷ Goto to.error ∷ Goto to.run_out ∷ Goto to.stop ∷ []) (table_clause Stream) (table_visits Stream) false) }
{
    let _ = specials;
    let _ = s1;
    let _ = s2;
    let _ = t;
    let _ = to;
    code.begin_statement(k);
    code.append(&[op!(begin k), op!(number 6, 3), op!(end 6)])?;
    Ok(())
}

// where STYPE has a place
fn marked(
    code: &mut Code,
    k: u32,
    specials: &Specials,
    s1: i64,
    s2: i64,
    t: u16,
    to: ByWalk,
    stype: i64,
) -> Result<(), AllocError>
    requires statement { k < length code.old.entries }
    requires few { length code.old.entries ≤ MAX_STATEMENTS }
    requires room { length code.old.ops + 1500 < 2 ^ 32 }
    requires place { specials.now.stype ≡ Some stype }
    requires within { All (LocatesWithin (length code.old.entries)) (Place s1 ∷ Place s2 ∷ Table t ∷ Goto to.error ∷ Goto to.run_out ∷ Goto to.stop ∷ []) }
    ensures { OnOk result (Expands code.old code.new k specials.now (Place s1 ∷ Place s2 ∷ Table t ∷ Goto to.error ∷ Goto to.run_out ∷ Goto to.stop ∷ []) (table_clause Stream) (table_visits Stream) false) }
{
    let _ = specials;
    let (error, run_out, stop) = to.statements(k);
    code.begin_statement(k);
    append_read(code, k, s2)?;
    append_walk(code, t, stype, error)?;
    append_part(code, stype, s1, s2, run_out, stop)?;
    Ok(())
}
