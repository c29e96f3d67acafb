// The symbols of the dynamic storage.
ghost use Rattle.std.specs.Prelude.{◌≡◌, ◌+◌, ◌<◌, ◌^◌, [], None, Some, OnOk, false, length};
ghost use Rattle.sil_macros.specs.declared.names.Macro.TheVariants.{Init};
ghost use Rattle.flow_clauses.specs.FlowTable.{flow_visits};
ghost use Rattle.sil_model.specs.Effects.{on_site};
ghost use Rattle.flow_clauses.specs.FlowClauses.{init};
ghost use Rattle.sil_micro.specs.Expands.{Expands};
ghost use Rattle.exp_control.specs.SelectionParts.{storage};

use sil_micro::{Code, op};
use sil_model::Specials;
use std::alloc::AllocError;

/// FRSGPT, HDSGPT and TLSGP1, where all are there.
fn storage(specials: &Specials) -> Option<(i64, i64, i64)>
    ensures { result ≡ storage specials.now }
{
    Some((specials.first?, specials.head?, specials.tail?))
}

/// `INIT`: FRSGPT.A and HDSGPT.A := the first dynamic cell; TLSGP1.A := the cell behind the last.
pub fn init(code: &mut Code, k: u32, specials: &Specials) -> Result<(), AllocError>
    requires statement { k < length code.old.entries }
    requires room { length code.old.ops + 1500 < 2 ^ 32 }
    ensures { OnOk result (Expands code.old code.new k specials.now [] (on_site init) (flow_visits Init) false) }
{
    match storage(specials) {
        None => init_without(code, k, specials),
        Some((first, head, tail)) => init_with(code, k, specials, first, head, tail),
    }
}

/// Where one of the symbols isn't there, the statement is undefined.
fn init_without(code: &mut Code, k: u32, specials: &Specials) -> Result<(), AllocError>
    requires statement { k < length code.old.entries }
    requires room { length code.old.ops + 1500 < 2 ^ 32 }
    requires none { storage specials.now ≡ None }
    ensures { OnOk result (Expands code.old code.new k specials.now [] (on_site init) (flow_visits Init) false) }
{
    code.begin_statement(k);
    code.append(&[op!(begin k), op!(number 1, 3), op!(end 1)])?;
    Ok(())
}

fn init_with(
    code: &mut Code,
    k: u32,
    specials: &Specials,
    first: i64,
    head: i64,
    tail: i64,
) -> Result<(), AllocError>
    requires statement { k < length code.old.entries }
    requires room { length code.old.ops + 1500 < 2 ^ 32 }
    requires some { storage specials.now ≡ Some (first, head, tail) }
    ensures { OnOk result (Expands code.old code.new k specials.now [] (on_site init) (flow_visits Init) false) }
{
    code.begin_statement(k);
    code.append(&[
        op!(begin k),
        op!(fixed 2, Dynamic),
        op!(number 1, first),
        op!(store A 1, 2),
        op!(number 1, head),
        op!(store A 1, 2),
        op!(fixed 2, Stack),
        op!(number 1, tail),
        op!(store A 1, 2),
    ])?;
    Ok(())
}
