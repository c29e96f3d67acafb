// The faults of statements.
ghost use Rattle.std.specs.Prelude.{◌≡◌, IfOk};
ghost use Rattle.sil_shapes.specs.HeldSources.{IsResolution};
ghost use Rattle.sil_shapes.specs.ShapeRules.{statement_faults};

use crate::resolution::Resolution;
use crate::rules::statement_rule;
use sil_base::{Fault, SOURCE_FILE, fault_at};
use std::alloc::{AllocError, Global};

/// The statements whose operands don't have the shape of their macro (S1), have a location that is
/// no statement's entry (S2) or flags that aren't within their limit (S3), or name no FORMAT where
/// they are to name one (S4): each once, with its least rule.
#[tactic(auto, unfolding(crate::specs::ShapeRules::statement_faults))]
pub fn statement_faults(alloc: Global, source: &Resolution<'_>) -> Result<Vec<Fault>, AllocError>
    requires { IsResolution source.now }
    ensures { IfOk result (λ v. v.items ≡ statement_faults source.now.params.now source.now.statements.now) }
{
    let mut faults = Vec::new(alloc);
    for statement in source.statements {
        if let Some(rule) = statement_rule(source, statement) {
            faults.push(fault_at(SOURCE_FILE, b'S', statement.card, rule))?;
        }
    }
    Ok(faults)
}
