// The words of whole codes.
ghost use Rattle.std.specs.Prelude.{◌≡◌, ℕ, ◌+◌, ◌*◌, ◌<◌, ◌≤◌, length, IfOk};
ghost use Rattle.std.specs.List.{flat_map};
ghost use Rattle.rv_emit.specs.Code.{op_place};
ghost use Rattle.rv_emit.specs.Emits.{CanEmit, Carries, FitsImage, op_places, statement_places, words_of};
ghost use Rattle.rv_emit.specs.Planned.{IsPlanned};

use crate::front::{append_front, past_code};
use crate::law::law_of_emission;
use crate::operations::{append_ops, op_places};
use crate::plan::Plan;
use layout_params::{Layout, Params};
use rv_operations::{law_of_lengths, law_of_op_words};
use rv_straight::append_words;
use sil_base::{Items, Record};
use sil_micro::Code;
use std::alloc::{AllocError, Global};

/// The code words of a code, the places of its statements, the places of its operations and last the
/// place after all of them, and the texts of its formats one after another.
#[derive(Drop)]
pub struct Emitted {
    pub words: Items<u32>,
    pub places: Items<u64>,
    pub ops: Items<u64>,
    pub constants: Items<u8>,
}

/// The code words.
fn code_words<L: Layout>(alloc: Global, plan: &Plan<'_>, layout: &L) -> Result<Vec<u32>, AllocError>
    requires plan { IsPlanned plan.now.params.now.settings plan.now.code.now plan.now.ops.now }
    requires layout { L.sizes layout.now ≡ plan.now.params.now.settings.sizes }
    ensures { IfOk result (λ words. words.items ≡ words_of plan.now.params.now.settings plan.now.code.now) }
{
    law_of_op_words();
    let mut instrs = Vec::new(alloc);
    append_front(&mut instrs, plan, layout)?;
    append_ops(&mut instrs, plan, layout)?;
    instrs.extend_from_slice(&past_code(plan.code.statements() as u32))?;
    let mut words = Vec::new(alloc);
    append_words(&mut words, instrs.as_slice())?;
    Ok(words)
}

/// The places of statements.
fn statement_places(alloc: Global, plan: &Plan<'_>) -> Result<Vec<u64>, AllocError>
    requires { IsPlanned plan.now.params.now.settings plan.now.code.now plan.now.ops.now }
    ensures { IfOk result (λ places. places.items ≡ statement_places plan.now.params.now.settings plan.now.code.now) }
{
    let mut places = Vec::new(alloc);
    for k in 0..plan.code.statements() as u32 {
        places.push(u64::from(plan.statement(k)))?;
    }
    Ok(places)
}

/// The texts of formats, one after another.
fn joined(alloc: Global, formats: &[Record]) -> Result<Vec<u8>, AllocError>
    ensures { IfOk result (λ bytes. bytes.items ≡ flat_map (λ text. text) formats.now) }
{
    let mut bytes = Vec::new(alloc);
    for text in formats {
        bytes.extend_from_slice(text.bytes())?;
    }
    Ok(bytes)
}

/// The words and the places of a code that can be emitted, which carry its operations out.
pub fn emit<L: Layout>(
    alloc: Global,
    code: &Code,
    layout: &L,
    params: &Params,
) -> Result<Emitted, AllocError>
    requires layout { L.sizes layout.now ≡ params.now.settings.sizes }
    requires can { CanEmit code.now params.now.settings }
    ensures words { IfOk result (λ e. e.words ≡ words_of params.now.settings code.now) }
    ensures places { IfOk result (λ e. e.places ≡ statement_places params.now.settings code.now) }
    ensures ops { IfOk result (λ e. e.ops ≡ op_places params.now.settings code.now) }
    ensures constants { IfOk result (λ e. e.constants ≡ flat_map (λ text. text) code.now.formats) }
    ensures length { IfOk result (λ e. length e.words ≤ 12 * length code.now.ops + 4 * length code.now.entries + 2000) }
    ensures narrow { (q : ℕ) → q < length code.now.ops → op_place params.now.settings code.now (q + 1) ≤ op_place params.now.settings code.now q + 48 }
    ensures image { IfOk result (λ e. FitsImage e.words e.places) }
    ensures carries { IfOk result (λ e. Carries params.now.settings code.now e.words e.places) }
{
    law_of_lengths();
    law_of_op_words();
    law_of_emission();
    let ops = op_places(alloc, code, layout, params)?;
    let plan = Plan {
        code,
        params,
        ops: ops.as_slice(),
    };
    let words = code_words(alloc, &plan, layout)?;
    let places = statement_places(alloc, &plan)?;
    let constants = joined(alloc, code.formats())?;
    Ok(Emitted {
        words: Items::of(words),
        places: Items::of(places),
        ops: Items::of(ops),
        constants: Items::of(constants),
    })
}
