// The instructions of operations.
ghost use Rattle.std.specs.Prelude.{◌≡◌, ◌-◌, ◌++◌, ◌<◌, ◌≤◌, ◌^◌, OnOk, IsTrue};
ghost use Rattle.sil_micro.specs.Forms.{are_values};
ghost use Rattle.rv_operations.specs.OpCodes.{instructions, load_word_code, store_word_code, unit_call_code};
ghost use Rattle.rv_operations.specs.OpSites.{CanStand, HasRules, IsText, is_access};

use crate::cells::{load_char, load_field, store_a, store_cell, store_char, store_f, store_v};
use crate::flow::{begin, end, jump_by_entry};
use crate::places::{Links, Routines, Site};
use crate::registers::{arith_op, branch_op, home, moved_to};
use crate::units::{append_text, append_values, call_unit};
use crate::words::{
    call_with, load_bytes, load_kind, load_scratch, load_state, load_table, store_bytes,
    store_scratch, store_table,
};
use layout_params::{Field, Layout};
use rv_isa::Instr;
use rv_straight::{append_constant, jump_if, leap, operate};
use sil_micro::{Area, Op, Text, Values};
use std::alloc::AllocError;

/// Appends the instructions of a field's store.
#[tactic(auto, unfolding(crate::specs::OpCodes::instructions))]
fn append_store_field<L: Layout>(
    code: &mut Vec<Instr>,
    layout: &L,
    site: &Site,
    field: Field,
    at: u8,
    from: u8,
) -> Result<(), AllocError>
    requires at { at < 16 }
    requires from { from < 16 }
    requires place { site.now.place < 2 ^ 31 - 2 ^ 13 }
    ensures { OnOk result (code.new.items ≡ code.old.items ++ instructions (L.sizes layout.now) site.now (Op.StoreField field at from)) }
{
    match field {
        Field::A => code.extend_from_slice(&store_a(layout, site, at, from)),
        Field::F => code.extend_from_slice(&store_f(layout, site, at, from)),
        Field::V => code.extend_from_slice(&store_v(layout, site, at, from)),
    }
}

/// Appends the instructions of a word's load.
fn append_load_word(
    code: &mut Vec<Instr>,
    routines: &Routines,
    place: u32,
    area: Area,
    to: u8,
    at: u8,
) -> Result<(), AllocError>
    requires to { to < 16 }
    requires at { at < 16 }
    requires place { place < 2 ^ 31 - 2 ^ 13 }
    ensures { OnOk result (code.new.items ≡ code.old.items ++ load_word_code routines.now place area to at) }
{
    match area {
        Area::State => code.extend_from_slice(&load_state(routines, place, to, at)),
        Area::Scratch => code.extend_from_slice(&load_scratch(routines, place, to, at)),
        Area::Tables => code.extend_from_slice(&load_table(routines, place, to, at)),
        Area::Kind => code.extend_from_slice(&load_kind(routines, place, to, at)),
        Area::Bytes => code.extend_from_slice(&load_bytes(routines, place, to, at)),
    }
}

/// Appends the instructions of a word's store.
fn append_store_word(
    code: &mut Vec<Instr>,
    routines: &Routines,
    place: u32,
    area: Area,
    at: u8,
    from: u8,
) -> Result<(), AllocError>
    requires at { at < 16 }
    requires from { from < 16 }
    requires place { place < 2 ^ 31 - 2 ^ 13 }
    ensures { OnOk result (code.new.items ≡ code.old.items ++ store_word_code routines.now place area at from) }
{
    match area {
        Area::State => code.extend_from_slice(&call_with(place, routines.state, at, from)),
        Area::Scratch => code.extend_from_slice(&store_scratch(routines, place, at, from)),
        Area::Tables => code.extend_from_slice(&store_table(routines, place, at, from)),
        Area::Kind => code.extend_from_slice(&call_with(place, routines.kind, at, from)),
        Area::Bytes => code.extend_from_slice(&store_bytes(routines, place, at, from)),
    }
}

/// Appends the instructions of a call on a unit.
fn append_unit_call(
    code: &mut Vec<Instr>,
    links: &Links,
    call: u8,
    unit: u8,
    to: u8,
    text: Text,
    values: Values,
) -> Result<(), AllocError>
    requires unit { unit < 16 }
    requires to { to < 16 }
    requires text { IsText text }
    requires at { links.now.text < 2 ^ 31 - 2 ^ 11 }
    requires len { links.now.text_len ≤ 256 }
    requires values { IsTrue (are_values values) }
    ensures { OnOk result (code.new.items ≡ code.old.items ++ unit_call_code links.now call unit to text values) }
{
    code.push(moved_to(10, unit))?;
    append_text(code, links, text)?;
    append_values(code, values)?;
    code.extend_from_slice(&call_unit(call, to))
}

/// Appends the instructions of an operation on a cell, a word or a unit.
#[tactic(auto, unfolding(crate::specs::OpCodes::instructions))]
fn append_access<L: Layout>(
    code: &mut Vec<Instr>,
    layout: &L,
    site: &Site,
    op: Op,
) -> Result<(), AllocError>
    requires access { IsTrue (is_access op) }
    requires rules { HasRules op }
    requires stands { CanStand site.now op }
    ensures { OnOk result (code.new.items ≡ code.old.items ++ instructions (L.sizes layout.now) site.now op) }
{
    match op {
        Op::LoadField { field, to, at } => {
            code.extend_from_slice(&load_field(layout, site, field, to, at))
        }
        Op::StoreField { field, at, from } => {
            append_store_field(code, layout, site, field, at, from)
        }
        Op::StoreCell { at, a, f, v } => {
            code.extend_from_slice(&store_cell(layout, site, at, a, f, v))
        }
        Op::LoadChar { to, at } => code.extend_from_slice(&load_char(layout, site, to, at)),
        Op::StoreChar { at, from } => code.extend_from_slice(&store_char(layout, site, at, from)),
        Op::LoadWord { area, to, at } => {
            append_load_word(code, &site.routines, site.place, area, to, at)
        }
        Op::StoreWord { area, at, from } => {
            append_store_word(code, &site.routines, site.place, area, at, from)
        }
        Op::UnitCall {
            call,
            unit,
            to,
            text,
            values,
        } => append_unit_call(code, &site.links, call, unit, to, text, values),
        _ => unreachable!(),
    }
}

/// Appends the instructions of an operation where it stands.
#[tactic(auto, unfolding(crate::specs::OpCodes::instructions, rv_straight::specs::Jumps::leap, rv_straight::specs::Jumps::jump_if, rv_straight::specs::Constants::constant))]
pub fn append_op<L: Layout>(
    code: &mut Vec<Instr>,
    layout: &L,
    site: &Site,
    op: Op,
) -> Result<(), AllocError>
    requires rules { HasRules op }
    requires stands { CanStand site.now op }
    ensures { OnOk result (code.new.items ≡ code.old.items ++ instructions (L.sizes layout.now) site.now op) }
{
    let to_place = site.links.to;
    let place = site.place;
    let routines = &site.routines;
    match op {
        Op::Const { to, .. } => append_constant(code, home(to), site.links.number),
        Op::Copy { to, from } => code.extend_from_slice(&[moved_to(home(to), from)]),
        Op::Arith {
            kind,
            to,
            left,
            right,
        } => code.extend_from_slice(&[operate(arith_op(kind), home(to), home(left), home(right))]),
        Op::Jump { .. } => code.extend_from_slice(&leap(28, 0, place, to_place)),
        Op::JumpIf {
            test,
            left,
            right,
            ..
        } => code.extend_from_slice(&jump_if(
            branch_op(test),
            home(left),
            home(right),
            place,
            to_place,
        )),
        Op::JumpEntry { entry } => {
            code.extend_from_slice(&jump_by_entry(entry, place, routines.entry))
        }
        Op::JumpReturn { entry } => {
            code.extend_from_slice(&jump_by_entry(entry, place, routines.return_part))
        }
        Op::Begin { statement } => code.extend_from_slice(&begin(statement)),
        Op::End { by } => code.extend_from_slice(&end(by)),
        _ => append_access(code, layout, site, op),
    }
}
