// What operations are linked to.
ghost use Rattle.std.specs.Prelude.{◌≡◌, ◌+◌, ◌*◌, ◌-◌, ◌<◌, ◌≤◌, ◌^◌, length, sum_by, IsTrue};
ghost use Rattle.sil_base.specs.Bytes.{number};
ghost use Rattle.layout_params.specs.Areas.{all_cells, hidden_cells};
ghost use Rattle.layout_params.specs.Parameters.{AreLegalSettings};
ghost use Rattle.sil_micro.specs.Codes.{op_leads};
ghost use Rattle.sil_micro.specs.Pieces.{names_within};
ghost use Rattle.rv_operations.specs.Links.{cell_place, fixed_bits, links_of, no_links, text_links};
ghost use Rattle.rv_emit.specs.Code.{number_of, places_of};
ghost use Rattle.rv_emit.specs.Planned.{IsPlanned, IsWord};

use crate::plan::Plan;
use layout_params::{Layout, Params};
use rv_operations::Links;
use sil_base::{FIRST_CELL, FIRST_CONSTANT, Record};
use sil_micro::{Fixed, Op, Text};

/// The cells of the hidden buffer.
pub fn hidden_cells(params: &Params) -> u64
    ensures { result ≡ hidden_cells params.now.settings }
{
    let descr = params.numbers().descr();
    (20 + descr - 1) / descr
}

/// The address of the first cell after so many.
pub fn cell_place(params: &Params, cells: u64) -> u64
    requires { cells ≤ 2 ^ 20 }
    ensures { result ≡ cell_place params.now.settings cells }
{
    FIRST_CELL + cells * params.numbers().descr()
}

/// The number of all cells.
pub fn all_cells(params: &Params, statics: u64) -> u64
    requires { all_cells params.now.settings statics ≤ 2 ^ 20 }
    ensures { result ≡ all_cells params.now.settings statics }
{
    statics + (hidden_cells(params) + params.dynamic_size() + params.stack_size())
}

/// The date as a number.
fn date_number(params: &Params) -> u64
    ensures { result ≡ number params.now.settings.date }
{
    u64::from_le_bytes(params.date())
}

/// The bits of a fixed number, over so many static cells.
fn fixed_bits(params: &Params, statics: u64, value: Fixed) -> u64
    requires { all_cells params.now.settings statics ≤ 2 ^ 20 }
    ensures { result ≡ fixed_bits params.now.settings statics value }
{
    match value {
        Fixed::Number(n) => n.cast_unsigned(),
        Fixed::Descr => params.numbers().descr(),
        Fixed::Obsiz => params.bucket_count(),
        Fixed::Sttl => params.flags()[3],
        Fixed::Ttl => params.flags()[4],
        Fixed::Date => date_number(params),
        Fixed::Hidden => cell_place(params, statics),
        Fixed::Dynamic => cell_place(params, statics + hidden_cells(params)),
        Fixed::Stack => cell_place(
            params,
            statics + hidden_cells(params) + params.dynamic_size(),
        ),
        Fixed::Cells => all_cells(params, statics),
    }
}

/// The bits of an operation's number, 0 where it has none.
pub fn number_of(params: &Params, statics: u64, op: Op) -> u64
    requires { all_cells params.now.settings statics ≤ 2 ^ 20 }
    ensures value { result ≡ number_of params.now.settings statics op }
    ensures word { IsWord params.now.settings statics op }
{
    match op {
        Op::Const { value, .. } => fixed_bits(params, statics, value),
        _ => 0,
    }
}

/// Links of an operation that has a number alone, or none.
pub fn number_links(number: u64) -> Links
    ensures { result ≡ record no_links { number = number } }
{
    Links {
        number,
        to: 0,
        text: 0,
        text_len: 0,
    }
}

/// Where the text of a format stands among the constants, which are the texts one after another.
fn format_links(formats: &[Record], i: u32) -> Links
    requires within { i < length formats.now }
    requires few { sum_by length formats.now ≤ 2097152 }
    ensures { result ≡ text_links formats.now (Text.Format i) }
{
    let before = &formats[..i as usize];
    let mut text = FIRST_CONSTANT as u32;
    for format in before {
        text += format.bytes().len() as u32;
    }
    Links {
        number: 0,
        to: 0,
        text,
        text_len: formats[i as usize].bytes().len() as u32,
    }
}

/// What an operation of the code is linked to.
pub fn links_of(plan: &Plan<'_>, op: Op) -> Links
    requires plan { IsPlanned plan.now.params.now.settings plan.now.code.now plan.now.ops.now }
    requires leads { IsTrue (op_leads (length plan.now.code.now.ops) op) }
    requires names { IsTrue (names_within (length plan.now.code.now.entries) (length plan.now.code.now.formats) op) }
    ensures { result ≡ links_of plan.now.params.now.settings plan.now.code.now.static_cells plan.now.code.now.formats (places_of plan.now.params.now.settings plan.now.code.now) op }
{
    let statics = u64::from(plan.code.static_cells());
    match op {
        Op::Const { .. } => number_links(number_of(plan.params, statics, op)),
        Op::Jump { to } | Op::JumpIf { to, .. } => Links {
            to: plan.target(to),
            ..number_links(0)
        },
        Op::UnitCall {
            text: Text::Format(i),
            ..
        } => format_links(plan.code.formats(), i),
        _ => number_links(0),
    }
}
