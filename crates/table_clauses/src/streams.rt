// The walk over characters by syntax tables, and what it leaves.
ghost use Rattle.std.specs.Prelude.{◌≡◌, ◌+◌, ◌<◌, ◌≤◌, ◌^◌, IfSome, None};
ghost use Rattle.sil_model.specs.Access.{written};
ghost use Rattle.sil_model.specs.Effects.{after_flow};
ghost use Rattle.sil_model.specs.Specifiers.{FitsSpec};
ghost use Rattle.string_clauses.specs.Walks.{walk};
ghost use Rattle.table_clauses.specs.HaltBounds.{HaltsWithin, TurnsWithin};
ghost use Rattle.table_clauses.specs.SyntaxClauses.{acted, front_lost, latest, or_zero, parted, ran_out, stream, stream_turn, streamed};

use crate::operands::table;
use crate::tables::Tables;
use sil_model::{
    Action, Arg, Cells, Flow, Specifier, goto, place, set_a_field, set_spec, set_v_field, spec,
};
use std::ops::ControlFlow;
use string_clauses::second;

/// Where a walk stands: the table that it is in, and the value that was put last.
#[derive(Clone, Copy, PartialEq, Eq, Debug)]
pub struct Scan {
    pub table: u16,
    pub put: Option<i64>,
}

/// How a walk ends: at an entry with ERROR, or where no character is left, or behind so many
/// characters, with the value that was put last.
#[derive(Clone, Copy, PartialEq, Eq, Debug)]
pub enum Halt {
    Fails,
    RunsOut(Option<i64>),
    Stops(u64, Option<i64>),
}

/// What a walk writes: the cell of STYPE, the specifier of what was walked, and that of the rest.
#[derive(Clone, Copy, PartialEq, Eq, Debug)]
pub struct Places {
    pub stype: i64,
    pub head: i64,
    pub rest: i64,
}

/// Where a walk goes at an entry with ERROR, where no character is left, and where it stops.
#[derive(Clone, Copy, PartialEq, Eq, Debug)]
pub struct Exits {
    pub error: Flow,
    pub run_out: Flow,
    pub stop: Flow,
}

/// What an action makes of character i, in this table.
fn acted(action: Action, i: u64, t: u16, put: Option<i64>) -> ControlFlow<Halt, Scan>
    requires { i + 1 < 2 ^ 64 }
    ensures value { result ≡ acted action i t put }
    ensures within { TurnsWithin (i + 1) result }
{
    match action {
        Action::Contin => ControlFlow::Continue(Scan { table: t, put }),
        Action::Goto(next) => ControlFlow::Continue(Scan { table: next, put }),
        Action::Stop => ControlFlow::Break(Halt::Stops(i + 1, put)),
        Action::Stopsh => ControlFlow::Break(Halt::Stops(i, put)),
        Action::Error => ControlFlow::Break(Halt::Fails),
    }
}

/// The value that was put last, once an entry has put this.
fn latest(before: Option<i64>, put: Option<i64>) -> Option<i64>
    ensures { result ≡ latest before put }
{
    match put {
        None => before,
        Some(value) => Some(value),
    }
}

/// The entry of character i decides.
#[tactic(auto, unfolding(crate::specs::SyntaxClauses::stream_turn, sil_model::specs::Integers::wrapped_sum))]
fn stream_turn(
    tables: &Tables,
    cells: &Cells,
    at: i64,
    i: u64,
    scan: Scan,
) -> Option<ControlFlow<Halt, Scan>>
    requires { i + 1 < 2 ^ 64 }
    ensures value { result ≡ stream_turn tables.now cells.now at i scan }
    ensures within { IfSome result (TurnsWithin (i + 1)) }
{
    let c = cells.char_at(at.wrapping_add_unsigned(i))?;
    let entry = tables.entry(scan.table, c)?;
    Some(acted(entry.action, i, scan.table, latest(scan.put, entry.put)))
}

/// The end of a walk over so many characters.
#[tactic(auto, using(string_clauses::proofs::Turns::turns))]
fn walked(tables: &Tables, cells: &Cells, at: i64, count: u64, start: Scan) -> Option<Halt>
    ensures value { result ≡ walk (stream_turn tables.now cells.now at) ran_out 0 count start }
    ensures within { IfSome result (HaltsWithin count) }
{
    let mut scan = start;
    for i in 0..count {
        match stream_turn(tables, cells, at, i, scan)? {
            ControlFlow::Break(halt) => return Some(halt),
            ControlFlow::Continue(next) => scan = next,
        }
    }
    Some(Halt::RunsOut(scan.put))
}

fn or_zero(put: Option<i64>) -> i64
    ensures { result ≡ or_zero put }
{
    match put {
        None => 0,
        Some(value) => value,
    }
}

/// A specifier loses so many characters at its front; its second cell is at this address.
#[tactic(auto, unfolding(sil_model::specs::Integers::wrapped_sum))]
fn lose_front(cells: &mut Cells, at: i64, s: &Specifier, count: u64) -> Option<()>
    ensures { front_lost cells.old at s.now count ≡ written result cells.new }
{
    set_a_field(cells, at, s.o.wrapping_add_unsigned(count))?;
    set_v_field(cells, at, i128::from(s.l) - i128::from(count))
}

/// STYPE.A := what was put last, or 0; the head := so many characters of a specifier; and the rest,
/// which is that specifier as it was, loses them.
fn part(cells: &mut Cells, to: Places, s: &Specifier, count: u64, put: Option<i64>) -> Option<()>
    requires fits { FitsSpec cells.old.limits s.now }
    requires within { count ≤ s.now.l }
    ensures { parted to s.now count put cells.old ≡ written result cells.new }
{
    let next = second(cells, to.rest);
    set_a_field(cells, to.stype, or_zero(put))?;
    set_spec(cells, to.head, &Specifier { l: count, ..*s })?;
    lose_front(cells, next, s, count)
}

/// Where a walk over a specifier goes.
fn finish(cells: &mut Cells, to: Places, exits: Exits, s: &Specifier, halt: Halt) -> Option<Flow>
    requires fits { FitsSpec cells.old.limits s.now }
    requires within { HaltsWithin s.now.l halt }
    ensures { streamed to exits s.now halt cells.old ≡ after_flow result cells.new }
{
    match halt {
        Halt::Fails => {
            set_a_field(cells, to.stype, 0)?;
            Some(exits.error)
        }
        Halt::RunsOut(put) => {
            part(cells, to, s, s.l, put)?;
            Some(exits.run_out)
        }
        Halt::Stops(count, put) => {
            part(cells, to, s, count, put)?;
            Some(exits.stop)
        }
    }
}

/// `STREAM S1,S2,T,L1,L2,L3`, with the place of STYPE: the characters of S2 are walked from T on;
/// S1 := those up to the end of the walk, and S2 loses them.
#[tactic(auto, unfolding(crate::specs::SyntaxClauses::stream, sil_model::specs::Integers::wrapped_sum))]
pub fn stream(stype: Option<i64>, tables: &Tables, args: &[Arg], cells: &mut Cells) -> Option<Flow>
    ensures { stream stype tables.now args.now cells.old ≡ after_flow result cells.new }
{
    let stype = stype?;
    let head = place(args, 0)?;
    let rest = place(args, 1)?;
    let t = table(args, 2)?;
    let error = goto(args, 3)?;
    let run_out = goto(args, 4)?;
    let stop = goto(args, 5)?;
    let s = spec(cells, rest)?;
    let start = Scan {
        table: t,
        put: None,
    };
    let halt = walked(tables, cells, s.a.wrapping_add(s.o), s.l, start)?;
    let to = Places { stype, head, rest };
    let exits = Exits {
        error,
        run_out,
        stop,
    };
    finish(cells, to, exits, &s, halt)
}
