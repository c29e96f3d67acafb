// The code of a program, which grows statement by statement.
ghost use Rattle.std.specs.Prelude.{◌≡◌, ◌+◌, ◌<◌, ◌≤◌, ◌^◌, ◌++◌, IfOk, OnErr, OnOk, IsTrue, length, replicate};
ghost use Rattle.sil_micro.specs.Codes.{appended, begun, entry_of, no_code, pushed, reserved, return_of, returned};
ghost use Rattle.sil_micro.specs.Forms.{all_ops, is_op};
ghost use Rattle.sil_micro.specs.Pieces.{fits_part, is_part, placed, placed_op, placed_target, target_within};

use crate::op::{Op, Target};
use sil_base::Record;
use std::alloc::{AllocError, Global};
use std::marker::Model;

/// What the operations of a statement weigh at most, its return part included.
pub const MAX_PIECE_WEIGHT: u64 = 12_000;

/// What the operations of a code weigh at most.
pub const MAX_CODE_WEIGHT: u64 = 197_000_000;

/// Operations, and for each statement the first operation of its code and of its return part, where
/// it has them; the number of static cells; and the texts of the formats.
#[derive(Drop)]
pub struct Code {
    ops: Vec<Op>,
    entries: Vec<Option<u32>>,
    returns: Vec<Option<u32>>,
    static_cells: u32,
    formats: Vec<Record>,
}

impl Model for Code {
    ghost use Rattle.sil_micro.specs.Codes.{MicroCode, IsCode};

    ghost Value = { MicroCode };

    ghost view = { λ c. record { ops = c.ops.items; entries = c.entries.items; returns = c.returns.items; static_cells = c.static_cells; formats = c.formats.items } };

    ghost invariant = { λ c. IsCode (record { ops = c.ops.items; entries = c.entries.items; returns = c.returns.items; static_cells = c.static_cells; formats = c.formats.items }) };
}

impl Code {
    /// A code with no operation and no statement.
    pub fn new(alloc: Global) -> Code
        ensures { result ≡ no_code }
    {
        Code {
            ops: Vec::new(alloc),
            entries: Vec::new(alloc),
            returns: Vec::new(alloc),
            static_cells: 0,
            formats: Vec::new(alloc),
        }
    }

    /// The operations.
    pub fn ops(&self) -> &[Op]
        ensures value { result.now ≡ self.now.ops }
        ensures rules { IsTrue (all_ops is_op self.now.ops) }
        ensures count { length self.now.ops < 2 ^ 32 }
    {
        self.ops.as_slice()
    }

    /// The number of statements.
    pub fn statements(&self) -> usize
        ensures value { result ≡ length self.now.entries }
        ensures returns { result ≡ length self.now.returns }
    {
        self.entries.len()
    }

    /// The first operation of statement `k`, where it has been begun.
    pub fn entry(&self, k: u32) -> Option<u32>
        ensures { result ≡ entry_of self.now k }
    {
        *self.entries.get(k as usize)?
    }

    /// The first operation of the return part of statement `k`, where it has one.
    pub fn returns(&self, k: u32) -> Option<u32>
        ensures { result ≡ return_of self.now k }
    {
        *self.returns.get(k as usize)?
    }

    /// The number of static cells.
    pub fn static_cells(&self) -> u32
        ensures { result ≡ self.now.static_cells }
    {
        self.static_cells
    }

    /// The texts of the formats.
    pub fn formats(&self) -> &[Record]
        ensures { result.now ≡ self.now.formats }
    {
        self.formats.as_slice()
    }

    /// Makes room for so many statements, none of which is begun.
    pub fn reserve_statements(&mut self, count: u32) -> Result<(), AllocError>
        ensures reserves { OnOk result (self.new ≡ reserved count self.old) }
        ensures stays { OnErr result (self.new ≡ self.old) }
    {
        let alloc = *self.ops.allocator();
        let entries = unset(alloc, count)?;
        let returns = unset(alloc, count)?;
        self.entries = entries;
        self.returns = returns;
        Ok(())
    }

    /// Sets the number of static cells and the texts of the formats.
    pub fn set_data(&mut self, static_cells: u32, formats: Vec<Record>)
        ensures { self.new ≡ record self.old { static_cells = static_cells; formats = formats.items } }
    {
        self.static_cells = static_cells;
        self.formats = formats;
    }

    /// Statement `k` begins with the next operation.
    pub fn begin_statement(&mut self, k: u32)
        requires { k < length self.old.entries }
        ensures { self.new ≡ begun k self.old }
    {
        self.entries[k as usize] = Some(self.ops.len() as u32);
    }

    /// The return part of statement `k` begins with the next operation.
    pub fn begin_return(&mut self, k: u32)
        requires { k < length self.old.entries }
        ensures { self.new ≡ returned k self.old }
    {
        self.returns[k as usize] = Some(self.ops.len() as u32);
    }

    /// Appends an operation.
    pub fn push(&mut self, op: Op) -> Result<(), AllocError>
        requires rules { IsTrue (is_op op) }
        requires room { length self.old.ops + 1 < 2 ^ 32 }
        ensures pushes { OnOk result (self.new ≡ pushed op self.old) }
        ensures stays { OnErr result (self.new ≡ self.old) }
    {
        self.ops.push(op)?;
        Ok(())
    }

    /// Appends a piece, or a part of one, whose places count from its first operation. The operations
    /// of a part may stand at the end after an error.
    pub fn append(&mut self, piece: &[Op]) -> Result<(), AllocError>
        requires part { IsTrue (is_part piece.now) }
        requires room { length self.old.ops + length piece.now < 2 ^ 32 }
        ensures appends { OnOk result (self.new ≡ appended self.old piece.now) }
        ensures count { OnOk result (length self.new.ops ≡ length self.old.ops + length piece.now) }
    {
        push_piece(&mut self.ops, piece)
    }
}

/// Appends the operations of a piece, which stands behind those that are there.
#[tactic(auto, using(crate::proofs::Placing::placing), unfolding(crate::specs::Pieces::placed))]
fn push_piece(ops: &mut Vec<Op>, piece: &[Op]) -> Result<(), AllocError>
    requires part { IsTrue (is_part piece.now) }
    requires room { length ops.old.items + length piece.now < 2 ^ 32 }
    requires rules { IsTrue (all_ops is_op ops.old.items) }
    ensures appends { OnOk result (ops.new.items ≡ ops.old.items ++ placed (length ops.old.items) piece.now) }
    ensures count { OnOk result (length ops.new.items ≡ length ops.old.items + length piece.now) }
    ensures most { length ops.new.items ≤ length ops.old.items + length piece.now }
    ensures rules { IsTrue (all_ops is_op ops.new.items) }
{
    let base = ops.len() as u32;
    for op in piece {
        ops.push(moved(base, piece.len(), *op))?;
    }
    Ok(())
}

/// For each of so many statements no place.
fn unset(alloc: Global, count: u32) -> Result<Vec<Option<u32>>, AllocError>
    ensures { IfOk result (λ v. v.items ≡ replicate count None) }
{
    let mut places = Vec::with_capacity(alloc, count as usize)?;
    places.resize(count as usize, None)?;
    Ok(places)
}

/// The operation, where its piece stands at a place.
fn moved(base: u32, size: usize, op: Op) -> Op
    requires fits { IsTrue (fits_part size op) }
    requires room { base + size < 2 ^ 32 }
    ensures value { result ≡ placed_op base op }
    ensures rules { IsTrue (is_op result) }
{
    match op {
        Op::Jump { to } => Op::Jump {
            to: moved_target(base, size, to),
        },
        Op::JumpIf {
            test,
            left,
            right,
            to,
        } => Op::JumpIf {
            test,
            left,
            right,
            to: moved_target(base, size, to),
        },
        other => other,
    }
}

/// The target of a jump within a piece of that size, where the piece stands at a place.
fn moved_target(base: u32, size: usize, to: Target) -> Target
    requires within { IsTrue (target_within size to) }
    requires room { base + size < 2 ^ 32 }
    ensures { result ≡ placed_target base to }
{
    match to {
        Target::Op(place) => Target::Op(base + place),
        other => other,
    }
}
