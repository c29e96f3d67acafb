// Laws of micro code.
ghost use Rattle.std.specs.Prelude.{◌+◌, ◌*◌, ◌<◌, ◌≤◌, ◌^◌, length};
ghost use Rattle.sil_micro.specs.Pieces.{weights};
ghost use Rattle.sil_micro.specs.Laws.{LawOfMeeting, LawOfParts, LawOfRegisters, LawOnWays};

use crate::code::{Code, MAX_PIECE_WEIGHT};
use sil_base::MAX_STATEMENTS;

/// A code whose `k` statements weigh what they may has room for the operations of another.

pub fn has_room(code: &Code, k: u32)
    requires number { k < length code.now.entries }
    requires few { length code.now.entries ≤ MAX_STATEMENTS }
    requires light { weights code.now.ops ≤ MAX_PIECE_WEIGHT * k }
    ensures { length code.now.ops + 1500 < 2 ^ 32 }
{
    let _ = code;
    let _ = k;
}

/// What is put into a register is held there, and nothing else changes.
pub fn law_of_registers()
    ensures { LawOfRegisters }
{}

/// A run goes the ways of the pieces that stand in its code, and meets the statements that they
/// meet: each its own, once.
pub fn law_on_ways()
    ensures ways { LawOnWays }
    ensures meeting { LawOfMeeting }
{}

/// A part of a piece goes the way that it goes by itself.
pub fn law_of_parts()
    ensures { LawOfParts }
{}
