// The instructions that read and write words of areas.
ghost use Rattle.std.specs.Prelude.{◌≡◌, ◌<◌, ◌^◌};
ghost use Rattle.rv_operations.specs.OpCodes.{call_with_code, load_word_code, store_word_code};

use crate::calling::{call_from, call_to};
use crate::places::Routines;
use crate::registers::{home, moved_to};
use rv_isa::{BOp, IOp, Instr, ROp, SOp, UOp};
use rv_straight::{branch, immediate, operate, store, upper_part};
use sil_micro::Area;

/// A word of the state: the top of the stack, the one below, or the steps taken.
pub fn load_state(routines: &Routines, place: u32, to: u8, at: u8) -> [Instr; 11]
    requires to { to < 16 }
    requires at { at < 16 }
    requires place { place < 2 ^ 31 }
    ensures { result ≡ load_word_code routines.now place Area.State to at }
{
    let from = place + 4;
    [
        moved_to(10, at),
        call_from(from, routines.below_state),
        call_to(from, routines.below_state),
        immediate(IOp::Addi, 28, 0, 2),
        branch(BOp::Bne, 10, 28, 12),
        operate(ROp::Sub, home(to), 25, 27),
        branch(BOp::Beq, 0, 0, 20),
        immediate(IOp::Slli, 28, 10, 3),
        upper_part(UOp::Lui, 29, 0x6_C000),
        operate(ROp::Add, 28, 28, 29),
        immediate(IOp::Ld, home(to), 28, 0),
    ]
}

/// A scratch word.
pub fn load_scratch(routines: &Routines, place: u32, to: u8, at: u8) -> [Instr; 7]
    requires to { to < 16 }
    requires at { at < 16 }
    requires place { place < 2 ^ 31 }
    ensures { result ≡ load_word_code routines.now place Area.Scratch to at }
{
    let from = place + 4;
    [
        moved_to(10, at),
        call_from(from, routines.below_scratch),
        call_to(from, routines.below_scratch),
        immediate(IOp::Slli, 28, 10, 3),
        upper_part(UOp::Lui, 29, 0x6_C000),
        operate(ROp::Add, 28, 28, 29),
        immediate(IOp::Ld, home(to), 28, 16),
    ]
}

/// A word of a table's entry.
pub fn load_table(routines: &Routines, place: u32, to: u8, at: u8) -> [Instr; 4]
    requires to { to < 16 }
    requires at { at < 16 }
    ensures { result ≡ load_word_code routines.now place Area.Tables to at }
{
    [
        immediate(IOp::Slli, 28, home(at), 3),
        upper_part(UOp::Lui, 29, 0x6_0000),
        operate(ROp::Add, 28, 28, 29),
        immediate(IOp::Ld, home(to), 28, 0),
    ]
}

/// The kind of a cell.
pub fn load_kind(routines: &Routines, place: u32, to: u8, at: u8) -> [Instr; 6]
    requires to { to < 16 }
    requires at { at < 16 }
    requires place { place < 2 ^ 31 }
    ensures { result ≡ load_word_code routines.now place Area.Kind to at }
{
    let from = place + 4;
    [
        moved_to(10, at),
        call_from(from, routines.below_cells),
        call_to(from, routines.below_cells),
        upper_part(UOp::Lui, 28, 0x5_0000),
        operate(ROp::Add, 28, 28, 10),
        immediate(IOp::Lbu, home(to), 28, 0),
    ]
}

/// Eight characters.
pub fn load_bytes(routines: &Routines, place: u32, to: u8, at: u8) -> [Instr; 4]
    requires to { to < 16 }
    requires at { at < 16 }
    requires place { place < 2 ^ 31 }
    ensures { result ≡ load_word_code routines.now place Area.Bytes to at }
{
    let from = place + 4;
    [
        moved_to(10, at),
        call_from(from, routines.word),
        call_to(from, routines.word),
        immediate(IOp::Ld, home(to), 10, 0),
    ]
}

/// A word of the state, or the kind of a cell, is set by a routine.
pub fn call_with(place: u32, routine: u32, at: u8, from: u8) -> [Instr; 4]
    requires at { at < 16 }
    requires from { from < 16 }
    requires place { place < 2 ^ 31 }
    ensures { result ≡ call_with_code at from place routine }
{
    let next = place + 8;
    [
        moved_to(10, at),
        moved_to(12, from),
        call_from(next, routine),
        call_to(next, routine),
    ]
}

/// A scratch word is set.
pub fn store_scratch(routines: &Routines, place: u32, at: u8, from: u8) -> [Instr; 7]
    requires at { at < 16 }
    requires from { from < 16 }
    requires place { place < 2 ^ 31 }
    ensures { result ≡ store_word_code routines.now place Area.Scratch at from }
{
    let next = place + 4;
    [
        moved_to(10, at),
        call_from(next, routines.below_scratch),
        call_to(next, routines.below_scratch),
        immediate(IOp::Slli, 28, 10, 3),
        upper_part(UOp::Lui, 29, 0x6_C000),
        operate(ROp::Add, 28, 28, 29),
        store(SOp::Sd, 28, home(from), 16),
    ]
}

/// A word of a table's entry is set.
pub fn store_table(routines: &Routines, place: u32, at: u8, from: u8) -> [Instr; 4]
    requires at { at < 16 }
    requires from { from < 16 }
    ensures { result ≡ store_word_code routines.now place Area.Tables at from }
{
    [
        immediate(IOp::Slli, 28, home(at), 3),
        upper_part(UOp::Lui, 29, 0x6_0000),
        operate(ROp::Add, 28, 28, 29),
        store(SOp::Sd, 28, home(from), 0),
    ]
}

/// Eight characters are set.
pub fn store_bytes(routines: &Routines, place: u32, at: u8, from: u8) -> [Instr; 4]
    requires at { at < 16 }
    requires from { from < 16 }
    requires place { place < 2 ^ 31 }
    ensures { result ≡ store_word_code routines.now place Area.Bytes at from }
{
    let next = place + 4;
    [
        moved_to(10, at),
        call_from(next, routines.word),
        call_to(next, routines.word),
        store(SOp::Sd, 10, home(from), 0),
    ]
}
