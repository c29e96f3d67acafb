// The instructions that read and write cells.
ghost use Rattle.std.specs.Prelude.{◌≡◌, ◌<◌, ◌^◌};
ghost use Rattle.sil_micro.specs.declared.op.Op.TheVariants.{LoadChar, LoadField, StoreCell, StoreChar, StoreField};
ghost use Rattle.rv_operations.specs.OpCodes.{instructions};

use crate::calling::{call_from, call_to};
use crate::places::Site;
use crate::registers::{home, moved_to};
use layout_params::{Field, Layout};
use rv_isa::{IOp, Instr, SOp};
use rv_routines::{load_op, place_of, small, store_op, width_of};
use rv_straight::{immediate, store};

/// A field of the descriptor at an address.
#[tactic(auto, unfolding(crate::specs::OpCodes::instructions))]
pub fn load_field<L: Layout>(layout: &L, site: &Site, field: Field, to: u8, at: u8) -> [Instr; 4]
    requires to { to < 16 }
    requires at { at < 16 }
    requires place { site.now.place < 2 ^ 31 }
    ensures { result ≡ instructions (L.sizes layout.now) site.now (LoadField field to at) }
{
    let routine = site.routines.check;
    let place = site.place + 4;
    [
        moved_to(10, at),
        call_from(place, routine),
        call_to(place, routine),
        immediate(
            load_op(width_of(layout, field)),
            home(to),
            10,
            small(place_of(layout, field)),
        ),
    ]
}

/// A store of the A field.
#[tactic(auto, unfolding(crate::specs::OpCodes::instructions))]
pub fn store_a<L: Layout>(layout: &L, site: &Site, at: u8, from: u8) -> [Instr; 4]
    requires at { at < 16 }
    requires from { from < 16 }
    requires place { site.now.place < 2 ^ 31 }
    ensures { result ≡ instructions (L.sizes layout.now) site.now (StoreField Field.A at from) }
{
    let routine = site.routines.check;
    let place = site.place + 4;
    [
        moved_to(10, at),
        call_from(place, routine),
        call_to(place, routine),
        store(SOp::Sd, 10, home(from), small(place_of(layout, Field::A))),
    ]
}

/// A store of the F field, where the number fits.
#[tactic(auto, unfolding(crate::specs::OpCodes::instructions))]
pub fn store_f<L: Layout>(layout: &L, site: &Site, at: u8, from: u8) -> [Instr; 5]
    requires at { at < 16 }
    requires from { from < 16 }
    requires place { site.now.place < 2 ^ 31 }
    ensures { result ≡ instructions (L.sizes layout.now) site.now (StoreField Field.F at from) }
{
    let routine = site.routines.fit_f;
    let place = site.place + 8;
    [
        moved_to(10, at),
        moved_to(12, from),
        call_from(place, routine),
        call_to(place, routine),
        store(
            store_op(width_of(layout, Field::F)),
            10,
            12,
            small(place_of(layout, Field::F)),
        ),
    ]
}

/// A store of the V field, where the number fits.
#[tactic(auto, unfolding(crate::specs::OpCodes::instructions))]
pub fn store_v<L: Layout>(layout: &L, site: &Site, at: u8, from: u8) -> [Instr; 5]
    requires at { at < 16 }
    requires from { from < 16 }
    requires place { site.now.place < 2 ^ 31 }
    ensures { result ≡ instructions (L.sizes layout.now) site.now (StoreField Field.V at from) }
{
    let routine = site.routines.fit_v;
    let place = site.place + 8;
    [
        moved_to(10, at),
        moved_to(12, from),
        call_from(place, routine),
        call_to(place, routine),
        store(
            store_op(width_of(layout, Field::V)),
            10,
            12,
            small(place_of(layout, Field::V)),
        ),
    ]
}

/// A descriptor of three registers goes to the cell at an address.
#[tactic(auto, unfolding(crate::specs::OpCodes::instructions))]
pub fn store_cell<L: Layout>(layout: &L, site: &Site, at: u8, a: u8, f: u8, v: u8) -> [Instr; 8]
    requires at { at < 16 }
    requires a { a < 16 }
    requires f { f < 16 }
    requires v { v < 16 }
    requires place { site.now.place < 2 ^ 31 }
    ensures { result ≡ instructions (L.sizes layout.now) site.now (StoreCell at a f v) }
{
    let routine = site.routines.open_cell;
    let place = site.place + 12;
    [
        moved_to(10, at),
        moved_to(12, f),
        moved_to(13, v),
        call_from(place, routine),
        call_to(place, routine),
        store(SOp::Sd, 10, home(a), small(place_of(layout, Field::A))),
        store(
            store_op(width_of(layout, Field::F)),
            10,
            12,
            small(place_of(layout, Field::F)),
        ),
        store(
            store_op(width_of(layout, Field::V)),
            10,
            13,
            small(place_of(layout, Field::V)),
        ),
    ]
}

/// The character at an address.
#[tactic(auto, unfolding(crate::specs::OpCodes::instructions))]
pub fn load_char<L: Layout>(layout: &L, site: &Site, to: u8, at: u8) -> [Instr; 4]
    requires to { to < 16 }
    requires at { at < 16 }
    requires place { site.now.place < 2 ^ 31 }
    ensures { result ≡ instructions (L.sizes layout.now) site.now (LoadChar to at) }
{
    let routine = site.routines.chars;
    let place = site.place + 4;
    [
        moved_to(10, at),
        call_from(place, routine),
        call_to(place, routine),
        immediate(IOp::Lbu, home(to), 10, 0),
    ]
}

/// A character goes to an address, whose cell becomes characters.
#[tactic(auto, unfolding(crate::specs::OpCodes::instructions))]
pub fn store_char<L: Layout>(layout: &L, site: &Site, at: u8, from: u8) -> [Instr; 4]
    requires at { at < 16 }
    requires from { from < 16 }
    requires place { site.now.place < 2 ^ 31 }
    ensures { result ≡ instructions (L.sizes layout.now) site.now (StoreChar at from) }
{
    let routine = site.routines.make;
    let place = site.place + 4;
    [
        moved_to(10, at),
        call_from(place, routine),
        call_to(place, routine),
        store(SOp::Sb, 10, home(from), 0),
    ]
}
