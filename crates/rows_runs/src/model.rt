// Cells and operands.
ghost use Rattle.std.specs.Prelude.{◌≡◌, ◌++◌, ◌≤◌, ◌^◌, replicate, IfOk};
ghost use Rattle.layout_params.specs.Parameters.{standard};
ghost use Rattle.sil_model.specs.FieldBits.{FitsBits};
ghost use Rattle.sil_model.specs.Start.{limits_of};

use layout_params::{
    Cell, Descr, Field, ParamStop, Params, STANDARD_PARAMS, read_params, standard_text_is_standard,
};
use sil_model::{Arg, Cells, a_field, f_field, limits_of, number, place, set_a_field, v_field};
use std::alloc::Global;
use std::test::Fail;

/// Where the first cell stands.
const FIRST: i64 = 0x4000_0000;

fn standard_params(alloc: Global) -> Result<Params, ParamStop>
    ensures { IfOk result (λ p. p ≡ standard) }
{
    standard_text_is_standard();
    read_params(alloc, STANDARD_PARAMS)
}

/// So many blank cells of the standard layout.
fn standard_cells(alloc: Global, count: usize) -> Result<Cells, Fail>
    requires { count ≤ 2 ^ 20 }
    ensures { IfOk result (λ c. c.limits ≡ limits_of standard.settings) }
{
    let limits = limits_of(&standard_params(alloc)?);
    Ok(Cells::new(alloc, limits, &[], count)?)
}

/// Whether a field of the first cell is read as it was written, and none is found within the cell.
fn is_kept(cells: &mut Cells, field: Field, value: u64) -> bool
    requires { FitsBits cells.old.limits field value }
    ensures { cells.new.limits ≡ cells.old.limits }
{
    let wrote = cells.set_field(FIRST, field, value);
    let read = cells.field(FIRST, field);
    let within = cells.set_field(FIRST + 8, field, value);
    wrote == Some(())
        && read == Some(value)
        && within == None
        && cells.field(FIRST + 8, field) == None
}

#[test]
fn cells_are_read_as_written(rt: HostRuntime) -> Result<(), Fail> {
    let limits = limits_of(&read_params(rt.alloc(), STANDARD_PARAMS)?);
    let mut cells = Cells::new(rt.alloc(), limits, &[], 2)?;
    let second = 0x4000_0010;
    let descr = Descr { a: 5, f: 0, v: 0 };
    assert_eq!(rt; cells.set_descr(second, descr), Some(()));
    assert_eq!(rt; a_field(&cells, second), Some(5));
    assert_eq!(rt; set_a_field(&mut cells, second, -7), Some(()));
    assert_eq!(rt; cells.descr(second), Some(Descr { a: -7, f: 0, v: 0 }));
    assert_eq!(rt; cells.set_cell(second, Cell::Descr(descr)), Some(()));
    assert_eq!(rt; cells.cell(second), Some(Cell::Descr(descr)));
    assert_eq!(rt; (cells.count(), cells.cell_size()), (2, 16));
    for address in [second + 8, second + 16, 0x3fff_fff0, -1] {
        assert_eq!(rt; cells.descr(address), None);
    }
    Ok(())
}

// fourteen zero bytes after two characters, and zeros past the cell's end
fn two_characters(first: u8, second: u8) -> Cell {
    let mut chars = [0; 64];
    chars[0] = first;
    chars[1] = second;
    Cell::Chars(chars)
}

#[test]
fn characters_make_a_descriptor_characters(rt: HostRuntime) -> Result<(), Fail> {
    let mut cells = standard_cells(rt.alloc(), 2)?;
    let minus_one = Descr { a: -1, f: 0, v: 0 };
    assert_eq!(rt; cells.set_descr(FIRST, minus_one), Some(()));
    assert_eq!(rt; cells.char_at(FIRST), None);
    assert_eq!(rt; cells.set_char(FIRST + 1, b'Y'), Some(()));
    assert_eq!(rt; cells.cell(FIRST), Some(two_characters(0, b'Y')));
    assert_eq!(rt; cells.set_char(FIRST, b'X'), Some(()));
    assert_eq!(rt; cells.cell(FIRST), Some(two_characters(b'X', b'Y')));
    let read = [
        cells.char_at(FIRST),
        cells.char_at(FIRST + 1),
        cells.char_at(FIRST + 2),
    ];
    assert_eq!(rt; read, [Some(b'X'), Some(b'Y'), Some(0)]);
    assert_eq!(rt;
        (cells.descr(FIRST), cells.field(FIRST, Field::A)),
        (None, None)
    );
    assert_eq!(rt; cells.set_field(FIRST, Field::V, 0), None);
    assert_eq!(rt; cells.cell(FIRST), Some(two_characters(b'X', b'Y')));
    assert_eq!(rt; cells.set_descr(FIRST, minus_one), Some(()));
    assert_eq!(rt;
        (cells.char_at(FIRST), cells.descr(FIRST)),
        (None, Some(minus_one))
    );
    for address in [FIRST + 32, FIRST - 1, -1] {
        assert_eq!(rt; cells.char_at(address), None);
        assert_eq!(rt; cells.set_char(address, b'Z'), None);
    }
    Ok(())
}

#[test]
fn a_field_keeps_the_others(rt: HostRuntime) -> Result<(), Fail> {
    let mut cells = standard_cells(rt.alloc(), 1)?;
    assert!(rt; is_kept(&mut cells, Field::A, 0xffff_ffff_ffff_fffe));
    assert!(rt; is_kept(&mut cells, Field::F, 65_535));
    assert!(rt; is_kept(&mut cells, Field::V, 4_294_967_295));
    let whole = Descr {
        a: -2,
        f: 65_535,
        v: 4_294_967_295,
    };
    assert_eq!(rt; cells.descr(FIRST), Some(whole));
    assert_eq!(rt; a_field(&cells, FIRST), Some(-2));
    assert_eq!(rt; f_field(&cells, FIRST), Some(65_535));
    assert_eq!(rt; v_field(&cells, FIRST), Some(4_294_967_295));
    Ok(())
}

#[test]
fn operands_are_read_by_their_kind(rt: HostRuntime) {
    let args = [Arg::Place(16), Arg::Number(-2)];
    assert_eq!(rt; (place(&args, 0), place(&args, 1)), (Some(16), None));
    assert_eq!(rt; (number(&args, 1), number(&args, 2)), (Some(-2), None));
}
