// What a tables file has written.
ghost use Rattle.std.specs.Prelude.{◌≡◌, ◌<◌, ℕ, List, length, IfOk, OnOk, IfSome, position, nat_eq, Some, None, if◌then◌else◌};
ghost use Rattle.std.specs.Cmp.Lexicographic.{pointwise};
ghost use Rattle.std.specs.Option.{option_or};
ghost use Rattle.indexmap.specs.IndexMap.{get_by};
ghost use Rattle.sil_base.specs.Names.{is_word};
ghost use Rattle.syntax_tables.specs.TableFiles.{names_in, table_named};
ghost use Rattle.syntax_tables.specs.Numbers.{HasNumbers};

use crate::saying::{Said, Saying};
use indexmap::IndexMap;
use std::alloc::{AllocError, Global};
use std::marker::Model;

/// The lines of a tables file, with the number of the first table of each name.
#[derive(Debug, Drop)]
pub struct Written {
    numbers: IndexMap<Vec<u8>, usize>,
    lines: Vec<Said>,
}

impl Model for Written {
    ghost use Rattle.std.specs.Prelude.{List};
    ghost use Rattle.syntax_tables.specs.TableFiles.{names_in};
    ghost use Rattle.syntax_tables.specs.Numbers.{HasNumbers};
    ghost use Rattle.syntax_tables.specs.declared.saying.Said.{Said};

    ghost Value = { List Said };

    ghost view = { λ w. w.lines.items };

    ghost invariant = { λ w. HasNumbers w.numbers.entries (names_in w.lines.items) };
}

/// Adds the name of the table of this number, unless an earlier one has it.
fn add_name(
    alloc: Global,
    numbers: &mut IndexMap<Vec<u8>, usize>,
    name: &[u8],
    number: usize,
) -> Result<(), AllocError>
    ensures { OnOk result ((other : List ℕ)
        → get_by (λ k. pointwise nat_eq other k.items) numbers.new
        ≡ option_or (get_by (λ k. pointwise nat_eq other k.items) numbers.old) (if is_word other name.now then Some number else None)) }
{
    if numbers.contains_key(name) {
        return Ok(());
    }
    let key = Vec::from_slice(alloc, name)?;
    numbers.insert(key, number)?;
    Ok(())
}

/// The number of the first table of each name.
fn numbers_of(alloc: Global, lines: &[Said]) -> Result<IndexMap<Vec<u8>, usize>, AllocError>
    ensures { IfOk result (λ numbers. HasNumbers numbers.entries (names_in lines.now)) }
{
    let mut numbers = IndexMap::new(alloc);
    let mut count = 0;
    for said in lines {
        if let Saying::Begin(name) = &said.saying {
            add_name(alloc, &mut numbers, name.bytes(), count)?;
            count += 1;
        }
    }
    Ok(numbers)
}

impl Written {
    /// What these lines write.
    pub(crate) fn of(alloc: Global, lines: Vec<Said>) -> Result<Written, AllocError>
        ensures { IfOk result (λ w. w ≡ lines.items) }
    {
        let numbers = numbers_of(alloc, &lines)?;
        Ok(Written { numbers, lines })
    }

    /// What the lines say, in order.
    pub(crate) fn lines(&self) -> &[Said]
        ensures { result.now ≡ self.now }
    {
        self.lines.as_slice()
    }

    /// The place of the first table of a name.
    pub(crate) fn first(&self, name: &[u8]) -> Option<usize>
        ensures place { result ≡ position (is_word name.now) (names_in self.now) }
        ensures within { IfSome result (λ at. at < length (names_in self.now)) }
    {
        self.numbers.get(name).copied()
    }

    /// The number of the first table of a name, counted from 0; 65,535 stands for all that are
    /// above.
    pub fn find(&self, name: &[u8]) -> Option<u16>
        ensures number { result ≡ table_named (names_in self.now) name.now }
        ensures within { IfSome result (λ n. n < length (names_in self.now)) }
    {
        match self.first(name) {
            Some(at) => Some(at.min(65_535) as u16),
            None => None,
        }
    }
}
