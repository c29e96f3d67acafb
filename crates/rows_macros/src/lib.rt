// Worked rows of macros over cells of characters, and over units.
#![tactic(auto)]

mod characters;
#[cfg(test)]
mod one_statement;
mod row;
#[cfg(test)]
mod unit_rows;

use characters::{CHARACTERS, holds_over_characters};
use std::test::Fail;

#[test]
fn characters_are_no_descriptor_until_one_is_written(rt: HostRuntime) -> Result<(), Fail> {
    for (i, &(name, ops, expected)) in CHARACTERS.iter().enumerate() {
        let holds = holds_over_characters(rt.alloc(), name, ops, expected)?;
        assert!(rt; holds, "{i}");
    }
    Ok(())
}
