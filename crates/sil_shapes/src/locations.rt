// Entries of statements, and numbers within a limit.
ghost use Rattle.std.specs.Prelude.{◌≡◌, ◌<◌, ◌≤◌, length};
ghost use Rattle.sil_shapes.specs.Locations.{executable_count, statement_at, number_within};

use sil_base::{FIRST_ENTRY, MAX_CARDS};
use sil_macros::is_assembly;
use sil_symbols::Stmt;

/// How many statements are executable.
pub(crate) fn executable_count(statements: &[Stmt]) -> u32
    requires { length statements.now ≤ MAX_CARDS }
    ensures { result ≡ executable_count statements.now }
{
    let mut count = 0;
    for statement in statements {
        if !is_assembly(statement.name) {
            count += 1;
        }
    }
    count
}

/// The statement whose entry a number is, of so many, where a descriptor has so many bytes.
pub fn statement_at(size: u64, count: u32, at: i64) -> Option<u32>
    requires { 0 < size }
    ensures { result ≡ statement_at size count at }
{
    let offset = u64::try_from(at).ok()?.checked_sub(FIRST_ENTRY)?;
    if offset % size == 0 && offset / size < u64::from(count) {
        Some((offset / size) as u32)
    } else {
        None
    }
}

/// A number from 0 to a limit.
pub fn number_within(limit: u64, value: i64) -> Option<u64>
    ensures { result ≡ number_within limit value }
{
    let number = u64::try_from(value).ok()?;
    if number <= limit { Some(number) } else { None }
}
