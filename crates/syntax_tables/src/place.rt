// Where a tables file stands between two lines.
ghost use Rattle.std.specs.Prelude.{◌≡◌, IfOk};
ghost use Rattle.syntax_tables.specs.TableFiles.{place_after, closed};

use crate::saying::Saying;
use sil_base::Record;
use std::alloc::{AllocError, Global};

/// Where a file stands: between tables, or in the table of this name, before its ELSE or after it.
#[derive(Drop)]
pub(crate) enum Place {
    Between,
    Within(Record),
    Closing(Record),
}

/// The place after the END of a table.
fn closed(name: &Record, other: &Record) -> Option<Place>
    ensures { result ≡ closed name.now other.now }
{
    if other.bytes() == name.bytes() {
        Some(Place::Between)
    } else {
        None
    }
}

/// The place after a line, where that line may stand there.
pub(crate) fn place_after(
    alloc: Global,
    place: Place,
    saying: &Saying,
) -> Result<Option<Place>, AllocError>
    ensures { IfOk result (λ next. next ≡ place_after place saying.now) }
{
    let next = match (place, saying) {
        (Place::Between, Saying::Begin(name)) => {
            Some(Place::Within(Record::of(alloc, name.bytes())?))
        }
        (Place::Within(name), Saying::For(..)) => Some(Place::Within(name)),
        (Place::Within(name), Saying::Else(_)) => Some(Place::Closing(name)),
        (Place::Closing(name), Saying::End(other)) => closed(&name, other),
        _ => None,
    };
    Ok(next)
}
