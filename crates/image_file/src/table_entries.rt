// An entry of a table in an image, sixteen bytes.
ghost use Rattle.std.specs.Prelude.{◌≡◌, ◌≤◌, length};
ghost use Rattle.image_file.specs.TableEntries.{table_entry, entry_fits};

use crate::numbers::{bytes_8, bytes_16, bytes_64, number_16, number_32, number_64};
use sil_base::MAX_TABLES;

/// The bytes of an entry.
pub(crate) const TABLE_ENTRY_BYTES: usize = 16;

// Where an entry's parts begin: the action, whether there is a PUT, the next table, zeros, and the
// PUT.
const ACTION_AT: usize = 0;

const PUTS_AT: usize = 1;

const NEXT_AT: usize = 2;

const ZEROS_AT: usize = 4;

const PUT_AT: usize = 8;

/// The bytes of an entry: of its action, of whether there is a PUT, of the next table and of the
/// PUT.
pub fn table_entry(action: u8, puts: u8, next: u16, put: u64) -> [u8; TABLE_ENTRY_BYTES]
    ensures { result ≡ table_entry action puts next put }
{
    let mut bytes = [0; TABLE_ENTRY_BYTES];
    bytes[ACTION_AT..PUTS_AT].copy_from_slice(&bytes_8(action));
    bytes[PUTS_AT..NEXT_AT].copy_from_slice(&bytes_8(puts));
    bytes[NEXT_AT..ZEROS_AT].copy_from_slice(&bytes_16(next));
    bytes[PUT_AT..TABLE_ENTRY_BYTES].copy_from_slice(&bytes_64(put));
    bytes
}

/// Whether the sixteen bytes of an entry fit, by the number of tables.
pub(crate) fn entry_fits(tables: usize, entry: &[u8]) -> bool
    requires size { length entry.now ≡ 16 }
    requires count { tables ≤ MAX_TABLES }
    ensures { result ≡ entry_fits tables entry.now }
{
    let next = number_16(&entry[NEXT_AT..ZEROS_AT]);
    entry[ACTION_AT] <= 4
        && entry[PUTS_AT] <= 1
        && (if entry[ACTION_AT] == 1 {
            usize::from(next) < tables
        } else {
            next == 0
        })
        && number_32(&entry[ZEROS_AT..PUT_AT]) == 0
        && (entry[PUTS_AT] != 0 || number_64(&entry[PUT_AT..TABLE_ENTRY_BYTES]) == 0)
}
