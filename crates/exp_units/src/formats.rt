// The numbers of formats.
ghost use Rattle.std.specs.Prelude.{◌≡◌, ◌<◌, ◌^◌, Contains, Some, length, slice_get};

use sil_base::Record;

/// The number of a format, by its text.
pub(crate) fn format_number(formats: &[Record], text: &Record) -> u32
    requires there { Contains formats.now text.now }
    requires few { length formats.now < 2 ^ 32 }
    ensures { slice_get formats.now result ≡ Some text.now }
{
    for (i, format) in formats.iter().enumerate() {
        if format.bytes() == text.bytes() {
            return i as u32;
        }
    }
    unreachable!()
}
