// The lines of a parameter file, and their words.
ghost use Rattle.std.specs.Prelude.{◌≡◌, ◌≤◌, vec_len, length, IfOk, if◌then◌else◌, Some, None};
ghost use Rattle.std.specs.Str.Parse.{digits_value};
ghost use Rattle.sil_base.specs.Names.{texts_of};
ghost use Rattle.layout_params.specs.ParameterLines.{lines_of, is_skipped, is_value};

use sil_base::{cut_line, digits_value, is_number, without_end};
use std::alloc::{AllocError, Global};

/// The lines of a file: each ends at LF, and a CR directly before it is dropped.
pub(crate) fn lines_of(alloc: Global, bytes: &[u8]) -> Result<Vec<&[u8]>, AllocError>
    ensures lines { IfOk result (λ v. texts_of v.items ≡ lines_of bytes.now) }
    ensures count { IfOk result (λ v. vec_len v ≤ length bytes.now) }
{
    let mut lines = Vec::new(alloc);
    let mut rest = bytes;
    while let Some((line, next)) = cut_line(rest) {
        lines.push(without_end(line))?;
        rest = next;
    }
    Ok(lines)
}

/// Whether a line is empty or begins with `*`.
pub(crate) fn is_skipped(line: &[u8]) -> bool
    ensures { result ≡ is_skipped line.now }
{
    match line.split_first() {
        Some((first, _)) => *first == b'*',
        None => true,
    }
}

/// The value of 1 to 19 digits, where it is below 2^63.
pub(crate) fn number_of(text: &[u8]) -> Option<u64>
    ensures { result ≡ (if is_value text.now then Some (digits_value 10 text.now) else None) }
{
    if !is_number(text) || text.len() > 19 {
        return None;
    }
    let value = digits_value(text)?;
    if value < 1 << 63 { Some(value) } else { None }
}
