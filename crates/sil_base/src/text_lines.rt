// Lines of a text.
ghost use Rattle.std.specs.Prelude.{◌≡◌, ◌+◌, ◌<◌, [], ◌∷◌, length, MatchOption, IfSome};
ghost use Rattle.std.specs.Str.Lines.{strip_carriage_return};
ghost use Rattle.sil_base.specs.Lines.{lines_of, without_end};

use crate::words::index_of_byte;

/// The first line of a text, with its end, and what stands after it.
pub fn cut_line(text: &[u8]) -> Option<(&[u8], &[u8])>
    ensures lines { MatchOption result (lines_of text.now ≡ [])
        (λ p. lines_of text.now ≡ p.0.now ∷ lines_of p.1.now) }
    ensures shorter { IfSome result (λ p. length p.1.now < length text.now) }
    ensures within { IfSome result (λ p. length p.0.now + length p.1.now ≡ length text.now) }
{
    if text.is_empty() {
        return None;
    }
    match index_of_byte(text, b'\n') {
        Some(at) => Some((&text[..at + 1], &text[at + 1..])),
        None => Some((text, &text[text.len()..])),
    }
}

/// A line before an LF, without a CR at its end.
fn without_return(line: &[u8]) -> &[u8]
    ensures { result.now ≡ strip_carriage_return line.now }
{
    match line.split_last() {
        Some((b'\r', front)) => front,
        _ => line,
    }
}

/// A line without its end.
pub fn without_end(line: &[u8]) -> &[u8]
    ensures { result.now ≡ without_end line.now }
{
    match line.split_last() {
        Some((b'\n', front)) => without_return(front),
        _ => line,
    }
}
