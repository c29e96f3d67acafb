// Cuts of lines into words, and of classes into items.
ghost use Rattle.std.specs.Prelude.{◌≡◌, ◌+◌, ◌<◌, ◌&&◌, [], ◌∷◌, length, take, drop, not, false, MatchOption, IfSome, IfOk, option_map};
ghost use Rattle.sil_base.specs.Names.{texts_of};
ghost use Rattle.syntax_tables.specs.TableTexts.{separates, quoted_after, open_parts, words_of, bracketed};

use std::alloc::{AllocError, Global};

/// What stands between parts of a text: blanks and tabs between words, commas between items.
#[derive(Clone, Copy)]
pub(crate) enum Separator {
    Blank,
    Comma,
}

fn separates(separator: Separator, byte: u8) -> bool
    ensures { result ≡ separates separator byte }
{
    match separator {
        Separator::Blank => byte == b' ' || byte == b'\t',
        Separator::Comma => byte == b',',
    }
}

/// Whether quotes are open after a byte.
fn quoted_after(quoted: bool, byte: u8) -> bool
    ensures { result ≡ quoted_after quoted byte }
{
    if byte == b'\'' { !quoted } else { quoted }
}

/// The place of the first separator outside quotes.
fn index_of_open(text: &[u8], separator: Separator) -> Option<usize>
    ensures parts { MatchOption result
        (open_parts separator false text.now ≡ text.now ∷ [])
        (λ i. open_parts separator false text.now ≡ take i text.now ∷ open_parts separator false (drop (i + 1) text.now)) }
    ensures within { IfSome result (λ i. i < length text.now) }
{
    let mut quoted = false;
    for (i, byte) in text.iter().enumerate() {
        if !quoted && separates(separator, *byte) {
            return Some(i);
        }
        quoted = quoted_after(quoted, *byte);
    }
    None
}

/// What stands before and after the first separator outside quotes.
pub(crate) fn cut_open(text: &[u8], separator: Separator) -> Option<(&[u8], &[u8])>
    ensures parts { MatchOption result
        (open_parts separator false text.now ≡ text.now ∷ [])
        (λ p. open_parts separator false text.now ≡ p.0.now ∷ open_parts separator false p.1.now) }
    ensures shorter { IfSome result (λ p. length p.1.now < length text.now) }
{
    match index_of_open(text, separator) {
        Some(at) => Some((&text[..at], &text[at + 1..])),
        None => None,
    }
}

/// The words of a line.
pub(crate) fn words_of(alloc: Global, line: &[u8]) -> Result<Vec<&[u8]>, AllocError>
    ensures { IfOk result (λ v. texts_of v.items ≡ words_of line.now) }
{
    let mut words = Vec::new(alloc);
    let mut rest = line;
    while let Some((word, more)) = cut_open(rest, Separator::Blank) {
        if !word.is_empty() {
            words.push(word)?;
        }
        rest = more;
    }
    if !rest.is_empty() {
        words.push(rest)?;
    }
    Ok(words)
}

/// What stands in a word after this front, and before the bracket that ends it.
#[tactic(auto, unfolding(crate::specs::TableTexts::bracketed))]
pub(crate) fn bracketed<'a>(front: &[u8], word: &'a [u8]) -> Option<&'a [u8]>
    ensures { option_map (λ inner. inner.now) result ≡ bracketed front.now word.now }
{
    let len = front.len();
    if len < word.len() && &word[..len] == front && word[word.len() - 1] == b')' {
        Some(&word[len..word.len() - 1])
    } else {
        None
    }
}
