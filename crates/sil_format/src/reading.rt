// The format of bytes.
ghost use Rattle.std.specs.Prelude.{◌≡◌, ◌<◌, ◌≤◌, suc, List, length, true, Some, None, IfOk, IfErr, IfSome, MatchOption, MatchResult};
ghost use Rattle.std.specs.List.{list_all};
ghost use Rattle.std.specs.Option.{option_map};
ghost use Rattle.sil_format.specs.FormatGrammar.{SpellsFormat, is_digit_or_blank, is_slash};
ghost use Rattle.sil_format.specs.FormatReading.{Answers, number_at, character_at, decimals_at, kind_at, text_at, item_with, item_at, next_at, items_in, inside_of, opened, format_of, is_format};
ghost use Rattle.sil_format.specs.declared.format.FormatStop.TheVariants.{Bad};
ghost use Rattle.sil_format.specs.declared.format.Item.{Item};

use crate::cutting::{are_blanks, count_in, cut_number, number_in, optional_count_in, skip_blanks};
use crate::format::{DataKind, Format, FormatStop, Item};
use sil_base::Record;
use std::alloc::{AllocError, Global};

/// A number at the front, and what follows it.
fn number_at(low: u16, high: u16, bytes: &[u8]) -> Option<(u16, &[u8])>
    requires { high ≤ 1000 }
    ensures read { MatchOption result
        (number_at low high bytes.now ≡ None)
        (λ p. number_at low high bytes.now ≡ Some (p.0, p.1.now)) }
    ensures shorter { IfSome result (λ p. (p.0 ≤ high) × (length p.1.now ≤ length bytes.now)) }
{
    let (digits, rest) = cut_number(bytes);
    let number = number_in(low, high, digits)?;
    Some((number, rest))
}

/// A1, whose letter stands before these bytes.
fn character_at(bytes: &[u8]) -> Option<(DataKind, &[u8])>
    ensures read { MatchOption result
        (character_at bytes.now ≡ None)
        (λ p. character_at bytes.now ≡ Some (p.0, p.1.now)) }
    ensures shorter { IfSome result (λ p. length p.1.now ≤ length bytes.now) }
{
    match bytes.split_first() {
        Some((b'1', rest)) => Some((DataKind::Character, rest)),
        _ => None,
    }
}

/// The point and the decimals of a width, and what follows them.
fn decimals_at(width: u16, bytes: &[u8]) -> Option<(DataKind, &[u8])>
    requires { width ≤ 255 }
    ensures read { MatchOption result
        (decimals_at width bytes.now ≡ None)
        (λ p. decimals_at width bytes.now ≡ Some (p.0, p.1.now)) }
    ensures shorter { IfSome result (λ p. length p.1.now ≤ length bytes.now) }
{
    match bytes.split_first() {
        Some((b'.', rest)) => {
            let (decimals, rest) = number_at(0, width, rest)?;
            Some((DataKind::Real { width, decimals }, rest))
        }
        _ => None,
    }
}

/// The kind of a data item whose letter stands before these bytes, and what follows it.
fn kind_at(letter: u8, bytes: &[u8]) -> Option<(DataKind, &[u8])>
    ensures read { MatchOption result
        (kind_at letter bytes.now ≡ None)
        (λ p. kind_at letter bytes.now ≡ Some (p.0, p.1.now)) }
    ensures shorter { IfSome result (λ p. length p.1.now ≤ length bytes.now) }
{
    match letter {
        b'I' => {
            let (width, rest) = number_at(1, 255, bytes)?;
            Some((DataKind::Integer { width }, rest))
        }
        b'A' => character_at(skip_blanks(bytes)),
        b'F' => {
            let (width, rest) = number_at(1, 255, bytes)?;
            decimals_at(width, rest)
        }
        _ => None,
    }
}

/// A text of so many bytes, and what follows it.
fn text_at(alloc: Global, size: u16, bytes: &[u8]) -> Result<(Item, &[u8]), FormatStop>
    ensures read { MatchResult result
        (λ p. text_at size bytes.now ≡ Some (p.0, p.1.now))
        (λ e. e ≡ Bad → text_at size bytes.now ≡ None) }
    ensures shorter { IfOk result (λ p. length p.1.now ≤ length bytes.now) }
{
    let size = usize::from(size);
    if size > bytes.len() {
        return Err(FormatStop::Bad);
    }
    let (text, rest) = bytes.split_at(size);
    Ok((Item::Text(Record::of(alloc, text)?), rest))
}

/// The item with this count and letter, and what follows it.
fn item_with<'a>(
    alloc: Global,
    count: &[u8],
    letter: u8,
    rest: &'a [u8],
) -> Result<(Item, &'a [u8]), FormatStop>
    requires { list_all is_digit_or_blank count.now ≡ true }
    ensures read { MatchResult result
        (λ p. item_with count.now letter rest.now ≡ Some (p.0, p.1.now))
        (λ e. e ≡ Bad → item_with count.now letter rest.now ≡ None) }
    ensures shorter { IfOk result (λ p. length p.1.now ≤ length rest.now) }
{
    match letter {
        b'/' => {
            if !are_blanks(count) {
                return Err(FormatStop::Bad);
            }
            Ok((Item::NewRecord, rest))
        }
        b'H' => text_at(alloc, count_in(count).ok_or(FormatStop::Bad)?, rest),
        b'X' => {
            let count = optional_count_in(count).ok_or(FormatStop::Bad)?;
            Ok((Item::Blanks(count), rest))
        }
        _ => {
            let count = optional_count_in(count).ok_or(FormatStop::Bad)?;
            let (kind, rest) = kind_at(letter, rest).ok_or(FormatStop::Bad)?;
            Ok((Item::Data { count, kind }, rest))
        }
    }
}

/// The item at the front, and what follows it.
fn item_at(alloc: Global, bytes: &[u8]) -> Result<(Item, &[u8]), FormatStop>
    ensures read { MatchResult result
        (λ p. item_at bytes.now ≡ Some (p.0, p.1.now))
        (λ e. e ≡ Bad → item_at bytes.now ≡ None) }
    ensures shorter { IfOk result (λ p. length p.1.now < length bytes.now) }
{
    let (count, rest) = cut_number(bytes);
    let Some((letter, rest)) = rest.split_first() else {
        return Err(FormatStop::Bad);
    };
    item_with(alloc, count, *letter, rest)
}

fn is_slash(item: &Item) -> bool
    ensures { result ≡ is_slash item.now }
{
    matches!(item, Item::NewRecord)
}

/// Where the next item is read, by whether a slash came before; nowhere where the format is closed here.
fn next_at(slash: bool, bytes: &[u8]) -> Result<Option<&[u8]>, FormatStop>
    ensures read { MatchResult result
        (λ next. next_at slash bytes.now ≡ Some (option_map (λ rest. rest.now) next))
        (λ e. (e ≡ Bad) × (next_at slash bytes.now ≡ None)) }
    ensures shorter { IfOk result (λ next. IfSome next (λ rest. length rest.now ≤ length bytes.now)) }
{
    match bytes.split_first() {
        Some((b')', rest)) if are_blanks(rest) => Ok(None),
        Some((b')', _)) | None => Err(FormatStop::Bad),
        Some((b',', rest)) => Ok(Some(rest)),
        Some((byte, _)) if *byte == b'/' || slash => Ok(Some(bytes)),
        Some(_) => Err(FormatStop::Bad),
    }
}

/// The items up to the closing bracket.
fn items_in(alloc: Global, bytes: &[u8]) -> Result<Format, FormatStop>
    ensures { Answers result (items_in (suc (length bytes.now)) bytes.now) }
{
    let mut items = Vec::new(alloc);
    let mut next = Some(bytes);
    while let Some(rest) = next {
        let (item, rest) = item_at(alloc, rest)?;
        next = next_at(is_slash(&item), skip_blanks(rest))?;
        items.push(item)?;
    }
    Ok(Format::of(items))
}

/// The format behind its opening bracket.
fn inside_of(alloc: Global, bytes: &[u8]) -> Result<Format, FormatStop>
    ensures { Answers result (inside_of bytes.now) }
{
    match skip_blanks(bytes).split_first() {
        Some((b')', rest)) => {
            if !are_blanks(rest) {
                return Err(FormatStop::Bad);
            }
            Ok(Format::of(Vec::new(alloc)))
        }
        _ => items_in(alloc, bytes),
    }
}

/// The format of bytes that begin with its bracket.
fn opened(alloc: Global, bytes: &[u8]) -> Result<Format, FormatStop>
    ensures { Answers result (opened bytes.now) }
{
    match bytes.split_first() {
        Some((b'(', rest)) => inside_of(alloc, rest),
        _ => Err(FormatStop::Bad),
    }
}

/// The format that bytes spell: its items in brackets, separated by commas, which a slash doesn't
/// need. Blanks outside H texts are skipped.
pub fn read_format(alloc: Global, bytes: &[u8]) -> Result<Format, FormatStop>
    ensures ok { IfOk result (λ items. SpellsFormat bytes.now items) }
    ensures bad { IfErr result (λ e. e ≡ Bad → (items : List Item) → ¬ SpellsFormat bytes.now items) }
    ensures exact { Answers result (format_of bytes.now) }
{
    opened(alloc, skip_blanks(bytes))
}

/// Whether bytes spell a format.
#[tactic(auto, unfolding(crate::specs::FormatReading::is_format))]
pub fn is_format(alloc: Global, bytes: &[u8]) -> Result<bool, AllocError>
    ensures { IfOk result (λ is. is ≡ is_format bytes.now) }
{
    match read_format(alloc, bytes) {
        Ok(_) => Ok(true),
        Err(FormatStop::Bad) => Ok(false),
        Err(FormatStop::Memory) => Err(AllocError),
    }
}
