// Cuts of bytes into parts.
ghost use Rattle.std.specs.Prelude.{◌≡◌, ◌+◌, ◌<◌, ◌==◌, [], ◌∷◌, Bool, length, take, drop, MatchOption, IfSome, position};
ghost use Rattle.sil_operands.specs.OperandReading.{parts_at, signed_parts, is_sign, operand_parts, place_after, separates};
ghost use Rattle.sil_operands.specs.declared.cutting.Place.TheVariants.{Outside};

use sil_base::index_of_byte;

/// Where a byte of a field stands: outside of lists and texts, within a list, or within a text.
#[derive(Clone, Copy)]
pub(crate) enum Place {
    Outside,
    Within,
    Quoted,
}

/// What stands before and after the first byte of this value.
pub(crate) fn cut(text: &[u8], separator: u8) -> Option<(&[u8], &[u8])>
    ensures parts { MatchOption result
        (parts_at separator text.now ≡ text.now ∷ [])
        (λ p. parts_at separator text.now ≡ p.0.now ∷ parts_at separator p.1.now) }
    ensures shorter { IfSome result (λ p. length p.1.now < length text.now) }
{
    match index_of_byte(text, separator) {
        Some(at) => Some((&text[..at], &text[at + 1..])),
        None => None,
    }
}

fn is_sign(byte: u8) -> bool
    ensures { result ≡ is_sign byte }
{
    byte == b'+' || byte == b'-'
}

fn index_of_sign(text: &[u8]) -> Option<usize>
    ensures { result ≡ position is_sign text.now }
{
    text.iter().position(|c| is_sign(*c))
}

/// What stands before the first sign, whether that is a minus, and what stands after it.
pub(crate) fn cut_sign(text: &[u8]) -> Option<(&[u8], bool, &[u8])>
    ensures parts { MatchOption result
        ((minus : Bool) → signed_parts minus text.now ≡ (minus, text.now) ∷ [])
        (λ p. (minus : Bool) → signed_parts minus text.now ≡ (minus, p.0.now) ∷ signed_parts p.1 p.2.now) }
    ensures shorter { IfSome result (λ p. length p.2.now < length text.now) }
{
    match index_of_sign(text) {
        Some(at) => Some((&text[..at], text[at] == b'-', &text[at + 1..])),
        None => None,
    }
}

/// The place after a byte.
fn place_after(place: Place, byte: u8) -> Place
    ensures { result ≡ place_after place byte }
{
    match place {
        Place::Outside => match byte {
            b'(' => Place::Within,
            b'\'' => Place::Quoted,
            _ => Place::Outside,
        },
        Place::Within => {
            if byte == b')' {
                Place::Outside
            } else {
                Place::Within
            }
        }
        Place::Quoted => {
            if byte == b'\'' {
                Place::Outside
            } else {
                Place::Quoted
            }
        }
    }
}

/// Whether a byte separates operands.
fn separates(place: Place, byte: u8) -> bool
    ensures { result ≡ separates place byte }
{
    match place {
        Place::Outside => byte == b',',
        Place::Within | Place::Quoted => false,
    }
}

/// The index of the first comma that separates operands.
fn index_of_separator(field: &[u8]) -> Option<usize>
    ensures parts { MatchOption result
        (operand_parts Outside field.now ≡ field.now ∷ [])
        (λ i. operand_parts Outside field.now ≡ take i field.now ∷ operand_parts Outside (drop (i + 1) field.now)) }
    ensures within { IfSome result (λ i. i < length field.now) }
{
    let mut place = Place::Outside;
    for (i, byte) in field.iter().enumerate() {
        if separates(place, *byte) {
            return Some(i);
        }
        place = place_after(place, *byte);
    }
    None
}

/// What stands before and after the first comma that separates operands.
pub(crate) fn cut_operand(field: &[u8]) -> Option<(&[u8], &[u8])>
    ensures parts { MatchOption result
        (operand_parts Outside field.now ≡ field.now ∷ [])
        (λ p. operand_parts Outside field.now ≡ p.0.now ∷ operand_parts Outside p.1.now) }
    ensures shorter { IfSome result (λ p. length p.1.now < length field.now) }
{
    match index_of_separator(field) {
        Some(at) => Some((&field[..at], &field[at + 1..])),
        None => None,
    }
}
