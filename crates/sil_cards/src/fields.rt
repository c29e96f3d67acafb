// The fields of a card.
ghost use Rattle.std.specs.Prelude.{◌≡◌, ◌≤◌, length, false, not, position};
ghost use Rattle.std.specs.List.{before_first, position_or_len, list_all};
ghost use Rattle.sil_cards.specs.CardFields.{is_blank, after_word, quoted_after, to_open_blank, is_comment, fields_of};
ghost use Rattle.sil_cards.specs.HeldFields.{fields_held};

/// The label, the operation and the operands of a card.
#[derive(Clone, Copy)]
pub(crate) struct Fields<'a> {
    pub label: &'a [u8],
    pub operation: &'a [u8],
    pub operands: &'a [u8],
}

fn is_blank(byte: u8) -> bool
    ensures { result ≡ is_blank byte }
{
    byte == b' ' || byte == b'\t'
}

fn first_blank(text: &[u8]) -> Option<usize>
    ensures { result ≡ position is_blank text.now }
{
    text.iter().position(|c| is_blank(*c))
}

fn first_other(text: &[u8]) -> Option<usize>
    ensures { result ≡ position (λ c. not (is_blank c)) text.now }
{
    text.iter().position(|c| !is_blank(*c))
}

/// The length of the first word.
#[tactic(auto, using(crate::proofs::TextLemmas::first_or_len, crate::proofs::TextLemmas::first_within))]
fn word_len(text: &[u8]) -> usize
    ensures len { result ≡ position_or_len is_blank text.now }
    ensures within { result ≤ length text.now }
{
    first_blank(text).unwrap_or(text.len())
}

/// The number of blanks in front.
#[tactic(auto, using(crate::proofs::TextLemmas::first_or_len, crate::proofs::TextLemmas::first_within))]
fn blanks_len(text: &[u8]) -> usize
    ensures len { result ≡ position_or_len (λ c. not (is_blank c)) text.now }
    ensures within { result ≤ length text.now }
{
    first_other(text).unwrap_or(text.len())
}

/// The first word, and what follows the blanks after it.
fn cut_word(text: &[u8]) -> (&[u8], &[u8])
    ensures word { result.0.now ≡ before_first is_blank text.now }
    ensures rest { result.1.now ≡ after_word text.now }
{
    let (word, rest) = text.split_at(word_len(text));
    (word, &rest[blanks_len(rest)..])
}

/// Whether quotes are open after a byte.
fn quoted_after(quoted: bool, byte: u8) -> bool
    ensures { result ≡ quoted_after quoted byte }
{
    if byte == b'\'' { !quoted } else { quoted }
}

/// A text up to its first blank outside quotes.
fn to_open_blank(text: &[u8]) -> &[u8]
    ensures { result.now ≡ to_open_blank false text.now }
{
    let mut quoted = false;
    for (i, c) in text.iter().enumerate() {
        if !quoted && is_blank(*c) {
            return &text[..i];
        }
        quoted = quoted_after(quoted, *c);
    }
    text
}

/// The fields of a card.
#[tactic(auto, unfolding(crate::specs::CardFields::fields_of))]
pub(crate) fn fields_of(text: &[u8]) -> Fields<'_>
    ensures { fields_held result ≡ fields_of text.now }
{
    let (label, rest) = cut_word(text);
    let (operation, rest) = cut_word(rest);
    Fields {
        label,
        operation,
        operands: to_open_blank(rest),
    }
}

fn are_blanks(text: &[u8]) -> bool
    ensures { result ≡ list_all is_blank text.now }
{
    text.iter().all(|c| is_blank(*c))
}

/// Whether a card begins with `*`, or has nothing but blanks.
#[tactic(auto, unfolding(crate::specs::CardFields::is_comment))]
pub(crate) fn is_comment(text: &[u8]) -> bool
    ensures { result ≡ is_comment text.now }
{
    match text.split_first() {
        Some((first, _)) => *first == b'*' || are_blanks(text),
        None => true,
    }
}
