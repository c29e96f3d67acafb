// Searches in texts and among words.
ghost use Rattle.std.specs.Prelude.{◌≡◌, ◌==◌, ◌<◌, length, IfSome, position};
ghost use Rattle.std.specs.List.{list_any};
ghost use Rattle.sil_base.specs.Names.{is_word, texts_of};

/// The place of the first byte of this value.
pub fn index_of_byte(text: &[u8], byte: u8) -> Option<usize>
    ensures place { result ≡ position (λ c. c == byte) text.now }
    ensures within { IfSome result (λ at. at < length text.now) }
{
    text.iter().position(|c| *c == byte)
}

/// Whether a text is one of some words.
pub fn is_one_of(text: &[u8], words: &[&[u8]]) -> bool
    ensures { result ≡ list_any (is_word text.now) (texts_of words.now) }
{
    words.iter().any(|word| text == *word)
}

/// The place of a text among some words.
pub fn index_of(text: &[u8], words: &[&[u8]]) -> Option<usize>
    ensures place { result ≡ position (is_word text.now) (texts_of words.now) }
    ensures within { IfSome result (λ i. i < length words.now) }
{
    words.iter().position(|word| text == *word)
}
