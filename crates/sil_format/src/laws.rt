// Laws of formats.

ghost use Rattle.std.specs.Prelude.{◌≡◌, ℕ, ◌<◌, List, [], length, Some, true};
ghost use Rattle.sil_format.specs.FormatGrammar.{IsFormat, SpellsFormat};
ghost use Rattle.sil_format.specs.FormatReading.{format_of, is_format};
ghost use Rattle.sil_format.specs.Records.{has_data, laid, passes, records_of};
ghost use Rattle.sil_format.specs.declared.format.Item.{Item};
ghost use Rattle.sil_format.specs.declared.value.Value.{Value};

/// Bytes spell at most one format.
pub fn one_format_at_most()
    ensures { (bytes : List ℕ) (a b : List Item)
        → SpellsFormat bytes a → SpellsFormat bytes b → a ≡ b }
{}

/// What is spelled is read.
pub fn what_is_spelled_is_read()
    ensures { (bytes : List ℕ) (items : List Item)
        → SpellsFormat bytes items → format_of bytes ≡ Some items }
{}

/// What is read is spelled.
pub fn what_is_read_is_spelled()
    ensures { (bytes : List ℕ) (items : List Item)
        → format_of bytes ≡ Some items → SpellsFormat bytes items }
{}

/// The test of a format holds of the bytes that spell one, and of no others.
pub fn law_of_formats()
    ensures formats { (bytes : List ℕ) → is_format bytes ≡ true → IsFormat bytes }
    ensures tested { (bytes : List ℕ) → IsFormat bytes → is_format bytes ≡ true }
{}

/// More passes than there are values lay out the same: the steps never run out.
pub fn passes_are_enough()
    ensures { (items : List Item) (values : List Value) (n : ℕ) → length values < n
        → laid (has_data items) (passes n items) [] values ≡ records_of items values }
{}
