// The law of records and their texts.
ghost use Rattle.std.specs.Prelude.{◌≡◌, ℕ, List, All};
ghost use Rattle.real_units.specs.RecordTexts.{records_in, text_of, IsOneLine};

/// What is written is read again, where no record has an LF within.
pub fn law_of_records()
    ensures { (records : List (List ℕ)) → All IsOneLine records → records_in (text_of records) ≡ records }
{}
