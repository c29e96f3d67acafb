// Laws of lines.
ghost use Rattle.std.specs.Prelude.{◌≡◌, ℕ, List, map};
ghost use Rattle.std.specs.List.{concat};
ghost use Rattle.std.specs.Str.Lines.{lines};
ghost use Rattle.sil_base.specs.Lines.{lines_of, without_end};

/// Lines without their ends are those that `lines` of a text gives; with their ends they are the
/// whole text.
pub fn law_of_lines()
    ensures same { (text : List ℕ) → map without_end (lines_of text) ≡ lines text }
    ensures whole { (text : List ℕ) → concat (lines_of text) ≡ text }
{}
