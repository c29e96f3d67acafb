//! The rule of the table.
ghost use Rattle.std.specs.Prelude.{◌≡◌, ◌<◌, Some, length};
ghost use Rattle.std.specs.Ordering.{nat_cmp};
ghost use Rattle.std.specs.Cmp.Lexicographic.{slice_cmp};
ghost use Rattle.std.specs.declared.cmp.Ordering.TheVariants.{Less};
ghost use Rattle.sil_macros.specs.Macros.{macros, number_of, name_of, with_number, with_name};
ghost use Rattle.sil_macros.specs.declared.names.Macro.{Macro};

/// There are 130 macros; each stands at its number, and is found by its name; and the names rise in ASCII.
pub fn law_of_macros()
    ensures count { length macros ≡ 130 }
    ensures below { (m : Macro) → number_of m < 130 }
    ensures placed { (m : Macro) → with_number (number_of m) ≡ Some m }
    ensures named { (m : Macro) → with_name (name_of m) ≡ Some m }
    ensures rise { (m k : Macro) → number_of m < number_of k → slice_cmp nat_cmp (name_of m) (name_of k) ≡ Less }
    ensures one_number { (m k : Macro) → number_of m ≡ number_of k → m ≡ k }
    ensures one_name { (m k : Macro) → name_of m ≡ name_of k → m ≡ k }
{}
