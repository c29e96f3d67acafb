// Codes that are whole, and codes that aren't.
ghost use Rattle.rows_micro.specs.Examples.{begun_twice, jumping_out, two_statements};
ghost use Rattle.sil_micro.specs.Codes.{IsWhole};

/// A code that begins its statement twice isn't whole.
pub fn begun_twice_is_not_whole()
    ensures { IsWhole begun_twice → ⊥ }
{}

/// A code that jumps past its end isn't whole.
pub fn jump_past_the_end_is_not_whole()
    ensures { IsWhole jumping_out → ⊥ }
{}

/// A code of two statements, the first of which jumps to the second, is whole.
pub fn two_statements_are_whole()
    ensures { IsWhole two_statements }
{}
