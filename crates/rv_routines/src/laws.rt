// The laws of the shared routines.
ghost use Rattle.rv_routines.specs.Laws.{LawOfBelow, LawOfChars, LawOfCheck, LawOfFit, LawOfKind, LawOfMake, LawOfOpen, LawOfState, LawOfWords};

/// The routines that test the cell of an address make their tests.
pub fn law_of_checks()
    ensures check { LawOfCheck }
    ensures fit { LawOfFit }
    ensures open { LawOfOpen }
{}

/// So do those that test for characters, or make a cell characters.
pub fn law_of_characters()
    ensures chars { LawOfChars }
    ensures words { LawOfWords }
    ensures make { LawOfMake }
{}

/// So do those that test a number, set a kind, or a word of the state.
pub fn law_of_numbers()
    ensures below { LawOfBelow }
    ensures kind { LawOfKind }
    ensures state { LawOfState }
{}
