// The laws of straight code, constants and jumps.
ghost use Rattle.rv_straight.specs.Laws.{LawOfConstants, LawOfEffects, LawOfJumps, LawOfStraightCode, LawOfWords};

/// The table of effects is the emulator's.
pub fn law_of_effects()
    ensures { LawOfEffects }
{}

/// Code without branches runs as is said of it.
pub fn law_of_straight_code()
    ensures { LawOfStraightCode }
{}

/// The instructions of a constant put it into its register.
pub fn law_of_constants()
    ensures { LawOfConstants }
{}

/// A conditional jump goes where its comparison says.
pub fn law_of_jumps()
    ensures { LawOfJumps }
{}

/// All these instructions have words.
pub fn law_of_words()
    ensures { LawOfWords }
{}
