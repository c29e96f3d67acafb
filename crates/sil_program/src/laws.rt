// The law of programs.
ghost use Rattle.sil_program.specs.ProgramLaws.{LawOfPrograms};

/// A source without faults of symbols, of statements and of tables has a program: each operand of
/// an executable statement has its value, and is of the kind that its place asks for.
#[tactic(auto, using(crate::proofs::MadePrograms::programs_are_made))]
pub fn law_of_programs()
    ensures { LawOfPrograms }
{}
