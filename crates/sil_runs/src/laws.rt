// Laws of steps and runs.
ghost use Rattle.sil_runs.specs.RunLaws.{LawOfRuns};
ghost use Rattle.sil_runs.specs.UnitLaws.{LawOfUnits};
ghost use Rattle.sil_runs.specs.StepLaws.{LawOfSteps};

use sil_macros::law_of_macros;

/// A well formed program starts in a valid state, each step keeps states valid and is counted, and
/// the weight of a statement has a bound.
pub fn law_of_steps()
    ensures { LawOfSteps }
{
    law_of_macros();
}

/// A run goes on from where its first steps lead, and meets at most as many statements as it has
/// steps.
#[tactic(auto, using(crate::proofs::Runs::runs))]
pub fn law_of_runs()
    ensures { LawOfRuns }
{}

/// A statement whose macro calls no unit is told, and keeps the tapes.
#[tactic(auto, using(crate::proofs::Alone::alone))]
pub fn law_of_units()
    ensures { LawOfUnits }
{}
