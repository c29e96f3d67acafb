// The count of a unit's failures.
ghost use Rattle.std.specs.Prelude.{◌≡◌, ◌≤◌};
ghost use Rattle.sil_base.specs.Causes.{Rose};

use unit_io::{ReadAnswer, UnitAnswer};

/// Counts a failure.
fn count(faults: &mut u64)
    ensures count { faults.old ≤ faults.new }
    ensures rose { Rose faults.old faults.new }
{
    *faults = faults.saturating_add(1);
}

/// What a read answers, counted where it is a failure.
pub fn count_read(faults: &mut u64, answer: ReadAnswer) -> ReadAnswer
    ensures answer { result ≡ answer }
    ensures count { faults.old ≤ faults.new }
    ensures failed { answer ≡ ReadAnswer.Failed → Rose faults.old faults.new }
{
    if answer == ReadAnswer::Failed {
        count(faults);
    }
    answer
}

/// What any other call answers, counted where it is a failure.
pub fn count_call(faults: &mut u64, answer: UnitAnswer) -> UnitAnswer
    ensures answer { result ≡ answer }
    ensures count { faults.old ≤ faults.new }
    ensures failed { answer ≡ UnitAnswer.Failed → Rose faults.old faults.new }
{
    if answer == UnitAnswer::Failed {
        count(faults);
    }
    answer
}
