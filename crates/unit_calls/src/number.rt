// The numbers of units.
ghost use Rattle.std.specs.Prelude.{◌≡◌, ◌≤◌};
ghost use Rattle.unit_calls.specs.CallsMade.{unit_number};

/// The number of the unit that a number names: no unit has one above 15, or 0.
#[tactic(auto, unfolding(crate::specs::CallsMade::unit_number))]
pub fn unit_number(n: u64) -> u32
    ensures number { result ≡ unit_number n }
    ensures few { result ≤ 15 }
{
    if n <= 15 { n as u32 } else { 0 }
}
