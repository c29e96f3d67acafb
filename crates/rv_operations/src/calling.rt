// Calls of the shared routines, with the return place in x11.
ghost use Rattle.std.specs.Prelude.{◌≡◌};
ghost use Rattle.rv_straight.specs.Constants.{lower_of};
ghost use Rattle.rv_straight.specs.Jumps.{distance, far_upper};

use rv_isa::{IOp, Instr, UOp};
use rv_straight::{far_lower, far_upper, immediate, upper_part};

/// The first instruction of a call that stands at a place.
pub fn call_from(place: u32, routine: u32) -> Instr
    ensures { result ≡ Instr.U UOp.Auipc 11 (far_upper place routine) }
{
    upper_part(UOp::Auipc, 11, far_upper(place, routine))
}

/// The second one, by the place of the first.
pub fn call_to(place: u32, routine: u32) -> Instr
    ensures { result ≡ Instr.I IOp.Jalr 11 11 (lower_of (distance place routine)) }
{
    immediate(IOp::Jalr, 11, 11, far_lower(place, routine))
}
