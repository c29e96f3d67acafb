// Operations at the edges of what they find.
ghost use Rattle.std.specs.Prelude.{◌≡◌, ◌+◌, ◌*◌, ℕ, length, pos, negsuc, Some, None, codes};
ghost use Rattle.layout_params.specs.declared.cell.Field.TheVariants.{F};
ghost use Rattle.sil_micro.specs.declared.op.Area.TheVariants as areas;
ghost use Rattle.sil_micro.specs.declared.op.Arith.TheVariants.{Div, Rem};
ghost use Rattle.sil_micro.specs.declared.op.Op.TheVariants.{LoadWord, StoreField, StoreWord};
ghost use Rattle.sil_micro.specs.Operations.{Effect, Stuck, act, undefined};
ghost use Rattle.sil_micro.specs.MicroStates.{Micro, Setting};
ghost use Rattle.sil_micro.specs.MicroWords.{computed};
ghost use Rattle.rows_micro.specs.Reads.{left, reads, two_records, wide_record};

/// -2^63 divided by -1 is -2^63 with nothing left, and by 0 the quotient is -1 and the remainder the
/// dividend.
#[tactic(auto, unfolding(sil_micro::specs::MicroWords::quotient, sil_micro::specs::MicroWords::remainder))]
pub fn division_at_its_edges()
    ensures least { computed Div (negsuc 9223372036854775807) (negsuc 0) ≡ negsuc 9223372036854775807 }
    ensures nothing_left { computed Rem (negsuc 9223372036854775807) (negsuc 0) ≡ pos 0 }
    ensures by_zero { computed Div (pos 5) (pos 0) ≡ negsuc 0 }
    ensures dividend { computed Rem (pos 5) (pos 0) ≡ pos 5 }
    ensures towards_zero { computed Div (negsuc 6) (pos 2) ≡ negsuc 2 }
    ensures sign { computed Rem (negsuc 6) (pos 2) ≡ negsuc 0 }
{}

/// A flag field that is one more than the largest can't be stored.
pub fn flags_past_their_limit()
    ensures { (g : Setting) (u : Micro) → u.registers.r2 ≡ pos (u.state.memory.limits.flag_limit + 1) → act g (StoreField F 1 2) u ≡ undefined u }
{}

/// A word past its area is undefined; past the tables it is stuck. The steps taken can be loaded,
/// and stored only as they are.
pub fn words_past_their_areas()
    ensures state { (g : Setting) (u : Micro) → u.registers.r1 ≡ pos 3 → act g (LoadWord areas.State 2 1) u ≡ undefined u }
    ensures steps { (g : Setting) (u : Micro) → u.registers.r1 ≡ pos 2 → u.registers.r2 ≡ pos (u.state.steps + 1) → act g (StoreWord areas.State 1 2) u ≡ undefined u }
    ensures scratch { (g : Setting) (u : Micro) → u.registers.r1 ≡ pos 8190 → act g (LoadWord areas.Scratch 2 1) u ≡ undefined u }
    ensures kind { (g : Setting) (u : Micro) → u.registers.r1 ≡ pos (length u.state.memory.cells) → act g (LoadWord areas.Kind 2 1) u ≡ undefined u }
    ensures bytes { (g : Setting) (u : Micro) → u.registers.r1 ≡ negsuc 0 → act g (LoadWord areas.Bytes 2 1) u ≡ undefined u }
    ensures tables { (g : Setting) (u : Micro) → u.registers.r1 ≡ pos (512 * length u.state.tables) → act g (LoadWord areas.Tables 2 1) u ≡ Stuck }
{}

/// A read leaves the record's first characters, and behind them the old ones. One that fails, or
/// is at the end, leaves all as it was. A number that is no byte counts by its lowest eight bits.
pub fn records_are_read()
    ensures short { (g : Setting) → left (reads g 1 two_records) ≡ Some (pos 0, None, codes "AByz") }
    ensures cut { (g : Setting) → left (reads g 2 two_records) ≡ Some (pos 0, None, codes "ABCD") }
    ensures failed { (g : Setting) → left (reads g 3 two_records) ≡ Some (pos 2, Some 5, codes "ABCD") }
    ensures end { (g : Setting) → left (reads g 4 two_records) ≡ Some (pos 1, None, codes "ABCD") }
    ensures wide { (g : Setting) → left (reads g 1 wide_record) ≡ Some (pos 0, None, codes "Axyz") }
{}
