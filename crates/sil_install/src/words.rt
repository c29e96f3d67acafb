// The words of a program.
ghost use Rattle.std.specs.Prelude.{◌≡◌, length, IfOk};
ghost use Rattle.std.specs.List.{flat_map};
ghost use Rattle.macro_expand.specs.Expanded.{AreExpanded};
ghost use Rattle.sil_model.specs.WellFormed.{IsWellFormed};
ghost use Rattle.sil_micro.specs.Codes.{IsCode};
ghost use Rattle.rv_emit.specs.Emits.{FitsImage};
ghost use Rattle.sil_install.specs.Emission.{BehaveAs};

use layout_params::Params;
use macro_expand::expand_all;
use rv_emit::{Emitted, emit};
use sil_micro::Code;
use sil_model::Program;
use sil_runs::law_of_steps;
use std::alloc::{AllocError, Global};

/// The operations of a code keep their rules and can be numbered, and each statement has a place for
/// its return part.
fn code_keeps_rules(code: &Code)
    ensures { IsCode code.now }
{
    let _ = code.ops();
    let _ = code.statements();
}

/// The code words of a program, which do what the program does, and the places of its statements.
pub fn program_words(
    alloc: Global,
    program: &Program,
    params: &Params,
) -> Result<Emitted, AllocError>
    requires well_formed { IsWellFormed program.now params.now.settings }
    requires expanded { AreExpanded program.now }
    ensures count { IfOk result (λ e. length e.places ≡ length program.now.statements) }
    ensures constants { IfOk result (λ e. e.constants ≡ flat_map (λ text. text) program.now.formats) }
    ensures image { IfOk result (λ e. FitsImage e.words e.places) }
    ensures behave { IfOk result (λ e. BehaveAs program.now params.now e.words e.places) }
{
    law_of_steps();
    let code = expand_all(alloc, program, params)?;
    code_keeps_rules(&code);
    let emitted = emit(alloc, &code, params.numbers(), params)?;
    Ok(emitted)
}
