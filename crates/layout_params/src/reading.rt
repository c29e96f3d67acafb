// Parameters from their file.
ghost use Rattle.std.specs.Prelude.{◌≡◌, ◌≤◌, length, None, IfOk, IfErr};
ghost use Rattle.layout_params.specs.Parameters.{AreLegal, standard};
ghost use Rattle.layout_params.specs.Entries.{values_of};
ghost use Rattle.layout_params.specs.ParameterFaults.{parameter_fault, value_fault};
ghost use Rattle.layout_params.specs.HeldEntries.{drafted};
ghost use Rattle.layout_params.specs.Stops.{IsStopFor};

use crate::draft::{Draft, draft_of};
use crate::entries::{Entry, entries_of, form_fault, missing_fault};
use crate::faults::value_fault;
use crate::lines::lines_of;
use crate::params::Params;
use crate::settings::Settings;
use crate::stop::ParamStop;
use sil_base::MAX_FILE_BYTES;
use std::alloc::Global;

/// The eighteen lines of the standard parameters.
pub const STANDARD_PARAMS: &[u8] =
    b"DESCR 16\nAOFF 0\nFOFF 8\nFLEN 2\nVOFF 12\nVLEN 4\nFNC 1\nMARK 2\nPTR 4\nSTTL 8\nTTL 16\nSTSIZE 64\nDYNSIZ 100\nOBSIZ 256\nUNITI 5\nUNITO 6\nUNITP 7\nDATE 01/01/70\n";

/// The parameters of a draft.
fn params_of(draft: &Draft<'_>) -> Params
    requires { AreLegal (drafted draft.now) }
    ensures value { result ≡ drafted draft.now }
    ensures legal { AreLegal result }
{
    Params {
        settings: Settings::of_draft(draft),
        input_unit: draft.input_unit,
        output_unit: draft.output_unit,
        punch_unit: draft.punch_unit,
    }
}

/// The parameters of a file: lines of a name, one blank and a value, each of the eighteen names
/// once, in any order.
pub fn read_params(alloc: Global, bytes: &[u8]) -> Result<Params, ParamStop>
    requires { length bytes.now ≤ MAX_FILE_BYTES }
    ensures faultless { IfOk result (λ p. parameter_fault bytes.now ≡ None) }
    ensures values { IfOk result (λ p. p ≡ values_of bytes.now) }
    ensures legal { IfOk result AreLegal }
    ensures fault { IfErr result (IsStopFor (parameter_fault bytes.now)) }
{
    let lines = lines_of(alloc, bytes)?;
    if let Some(fault) = form_fault(&lines) {
        return Err(ParamStop::Fault(fault));
    }
    let entries = entries_of(alloc, &lines)?;
    if let Some(fault) = missing_fault(lines.len() as u32, &entries) {
        return Err(ParamStop::Fault(fault));
    }
    let draft = draft_of(&entries);
    if let Some(fault) = value_fault(&entries, &draft) {
        return Err(ParamStop::Fault(fault));
    }
    Ok(params_of(&draft))
}
