// Laws of packings and of legal values.

ghost use Rattle.std.specs.Prelude.{◌≡◌, None};
ghost use Rattle.layout_params.specs.Parameters.{standard};
ghost use Rattle.layout_params.specs.Entries.{values_of};
ghost use Rattle.layout_params.specs.ParameterFaults.{parameter_fault};
ghost use Rattle.layout_params.specs.Legal.{LegalHaveNoFault, FaultlessAreLegal};
ghost use Rattle.layout_params.specs.Laws.{PackingsArePacked, PackingsHaveSize, PackingsAreBytes, PackedIsRead, WritesOfA, WritesOfF, WritesOfV, FieldsAreRead, FreeBytesAreFree};

use crate::reading::STANDARD_PARAMS;

/// The packing of a cell stands for the cell, and has as many bytes as a descriptor; what was
/// packed is read.
pub fn packing_is_packed()
    ensures packed { PackingsArePacked }
    ensures size { PackingsHaveSize }
    ensures bytes { PackingsAreBytes }
    ensures read { PackedIsRead }
{}

/// A field that is written is read, a write of one field leaves the other two, bytes stand for one
/// descriptor, and free bytes are not read.
pub fn fields_are_apart()
    ensures writes_of_a { WritesOfA }
    ensures writes_of_f { WritesOfF }
    ensures writes_of_v { WritesOfV }
    ensures reads { FieldsAreRead }
    ensures free_bytes { FreeBytesAreFree }
{}

/// Legal values break no rule on values, and values that break none are legal.
pub fn legal_values_break_no_rule()
    ensures none { LegalHaveNoFault }
    ensures legal { FaultlessAreLegal }
{}

/// The standard text has no fault, and gives the standard parameters.
pub fn standard_text_is_standard()
    ensures faultless { parameter_fault STANDARD_PARAMS.now ≡ None }
    ensures values { values_of STANDARD_PARAMS.now ≡ standard }
{}
