// The sources of demos pass the check.
ghost use Rattle.std.specs.Prelude.{◌≡◌, None};
ghost use Rattle.layout_params.specs.Entries.{values_of};
ghost use Rattle.layout_params.specs.ParameterFaults.{parameter_fault};
ghost use Rattle.layout_params.specs.Parameters.{standard};
ghost use Rattle.demo_source.specs.DemoSource.{demo_params};
ghost use Rattle.demo_checks.specs.DemoLaws.{LawOfDemoCards, LawOfDemoPrograms, LawOfDemos};

use layout_params::standard_text_is_standard;
use sil_operands::what_is_spelled_is_read;
use sil_program::law_of_programs;

/// The source of a demo is read as its cards, without a fault.
pub fn law_of_demo_cards()
    ensures { LawOfDemoCards }
{
    what_is_spelled_is_read();
}

/// A demo passes the check: its parameters are the standard ones, its cards have a program, and so
/// have its files, whatever their names.
pub fn law_of_demos()
    ensures faultless { parameter_fault demo_params ≡ None }
    ensures values { values_of demo_params ≡ standard }
    ensures programs { LawOfDemoPrograms }
    ensures checked { LawOfDemos }
{
    what_is_spelled_is_read();
    law_of_programs();
    standard_text_is_standard();
}
