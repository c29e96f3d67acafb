// Programs that were checked.
use layout_params::Params;
use sil_model::Program;
use std::marker::Model;

/// A program that is well formed and installed so far, and the parameters that it is checked with.
#[derive(Drop)]
pub struct Checked {
    pub program: Program,
    pub params: Params,
}

impl Model for Checked {
    ghost use Rattle.sil_check.specs.CheckedPrograms.{Job, IsChecked};

    ghost Value = { Job };

    ghost view = { λ c. record { program = c.program; parameters = c.params } };

    ghost invariant = { λ c. IsChecked (record { program = c.program; parameters = c.params }) };
}
