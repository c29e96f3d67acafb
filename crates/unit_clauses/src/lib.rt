// The macros that call a unit: their clauses, and laws of these.
#![tactic(auto)]
