// Laws of operand fields.

ghost use Rattle.std.specs.Prelude.{◌≡◌, ℕ, List, Some, IsTrue};
ghost use Rattle.sil_operands.specs.OperandGrammar.{SpellsOperands};
ghost use Rattle.sil_operands.specs.Limits.{are_within_limits};
ghost use Rattle.sil_operands.specs.OperandReading.{operands_of};
ghost use Rattle.sil_operands.specs.declared.operand.Operand.{Operand};

/// A field spells at most one list of operands, whatever the limits.
pub fn one_value_at_most()
    ensures { (field : List ℕ) (a b : List Operand) → SpellsOperands field a → SpellsOperands field b → a ≡ b }
{}

/// What is spelled within the limits is read.
pub fn what_is_spelled_is_read()
    ensures { (field : List ℕ) (operands : List Operand) → SpellsOperands field operands
        → IsTrue (are_within_limits operands) → operands_of field ≡ Some operands }
{}

/// What is read is spelled, and within the limits.
pub fn what_is_read_is_spelled()
    ensures { (field : List ℕ) (operands : List Operand) → operands_of field ≡ Some operands
        → SpellsOperands field operands × IsTrue (are_within_limits operands) }
{}
