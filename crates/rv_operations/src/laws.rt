// The laws of operations.
ghost use Rattle.rv_operations.specs.WordLaws.{LawOfLoadBytes, LawOfLoadChar, LawOfLoadKind, LawOfLoadScratch, LawOfLoadState, LawOfStoreBytes, LawOfStoreChar, LawOfStoreKind, LawOfStoreScratch, LawOfStoreState, LawOfLoadTables, LawOfStoreTables};
ghost use Rattle.rv_operations.specs.Switch.{LawOfJumpEntry, LawOfJumpReturn, LawOfSwitches};
ghost use Rattle.rv_operations.specs.Ops.{LawOfOpLengths, LawOfOps};
ghost use Rattle.rv_operations.specs.Laws.{LawOfArith, LawOfBegin, LawOfConst, LawOfCopy, LawOfEnd, LawOfJump, LawOfJumpIf, LawOfLengths, LawOfLoadField, LawOfOpWords, LawOfStoreCell, LawOfStoreField, LawOfUnitCall};

/// The words of constants, copies and sums do what the operations do.
pub fn law_of_registers()
    ensures constant { LawOfConst }
    ensures copy { LawOfCopy }
    ensures arith_of { LawOfArith }
{}

/// The words of jumps do what the operations do.
pub fn law_of_jumps()
    ensures jump { LawOfJump }
    ensures jump_if { LawOfJumpIf }
{}

/// The words of a field's load and of its store do what the operations do.
pub fn law_of_fields()
    ensures load { LawOfLoadField }
    ensures store { LawOfStoreField }
{}

/// The words of a cell's store do what the operation does.
pub fn law_of_cells()
    ensures { LawOfStoreCell }
{}

/// The words with which a statement begins, and those of an end, do what the operations do.
pub fn law_of_statements()
    ensures begin { LawOfBegin }
    ensures end { LawOfEnd }
{}

/// The words of loads and stores of characters do what the operations do.
pub fn law_of_characters()
    ensures load { LawOfLoadChar }
    ensures store { LawOfStoreChar }
{}

/// So do those of words of bytes, and of kinds.
pub fn law_of_words()
    ensures load_bytes { LawOfLoadBytes }
    ensures store_bytes { LawOfStoreBytes }
    ensures load_kind { LawOfLoadKind }
    ensures store_kind { LawOfStoreKind }
{}

/// So do those of scratch words.
pub fn law_of_scratch()
    ensures load { LawOfLoadScratch }
    ensures store { LawOfStoreScratch }
{}

/// So do those of the words of the state.
pub fn law_of_state()
    ensures load { LawOfLoadState }
    ensures store { LawOfStoreState }
{}

/// So do those of words of tables.
pub fn law_of_tables()
    ensures load { LawOfLoadTables }
    ensures store { LawOfStoreTables }
{}

/// The words of calls on units do what the operations do.
pub fn law_of_units()
    ensures { LawOfUnitCall }
{}

/// An operation has as many instructions as its length says.
pub fn law_of_lengths()
    ensures { LawOfLengths }
{}

/// The instructions of operations have words.
pub fn law_of_op_words()
    ensures { LawOfOpWords }
{}

/// The routine that jumps by an entry finds its statement, and the words of jumps by entries and to
/// return parts do what the operations do.
pub fn law_of_entries()
    ensures switch { LawOfSwitches }
    ensures jump { LawOfJumpEntry }
    ensures back { LawOfJumpReturn }
{}

/// The instructions of every operation do what it does, within its weight, and are as many as its
/// length says.
pub fn law_of_ops()
    ensures does { LawOfOps }
    ensures length { LawOfOpLengths }
{}
