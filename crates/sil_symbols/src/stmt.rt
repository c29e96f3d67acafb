// A statement of a source.

use sil_base::Record;
use sil_macros::Macro;
use sil_operands::Operands;

/// A statement: the number of its card, its label, which is empty where it has none, its macro and
/// its operands.
#[derive(Debug, Drop)]
pub struct Stmt {
    pub card: u32,
    pub label: Record,
    pub name: Macro,
    pub operands: Operands,
}
