// A source whose names are bound.

use sil_shapes::Resolution;
use syntax_tables::Written;

/// A source that was resolved, and its tables file.
#[derive(Clone, Copy)]
pub struct BoundSource<'a> {
    pub source: Resolution<'a>,
    pub tables: &'a Written,
}
