// A source that was resolved.

use layout_params::Params;
use sil_symbols::{Stmt, Symbols};

/// The parameters, statements and symbols of a source.
#[derive(Clone, Copy)]
pub(crate) struct ResolvedSource<'a> {
    pub params: &'a Params,
    pub statements: &'a [Stmt],
    pub symbols: &'a Symbols,
}
