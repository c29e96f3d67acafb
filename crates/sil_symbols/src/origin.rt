// Where a symbol comes from.

/// A parameter with its value, or the label of the statement at this place.
#[derive(Clone, Copy, PartialEq, Eq, Debug)]
pub(crate) enum Origin {
    Parameter(i64),
    Label(u32),
}
