// What loops go on with.

/// How far the next alternative is from the first one, and the least integer so far.
#[derive(Clone, Copy, PartialEq, Eq, Debug)]
pub struct Lowest {
    pub offset: i64,
    pub least: i64,
}

/// How far the nodes of a copied pattern move: by how much places rise, by how much offsets of
/// other nodes rise, and the value that stands instead of 0.
#[derive(Clone, Copy, PartialEq, Eq, Debug)]
pub struct Offsets {
    pub place: i64,
    pub next: i64,
    pub instead: i64,
}

/// The places of the next node's copy and of the node, and the bytes that are left.
#[derive(Clone, Copy, PartialEq, Eq, Debug)]
pub struct Copying {
    pub to: i64,
    pub from: i64,
    pub left: i64,
}
