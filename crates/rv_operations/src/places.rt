// Places in the code, in bytes.

/// Where the shared routines stand. `check`: the cell at the address in x10 is a descriptor. `fit_f`
/// and `fit_v`: the same, where the number in x12 fits F or V. `open_cell`: the cell becomes a
/// descriptor, where the numbers in x12 and x13 fit F and V. `chars` and `word`: the cell around the
/// address has characters, and the address is that of a word. `make`: that cell becomes characters.
/// `kind`: the kind of the cell of a number is set. `state`: a word of the state is set. `below_..`:
/// the number in x10 is that of a scratch word, of a cell, or of a word of the state. `entry` and
/// `return_part`: a jump to the statement whose entry is in x10, or to its return part.
#[derive(Clone, Copy, PartialEq, Eq, Debug)]
pub struct Routines {
    pub check: u32,
    pub fit_f: u32,
    pub fit_v: u32,
    pub open_cell: u32,
    pub chars: u32,
    pub word: u32,
    pub make: u32,
    pub kind: u32,
    pub state: u32,
    pub below_scratch: u32,
    pub below_cells: u32,
    pub below_state: u32,
    pub entry: u32,
    pub return_part: u32,
}

/// What an operation is linked to: the bits of a constant, the place that a jump goes to, and the
/// address and the bytes of a format's text; 0 where it has none.
#[derive(Clone, Copy, PartialEq, Eq, Debug)]
pub struct Links {
    pub number: u64,
    pub to: u32,
    pub text: u32,
    pub text_len: u32,
}

/// Where an operation stands: the routines, what it is linked to, and its own place.
#[derive(Clone, Copy, PartialEq, Eq, Debug)]
pub struct Site {
    pub routines: Routines,
    pub links: Links,
    pub place: u32,
}
