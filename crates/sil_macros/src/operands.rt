//! What operands each macro takes.
ghost use Rattle.std.specs.Prelude.{◌≡◌};
ghost use Rattle.sil_macros.specs.MacroRows.{row};

use crate::names::Macro;
use crate::shapes::{Kind, Place, Shape};

macro_rules! needed {
    ($kind:ident) => {
        Place { kind: Kind::$kind, optional: false }
    };
}

macro_rules! maybe {
    ($kind:ident) => {
        Place { kind: Kind::$kind, optional: true }
    };
}

// The letters of the operands.
const D: Place = needed!(Descr);

const S: Place = needed!(Spec);

const N: Place = needed!(Number);

const F: Place = needed!(Flag);

const L: Place = maybe!(Goto);

const R: Place = needed!(Required);

const T: Place = needed!(Table);

const K: Place = needed!(Key);

const X: Place = needed!(Text);

const M: Place = needed!(Format);

const DD: Place = needed!(Descrs);

const SS: Place = needed!(Specs);

const LL: Place = maybe!(Gotos);

const MAYBE_D: Place = maybe!(Descr);

const MAYBE_N: Place = maybe!(Number);

const MAYBE_E: Place = maybe!(Free);

const MAYBE_DD: Place = maybe!(Descrs);

/// The operands that the macro takes.
pub fn shape(m: Macro) -> Shape
    ensures { result ≡ (row m).places }
{
    Shape::of(places_of(m))
}

fn places_of(m: Macro) -> &'static [Place]
    ensures { result.now ≡ (row m).places }
{
    match m {
        Macro::Copy
        | Macro::End
        | Macro::Init
        | Macro::Istack
        | Macro::Lhere
        | Macro::Ordvst
        | Macro::Title => &[],
        Macro::Bkspce
        | Macro::Endex
        | Macro::Enfile
        | Macro::Mstime
        | Macro::Pstack
        | Macro::Rewind => &[D],
        Macro::Date | Macro::Unload => &[S],
        Macro::Array | Macro::Buffer | Macro::Equ => &[N],
        Macro::Format | Macro::String => &[X],
        Macro::Pop | Macro::Push => &[DD],
        Macro::Spop | Macro::Spush => &[SS],
        Macro::Proc => &[MAYBE_E],
        Macro::Addsib
        | Macro::Addson
        | Macro::Bksize
        | Macro::Getlth
        | Macro::Getsiz
        | Macro::Insert
        | Macro::Intrl
        | Macro::Linkor
        | Macro::Lvalue
        | Macro::Mnreal
        | Macro::Mova
        | Macro::Movd
        | Macro::Movv
        | Macro::Setav
        | Macro::Setsiz
        | Macro::Setva => &[D, D],
        Macro::Getlg | Macro::Varid => &[D, S],
        Macro::Branic | Macro::Decra | Macro::Incra | Macro::Incrv | Macro::Setac | Macro::Setvc =>
            &[D, N],
        Macro::Resetf | Macro::Rsetfi | Macro::Setf | Macro::Setfi => &[D, F],
        Macro::Selbra => &[D, LL],
        Macro::Addlg | Macro::Intspc | Macro::Locsp | Macro::Putlg | Macro::Realst => &[S, D],
        Macro::Apdsp | Macro::Setsp | Macro::Trimsp => &[S, S],
        Macro::Fshrtn | Macro::Setlc | Macro::Shortn => &[S, N],
        Macro::Branch => &[R, MAYBE_E],
        Macro::Clertb => &[T, K],
        Macro::Rrturn => &[MAYBE_D, MAYBE_N],
        Macro::Adjust | Macro::Getd | Macro::Movblk | Macro::Putd | Macro::Top => &[D, D, D],
        Macro::Stprnt => &[D, D, S],
        Macro::Getac | Macro::Getdc | Macro::Multc => &[D, D, N],
        Macro::Putac | Macro::Putdc | Macro::Putvc => &[D, N, D],
        Macro::Putspc => &[D, N, S],
        Macro::Output => &[D, M, MAYBE_DD],
        Macro::Getspc => &[S, D, N],
        Macro::Remsp | Macro::Rplace => &[S, S, S],
        Macro::Plugtb => &[T, K, S],
        Macro::Descr => &[MAYBE_N, MAYBE_N, MAYBE_N],
        Macro::Aeql | Macro::Deql | Macro::Mnsint | Macro::Rlint | Macro::Veql => &[D, D, L, L],
        Macro::Spcint | Macro::Spreal => &[D, S, L, L],
        Macro::Movdic => &[D, N, D, N],
        Macro::Aeqlc | Macro::Veqlc => &[D, N, L, L],
        Macro::Testf | Macro::Testfi => &[D, F, L, L],
        Macro::Getbal => &[S, D, L, L],
        Macro::Leqlc => &[S, N, L, L],
        Macro::Rcall => &[MAYBE_D, R, MAYBE_DD, LL],
        Macro::Adreal
        | Macro::Divide
        | Macro::Dvreal
        | Macro::Expint
        | Macro::Exreal
        | Macro::Locapt
        | Macro::Locapv
        | Macro::Mpreal
        | Macro::Mult
        | Macro::Sbreal
        | Macro::Subtrt
        | Macro::Sum => &[D, D, D, L, L],
        Macro::Acomp | Macro::Rcomp => &[D, D, L, L, L],
        Macro::Load => &[D, S, S, L, L],
        Macro::Aeqlic => &[D, N, N, L, L],
        Macro::Acompc => &[D, N, L, L, L],
        Macro::Stread => &[S, D, L, L, L],
        Macro::Subsp => &[S, S, S, L, L],
        Macro::Lcomp | Macro::Lexcmp => &[S, S, L, L, L],
        Macro::Spec => &[MAYBE_N, MAYBE_N, MAYBE_N, MAYBE_N, MAYBE_N],
        Macro::Cpypat => &[D, D, D, D, D, D],
        Macro::Maknod => &[D, D, D, D, D, MAYBE_D],
        Macro::Link => &[D, D, D, D, L, L],
        Macro::Chkval => &[D, D, S, L, L, L],
        Macro::Vcmpic => &[D, N, D, L, L, L],
        Macro::Stream => &[S, S, T, L, L, L],
    }
}
