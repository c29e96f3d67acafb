//! The macros by number and by name.
ghost use Rattle.std.specs.Prelude.{◌≡◌, ◌≢◌, ◌↔◌, ◌≤◌, IfSome, IsNone, nat_eq, slice_get};
ghost use Rattle.std.specs.List.{find};
ghost use Rattle.std.specs.Cmp.Lexicographic.{pointwise};
ghost use Rattle.sil_macros.specs.Macros.{number_of, name_of, with_number, with_name};
ghost use Rattle.sil_macros.specs.declared.names.Macro.{Macro};

use crate::names::{Macro, name_of};

/// All macros, in the order of their names in ASCII.
static MACROS: [Macro; 130] = [
    Macro::Acomp,
    Macro::Acompc,
    Macro::Addlg,
    Macro::Addsib,
    Macro::Addson,
    Macro::Adjust,
    Macro::Adreal,
    Macro::Aeql,
    Macro::Aeqlc,
    Macro::Aeqlic,
    Macro::Apdsp,
    Macro::Array,
    Macro::Bksize,
    Macro::Bkspce,
    Macro::Branch,
    Macro::Branic,
    Macro::Buffer,
    Macro::Chkval,
    Macro::Clertb,
    Macro::Copy,
    Macro::Cpypat,
    Macro::Date,
    Macro::Decra,
    Macro::Deql,
    Macro::Descr,
    Macro::Divide,
    Macro::Dvreal,
    Macro::End,
    Macro::Endex,
    Macro::Enfile,
    Macro::Equ,
    Macro::Expint,
    Macro::Exreal,
    Macro::Format,
    Macro::Fshrtn,
    Macro::Getac,
    Macro::Getbal,
    Macro::Getd,
    Macro::Getdc,
    Macro::Getlg,
    Macro::Getlth,
    Macro::Getsiz,
    Macro::Getspc,
    Macro::Incra,
    Macro::Incrv,
    Macro::Init,
    Macro::Insert,
    Macro::Intrl,
    Macro::Intspc,
    Macro::Istack,
    Macro::Lcomp,
    Macro::Leqlc,
    Macro::Lexcmp,
    Macro::Lhere,
    Macro::Link,
    Macro::Linkor,
    Macro::Load,
    Macro::Locapt,
    Macro::Locapv,
    Macro::Locsp,
    Macro::Lvalue,
    Macro::Maknod,
    Macro::Mnreal,
    Macro::Mnsint,
    Macro::Mova,
    Macro::Movblk,
    Macro::Movd,
    Macro::Movdic,
    Macro::Movv,
    Macro::Mpreal,
    Macro::Mstime,
    Macro::Mult,
    Macro::Multc,
    Macro::Ordvst,
    Macro::Output,
    Macro::Plugtb,
    Macro::Pop,
    Macro::Proc,
    Macro::Pstack,
    Macro::Push,
    Macro::Putac,
    Macro::Putd,
    Macro::Putdc,
    Macro::Putlg,
    Macro::Putspc,
    Macro::Putvc,
    Macro::Rcall,
    Macro::Rcomp,
    Macro::Realst,
    Macro::Remsp,
    Macro::Resetf,
    Macro::Rewind,
    Macro::Rlint,
    Macro::Rplace,
    Macro::Rrturn,
    Macro::Rsetfi,
    Macro::Sbreal,
    Macro::Selbra,
    Macro::Setac,
    Macro::Setav,
    Macro::Setf,
    Macro::Setfi,
    Macro::Setlc,
    Macro::Setsiz,
    Macro::Setsp,
    Macro::Setva,
    Macro::Setvc,
    Macro::Shortn,
    Macro::Spcint,
    Macro::Spec,
    Macro::Spop,
    Macro::Spreal,
    Macro::Spush,
    Macro::Stprnt,
    Macro::Stread,
    Macro::Stream,
    Macro::String,
    Macro::Subsp,
    Macro::Subtrt,
    Macro::Sum,
    Macro::Testf,
    Macro::Testfi,
    Macro::Title,
    Macro::Top,
    Macro::Trimsp,
    Macro::Unload,
    Macro::Varid,
    Macro::Vcmpic,
    Macro::Veql,
    Macro::Veqlc,
];

/// The macro of a number.
pub fn macro_at(number: u16) -> Option<Macro>
    ensures same { result ≡ with_number number }
    ensures numbered { IfSome result (λ m. number_of m ≡ number) }
    ensures none { IsNone result ↔ (130 ≤ number) }
{
    nth(&MACROS, number)
}

fn nth(macros: &[Macro], number: u16) -> Option<Macro>
    ensures { result ≡ slice_get macros.now number }
{
    macros.get(number as usize).copied()
}

/// The macro with this name.
pub fn macro_of(name: &[u8]) -> Option<Macro>
    ensures same { result ≡ with_name name.now }
    ensures named { IfSome result (λ m. name_of m ≡ name.now) }
    ensures none { IsNone result ↔ ((m : Macro) → name_of m ≢ name.now) }
{
    first_named(&MACROS, name)
}

fn first_named(macros: &[Macro], name: &[u8]) -> Option<Macro>
    ensures { result ≡ find (λ m. pointwise nat_eq (name_of m) name.now) macros.now }
{
    macros.iter().copied().find(|m| name_of(*m) == name)
}
