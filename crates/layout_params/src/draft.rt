// The values of a parameter file before they are tested.
ghost use Rattle.std.specs.Prelude.{◌≡◌};
ghost use Rattle.layout_params.specs.Views.{sizes_of};
ghost use Rattle.layout_params.specs.Entries.{parameters_in};
ghost use Rattle.layout_params.specs.HeldEntries.{entries_held, drafted};

use crate::candidate::Candidate;
use crate::entries::{Entry, date_named, number_named};

/// The eighteen values.
#[derive(Drop)]
pub(crate) struct Draft<'a> {
    pub sizes: Candidate,
    pub function_flag: u64,
    pub mark_flag: u64,
    pub pointer_flag: u64,
    pub string_title_flag: u64,
    pub title_flag: u64,
    pub stack_size: u64,
    pub dynamic_size: u64,
    pub bucket_count: u64,
    pub input_unit: u64,
    pub output_unit: u64,
    pub punch_unit: u64,
    pub date: &'a [u8],
}

fn draft_sizes(entries: &[Entry<'_>]) -> Candidate
    ensures { sizes_of result ≡ (parameters_in (entries_held entries.now)).settings.sizes }
{
    Candidate {
        descr: number_named(entries, b"DESCR"),
        a_at: number_named(entries, b"AOFF"),
        f_at: number_named(entries, b"FOFF"),
        f_len: number_named(entries, b"FLEN"),
        v_at: number_named(entries, b"VOFF"),
        v_len: number_named(entries, b"VLEN"),
    }
}

/// The values that entries give.
pub(crate) fn draft_of<'a>(entries: &[Entry<'a>]) -> Draft<'a>
    ensures { drafted result ≡ parameters_in (entries_held entries.now) }
{
    Draft {
        sizes: draft_sizes(entries),
        function_flag: number_named(entries, b"FNC"),
        mark_flag: number_named(entries, b"MARK"),
        pointer_flag: number_named(entries, b"PTR"),
        string_title_flag: number_named(entries, b"STTL"),
        title_flag: number_named(entries, b"TTL"),
        stack_size: number_named(entries, b"STSIZE"),
        dynamic_size: number_named(entries, b"DYNSIZ"),
        bucket_count: number_named(entries, b"OBSIZ"),
        input_unit: number_named(entries, b"UNITI"),
        output_unit: number_named(entries, b"UNITO"),
        punch_unit: number_named(entries, b"UNITP"),
        date: date_named(entries, b"DATE"),
    }
}
