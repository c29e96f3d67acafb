// The faults of values.
ghost use Rattle.std.specs.Prelude.{◌≡◌, ◌==◌, ◌≤◌, IsTrue};
ghost use Rattle.std.specs.List.{list_any, list_all};
ghost use Rattle.layout_params.specs.Sizes.{f_width_fits};
ghost use Rattle.layout_params.specs.Views.{sizes_of};
ghost use Rattle.layout_params.specs.Parameters.{is_bit_below};
ghost use Rattle.layout_params.specs.Entries.{line_named};
ghost use Rattle.layout_params.specs.ParameterFaults.{fault, or_next, unless_kept, f_fault, v_fault, layout_fault, is_new_flag, flag_fault, is_within, count_fault, unit_fault, is_date, value_fault};
ghost use Rattle.layout_params.specs.HeldEntries.{entries_held, drafted};

use crate::candidate::Candidate;
use crate::draft::Draft;
use crate::entries::{Entry, line_named};
use sil_base::{Fault, PARAMETER_FILE, fault_at};

/// A line of the parameter file that breaks a rule.
pub(crate) fn fault(rule: u8, line: u32) -> Fault
    ensures { result ≡ fault rule line }
{
    fault_at(PARAMETER_FILE, b'L', line, rule)
}

fn or_next(first: Option<Fault>, next: Option<Fault>) -> Option<Fault>
    ensures { result ≡ or_next first next }
{
    match first {
        Some(fault) => Some(fault),
        None => next,
    }
}

/// The fault of this rule at the line of this name, unless the rule is kept.
fn unless_kept(kept: bool, rule: u8, entries: &[Entry<'_>], name: &[u8]) -> Option<Fault>
    ensures { result ≡ unless_kept kept rule (line_named (entries_held entries.now) name.now) }
{
    if kept {
        None
    } else {
        Some(fault(rule, line_named(entries, name)))
    }
}

fn f_fault(entries: &[Entry<'_>], sizes: &Candidate) -> Option<Fault>
    ensures { result ≡ f_fault (line_named (entries_held entries.now)) (sizes_of sizes.now) }
{
    if sizes.has_f_width() {
        unless_kept(sizes.has_f(), 6, entries, b"FOFF")
    } else {
        unless_kept(false, 6, entries, b"FLEN")
    }
}

fn v_fault(entries: &[Entry<'_>], sizes: &Candidate) -> Option<Fault>
    ensures { result ≡ v_fault (line_named (entries_held entries.now)) (sizes_of sizes.now) }
{
    if sizes.has_v_width() {
        unless_kept(sizes.has_v(), 7, entries, b"VOFF")
    } else {
        unless_kept(false, 7, entries, b"VLEN")
    }
}

fn layout_fault(entries: &[Entry<'_>], sizes: &Candidate) -> Option<Fault>
    ensures { result ≡ layout_fault (line_named (entries_held entries.now)) (sizes_of sizes.now) }
{
    let shared = unless_kept(sizes.has_fields_apart(), 8, entries, b"VOFF");
    let fields = or_next(
        f_fault(entries, sizes),
        or_next(v_fault(entries, sizes), shared),
    );
    let a = unless_kept(sizes.has_a(), 5, entries, b"AOFF");
    let descr = unless_kept(sizes.has_descr(), 4, entries, b"DESCR");
    or_next(descr, or_next(a, fields))
}

/// Whether a number is a single bit below 2^bits.
#[tactic(auto, using(crate::proofs::FaultLemmas::bit_below))]
fn is_bit_below(bits: u64, flag: u64) -> bool
    requires { bits ≤ 32 }
    ensures { result ≡ is_bit_below bits flag }
{
    for bit in 0..bits {
        if flag == 1 << bit {
            return true;
        }
    }
    false
}

fn is_among(flags: &[u64], flag: u64) -> bool
    ensures { result ≡ list_any (λ other. other == flag) flags.now }
{
    flags.iter().any(|other| *other == flag)
}

fn is_new_flag(bits: u64, before: &[u64], flag: u64) -> bool
    requires { bits ≤ 32 }
    ensures { result ≡ is_new_flag bits before.now flag }
{
    is_bit_below(bits, flag) && !is_among(before, flag)
}

fn flag_fault(entries: &[Entry<'_>], draft: &Draft<'_>) -> Option<Fault>
    requires { IsTrue (f_width_fits draft.now.sizes.f_len) }
    ensures { result ≡ flag_fault (line_named (entries_held entries.now)) (drafted draft.now).settings }
{
    let bits = 8 * draft.sizes.f_len;
    let flags = [
        draft.function_flag,
        draft.mark_flag,
        draft.pointer_flag,
        draft.string_title_flag,
        draft.title_flag,
    ];
    let function = unless_kept(is_new_flag(bits, &[], flags[0]), 9, entries, b"FNC");
    let mark = unless_kept(
        is_new_flag(bits, &flags[..1], flags[1]),
        9,
        entries,
        b"MARK",
    );
    let pointer = unless_kept(is_new_flag(bits, &flags[..2], flags[2]), 9, entries, b"PTR");
    let string = unless_kept(
        is_new_flag(bits, &flags[..3], flags[3]),
        9,
        entries,
        b"STTL",
    );
    let title = unless_kept(is_new_flag(bits, &flags[..4], flags[4]), 9, entries, b"TTL");
    or_next(
        function,
        or_next(mark, or_next(pointer, or_next(string, title))),
    )
}

fn count_fault(entries: &[Entry<'_>], draft: &Draft<'_>) -> Option<Fault>
    ensures { result ≡ count_fault (line_named (entries_held entries.now)) (drafted draft.now).settings }
{
    let stack = unless_kept(
        is_within(16, 65536, draft.stack_size),
        10,
        entries,
        b"STSIZE",
    );
    let dynamic = unless_kept(draft.dynamic_size <= 900_000, 11, entries, b"DYNSIZ");
    let buckets = unless_kept(
        is_within(1, 4096, draft.bucket_count),
        12,
        entries,
        b"OBSIZ",
    );
    or_next(stack, or_next(dynamic, buckets))
}

fn unit_fault(entries: &[Entry<'_>], draft: &Draft<'_>) -> Option<Fault>
    ensures { result ≡ unit_fault (line_named (entries_held entries.now)) (drafted draft.now) }
{
    let input = unless_kept(is_within(1, 15, draft.input_unit), 13, entries, b"UNITI");
    let output = unless_kept(is_within(1, 15, draft.output_unit), 13, entries, b"UNITO");
    let punch = unless_kept(is_within(1, 15, draft.punch_unit), 13, entries, b"UNITP");
    or_next(input, or_next(output, punch))
}

fn is_within(least: u64, most: u64, n: u64) -> bool
    ensures { result ≡ is_within least most n }
{
    least <= n && n <= most
}

fn are_printed(text: &[u8]) -> bool
    ensures { result ≡ list_all (is_within 32 126) text.now }
{
    text.iter().all(|c| 32 <= *c && *c <= 126)
}

fn is_date(text: &[u8]) -> bool
    ensures { result ≡ is_date text.now }
{
    text.len() == 8 && are_printed(text)
}

/// The fault of the values, each at the line of its name.
pub(crate) fn value_fault(entries: &[Entry<'_>], draft: &Draft<'_>) -> Option<Fault>
    ensures { result ≡ value_fault (line_named (entries_held entries.now)) (drafted draft.now) }
{
    let layout = layout_fault(entries, &draft.sizes);
    if layout.is_some() {
        return layout;
    }
    let date = unless_kept(is_date(draft.date), 14, entries, b"DATE");
    let units = unit_fault(entries, draft);
    let counts = count_fault(entries, draft);
    let flags = flag_fault(entries, draft);
    or_next(flags, or_next(counts, or_next(units, date)))
}
