// The numbers of settings in their one order: DESCR, AOFF, FOFF, FLEN, VOFF, VLEN, FNC, MARK, PTR,
// STTL, TTL, STSIZE, DYNSIZ and OBSIZ.
ghost use Rattle.std.specs.Prelude.{◌≡◌};
ghost use Rattle.layout_params.specs.HeldEntries.{drafted};
ghost use Rattle.layout_params.specs.Parameters as parameters;
ghost use Rattle.layout_params.specs.Parameters.{settings_numbers};

use crate::candidate::Candidate;
use crate::draft::Draft;
use crate::layout::Layout;
use crate::settings::Settings;

/// The numbers of settings.
pub(crate) fn numbers_of(settings: &Settings) -> [u64; 14]
    ensures { result ≡ settings_numbers settings.now }
{
    let numbers = settings.numbers();
    [
        numbers.descr(),
        numbers.a_at(),
        numbers.f_at(),
        numbers.f_len(),
        numbers.v_at(),
        numbers.v_len(),
        settings.function_flag,
        settings.mark_flag,
        settings.pointer_flag,
        settings.string_title_flag,
        settings.title_flag,
        settings.stack_size,
        settings.dynamic_size,
        settings.bucket_count,
    ]
}

/// The values of these settings, with numbers of units that are legal.
pub(crate) fn draft_of_numbers<'a>(numbers: &[u64; 14], date: &'a [u8; 8]) -> Draft<'a>
    ensures units { ((drafted result).input_unit ≡ 1) × ((drafted result).output_unit ≡ 1) × ((drafted result).punch_unit ≡ 1) }
    ensures settings { (s : parameters.Settings) → numbers.now ≡ settings_numbers s → date.now ≡ s.date
        → (drafted result).settings ≡ s }
{
    let [
        descr,
        a_at,
        f_at,
        f_len,
        v_at,
        v_len,
        function_flag,
        mark_flag,
        pointer_flag,
        string_title_flag,
        title_flag,
        stack_size,
        dynamic_size,
        bucket_count,
    ] = *numbers;
    Draft {
        sizes: Candidate {
            descr,
            a_at,
            f_at,
            f_len,
            v_at,
            v_len,
        },
        function_flag,
        mark_flag,
        pointer_flag,
        string_title_flag,
        title_flag,
        stack_size,
        dynamic_size,
        bucket_count,
        input_unit: 1,
        output_unit: 1,
        punch_unit: 1,
        date,
    }
}
