// Arithmetic on flags.
ghost use Rattle.std.specs.Prelude.{◌≡◌};
ghost use Rattle.descr_clauses.specs.DescriptorClauses.{bits_without};

/// The first bits but for those that the second has.
pub(crate) fn bits_without(f: u32, flags: u32) -> u32
    ensures { result ≡ bits_without f flags }
{
    f - (f & flags)
}
