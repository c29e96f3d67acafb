// Laws of symbols.
ghost use Rattle.sil_symbols.specs.Laws.{LawOfValues, LawOfSizes, LawOfAddresses, LawOfPlaces};

/// Values have 64 bits.
#[tactic(auto, using(crate::proofs::LawLemmas::values_fit))]
pub fn law_of_values()
    ensures { LawOfValues }
{}

/// Where a source has no faults, each ARRAY and each BUFFER has a size, which is the value of its
/// first operand.
#[tactic(auto, using(crate::proofs::LawLemmas::sizes_are_values))]
pub fn law_of_sizes()
    ensures { LawOfSizes }
{}

/// Where a source has no faults, the label of a data statement has the address of its first cell,
/// which stands after those of all statements before it, and the label of an executable statement
/// has its entry; and no two of them share an address.
pub fn law_of_addresses()
    ensures addresses { LawOfAddresses }
    ensures places { LawOfPlaces }
{}
