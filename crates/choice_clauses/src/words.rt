// Arithmetic on the integers of 64 bits that is exact.
ghost use Rattle.std.specs.Prelude.{◌≡◌, ◌<◌, ◌+ℤ◌, ◌-ℤ◌, ◌*ℤ◌, neg_ℤ};
ghost use Rattle.choice_clauses.specs.IntegerClauses.{quotient};
ghost use Rattle.sil_model.specs.Integers.{in_range};

/// The sum, where 64 bits hold it.
#[tactic(auto, unfolding(sil_model::specs::Integers::in_range))]
pub(crate) fn exact_sum(x: i64, y: i64) -> Option<i64>
    ensures { result ≡ in_range (x +ℤ y) }
{
    x.checked_add(y)
}

/// The difference, where 64 bits hold it.
#[tactic(auto, unfolding(sil_model::specs::Integers::in_range))]
pub(crate) fn exact_difference(x: i64, y: i64) -> Option<i64>
    ensures { result ≡ in_range (x -ℤ y) }
{
    x.checked_sub(y)
}

/// The product, where 64 bits hold it.
#[tactic(auto, unfolding(sil_model::specs::Integers::in_range))]
pub(crate) fn exact_product(x: i64, y: i64) -> Option<i64>
    ensures { result ≡ in_range (x *ℤ y) }
{
    x.checked_mul(y)
}

/// The negative, where 64 bits hold it.
#[tactic(auto, unfolding(sil_model::specs::Integers::in_range))]
pub(crate) fn exact_negative(x: i64) -> Option<i64>
    ensures { result ≡ in_range (neg_ℤ x) }
{
    x.checked_neg()
}

/// The quotient, cut towards zero, where 64 bits hold it; none by 0.
#[tactic(auto, unfolding(sil_model::specs::Integers::in_range))]
pub(crate) fn exact_quotient(x: i64, y: i64) -> Option<i64>
    ensures { result ≡ quotient x y }
{
    x.checked_div(y)
}
