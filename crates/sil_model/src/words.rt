// Arithmetic on the integers of 64 bits, as macros and addresses use it.
ghost use Rattle.std.specs.Prelude.{◌≡◌, ◌<◌, ◌^◌, pos};
ghost use Rattle.sil_model.specs.Integers.{◌⊞◌, ◌⊟◌, wrapped_product};

/// The sum modulo 2^64.
#[tactic(auto, unfolding(crate::specs::Integers::wrapped_sum))]
pub fn wrapped_sum(x: i64, y: i64) -> i64
    ensures { result ≡ x ⊞ y }
{
    x.wrapping_add(y)
}

/// The difference modulo 2^64.
#[tactic(auto, unfolding(crate::specs::Integers::wrapped_difference))]
pub fn wrapped_difference(x: i64, y: i64) -> i64
    ensures { result ≡ x ⊟ y }
{
    x.wrapping_sub(y)
}

/// The product modulo 2^64.
#[tactic(auto, unfolding(crate::specs::Integers::wrapped_product))]
pub fn wrapped_product(x: i64, y: i64) -> i64
    ensures { result ≡ wrapped_product x y }
{
    x.wrapping_mul(y)
}

/// A number as an integer with a sign.
pub fn integer(n: u64) -> i64
    requires { n < 2 ^ 63 }
    ensures { result ≡ pos n }
{
    n as i64
}
