// Outcomes of names and of expressions.
ghost use Rattle.std.specs.Prelude.{◌≡◌, pos, ◌+ℤ◌, ◌-ℤ◌, ◌*ℤ◌};
ghost use Rattle.sil_symbols.specs.Expressions.{bounded, joined, with_sign, is_circular};
ghost use Rattle.sil_symbols.specs.SymbolRules.{is_no_value};

/// A value; none, by a cause of its own; or none since it rests on an EQU that rests on itself.
#[derive(Clone, Copy, PartialEq, Eq, Debug)]
pub(crate) enum Outcome {
    Value(i64),
    NoValue,
    Circular,
}

impl Outcome {
    /// Whether it rests on an EQU that rests on itself.
    pub(crate) fn is_circular(self) -> bool
        ensures { result ≡ is_circular self }
    {
        matches!(self, Outcome::Circular)
    }

    /// Whether there is no value, by a cause of its own.
    pub(crate) fn is_no_value(self) -> bool
        ensures { result ≡ is_no_value self }
    {
        matches!(self, Outcome::NoValue)
    }
}

/// A number, where it has 64 bits with its sign.
pub(crate) fn number(n: u64) -> Outcome
    ensures { result ≡ bounded (pos n) }
{
    if n <= i64::MAX as u64 {
        Outcome::Value(n as i64)
    } else {
        Outcome::NoValue
    }
}

fn bounded_product(a: i64, b: i64) -> Outcome
    ensures { result ≡ bounded (a *ℤ b) }
{
    match a.checked_mul(b) {
        Some(value) => Outcome::Value(value),
        None => Outcome::NoValue,
    }
}

fn bounded_sum(a: i64, b: i64) -> Outcome
    ensures { result ≡ bounded (a +ℤ b) }
{
    match a.checked_add(b) {
        Some(value) => Outcome::Value(value),
        None => Outcome::NoValue,
    }
}

fn bounded_difference(a: i64, b: i64) -> Outcome
    ensures { result ≡ bounded (a -ℤ b) }
{
    match a.checked_sub(b) {
        Some(value) => Outcome::Value(value),
        None => Outcome::NoValue,
    }
}

fn bounded_signed(minus: bool, a: i64, b: i64) -> Outcome
    ensures { result ≡ bounded (with_sign minus a b) }
{
    if minus {
        bounded_difference(a, b)
    } else {
        bounded_sum(a, b)
    }
}

/// The product of two outcomes.
pub(crate) fn product(first: Outcome, second: Outcome) -> Outcome
    ensures { result ≡ joined ◌*ℤ◌ first second }
{
    match (first, second) {
        (Outcome::Value(a), Outcome::Value(b)) => bounded_product(a, b),
        (Outcome::NoValue, _) | (_, Outcome::NoValue) => Outcome::NoValue,
        (Outcome::Circular, _) | (_, Outcome::Circular) => Outcome::Circular,
    }
}

/// The sum of two outcomes, or their difference.
pub(crate) fn sum(minus: bool, first: Outcome, second: Outcome) -> Outcome
    ensures { result ≡ joined (with_sign minus) first second }
{
    match (first, second) {
        (Outcome::Value(a), Outcome::Value(b)) => bounded_signed(minus, a, b),
        (Outcome::NoValue, _) | (_, Outcome::NoValue) => Outcome::NoValue,
        (Outcome::Circular, _) | (_, Outcome::Circular) => Outcome::Circular,
    }
}
