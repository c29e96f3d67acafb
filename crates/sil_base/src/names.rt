// Names and numbers.
ghost use Rattle.std.specs.Prelude.{◌≡◌, ◌^◌, ◌<◌, IsTrue, SomeIff};
ghost use Rattle.std.specs.Char.{is_ascii_alphanumeric, is_ascii_digit};
ghost use Rattle.std.specs.List.{list_all};
ghost use Rattle.sil_base.specs.Names.{is_name, is_number, value_of};

fn are_alphanumeric(bytes: &[u8]) -> bool
    ensures { result ≡ list_all is_ascii_alphanumeric bytes.now }
{
    bytes.iter().all(|c| c.is_ascii_alphanumeric())
}

fn are_digits(bytes: &[u8]) -> bool
    ensures { result ≡ list_all is_ascii_digit bytes.now }
{
    bytes.iter().all(|c| c.is_ascii_digit())
}

/// Whether bytes are a name: 1 to 16 ASCII letters or digits, the first a letter.
pub fn is_name(bytes: &[u8]) -> bool
    ensures { result ≡ is_name bytes.now }
{
    match bytes.split_first() {
        Some((first, rest)) => {
            first.is_ascii_alphabetic() && are_alphanumeric(rest) && rest.len() <= 15
        }
        None => false,
    }
}

/// Whether bytes are decimal digits, one at least.
pub fn is_number(bytes: &[u8]) -> bool
    ensures { result ≡ is_number bytes.now }
{
    match bytes.split_first() {
        Some((first, rest)) => first.is_ascii_digit() && are_digits(rest),
        None => false,
    }
}

/// The number that digits stand for, where it has at most 64 bits.
pub fn digits_value(digits: &[u8]) -> Option<u64>
    requires { IsTrue (is_number digits.now) }
    ensures { SomeIff result (value_of digits.now < 2 ^ 64) (value_of digits.now) }
{
    let mut value: u64 = 0;
    for digit in digits {
        value = value
            .checked_mul(10)?
            .checked_add(u64::from(*digit - b'0'))?;
    }
    Some(value)
}
