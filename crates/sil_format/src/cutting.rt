// Blanks and numbers at the front of bytes.
ghost use Rattle.std.specs.Prelude.{◌≡◌, ◌≤◌, ◌+◌, length, true};
ghost use Rattle.std.specs.List.{list_all};
ghost use Rattle.sil_format.specs.FormatGrammar.{is_blank, are_blanks, is_digit_or_blank};
ghost use Rattle.sil_format.specs.FormatReading.{skip_blanks, number_part, after_number, number_in, count_in, optional_count_in};

fn is_blank(byte: u8) -> bool
    ensures { result ≡ is_blank byte }
{
    byte == b' '
}

pub(crate) fn are_blanks(bytes: &[u8]) -> bool
    ensures { result ≡ are_blanks bytes.now }
{
    bytes.iter().all(|c| is_blank(*c))
}

fn is_digit_or_blank(byte: u8) -> bool
    ensures { result ≡ is_digit_or_blank byte }
{
    byte.is_ascii_digit() || is_blank(byte)
}

/// Bytes without the blanks at their front.
pub(crate) fn skip_blanks(bytes: &[u8]) -> &[u8]
    ensures rest { result.now ≡ skip_blanks bytes.now }
    ensures shorter { length result.now ≤ length bytes.now }
{
    let mut rest = bytes;
    while let Some((b' ', more)) = rest.split_first() {
        rest = more;
    }
    rest
}

/// The digits and blanks at the front, and what stands behind them.
pub(crate) fn cut_number(bytes: &[u8]) -> (&[u8], &[u8])
    ensures number { result.0.now ≡ number_part bytes.now }
    ensures rest { result.1.now ≡ after_number bytes.now }
    ensures digits { list_all is_digit_or_blank result.0.now ≡ true }
    ensures shorter { length result.1.now ≤ length bytes.now }
{
    for (at, byte) in bytes.iter().enumerate() {
        if !is_digit_or_blank(*byte) {
            return bytes.split_at(at);
        }
    }
    (bytes, &[])
}

/// The number of digits and blanks, where it lies between two others.
pub(crate) fn number_in(low: u16, high: u16, bytes: &[u8]) -> Option<u16>
    requires digits { list_all is_digit_or_blank bytes.now ≡ true }
    requires small { high ≤ 1000 }
    ensures { result ≡ number_in low high bytes.now }
{
    if are_blanks(bytes) {
        return None;
    }
    let mut value = 0;
    for byte in bytes {
        if !is_blank(*byte) {
            value = value * 10 + u16::from(*byte - b'0');
            if value > high {
                return None;
            }
        }
    }
    if value < low { None } else { Some(value) }
}

/// A count: 1 to 1,000.
pub(crate) fn count_in(bytes: &[u8]) -> Option<u16>
    requires { list_all is_digit_or_blank bytes.now ≡ true }
    ensures { result ≡ count_in bytes.now }
{
    number_in(1, 1000, bytes)
}

/// A count that may be missing, and is 1 then.
pub(crate) fn optional_count_in(bytes: &[u8]) -> Option<u16>
    requires { list_all is_digit_or_blank bytes.now ≡ true }
    ensures { result ≡ optional_count_in bytes.now }
{
    if are_blanks(bytes) {
        Some(1)
    } else {
        count_in(bytes)
    }
}
