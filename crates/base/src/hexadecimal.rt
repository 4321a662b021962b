// Bytes as pairs of lower case hexadecimal digits. It relies on nothing.
ghost use Rattle.std.specs.Prelude.{◌≡◌, ◌<◌};
ghost use Rattle.base.specs.Hexadecimal.{byte_in, digit_value, is_digit, pair_value};

/// Whether a byte is a digit: `0` to `9` or `a` to `f`.
pub fn is_digit(byte: u8) -> bool
    ensures { result ≡ is_digit byte }
{
    matches!(byte, b'0'..=b'9' | b'a'..=b'f')
}

/// The byte that two digits spell, the high one first. One that is no digit counts as 0.
pub fn pair(high: u8, low: u8) -> u8
    ensures { result ≡ pair_value high low }
{
    16 * digit(high) + digit(low)
}

/// The byte that a word of two digits spells; `None` for any other word.
pub fn byte_of(word: &str) -> Option<u8>
    ensures { result ≡ byte_in word.now }
{
    match word.as_bytes() {
        [high, low] if is_digit(*high) && is_digit(*low) => Some(pair(*high, *low)),
        _ => None,
    }
}

fn digit(byte: u8) -> u8
    ensures value { result ≡ digit_value byte }
    ensures bound { result < 16 }
{
    match byte {
        b'0'..=b'9' => byte - b'0',
        b'a'..=b'f' => byte - b'a' + 10,
        _ => 0,
    }
}
