// Bytes as text: pairs of lower case hexadecimal digits, with blanks before, between and after them. It relies on
// `hexadecimal` for a pair.

ghost use Rattle.std.specs.Prelude.{◌≡◌, ◌<◌, length, option_map, IfOk, IfSome};
ghost use Rattle.manifest_form.specs.Code.{bytes_in, first_in, is_blank};

use base::hexadecimal::{is_digit, pair};
use std::alloc::{AllocError, Global};

/// The bytes that a text spells; `None` where it is not of the form.
pub fn bytes(alloc: Global, text: &str) -> Result<Option<Vec<u8>>, AllocError>
    ensures { IfOk result (λ bytes. option_map (λ b. b.items) bytes ≡ bytes_in text.now) }
{
    let mut rest = text.as_bytes();
    let mut bytes = Vec::with_capacity(alloc, rest.len() / 2)?;
    while !rest.is_empty() {
        let Some((byte, after)) = first(rest) else {
            return Ok(None);
        };
        if let Some(byte) = byte {
            bytes.push(byte)?;
        }
        rest = after;
    }
    Ok(Some(bytes))
}

// A blank, or the byte that a pair of digits spells, and what follows it.
fn first(text: &[u8]) -> Option<(Option<u8>, &[u8])>
    ensures read { option_map (λ read. (read.0, read.1.now)) result ≡ first_in text.now }
    ensures shorter { IfSome result (λ read. length read.1.now < length text.now) }
{
    match text {
        [blank, after @ ..] if is_blank(*blank) => Some((None, after)),
        [high, low, after @ ..] if is_digit(*high) && is_digit(*low) => {
            Some((Some(pair(*high, *low)), after))
        }
        _ => None,
    }
}

fn is_blank(byte: u8) -> bool
    ensures { result ≡ is_blank byte }
{
    matches!(byte, b' ' | b'\t' | b'\n')
}
