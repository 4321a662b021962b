// Bytes as text with escapes: `\n`, `\r`, `\t`, `\\`, and `\xff` for any byte. It relies on `base`.

ghost use Rattle.std.specs.Prelude.{◌<◌, IfSome, length};

use crate::fault::LineFault;
use base::hexadecimal::{is_digit, pair};
use std::alloc::AllocError;

/// Adds the bytes that a text spells.
pub fn push(bytes: &mut Vec<u8>, text: &str) -> Result<(), LineFault> {
    let mut rest = text.as_bytes();
    while !rest.is_empty() {
        let Some((byte, more)) = first_byte(rest) else {
            return Err(LineFault::Form);
        };
        bytes.push(byte).map_err(AllocError::from)?;
        rest = more;
    }
    Ok(())
}

// The byte that a text begins with, and what follows it; none where an escape is none of these.
fn first_byte(text: &[u8]) -> Option<(u8, &[u8])>
    ensures { IfSome result (λ first. length first.1.now < length text.now) }
{
    match text {
        [b'\\', b'x', high, low, rest @ ..] if is_digit(*high) && is_digit(*low) => {
            Some((pair(*high, *low), rest))
        }
        [b'\\', letter, rest @ ..] => Some((escaped(*letter)?, rest)),
        [b'\\'] | [] => None,
        [byte, rest @ ..] => Some((*byte, rest)),
    }
}

fn escaped(letter: u8) -> Option<u8> {
    match letter {
        b'n' => Some(b'\n'),
        b'r' => Some(b'\r'),
        b't' => Some(b'\t'),
        b'\\' => Some(b'\\'),
        _ => None,
    }
}
