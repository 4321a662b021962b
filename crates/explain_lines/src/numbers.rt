// What is against a word that is to be a number, and characters that no word has. It relies on `slips`.

use crate::slips::{Advice, Found, Slip};
use cli_text_page::is_shown;
use trace_lines::Kind;

/// What is against a word that is to be a number of a kind and is none.
pub fn number_slip(kind: Kind, word: &str) -> Found {
    if let Some(found) = character_slip(word) {
        return found;
    }
    if let Some(digits) = without_prefix(word) {
        return Found::advised(Slip::Base16, 0, word.len(), base16_advice(kind, digits));
    }
    match word
        .char_indices()
        .find(|(_, letter)| !letter.is_ascii_digit())
    {
        Some((0, '+')) => {
            let advice = rest_advice(kind, word, 1);
            Found::advised(Slip::Signed, 0, 1, advice)
        }
        Some((0, '-')) => Found::of(Slip::Signed, 0, 1),
        Some((place, letter)) => {
            Found::of(
                Slip::NoDigit,
                place,
                place.saturating_add(letter.len_utf8()),
            )
        }
        None => digits_slip(kind, word),
    }
}

// The same of a word of digits alone.
fn digits_slip(kind: Kind, word: &str) -> Found {
    let zeros = word
        .bytes()
        .take(word.len().saturating_sub(1))
        .take_while(|byte| *byte == b'0')
        .count();
    if zeros > 0 {
        let advice = rest_advice(kind, word, zeros);
        Found::advised(Slip::LeadingZero, 0, zeros, advice)
    } else {
        Found::of(Slip::OutOfRange, 0, word.len())
    }
}

// The advice to write what follows so many bytes of a word, if that is of the kind.
fn rest_advice(kind: Kind, word: &str, start: usize) -> Advice {
    match word.get(start..) {
        Some(rest) if kind.read(rest).is_some() => Advice::From(start),
        _ => Advice::Usual,
    }
}

// What follows `0x` or `0X`, if there are 1 to 16 digits of base 16 alone.
fn without_prefix(word: &str) -> Option<&str> {
    let digits = match word.strip_prefix("0x") {
        Some(digits) => digits,
        None => word.strip_prefix("0X")?,
    };
    if digits.is_empty() || digits.len() > 16 || !has_digits16(digits) {
        return None;
    }
    Some(digits)
}

/// Whether all bytes of a word are digits of base 16, of either case.
pub fn has_digits16(word: &str) -> bool {
    word.bytes().all(|byte| byte.is_ascii_hexdigit())
}

// The advice to write in base 10 what so many digits of base 16 say, if that is in the range of the kind.
fn base16_advice(kind: Kind, digits: &str) -> Advice {
    let mut value = 0u64;
    for byte in digits.bytes() {
        value = value
            .wrapping_mul(16)
            .wrapping_add(u64::from(digit_of(byte)));
    }
    if value >= least_of(kind) && value <= most_of(kind) {
        Advice::Number(value)
    } else {
        Advice::Usual
    }
}

/// What a digit of base 16 counts, of either case; 0 for any other byte.
pub fn digit_of(byte: u8) -> u8 {
    match byte {
        b'0'..=b'9' => byte - b'0',
        b'a'..=b'f' => byte - b'a' + 10,
        b'A'..=b'F' => byte - b'A' + 10,
        _ => 0,
    }
}

/// The least number of a kind, and the greatest.
pub fn least_of(kind: Kind) -> u64 {
    match kind {
        Kind::Instructions => 1,
        _ => 0,
    }
}

/// The greatest number of a kind.
pub fn most_of(kind: Kind) -> u64 {
    match kind {
        Kind::Instructions => 65_536,
        Kind::LongNumber => u64::MAX,
        _ => 4_294_967_295,
    }
}

/// What is against the first character of a word that stands in no word of any line, if it has one.
pub fn character_slip(word: &str) -> Option<Found> {
    let Some((place, letter)) = word.char_indices().find(|(_, letter)| is_odd(*letter)) else {
        return None;
    };
    let end = place.saturating_add(letter.len_utf8());
    let slip = match letter {
        '\t' => Slip::Tab,
        '#' => Slip::Comment,
        _ if letter.is_whitespace() => Slip::OtherBlank,
        _ => Slip::Hidden,
    };
    Some(Found::of(slip, place, end))
}

fn is_odd(letter: char) -> bool {
    letter == '#' || (letter != ' ' && letter.is_whitespace()) || !is_shown(letter)
}
