// What is against a word that is to be a byte, a status, a code or several bytes. It relies on `numbers` for digits, and on `ccb` for
// statuses.

use crate::numbers::{character_slip, digit_of, has_digits16};
use crate::slips::{Advice, Found, Slip};
use ccb::CamStatus;
use trace_lines::Kind;

/// How many digits the most bytes of a line have.
const MOST_DIGITS: usize = 128;

/// What is against a word that is to be one byte, and is none of its kind: a status, or any byte.
pub fn byte_slip(kind: Kind, word: &str) -> Found {
    if let Some(found) = character_slip(word) {
        return found;
    }
    let digits = without_prefix(word);
    if digits.len() > 2 && !has_digits16(digits) {
        return Found::of(Slip::NotTwoDigits, 0, word.len());
    }
    if let Some(place) = digits.bytes().position(|byte| !byte.is_ascii_hexdigit()) {
        let start = word
            .len()
            .saturating_sub(digits.len())
            .saturating_add(place);
        return Found::of(Slip::NoByteDigit, start, width_from(word, start));
    }
    if digits.is_empty() || digits.len() > 2 {
        return Found::of(Slip::NotTwoDigits, 0, word.len());
    }
    let value = value_of(digits);
    let slip = if digits.len() < word.len() {
        Slip::Prefix
    } else if word.len() == 1 {
        Slip::HalfByte
    } else if word.bytes().any(|byte| byte.is_ascii_uppercase()) {
        Slip::CapitalDigits
    } else {
        return value_slip(kind, value);
    };
    Found::advised(slip, 0, word.len(), byte_advice(kind, value))
}

// A word without `0x` or `0X` before it.
fn without_prefix(word: &str) -> &str {
    if word.starts_with("0x") || word.starts_with("0X") {
        word.get(2..).unwrap_or("")
    } else {
        word
    }
}

// What is against the value of two digits of a byte, which is none of its kind.
fn value_slip(kind: Kind, value: u8) -> Found {
    match kind {
        Kind::Status if value == 0 => Found::of(Slip::InProgress, 0, 2),
        Kind::Status if value > 63 && is_status(value % 64) => {
            Found::advised(Slip::Flags, 0, 2, Advice::Byte(value % 64))
        }
        Kind::Status => Found::of(Slip::NoStatus, 0, 2),
        _ => Found::of(Slip::Other, 0, 2),
    }
}

// The advice to write that byte, if it is one of the kind.
fn byte_advice(kind: Kind, value: u8) -> Advice {
    match kind {
        Kind::Status if !is_status(value) => Advice::Usual,
        _ => Advice::Byte(value),
    }
}

/// Whether a byte is the code of a status that is reported.
pub fn is_status(value: u8) -> bool {
    value > 0 && CamStatus::from_code(value).is_some()
}

// What one or two digits of base 16 count.
fn value_of(digits: &str) -> u8 {
    let mut value = 0u8;
    for byte in digits.bytes().take(2) {
        value = value.wrapping_mul(16).wrapping_add(digit_of(byte));
    }
    value
}

// Where the character ends that begins at that byte of a word.
fn width_from(word: &str, start: usize) -> usize {
    match word.get(start..).unwrap_or("").chars().next() {
        Some(letter) => start.saturating_add(letter.len_utf8()),
        None => start.saturating_add(1),
    }
}

/// What is against a word that is to be several bytes, and is not.
pub fn bytes_slip(word: &str) -> Found {
    if let Some(found) = character_slip(word) {
        return found;
    }
    if word.starts_with("0x") || word.starts_with("0X") {
        return Found::of(Slip::Prefix, 0, 2);
    }
    if !has_digits16(word) {
        let start = word
            .bytes()
            .position(|byte| !byte.is_ascii_hexdigit())
            .unwrap_or(0);
        return Found::of(Slip::NoByteDigit, start, width_from(word, start));
    }
    if let Some(place) = word.bytes().position(|byte| byte.is_ascii_uppercase()) {
        return Found::of(Slip::CapitalDigits, place, place.saturating_add(1));
    }
    if word.len() % 2 != 0 {
        return Found::of(Slip::OddDigits, 0, word.len());
    }
    if word.len() > MOST_DIGITS {
        return Found::of(Slip::TooManyBytes, MOST_DIGITS, word.len());
    }
    Found::of(Slip::Other, 0, word.len())
}

/// What is against a word that is to be the final code of a CCB, and is none.
pub fn code_slip(word: &str) -> Found {
    let found = byte_slip(Kind::Byte, word);
    if found.slip.is(Slip::Other) {
        Found::of(Slip::NoCode, 0, word.len())
    } else {
        found
    }
}
