// Reads fields: one function a kind, the inverse of the one that prints it. It relies on `kind` and `value`, and on `base`
// for digits.

ghost use Rattle.std.specs.Prelude.{◌≡◌, ◌&&◌, ◌∷◌, ◌++◌, codes, not, MatchOption};
ghost use Rattle.std.specs.Char.{is_ascii_digit};
ghost use Rattle.std.specs.List.{list_all};
ghost use Rattle.trace_lines.specs.Reading.{IsCut, ReadsTold, has_leading_zero};
ghost use Rattle.trace_lines.specs.Texts.{byte_text, bytes_text, code_text, field_text, instructions_text, long_number_text, number_text, helper_number_text, sense_text, status_text, stop_text};
ghost use Rattle.trace_lines.specs.Written.{Reads};

use crate::kind::Kind;
use crate::printing::{GREATEST_CODE, MOST_BYTES, MOST_INSTRUCTIONS};
use crate::value::{Stop, Value};
use base::ShortBytes;
use base::hexadecimal::{byte_of, is_digit, pair};
use ccb::CamStatus;
use helpers::{Helper, Tells};

impl Kind {
    /// What a field of this kind holds that is spelled so.
    #[tactic(auto, unfolding(crate::specs::Texts::field_text))]
    pub fn read(self, word: &str) -> Option<Value>
        ensures { Reads (field_text self) word.now result }
    {
        match self {
            Kind::Number => Some(Value::Number(number(word)?)),
            Kind::LongNumber => Some(Value::LongNumber(long_number(word)?)),
            Kind::Instructions => Some(Value::Number(instructions(word)?)),
            Kind::Status => Some(Value::Status(status(word)?)),
            Kind::Byte => Some(Value::Byte(byte(word)?)),
            Kind::Sense => Some(Value::Bytes(sense(word)?)),
            Kind::Stop => Some(Value::Stop(stop(word)?)),
            Kind::Class => Some(Value::Number(number(word)?)),
        }
    }
}

/// The front of a text up to its first blank, and what is after.
pub fn first_word(text: &str) -> (&str, &str)
    ensures { IsCut text.now result.0.now result.1.now }
{
    match text.find(' ') {
        Some(place) => text.split_at(place),
        None => (text, ""),
    }
}

/// A number below 2^32 in decimal digits, without a sign and without leading zeros.
pub fn number(word: &str) -> Option<u32>
    ensures { Reads number_text word.now result }
{
    if !is_decimal(word) {
        return None;
    }
    word.parse().ok()
}

/// The same of a number below 2^64.
pub fn long_number(word: &str) -> Option<u64>
    ensures { Reads long_number_text word.now result }
{
    if !is_decimal(word) {
        return None;
    }
    word.parse().ok()
}

// Whether the word is digits alone, without leading zeros.
fn is_decimal(word: &str) -> bool
    ensures { result ≡ (not (has_leading_zero word.now) && list_all is_ascii_digit word.now) }
{
    if word != "0" && word.starts_with('0') {
        return false;
    }
    has_digits_alone(word)
}

fn has_digits_alone(word: &str) -> bool
    ensures { result ≡ list_all is_ascii_digit word.now }
{
    word.bytes().all(|byte| byte.is_ascii_digit())
}

fn instructions(word: &str) -> Option<u32>
    ensures { Reads instructions_text word.now result }
{
    match number(word) {
        Some(count) if count > 0 && count <= MOST_INSTRUCTIONS => Some(count),
        _ => None,
    }
}

fn byte(word: &str) -> Option<u8>
    ensures { Reads byte_text word.now result }
{
    byte_of(word)
}

fn status(word: &str) -> Option<CamStatus>
    ensures { Reads status_text word.now result }
{
    match byte_of(word) {
        Some(code) if code > 0 => CamStatus::from_code(code),
        _ => None,
    }
}

// From 1 to 64 bytes.
fn bytes(word: &str) -> Option<ShortBytes>
    ensures { Reads bytes_text word.now result }
{
    let mut bytes = [0; MOST_BYTES];
    let mut count = 0;
    let mut rest = word.as_bytes();
    while let [high, low, behind @ ..] = rest {
        if count == MOST_BYTES || !is_digit(*high) || !is_digit(*low) {
            return None;
        }
        bytes[count] = pair(*high, *low);
        count += 1;
        rest = behind;
    }
    if count == 0 || !rest.is_empty() {
        return None;
    }
    ShortBytes::new(&bytes[..count])
}

fn sense(word: &str) -> Option<ShortBytes>
    ensures { Reads sense_text word.now result }
{
    if word == "-" {
        return Some(ShortBytes::none());
    }
    bytes(word)
}

// Where a run stopped.
fn stop(text: &str) -> Option<Stop>
    ensures { Reads stop_text text.now result }
{
    if text == "exit" {
        return Some(Stop::Exit);
    }
    let (name, behind) = first_word(behind_helper(text)?);
    let helper = helper_named(name)?;
    told(helper, behind)
}

// What follows `helper `.
fn behind_helper(text: &str) -> Option<&str>
    ensures { MatchOption result ((rest : _) → ¬ (text.now ≡ codes "helper " ++ rest)) (λ rest. text.now ≡ codes "helper " ++ rest.now) }
{
    text.strip_prefix("helper ")
}

/// What follows a blank.
pub fn behind_blank(text: &str) -> Option<&str>
    ensures { MatchOption result ((rest : _) → ¬ (text.now ≡ 32 ∷ rest)) (λ rest. text.now ≡ 32 ∷ rest.now) }
{
    text.strip_prefix(' ')
}

// The helper of that number in digits.
fn helper_named(name: &str) -> Option<Helper>
    ensures { Reads helper_number_text name.now result }
{
    let number = u8::try_from(number(name)?).ok()?;
    Helper::with_number(i32::from(number))
}

// What is told of a call of that helper.
fn told(helper: Helper, text: &str) -> Option<Stop>
    ensures { ReadsTold helper text.now result }
{
    match helper.row().tells {
        Tells::Name if text.is_empty() => Some(Stop::Helper(helper)),
        Tells::Name => None,
        Tells::Bytes => Some(Stop::Bytes(helper, bytes(behind_blank(text)?)?)),
        Tells::Code => Some(Stop::Code(helper, code(behind_blank(text)?)?)),
    }
}

// The final code of a CCB.
fn code(word: &str) -> Option<u8>
    ensures { Reads code_text word.now result }
{
    match byte_of(word) {
        Some(code) if code <= GREATEST_CODE => Some(code),
        _ => None,
    }
}
