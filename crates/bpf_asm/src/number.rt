// Which lexemes are tokens, and the values of numbers and registers.

ghost use Rattle.std.specs.Prelude.{◌≡◌, ◌≤◌};
ghost use Rattle.std.specs.List.{list_all};
ghost use Rattle.bpf_asm.specs.Bytes.{is_word, is_digit, is_hexadecimal_digit};
ghost use Rattle.bpf_asm.specs.Reading.{register_of};
ghost use Rattle.bpf_asm.specs.Numbers.{is_name, is_decimal, is_hexadecimal, number_of, is_token, below_64_bits, digit_of, value_after};

use crate::bytes::{is_digit, is_hexadecimal_digit, is_letter, is_mark, is_word};
use bpf_insn::Reg;

// Letters, digits and `_` alone.
fn all_words(bytes: &[u8]) -> bool
    ensures { result ≡ list_all is_word bytes.now }
{
    bytes.iter().all(|byte| is_word(*byte))
}

// Decimal digits alone.
fn all_digits(bytes: &[u8]) -> bool
    ensures { result ≡ list_all is_digit bytes.now }
{
    bytes.iter().all(|byte| is_digit(*byte))
}

// Digits of base 16 alone.
fn all_hexadecimal_digits(bytes: &[u8]) -> bool
    ensures { result ≡ list_all is_hexadecimal_digit bytes.now }
{
    bytes.iter().all(|byte| is_hexadecimal_digit(*byte))
}

/// A letter, and then letters, digits and `_`.
pub fn is_name(word: &[u8]) -> bool
    ensures { result ≡ is_name word.now }
{
    match word {
        [] => false,
        [first, rest @ ..] => is_letter(*first) && all_words(rest),
    }
}

// The digit's value, of a letter from 10 on.
#[tactic(auto, unfolding(crate::specs::Numbers::digit_of))]
fn digit(byte: u8) -> u64
    ensures { result ≡ digit_of byte }
{
    match byte {
        b'0'..=b'9' => u64::from(byte - b'0'),
        b'a'..=b'f' => u64::from(byte - b'a') + 10,
        _ => 0,
    }
}

// The value of digits, where it has no more than 64 bits.
fn value_of(radix: u64, digits: &[u8]) -> Option<u64>
    requires { 1 ≤ radix }
    ensures { result ≡ below_64_bits (value_after radix 0 digits.now) }
{
    let mut value: u64 = 0;
    for byte in digits {
        value = value.checked_mul(radix)?.checked_add(digit(*byte))?;
    }
    Some(value)
}

// Decimal digits.
fn is_decimal(word: &[u8]) -> bool
    ensures { result ≡ is_decimal word.now }
{
    !word.is_empty() && all_digits(word)
}

// `0x` and digits of base 16.
fn is_hexadecimal(word: &[u8]) -> bool
    ensures { result ≡ is_hexadecimal word.now }
{
    if word.len() < 3 {
        return false;
    }
    let (front, digits) = word.split_at(2);
    front == b"0x".as_slice() && all_hexadecimal_digits(digits)
}

/// The value of a number, if the lexeme is one: None in it where the value has more than 64 bits.
#[tactic(auto, unfolding(crate::specs::Numbers::number_of))]
pub fn number(word: &[u8]) -> Option<Option<u64>>
    ensures { result ≡ number_of word.now }
{
    if is_hexadecimal(word) {
        return Some(value_of(16, &word[2..]));
    }
    if is_decimal(word) {
        return Some(value_of(10, word));
    }
    None
}

/// A name, a number or a mark.
#[tactic(auto, unfolding(crate::specs::Numbers::is_token))]
pub fn is_token(word: &[u8]) -> bool
    ensures { result ≡ is_token word.now }
{
    is_name(word) || number(word).is_some() || matches!(word, [byte] if is_mark(*byte))
}

/// The register of a name.
#[tactic(auto, unfolding(crate::specs::Reading::register_of))]
pub fn register(word: &[u8]) -> Option<Reg>
    ensures { result ≡ register_of word.now }
{
    Some(match word {
        b"r0" => Reg::R0,
        b"r1" => Reg::R1,
        b"r2" => Reg::R2,
        b"r3" => Reg::R3,
        b"r4" => Reg::R4,
        b"r5" => Reg::R5,
        b"r6" => Reg::R6,
        b"r7" => Reg::R7,
        b"r8" => Reg::R8,
        b"r9" => Reg::R9,
        b"r10" => Reg::R10,
        _ => return None,
    })
}
