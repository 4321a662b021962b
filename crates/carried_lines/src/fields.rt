// Reads a field from the front of a text: what was read, and what is after it. It relies on `trace_lines` for numbers.

ghost use Rattle.std.specs.Prelude.{◌≡◌, ◌==◌, [], length};
ghost use Rattle.carried_lines.specs.FieldReading.{ReadsAs, cut, field_in, long_number_in, number_in, value_of};

use trace_lines::long_number;

/// The word that a text begins with, up to its first blank, and what is after it.
pub fn first_word(text: &str) -> (&str, &str)
    ensures { (result.0.now, result.1.now) ≡ cut text.now }
{
    match text.find(' ') {
        Some(place) => text.split_at(place),
        None => (text, ""),
    }
}

/// The word after the blank that a text begins with, and what is after that word.
#[tactic(auto, unfolding(crate::specs::FieldReading::field_in))]
pub fn field(text: &str) -> Option<(&str, &str)>
    ensures { ReadsAs (λ x. (x.0.now, x.1.now)) result (field_in text.now) }
{
    let text = text.strip_prefix(' ')?;
    Some(first_word(text))
}

// The number below 2^64 that a word spells in decimal digits, without a sign and without leading zeros.
fn value_of(word: &str) -> Option<u64>
    ensures { result ≡ value_of word.now }
{
    long_number(word)
}

/// A field that is a number below 2^64, and what is after it.
#[tactic(auto, unfolding(crate::specs::FieldReading::long_number_in))]
pub fn long_number_field(text: &str) -> Option<(u64, &str)>
    ensures { ReadsAs (λ x. (x.0, x.1.now)) result (long_number_in text.now) }
{
    let (word, rest) = field(text)?;
    Some((value_of(word)?, rest))
}

/// A field that is a number below 2^32, and what is after it.
#[tactic(auto, unfolding(crate::specs::FieldReading::number_in))]
pub fn number_field(text: &str) -> Option<(u32, &str)>
    ensures { ReadsAs (λ x. (x.0, x.1.now)) result (number_in text.now) }
{
    let (number, rest) = long_number_field(text)?;
    Some((u32::try_from(number).ok()?, rest))
}
