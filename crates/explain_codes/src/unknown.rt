// What is said of a word that is spelled as a code is and is none. It relies on `code` for which codes there are.

ghost use Rattle.std.specs.Prelude.{◌≡◌};
ghost use Rattle.std.specs.List.{list_all};
ghost use Rattle.explain_codes.specs.Spelling.{are_digits, is_digit, is_letter, is_spelled_as_code};

use crate::code::{Code, SERIES, Series};
use cli_text_page::Page;

/// How many digits a word has at most that is taken as a code.
const MOST_DIGITS: usize = 3;

/// Whether a word is spelled as a code is: a letter of either case, and one to three digits.
pub fn is_spelled_as_code(word: &str) -> bool
    ensures { result ≡ is_spelled_as_code word.now }
{
    match word.as_bytes() {
        [] => false,
        [letter, digits @ ..] => is_letter(*letter) && are_digits(digits),
    }
}

// Whether bytes are one to three digits.
fn are_digits(bytes: &[u8]) -> bool
    ensures { result ≡ are_digits bytes.now }
{
    1 <= bytes.len() && bytes.len() <= MOST_DIGITS && all_digits(bytes)
}

fn all_digits(bytes: &[u8]) -> bool
    ensures { result ≡ list_all is_digit bytes.now }
{
    bytes.iter().all(|byte| is_digit(*byte))
}

#[tactic(auto, unfolding(crate::specs::Spelling::is_letter))]
fn is_letter(byte: u8) -> bool
    ensures { result ≡ is_letter byte }
{
    matches!(byte, b'A'..=b'Z' | b'a'..=b'z')
}

#[tactic(auto, unfolding(crate::specs::Spelling::is_digit))]
fn is_digit(byte: u8) -> bool
    ensures { result ≡ is_digit byte }
{
    matches!(byte, b'0'..=b'9')
}

/// Puts that such a word is no code, and which codes are near, without a line feed.
pub fn put_unknown(page: &mut Page, word: &str) {
    page.foreign(word);
    page.text(" is no code; ");
    let letter = word.bytes().next().unwrap_or(b'A').to_ascii_uppercase();
    match SERIES.iter().find(|series| series.letter == letter) {
        Some(series) => put_near(page, series, word.get(1..).unwrap_or("")),
        None => {
            page.text("the letters of codes are");
            for series in &SERIES {
                page.text(" ");
                page.ascii(series.letter);
            }
        }
    }
}

// Puts the code of a letter that the digits name, or which ones there are.
fn put_near(page: &mut Page, series: &Series, digits: &str) {
    match digits.parse::<u8>() {
        Ok(number) if number > 0 && number < series.end => {
            page.shown(&Code {
                letter: series.letter,
                number,
            });
            page.text(" is one");
        }
        _ => {
            page.text("those of this letter are ");
            page.ascii(series.letter);
            page.text("1 to ");
            page.ascii(series.letter);
            page.fill("{}", &[u64::from(series.end.saturating_sub(1))]);
        }
    }
}
