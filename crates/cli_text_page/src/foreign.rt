// How a text from outside is shown: what a terminal would obey, what would move other characters, and what may mean anything stands
// there as an escape. It relies on `ucd_category` for the categories of characters.

ghost use Rattle.std.specs.Prelude.{◌≡◌, true, All, IfOk, Some, chars, string_bytes};
ghost use Rattle.std.specs.Fmt.{WritesOnOk};
ghost use Rattle.cli_text_page.specs.Escaping.{escape_of, escaped, is_shown, shown_as};

use std::alloc::{AllocError, Global};
use std::fmt;
use std::fmt::Display;
use ucd_category::GeneralCategory;

/// Whether a character of a text from outside is shown as it is: it is no control character, no format character, no line or paragraph
/// separator, and its code point has a meaning for all.
pub fn is_shown(character: char) -> bool
    ensures { result ≡ is_shown character }
{
    match GeneralCategory::for_char(character) {
        GeneralCategory::Control
        | GeneralCategory::Format
        | GeneralCategory::Surrogate
        | GeneralCategory::PrivateUse
        | GeneralCategory::Unassigned
        | GeneralCategory::LineSeparator
        | GeneralCategory::ParagraphSeparator => false,
        _ => true,
    }
}

/// A character of a text from outside, as it is shown: itself, or an escape as `\n`, `\x1b` and `\u{9b}`. A backslash is shown as it
/// is, so an escape and a text that looks like one cannot be told apart.
#[derive(Clone, Copy, Debug)]
pub struct ForeignCharacter(pub char);

impl Display for ForeignCharacter {
    ghost output = { λ shown. Some (shown_as shown.0) };

    fn fmt<W: fmt::Write>(&self, f: &mut fmt::Formatter<W>) -> fmt::Result {
        let character = self.0;
        if is_shown(character) {
            write!(f, "{character}")
        } else {
            write_escape(f, character)
        }
    }
}

// Writes the escape of a character that is not shown as it is.
fn write_escape<W: fmt::Write>(f: &mut fmt::Formatter<W>, character: char) -> fmt::Result
    ensures { WritesOnOk W.write_str_gives f.old result (escape_of character) f.new }
{
    let code = u32::from(character);
    match character {
        '\n' => f.write_str("\\n"),
        '\r' => f.write_str("\\r"),
        '\t' => f.write_str("\\t"),
        _ if code < 0x80 => write!(f, "\\x{code:02x}"),
        _ => write!(f, "\\u{{{code:x}}}"),
    }
}

/// A text from outside, as it is shown.
#[derive(Clone, Copy, Debug)]
pub struct ForeignText<'a>(pub &'a str);

impl Display for ForeignText<'_> {
    ghost output = { λ text. Some (escaped text.0.now) };

    fn fmt<W: fmt::Write>(&self, f: &mut fmt::Formatter<W>) -> fmt::Result {
        write_text(f, self.0)
    }
}

// Writes what is shown for a text.
fn write_text<W: fmt::Write>(f: &mut fmt::Formatter<W>, text: &str) -> fmt::Result
    ensures { WritesOnOk W.write_str_gives f.old result (escaped text.now) f.new }
{
    for character in text.chars() {
        write!(f, "{}", ForeignCharacter(character))?;
    }
    Ok(())
}

/// What is shown for a text from outside. A text of which each character is shown as it is stays so to the byte, and whatever the text
/// is, each character of what is shown is such.
pub fn escaped(alloc: Global, text: &str) -> Result<String, AllocError>
    ensures shown { IfOk result (λ shown. string_bytes shown ≡ escaped text.now) }
    ensures same { All (λ c. is_shown c ≡ true) (chars text.now) → IfOk result (λ shown. string_bytes shown ≡ text.now) }
    ensures harmless { IfOk result (λ shown. All (λ c. is_shown c ≡ true) (chars (string_bytes shown))) }
{
    format!(in alloc; "{}", ForeignText(text))
}
