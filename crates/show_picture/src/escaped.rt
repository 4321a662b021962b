// Text in a picture, in which the characters are escaped that mean something there. It relies on `cli_text_page`.

use cli_text_page::Page;

/// Puts a text that came from outside, escaped.
pub(crate) fn put_escaped(text: &str, page: &mut Page) {
    for character in text.chars() {
        match character {
            '&' => page.text("&amp;"),
            '<' => page.text("&lt;"),
            '>' => page.text("&gt;"),
            '"' => page.text("&quot;"),
            '\'' => page.text("&#39;"),
            other => page.foreign_character(other),
        }
    }
}
