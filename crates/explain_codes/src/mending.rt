// What a fault's code means, and what to do about it, in the lines of a report. It relies on `explanation` for the table.

use crate::code::Code;
use cli_text_page::Page;

/// The code with which a fault's text begins.
pub fn code_in(text: &str) -> Option<Code> {
    Code::of(text.split(' ').next()?)
}

/// Puts its commonest cause, and how it is usually mended.
pub fn put_mending(page: &mut Page, code: Code) {
    let row = code.explanation();
    page.text("  = most often: ");
    page.text(row.cause);
    page.text("\n  = to mend it: ");
    page.text(row.advice.unwrap_or("see `camr explain` with the code"));
    page.text("\n");
}
