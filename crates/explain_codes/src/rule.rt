// The rule that a code stands for, as a line of a report. It relies on `explanation` for the table.

use crate::code::Code;
use cli_text_page::Page;

/// Puts the rule that a code stands for.
pub fn put_rule(page: &mut Page, code: Code) {
    page.text("  = rule ");
    page.shown(&code);
    page.text(": ");
    page.text(code.explanation().meaning);
    page.text("\n");
}
