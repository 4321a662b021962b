// A comma that is missing between two operands of a line of a program's text. It relies on nothing.

use crate::asm_line::is_of_word;
use cli_text_page::Page;
use explain_layout::excerpt::put_foreign;

// Two words of a line between which a comma is missing: the bytes at which the first one ends and the second one begins.
#[derive(Clone, Copy)]
struct Gap {
    end: usize,
    start: usize,
}

/// Puts that a comma is missing in a line, and how the line is written with it, if it is the only one that is missing of the operands that
/// the mnemonic takes; and answers whether it is.
pub fn put_missing_comma(page: &mut Page, line: &str, operands: &str) -> bool {
    let code = line.trim();
    let Some(gap) = gap_in(code) else {
        return false;
    };
    if commas_in(code).saturating_add(1) != commas_in(operands)
        || code.contains('[') != operands.contains('[')
    {
        return false;
    }
    let before = code.get(..gap.end).unwrap_or("");
    let after = code.get(gap.start..).unwrap_or("");
    page.text("  = here: a comma is missing between ");
    put_foreign(page, last_piece(before));
    page.text(" and ");
    put_foreign(page, first_piece(after));
    page.text("\n  = to mend it: write `");
    put_foreign(page, before);
    page.text(", ");
    put_foreign(page, after);
    page.text("`\n");
    true
}

// The first place after the mnemonic at which nothing but blanks stands between two operands.
fn gap_in(code: &str) -> Option<Gap> {
    let mut end = code.find(is_blank)?;
    for _piece in 0..code.len() {
        let rest = code.get(end..)?;
        let start = end.saturating_add(rest.len().saturating_sub(rest.trim_start().len()));
        let piece = first_piece(code.get(start..)?);
        let stop = start.saturating_add(piece.len());
        let after = code.get(stop..)?.trim_start();
        if piece.ends_with(ends_operand) && after.starts_with(begins_operand) {
            let gap = code.len().saturating_sub(after.len());
            return Some(Gap {
                end: stop,
                start: gap,
            });
        }
        end = stop;
    }
    None
}

fn first_piece(text: &str) -> &str {
    text.split(is_blank).next().unwrap_or("")
}

fn last_piece(text: &str) -> &str {
    let mut last = "";
    for piece in text.split(is_blank) {
        last = piece;
    }
    last
}

/// How many commas a text has.
pub fn commas_in(text: &str) -> usize {
    text.bytes().filter(|byte| *byte == b',').count()
}

fn is_blank(letter: char) -> bool {
    matches!(letter, ' ' | '\t')
}

fn ends_operand(letter: char) -> bool {
    is_of_word(letter) || letter == ']'
}

fn begins_operand(letter: char) -> bool {
    is_of_word(letter) || letter == '['
}
