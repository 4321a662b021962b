// A line of a text with a mark under the part that is meant. It relies on `lines`, and on `cli_text_page` for
// the page.

use crate::lines::{Line, line_at, nth_line, without_mark};
use crate::places::Span;
use cli_text_page::{Page, is_shown};

/// How many characters of a line, or of another text from outside, are shown at most.
const MOST: usize = 200;

/// How far in a longer line a part may begin that is shown with all before it, and how many characters are shown before a later one.
const EARLY: usize = 160;

const BEFORE: usize = 100;

/// Puts where a part of a text stands, its line, and a mark under what of the part stands in that line. Columns count
/// characters of the text, from 1; marks stand under what is shown for them. Of a line of more than 200 characters so many are shown,
/// the part's beginning among them.
pub fn print(page: &mut Page, path: &str, text: &str, part: Span) {
    let line = line_of(text, part);
    let before = line.column.min(line.text.len());
    let column = characters(line.text.as_bytes(), before).saturating_add(1);
    let number = line.number as u64;
    page.text("  --> ");
    page.foreign(path);
    page.fill(":{}:{}\n      |\n", &[number, column as u64]);
    page.aligned(number, 5);
    page.text(" | ");
    let marked = part.end.saturating_sub(part.start);
    let left = line.text.trim_end().len().saturating_sub(before);
    let wide = put_line(page, line.text, before, marked.min(left));
    page.text("\n      | ");
    page.blanks(wide.before);
    put_marks(page, wide.part.max(1));
}

// The line of a part; if the part is the byte order mark before the text, the first line with it.
fn line_of(text: &str, part: Span) -> Line<'_> {
    let mark = text.len().saturating_sub(without_mark(text).len());
    if mark > 0 && part.start == 0 && part.end == mark {
        Line {
            number: 1,
            column: 0,
            text: nth_line(text, 0),
        }
    } else {
        line_at(text, part.start)
    }
}

// How many characters the first bytes of a text are: those that continue one are not counted.
fn characters(text: &[u8], count: usize) -> usize {
    text.iter()
        .take(count)
        .filter(|byte| **byte & 0xc0 != 0x80)
        .count()
}

/// Puts a text from outside: of one that has more than 200 characters these alone, and a mark for the rest.
pub fn put_foreign(page: &mut Page, text: &str) {
    match text.char_indices().nth(MOST) {
        Some((end, _)) => {
            page.foreign(text.get(..end).unwrap_or(""));
            page.text(" ..");
        }
        None => page.foreign(text),
    }
}

// How wide a line is shown: what stands before a part of it, and the part.
#[derive(Clone, Copy)]
struct Wide {
    before: usize,
    part: usize,
}

// Puts a line of which a part begins at that byte and has so many, and answers how wide it is shown.
fn put_line(page: &mut Page, line: &str, start: usize, count: usize) -> Wide {
    let first = first_shown(line, start);
    let end = start.saturating_add(count);
    let mut wide = Wide { before: 0, part: 0 };
    if first > 0 {
        page.text(".. ");
        wide.before = 3;
    }
    for (place, letter) in line.char_indices().skip(first).take(MOST) {
        let width = put_letter(page, letter);
        if place < start {
            wide.before = wide.before.saturating_add(width);
        } else if place < end {
            wide.part = wide.part.saturating_add(width);
        }
    }
    if line
        .char_indices()
        .nth(first.saturating_add(MOST))
        .is_some()
    {
        page.text(" ..");
    }
    wide
}

// How many characters of a line are left out before a part that begins at that byte.
fn first_shown(line: &str, start: usize) -> usize {
    let column = characters(line.as_bytes(), start);
    if column <= EARLY || line.char_indices().nth(MOST).is_none() {
        0
    } else {
        column.saturating_sub(BEFORE)
    }
}

// Puts a character, and answers how wide it is shown.
fn put_letter(page: &mut Page, letter: char) -> usize {
    let before = page.len();
    page.foreign_character(letter);
    if is_shown(letter) {
        1
    } else {
        page.len().saturating_sub(before)
    }
}

fn put_marks(page: &mut Page, count: usize) {
    for _mark in 0..count {
        page.text("^");
    }
    page.text("\n");
}
