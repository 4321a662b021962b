// The lines of a text. It relies on nothing.

/// What some editors write before a text, to say how its characters are spelled.
const MARK: char = '\u{feff}';

/// A text without a byte order mark before it.
pub fn without_mark(text: &str) -> &str {
    match text.strip_prefix(MARK) {
        Some(rest) => rest,
        None => text,
    }
}

/// A line of a text, without its end. The byte order mark is no part of the first one.
#[derive(Clone, Copy, Debug)]
pub struct Line<'a> {
    /// From 1.
    pub number: usize,
    /// Which byte of the line was asked for, from 0.
    pub column: usize,
    pub text: &'a str,
}

/// The line in which a byte of the text stands; the last one if there is no such byte.
pub fn line_at(text: &str, place: usize) -> Line<'_> {
    let mark = text.len().saturating_sub(without_mark(text).len());
    let text = without_mark(text);
    let place = place.saturating_sub(mark);
    let before = text.as_bytes().iter().take(place);
    let feeds = before.filter(|byte| **byte == b'\n').count();
    Line {
        number: feeds.saturating_add(1),
        column: column_of(text.as_bytes(), place),
        text: nth_line(text, feeds),
    }
}

/// The line of that number, from 0; an empty one if there is none.
pub fn nth_line(text: &str, number: usize) -> &str {
    match text.split('\n').nth(number) {
        Some(line) => line,
        None => "",
    }
}

// How many bytes stand between the last line feed before a place and the place.
fn column_of(text: &[u8], place: usize) -> usize {
    let before = match text.get(..place) {
        Some(before) => before,
        None => text,
    };
    before
        .iter()
        .rev()
        .take_while(|byte| **byte != b'\n')
        .count()
}
