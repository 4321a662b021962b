// The lines of a file, and which kind of file it is. It relies on `explain_layout` for the byte order mark.

use explain_layout::without_mark;

/// A line of a file: the path and the text of the file, the line's number from 1, the byte at which it begins, and the line without its
/// line feed.
#[derive(Clone, Copy)]
pub struct Line<'a> {
    pub path: &'a str,
    pub text: &'a str,
    pub number: usize,
    pub start: usize,
    pub line: &'a str,
}

/// The line of that number, from 1; an empty one at the end if there is none.
pub fn line_of<'a>(path: &'a str, text: &'a str, number: usize) -> Line<'a> {
    let start = start_of(text, number);
    Line {
        path,
        text,
        number,
        start,
        line: first_line(text.get(start..).unwrap_or("")),
    }
}

/// The byte at which the line of that number begins.
pub fn start_of(text: &str, number: usize) -> usize {
    let mut start = 0usize;
    for line in text.split('\n').take(number.saturating_sub(1)) {
        start = start.saturating_add(line.len()).saturating_add(1);
    }
    start.min(text.len())
}

fn first_line(text: &str) -> &str {
    match text.split('\n').next() {
        Some(line) => line,
        None => "",
    }
}

/// A line without the carriage return at its end.
pub fn without_return(line: &str) -> &str {
    match line.strip_suffix('\r') {
        Some(rest) => rest,
        None => line,
    }
}

/// How many lines of a text end with a carriage return before their line feed.
pub fn count_returns(text: &str) -> usize {
    text.split('\n').filter(|line| line.ends_with('\r')).count()
}

/// Whether a file is read as a trace: its first line begins as that of a trace does; or its first line that says something has an
/// answer, or sums, as the lines of traces have, and the file does not look like one of devices. All other files are read as scenarios.
pub fn is_trace(bytes: &[u8]) -> bool {
    let Ok(text) = str::from_utf8(bytes) else {
        return false;
    };
    let text = without_mark(text);
    if begins_trace(text.trim_start()) {
        return true;
    }
    if is_devices(text) {
        return false;
    }
    let first = text
        .split('\n')
        .find(|line| !line.trim().is_empty() && !line.starts_with('#'));
    match first {
        Some(line) => line.contains(" = ") || line.starts_with("end "),
        None => false,
    }
}

// Whether a text begins as a trace does, also if its letters are of another case.
fn begins_trace(text: &str) -> bool {
    match text.as_bytes().get(..4) {
        Some(front) => front.eq_ignore_ascii_case(b"camr"),
        None => false,
    }
}

/// Whether a text looks like a file of devices: a line of it begins the table of a device or of its failure, or gives `requests` or
/// `seed` a value. No line of a scenario or of a trace does.
pub fn is_devices(text: &str) -> bool {
    text.split('\n')
        .any(|line| is_of_devices(without_mark(line).trim_start()))
}

// Whether a line, without blanks before it, is one of a file of devices.
fn is_of_devices(line: &str) -> bool {
    line.starts_with("[[device") || gives(line, "requests") || gives(line, "seed")
}

// Whether a line gives that key a value.
fn gives(line: &str, key: &str) -> bool {
    match line.strip_prefix(key) {
        Some(rest) => rest.trim_start().starts_with('='),
        None => false,
    }
}
