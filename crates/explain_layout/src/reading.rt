// A text read for its layout: tables by their headers or in braces, and the keys in them. A text that is no TOML is read up to where it
// is none. It relies on `toml_parser`.

use crate::lines::without_mark;
use crate::places::{Entry, Layout, Span, TableAt, kept_name};
use std::alloc::{AllocError, Global};
use toml_parser::text::{first, skip_blank, skip_ws};
use toml_parser::{ErrorKind, ParseError, dotted_key, quoted, starts_string};

/// Where the tables, keys and values of a text stand, up to its end, to where it is no TOML, or to the first one that is not kept. A
/// byte order mark before the text is passed over, as by `toml`. The time grows with the text, and the memory is bounded but for that
/// of the longest key or string, which is given back.
pub fn layout(alloc: Global, text: &str) -> Result<Layout, AllocError> {
    let mut layout = Layout::empty(alloc);
    match read(alloc, text, &mut layout) {
        Err(ParseError::At(ErrorKind::String, left, _)) => {
            layout.unread_string = Some(text.len().saturating_sub(left));
            Ok(layout)
        }
        Ok(()) | Err(ParseError::At(..)) => Ok(layout),
        Err(ParseError::OutOfMemory) => Err(AllocError),
    }
}

// Reads the text into the layout.
fn read(alloc: Global, text: &str, layout: &mut Layout) -> Result<(), ParseError> {
    begin(alloc, layout, String::new(alloc), Span { start: 0, end: 0 })?;
    let mut table = 0;
    let mut rest = without_mark(text);
    for _turn in 0..text.len() {
        rest = skip_blank(rest, true);
        if rest.is_empty() {
            return Ok(());
        }
        if rest.starts_with('[') {
            table = layout.tables.len();
            rest = header(alloc, text, rest, layout)?;
        } else {
            rest = entry(alloc, text, rest, table, layout)?;
        }
    }
    Ok(())
}

// Where what is left of a text begins.
fn place(text: &str, rest: &str) -> usize {
    text.len().saturating_sub(rest.len())
}

// One more table, if there is room for it.
fn begin(alloc: Global, layout: &mut Layout, name: String, span: Span) -> Result<(), ParseError> {
    if layout.is_full() {
        return Err(left_out(layout, span));
    }
    let name = kept_name(alloc, name)?;
    layout.tables.push(TableAt { name, span })?;
    Ok(())
}

// What stands there is not kept, and the text is read no further.
fn left_out(layout: &mut Layout, span: Span) -> ParseError {
    layout.left_out = Some(span);
    ParseError::at(ErrorKind::Content, "")
}

// A header, in one pair of brackets or in two.
fn header<'a>(
    alloc: Global,
    text: &str,
    from: &'a str,
    layout: &mut Layout,
) -> Result<&'a str, ParseError> {
    let inside = after_mark(after_mark(from, '['), '[');
    let (key, rest) = dotted_key(alloc, skip_ws(inside))?;
    let rest = after_mark(after_mark(rest, ']'), ']');
    let span = Span {
        start: place(text, from),
        end: place(text, rest),
    };
    begin(alloc, layout, key.last, span)?;
    Ok(rest)
}

// What stands after a mark, if that comes next.
fn after_mark(text: &str, mark: char) -> &str {
    match text.strip_prefix(mark) {
        Some(rest) => rest,
        None => text,
    }
}

// A key with its value, which may be an array of tables.
fn entry<'a>(
    alloc: Global,
    text: &str,
    from: &'a str,
    table: usize,
    layout: &mut Layout,
) -> Result<&'a str, ParseError> {
    let (name, key, value) = key_at(alloc, text, from)?;
    let rest = match value.strip_prefix('[') {
        Some(inside) => elements(alloc, text, inside, name.as_str(), layout)?,
        None => element(alloc, text, value, name.as_str(), layout)?,
    };
    keep(alloc, text, layout, table, name, key, value, rest)?;
    Ok(rest)
}

// A key, with what stands after its `=`.
fn key_at<'a>(
    alloc: Global,
    text: &str,
    from: &'a str,
) -> Result<(String, Span, &'a str), ParseError> {
    let (key, rest) = dotted_key(alloc, from)?;
    let written = from.len().saturating_sub(rest.len());
    let blank = trailing_blanks(from, written);
    let span = Span {
        start: place(text, from),
        end: place(text, rest).saturating_sub(blank),
    };
    match rest.strip_prefix('=') {
        Some(value) => Ok((key.last, span, skip_ws(value))),
        None => Err(ParseError::at(ErrorKind::MissingEquals, rest)),
    }
}

// How many of so many first bytes are blanks at their end.
fn trailing_blanks(text: &str, count: usize) -> usize {
    first_bytes(text, count)
        .iter()
        .rev()
        .take_while(|byte| matches!(**byte, b' ' | b'\t'))
        .count()
}

// The first bytes of a text. What comes after them is not walked through.
fn first_bytes(text: &str, count: usize) -> &[u8] {
    match text.as_bytes().get(..count) {
        Some(bytes) => bytes,
        None => &[],
    }
}

// The key is kept if there is room for it, with its value, which is what stands from there up to the rest.
fn keep(
    alloc: Global,
    text: &str,
    layout: &mut Layout,
    table: usize,
    name: String,
    key: Span,
    value: &str,
    rest: &str,
) -> Result<(), ParseError> {
    if layout.is_full() {
        return Err(left_out(layout, key));
    }
    let value = Span {
        start: place(text, value),
        end: place(text, rest),
    };
    let name = kept_name(alloc, name)?;
    layout.entries.push(Entry {
        table,
        name,
        key,
        value,
    })?;
    Ok(())
}

// The elements of an array, after its bracket: those in braces are tables of that name.
fn elements<'a>(
    alloc: Global,
    text: &str,
    from: &'a str,
    name: &str,
    layout: &mut Layout,
) -> Result<&'a str, ParseError> {
    let mut rest = from;
    for _turn in 0..from.len() {
        rest = skip_blank(rest, true);
        if let Some(after) = rest.strip_prefix(']') {
            return Ok(after);
        }
        rest = match rest.strip_prefix(',') {
            Some(after) => after,
            None => element(alloc, text, rest, name, layout)?,
        };
    }
    Err(ParseError::at(ErrorKind::Array, rest))
}

// A value that is no array: one in braces is a table of that name.
fn element<'a>(
    alloc: Global,
    text: &str,
    from: &'a str,
    name: &str,
    layout: &mut Layout,
) -> Result<&'a str, ParseError> {
    let Some(inside) = from.strip_prefix('{') else {
        return after_value(alloc, from);
    };
    let table = layout.tables.len();
    let start = place(text, from);
    let span = Span {
        start,
        end: start.saturating_add(1),
    };
    begin(alloc, layout, String::from_str(alloc, name)?, span)?;
    members(alloc, text, inside, table, layout)
}

// The keys of a table in braces, after its brace.
fn members<'a>(
    alloc: Global,
    text: &str,
    from: &'a str,
    table: usize,
    layout: &mut Layout,
) -> Result<&'a str, ParseError> {
    let mut rest = from;
    for _turn in 0..from.len() {
        rest = skip_blank(rest, true);
        if let Some(after) = rest.strip_prefix('}') {
            return Ok(after);
        }
        rest = match rest.strip_prefix(',') {
            Some(after) => after,
            None => member(alloc, text, rest, table, layout)?,
        };
    }
    Err(ParseError::at(ErrorKind::InlineTable, rest))
}

// A key of a table in braces, with its value.
fn member<'a>(
    alloc: Global,
    text: &str,
    from: &'a str,
    table: usize,
    layout: &mut Layout,
) -> Result<&'a str, ParseError> {
    let (name, key, value) = key_at(alloc, text, from)?;
    let rest = after_value(alloc, value)?;
    keep(alloc, text, layout, table, name, key, value, rest)?;
    Ok(rest)
}

// What stands after any value.
fn after_value(alloc: Global, from: &str) -> Result<&str, ParseError> {
    let mut rest = from;
    let mut depth = 0usize;
    for _turn in 0..from.len() {
        let mark = first(rest);
        if starts_string(rest) {
            // A fault of the text in quotes is one of its beginning.
            rest = match quoted(alloc, rest) {
                Ok((_, after)) => after,
                Err(ParseError::OutOfMemory) => return Err(ParseError::OutOfMemory),
                Err(ParseError::At(..)) => return Err(ParseError::at(ErrorKind::String, rest)),
            };
        } else {
            depth = deeper(depth, mark);
            rest = after_part(rest);
        }
        if depth == 0 {
            return Ok(rest);
        }
        rest = skip_blank(rest, true);
    }
    Ok(rest)
}

// In how many brackets one stands after a byte.
fn deeper(depth: usize, mark: u8) -> usize {
    match mark {
        b'[' | b'{' => depth.saturating_add(1),
        b']' | b'}' => depth.saturating_sub(1),
        _ => depth,
    }
}

// What stands after a mark, or after a word. Only the part that is passed over is looked at.
fn after_part(text: &str) -> &str {
    let bytes = text.as_bytes();
    let count = match bytes.first() {
        Some(byte) if is_mark(*byte) => 1,
        _ => bytes.iter().take_while(|byte| is_of_word(**byte)).count(),
    };
    text.get(count..).unwrap_or("")
}

fn is_mark(byte: u8) -> bool {
    matches!(byte, b'[' | b']' | b'{' | b'}' | b',' | b'=')
}

fn is_of_word(byte: u8) -> bool {
    !is_mark(byte) && !matches!(byte, b' ' | b'\t' | b'\r' | b'\n' | b'#' | b'"' | b'\'')
}
