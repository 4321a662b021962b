// Why a text is no TOML, in a report. It relies on `toml` for the fault, and on `explain_layout` for where keys and texts stand.

use crate::values::is_single;
use cli_text_page::Page;
use explain_codes::{Code, put_mending, put_rule};
use explain_layout::{Layout, Span, excerpt, line_at};
use std::alloc::AllocError;
use toml::de::Error;

/// Puts where a text is no TOML, and why. An error for want of memory is answered as one.
pub fn print(
    path: &str,
    text: &str,
    layout: &Layout,
    error: &Error,
    page: &mut Page,
) -> Result<(), AllocError> {
    let Some(span) = error.span() else {
        return Err(AllocError);
    };
    let part = Span {
        start: span.start,
        end: span.end,
    };
    let message = error.message();
    let advice = match message {
        "duplicate key" => Some(print_twice(path, text, layout, part, page)),
        "invalid string" => print_open(path, text, layout, part, page),
        _ => None,
    };
    if advice.is_none() {
        excerpt::print(page, path, text, part);
        page.text("  = here: ");
        excerpt::put_foreign(page, message);
        page.text("\n");
    }
    put_rule_of_text(page, advice);
    Ok(())
}

// Puts what is required of every manifest's text, and how it is mended; or what most often is against it.
fn put_rule_of_text(page: &mut Page, advice: Option<&str>) {
    let Some(code) = Code::of("M1") else {
        return;
    };
    put_rule(page, code);
    match advice {
        Some(advice) => {
            page.text("  = to mend it: ");
            page.text(advice);
            page.text("\n");
        }
        None => put_mending(page, code),
    }
}

// Puts that a key or a table stands twice, if the first of them is found, and answers how that is mended.
fn print_twice(
    path: &str,
    text: &str,
    layout: &Layout,
    part: Span,
    page: &mut Page,
) -> &'static str {
    excerpt::print(page, path, text, part);
    match earlier(layout, part.start) {
        Some(earlier) => page.fill(
            "  = here: duplicate key: it stands in line {} already\n",
            &[line_at(text, earlier).number as u64],
        ),
        None => page.text("  = here: duplicate key: a key or a table before it has this name\n"),
    }
    if is_single(text, part) {
        "leave out one of the two, or write each header in two pairs of brackets, as [[queue]]"
    } else {
        "leave out one of the two"
    }
}

// Where the first key or table stands that bears the name of the one that stands there.
fn earlier(layout: &Layout, start: usize) -> Option<usize> {
    for entry in &layout.entries {
        if entry.key.start == start {
            let first = layout.entry(entry.table, entry.name.as_str())?;
            return before(first.key, start);
        }
    }
    for table in &layout.tables {
        if table.span.start == start && !table.name.is_empty() {
            let name = table.name.as_str();
            let first = layout.table(name, 0)?;
            let of_key = before_key(layout, name, start);
            return of_key.or(before(layout.tables.get(first)?.span, start));
        }
    }
    None
}

// Where the manifest's own key of that name stands, if that is before a place.
fn before_key(layout: &Layout, name: &str, place: usize) -> Option<usize> {
    before(layout.entry(0, name)?.key, place)
}

// Where a part begins, if that is before a place.
fn before(part: Span, place: usize) -> Option<usize> {
    if part.start < place {
        Some(part.start)
    } else {
        None
    }
}

// Puts where a text of several lines was opened that nothing closes, and answers how that is mended.
fn print_open(
    path: &str,
    text: &str,
    layout: &Layout,
    part: Span,
    page: &mut Page,
) -> Option<&'static str> {
    let start = layout.unread_string?;
    let rest = text.get(start..)?;
    let (here, advice) = if is_open(rest, "\"\"\"") {
        (
            "  = here: nothing closes the text that is opened by \"\"\"\n",
            "write \"\"\" after its last line",
        )
    } else if is_open(rest, "'''") {
        (
            "  = here: nothing closes the text that is opened by '''\n",
            "write ''' after its last line",
        )
    } else {
        return print_open_line(path, text, start, part, page);
    };
    let opening = Span {
        start,
        end: start.saturating_add(3),
    };
    excerpt::print(page, path, text, opening);
    page.text(here);
    Some(advice)
}

// The same of a text of one line, which begins at that byte and is found to be none in that part.
fn print_open_line(
    path: &str,
    text: &str,
    start: usize,
    part: Span,
    page: &mut Page,
) -> Option<&'static str> {
    let line = line_at(text, start);
    let rest = line.text.get(line.column..)?;
    let (quote, advice) = if is_open(rest, "\"") {
        ("\"", "write \" after it")
    } else if is_open(rest, "'") {
        ("'", "write ' after it")
    } else {
        return None;
    };
    let before = line.text.get(..line.column)?.chars().count();
    excerpt::print(page, path, text, part);
    page.text("  = here: nothing closes the text that is opened by ");
    page.text(quote);
    page.fill(" at column {}\n", &[before.saturating_add(1) as u64]);
    Some(advice)
}

// Whether a text begins with quotes that do not come again.
fn is_open(text: &str, quotes: &str) -> bool {
    match text.strip_prefix(quotes) {
        Some(rest) => !rest.contains(quotes),
        None => false,
    }
}
