// Where what a manifest says stands in its text. It relies on `explain_layout`.

use explain_layout::{Entry, Layout, Span};
use manifest_form::Source;

/// The value of a key in the table of that name and number; the table itself if the key is not there, and if that is not there either
/// where the text is read no further.
pub fn value_span(layout: &Layout, name: &str, number: usize, key: &str) -> Span {
    let Some(table) = layout.table(name, number) else {
        return end(layout);
    };
    match layout.entry(table, key) {
        Some(entry) => entry.value,
        None => table_span(layout, table),
    }
}

/// Where a table begins.
pub fn table_span(layout: &Layout, table: usize) -> Span {
    match layout.tables.get(table) {
        Some(table) => table.span,
        None => Span { start: 0, end: 0 },
    }
}

/// Where the text of a program or its bytes stand.
pub fn source_span(layout: &Layout, number: usize, source: &Source<'_>) -> Span {
    let key = match source {
        Source::Asm(_) => "asm",
        Source::Code(_) => "code",
    };
    value_span(layout, "program", number, key)
}

/// The first table or key that is not kept; the text's beginning if all are.
pub fn end(layout: &Layout) -> Span {
    match layout.left_out {
        Some(span) => span,
        None => Span { start: 0, end: 0 },
    }
}

/// The name of the table that a key stands in.
pub fn table_of<'a>(layout: &'a Layout, entry: &Entry) -> &'a str {
    match layout.tables.get(entry.table) {
        Some(table) => table.name.as_str(),
        None => "",
    }
}
