// Faults of a manifest's form in a report: its version, types and ranges, and where `key_faults` finds what is told of a key. It relies on
// `keys` for what may stand where, on `values` for what is written as a value, and on `explain_layout` for places.

use crate::key_faults::print_key;
use crate::keys::{Key, Wants, find};
use crate::places::{end, table_of};
use crate::values::{elements_in, fault_in, is_of_form, is_single, number_in, written};
use cli_text_page::Page;
use explain_layout::excerpt::put_foreign;
use explain_layout::{Entry, Layout, excerpt};
use manifest::ManifestFault;
use std::alloc::{AllocError, Global};
use toml::Value;

/// What to do about a header in one pair of brackets.
const BRACKETS: &str = "write each header of these tables in two pairs of brackets";

/// Puts which key, which type or which number is wrong in a manifest that has such a fault, and answers how it is mended, if there is more
/// to say of that than the fault's code says.
pub fn print(
    alloc: Global,
    path: &str,
    text: &str,
    layout: &Layout,
    document: &Value,
    fault: &ManifestFault,
    page: &mut Page,
) -> Result<Option<&'static str>, AllocError> {
    let judged = judged_as(document);
    if let Some(version) = wrong_version(document, fault) {
        put_version(path, text, layout, version, fault, page);
        return Ok(find("", "version", judged).map(|key| key.advice));
    }
    let found = match fault {
        ManifestFault::Key => print_key(alloc, path, text, layout, judged, page)?,
        ManifestFault::Form => print_form(alloc, path, text, layout, judged, page)?,
        _ => print_range(alloc, path, text, layout, judged, page)?,
    };
    if found.is_none() {
        print_end(path, text, layout, page);
    }
    Ok(found)
}

// The version by whose rules a manifest is judged: 1 and 2 if it says so, and else 3.
fn judged_as(document: &Value) -> u8 {
    match document.get("version") {
        Some(Value::Integer(1)) => 1,
        Some(Value::Integer(2)) => 2,
        _ => 3,
    }
}

// A manifest's version that is none of 1, 2 and 3. If the fault is the type of a value, that value is told of.
fn wrong_version(document: &Value, fault: &ManifestFault) -> Option<i64> {
    if let ManifestFault::Form = fault {
        return None;
    }
    match document.get("version") {
        Some(Value::Integer(version)) if *version < 1 || 3 < *version => Some(*version),
        _ => None,
    }
}

// Puts that there is no such version.
fn put_version(
    path: &str,
    text: &str,
    layout: &Layout,
    version: i64,
    fault: &ManifestFault,
    page: &mut Page,
) {
    let place = match layout.entry(0, "version") {
        Some(entry) => entry.value,
        None => end(layout),
    };
    excerpt::print(page, path, text, place);
    page.text("  = here: `version` is 1, 2 or 3, and not ");
    page.signed(version);
    if let ManifestFault::Key = fault {
        page.text(", so the keys are judged as those of version 3");
        if layout.entry(0, "controllers").is_none() {
            page.text(", and `controllers` is missing");
        }
    }
    page.text("\n");
}

// Puts that the fault does not stand in what is kept of a text, if not all is.
fn print_end(path: &str, text: &str, layout: &Layout, page: &mut Page) {
    if layout.left_out.is_none() {
        return;
    }
    let count = layout.tables.len().saturating_add(layout.entries.len());
    excerpt::print(page, path, text, end(layout));
    page.fill(
        "  = here: none of the first {} tables and keys has this fault\n",
        &[count as u64],
    );
}

// Puts which value is of another type, and answers how that is mended, if one is.
fn print_form(
    alloc: Global,
    path: &str,
    text: &str,
    layout: &Layout,
    version: u8,
    page: &mut Page,
) -> Result<Option<&'static str>, AllocError> {
    for table in &layout.tables {
        let name = table.name.as_str();
        if !name.is_empty() && is_single(text, table.span) {
            excerpt::print(page, path, text, table.span);
            put_single(page, name);
            return Ok(Some(BRACKETS));
        }
    }
    for entry in &layout.entries {
        let Some(key) = find(table_of(layout, entry), entry.name.as_str(), version) else {
            continue;
        };
        let value = written(text, entry.value);
        if !is_of_form(alloc, key.wants, value)? {
            excerpt::print(page, path, text, fault_in(text, key.wants, entry.value));
            put_wants(page, key);
            return Ok(Some(key.advice));
        }
    }
    Ok(None)
}

// Puts that tables of that name want a header in two pairs of brackets.
fn put_single(page: &mut Page, name: &str) {
    page.text("  = here: this header has one pair of brackets, and has to have two: [[");
    put_foreign(page, name);
    page.text("]]\n");
}

// Puts of which type the value of a key is.
fn put_wants(page: &mut Page, key: &Key) {
    page.text("  = here: `");
    page.text(key.name);
    page.text("` is ");
    match key.wants {
        Wants::Number { least, most } => {
            page.text("a whole number, ");
            put_between(page, least, most);
        }
        Wants::Words => page.text("an array of whole numbers"),
        Wants::Text => page.text("a text in quotes"),
        Wants::Code => page.text(
            "a text of pairs of the digits 0 to 9 and a to f, with blanks and line feeds between them",
        ),
        Wants::Tables => page.text("an array of tables"),
    }
    page.text("\n");
}

fn put_between(page: &mut Page, least: i64, most: i64) {
    page.signed(least);
    page.text(" to ");
    page.signed(most);
}

// Puts which number is out of its range, and answers how that is mended, if one is.
fn print_range(
    alloc: Global,
    path: &str,
    text: &str,
    layout: &Layout,
    version: u8,
    page: &mut Page,
) -> Result<Option<&'static str>, AllocError> {
    let controllers = match layout.entry(0, "controllers") {
        Some(entry) => number_in(alloc, written(text, entry.value))?,
        None => None,
    };
    for entry in &layout.entries {
        let Some(key) = find(table_of(layout, entry), entry.name.as_str(), version) else {
            continue;
        };
        if key.wants == Wants::Words {
            if print_words(alloc, path, text, layout, entry, page)? {
                return Ok(Some(key.advice));
            }
            continue;
        }
        let Some((least, most)) = range_of(key, controllers) else {
            continue;
        };
        match number_in(alloc, written(text, entry.value))? {
            Some(number) if number < least || most < number => {
                excerpt::print(page, path, text, entry.value);
                page.text("  = here: `");
                page.text(key.name);
                page.text("` is ");
                put_between(page, least, most);
                page.text(", and not ");
                page.signed(number);
                page.text("\n");
                return Ok(Some(key.advice));
            }
            _ => {}
        }
    }
    Ok(None)
}

// Puts that a table begins with too many words, or with a negative one, and answers whether it does.
fn print_words(
    alloc: Global,
    path: &str,
    text: &str,
    layout: &Layout,
    entry: &Entry,
    page: &mut Page,
) -> Result<bool, AllocError> {
    let elements = elements_in(alloc, written(text, entry.value))?;
    if let Some(number) = elements.negative {
        excerpt::print(page, path, text, entry.value);
        page.text("  = here: a word is 0 or more, and not ");
        page.signed(number);
        page.text("\n");
        return Ok(true);
    }
    let length = match layout.entry(entry.table, "length") {
        Some(length) => number_in(alloc, written(text, length.value))?,
        None => None,
    };
    let length = u64::try_from(length.unwrap_or(i64::MAX)).unwrap_or(0);
    if elements.count <= length {
        return Ok(false);
    }
    excerpt::print(page, path, text, entry.value);
    page.fill(
        "  = here: there are {} first words, and `length` is {}\n",
        &[elements.count, length],
    );
    Ok(true)
}

// The numbers that a key may have, where there are so many controllers.
fn range_of(key: &Key, controllers: Option<i64>) -> Option<(i64, i64)> {
    let Wants::Number { least, most } = key.wants else {
        return None;
    };
    match controllers {
        Some(count) if key.name == "controller" => Some((least, most.min(count.saturating_sub(1)))),
        _ => Some((least, most)),
    }
}
