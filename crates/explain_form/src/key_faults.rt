// Keys that are unknown or missing, in a report. It relies on `keys` for what may stand where, on `near` for names that are near, and on
// `explain_layout` for places.

use crate::keys::{KEYS, Key, LATEST, Presence, Wants, called, find, is_table};
use crate::near::{nearest_key, put_near};
use crate::places::table_of;
use cli_text_page::Page;
use explain_layout::excerpt::put_foreign;
use explain_layout::{Layout, excerpt};
use std::alloc::{AllocError, Global};

/// What to do about a key that no version below 2 has.
const SECOND: &str =
    "write `version = 2`, with `controllers` and each queue's `controller`, or leave this key out";

/// What to do about a key of version 3 alone.
const THIRD: &str =
    "write `version = 3`, with `controllers` and each queue's `controller`, or leave this key out";

/// What to do about a key that is near none.
const UNKNOWN: &str = "leave it out, or write one of the keys that are named above in its place";

/// What to do about a program that has both of two keys, or none of them.
const EITHER: &str = "write the program's text as `asm`, or its bytes as `code`, and not both";

/// Puts which key is not known, or is missing, and answers how that is mended, if there is such a key.
pub fn print_key(
    alloc: Global,
    path: &str,
    text: &str,
    layout: &Layout,
    version: u8,
    page: &mut Page,
) -> Result<Option<&'static str>, AllocError> {
    for entry in &layout.entries {
        let table = table_of(layout, entry);
        let name = entry.name.as_str();
        if is_table(table) && find(table, name, version).is_none() {
            excerpt::print(page, path, text, entry.key);
            return put_unknown(alloc, page, table, name, version);
        }
    }
    for table in &layout.tables {
        if !is_table(table.name.as_str()) {
            excerpt::print(page, path, text, table.span);
            return put_unknown(alloc, page, "", table.name.as_str(), version);
        }
    }
    print_missing(alloc, path, text, layout, version, page)
}

// Puts that a table has no key of that name, and which is near or which there are, and answers how that is mended.
fn put_unknown(
    alloc: Global,
    page: &mut Page,
    table: &str,
    name: &str,
    version: u8,
) -> Result<Option<&'static str>, AllocError> {
    page.text("  = here: ");
    page.text(called(table));
    page.text(" has no key `");
    put_foreign(page, name);
    page.text("`");
    if let Some(key) = find(table, name, LATEST) {
        page.fill(" in version {}\n", &[u64::from(version)]);
        return Ok(Some(if key.since() > 2 { THIRD } else { SECOND }));
    }
    match nearest_key(alloc, table, name, version)? {
        Some(key) => {
            put_near(page, key.name);
            Ok(Some(key.advice))
        }
        None => {
            put_keys(page, table, version);
            Ok(Some(UNKNOWN))
        }
    }
}

// Puts which keys a table may have, and ends the line.
fn put_keys(page: &mut Page, table: &str, version: u8) {
    let mut has_any = false;
    for key in KEYS.iter() {
        if key.table == table && key.may_stand(version) {
            page.text(if has_any { ", `" } else { "; its keys are `" });
            page.text(key.name);
            page.text("`");
            has_any = true;
        }
    }
    page.text("\n");
}

// Puts which key is missing, and answers how that is mended, if one is.
fn print_missing(
    alloc: Global,
    path: &str,
    text: &str,
    layout: &Layout,
    version: u8,
    page: &mut Page,
) -> Result<Option<&'static str>, AllocError> {
    let present = present_keys(alloc, layout)?;
    for (table, keys) in layout.tables.iter().zip(present.iter()) {
        let name = table.name.as_str();
        if let Some(key) = missing_key(name, *keys, version) {
            excerpt::print(page, path, text, table.span);
            put_missing(page, key);
            return Ok(Some(key.advice));
        }
        if name == "program" && count_either(*keys) != 1 {
            excerpt::print(page, path, text, table.span);
            page.text("  = here: a program has `asm` or `code`, just one of the two\n");
            return Ok(Some(EITHER));
        }
    }
    Ok(None)
}

// Puts that a key, or that tables are missing.
fn put_missing(page: &mut Page, key: &Key) {
    if key.wants == Wants::Tables {
        page.text("  = here: there is no [[");
        page.text(key.name);
        page.text("]] table\n");
        return;
    }
    page.text("  = here: ");
    page.text(called(key.table));
    page.text(" needs the key `");
    page.text(key.name);
    page.text("`, which is missing\n");
}

// By tables, a bit for each key that stands there, by its place in `KEYS`. Tables with headers stand in the manifest.
fn present_keys(alloc: Global, layout: &Layout) -> Result<Vec<u16>, AllocError> {
    let mut present = Vec::with_capacity(alloc, layout.tables.len())?;
    let mut headers = 0u16;
    for table in &layout.tables {
        headers |= bit_of("", table.name.as_str());
        present.push(0u16)?;
    }
    if let Some(first) = present.first_mut() {
        *first = headers;
    }
    for entry in &layout.entries {
        let bit = bit_of(table_of(layout, entry), entry.name.as_str());
        if let Some(keys) = present.get_mut(entry.table) {
            *keys |= bit;
        }
    }
    Ok(present)
}

// The bit of a key; none if a table has no such key.
fn bit_of(table: &str, name: &str) -> u16 {
    match KEYS
        .iter()
        .position(|key| key.table == table && key.name == name)
    {
        Some(place) => bit_at(place),
        None => 0,
    }
}

fn bit_at(place: usize) -> u16 {
    match u32::try_from(place) {
        Ok(place) => 1u16.wrapping_shl(place),
        Err(_) => 0,
    }
}

// The first key that has to stand in a table of that name, and is none of these.
fn missing_key(name: &str, keys: u16, version: u8) -> Option<&'static Key> {
    for (place, key) in KEYS.iter().enumerate() {
        if key.table == name && key.must_stand(version) && keys & bit_at(place) == 0 {
            return Some(key);
        }
    }
    None
}

// How many of these are keys of which just one stands in a table.
fn count_either(keys: u16) -> u32 {
    let mut count = 0u32;
    for (place, key) in KEYS.iter().enumerate() {
        if key.presence == Presence::Either && keys & bit_at(place) != 0 {
            count = count.saturating_add(1);
        }
    }
    count
}
