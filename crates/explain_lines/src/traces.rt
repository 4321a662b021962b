// The report of a text that is no trace, since its first line is of no version, or another line is not of the form. It relies on `trace` for
// lines, on `firsts` for what is against one, and on `telling` for the report of it.

use crate::fields::fields_slip;
use crate::firsts::{Kept, line_slip};
use crate::lines::{Line, line_of, without_return};
use crate::slips::{Found, Slip};
use crate::stops::first_word;
use crate::telling::put as put_line_report;
use carried_lines::{Order, continued_header, read_carried};
use cli_text_page::Page;
use std::alloc::{AllocError, Global};
use trace::{TraceFault, header, read_record, read_totals};
use trace_lines::{Kind, Slots, has_classes};
use world_calls::Version;

/// The kinds of the sums in the last line.
const SUMS: Slots<Kind> = Slots {
    first: Some(Kind::LongNumber),
    second: Some(Kind::Number),
    third: Some(Kind::Number),
    fourth: Some(Kind::Number),
};

/// With what the first line of each version begins.
const FRONT: &str = "camr-trace ";

/// The forms of carried lines, and their order.
const CARRIED: &str = "\
  = note: what was carried over is told by these lines, in this order, those of a kind by rising number
          numbers CCB FREEZE RUN
          clock T
          openings Q N, for each queue from 0 on
          word K I W, for each word that is not 0
          ccb C Q PRIORITY RETRIES ATTEMPTS, and `waiting` or `active`
          freeze F, `queue Q` or `controller C`, and `timer T` or `guest G`
";

/// The same of version 3.
const CLASSED: &str = "\
  = note: what was carried over is told by these lines, in this order, those of a kind by rising number
          numbers CCB FREEZE RUN
          clock T
          openings Q N, for each queue from 0 on
          word K I W, for each word that is not 0
          ccb C Q PRIORITY RETRIES ATTEMPTS CLASS ADVICE, and `waiting` or `active`
          freeze F, `queue Q` or `controller C`, and `timer T` or `guest G`
";

/// Puts what there is to say of a text, its path and itself, that is no trace by that fault.
pub fn put(
    alloc: Global,
    path: &str,
    text: &str,
    fault: TraceFault,
    page: &mut Page,
) -> Result<(), AllocError> {
    match fault {
        TraceFault::Header => put_header(&line_of(path, text, 1), page),
        TraceFault::Line(number) => {
            let found = faulty_slip(alloc, text, number)?;
            let line = line_of(path, text, number);
            let version = version_of(text);
            put_line_report(page, &line, &found, Kept::Trace, version, "X2");
            if found.slip.is(Slip::Carried) {
                page.text(if has_classes(version) {
                    CLASSED
                } else {
                    CARRIED
                });
            }
        }
    }
    Ok(())
}

// Puts what is against the first line of a text.
fn put_header(line: &Line<'_>, page: &mut Page) {
    let found = header_slip(line.line);
    put_line_report(page, line, &found, Kept::Trace, Version::Two, "X1");
    page.text(
        "  = note: the first line is `camr-trace N`, where N is the version of the manifest: 1, 2 or 3\n",
    );
}

fn header_slip(line: &str) -> Found {
    let whole = without_return(line);
    let trimmed = whole.trim_start();
    if line.starts_with('\u{feff}') {
        return Found::of(Slip::Mark, 0, 3);
    }
    if is_header(whole) {
        return if whole.len() < line.len() {
            Found::of(Slip::Return, whole.len(), line.len())
        } else {
            Found::of(Slip::NoFeed, line.len(), line.len())
        };
    }
    if trimmed.len() < whole.len() {
        return Found::of(Slip::Indented, 0, whole.len().saturating_sub(trimmed.len()));
    }
    let end = whole.trim_end().len();
    if is_header(whole.trim_end()) {
        return Found::of(Slip::Trailing, end, whole.len());
    }
    match whole.strip_prefix(FRONT) {
        Some(version) if !version.is_empty() => {
            Found::of(Slip::NoVersion, FRONT.len(), whole.len())
        }
        _ => Found::of(Slip::NoHeader, 0, line.len()),
    }
}

// Whether a line is the first one of a version.
fn is_header(line: &str) -> bool {
    is_header_of(line, Version::One)
        || is_header_of(line, Version::Two)
        || is_header_of(line, Version::Three)
}

fn is_header_of(line: &str, version: Version) -> bool {
    header(version).trim_end() == line || continued_header(version).trim_end() == line
}

/// Whether a text has that fault since it ends before its last line, at the end of a line or within one.
pub fn is_unended(text: &str, fault: TraceFault) -> bool {
    match fault {
        TraceFault::Header => false,
        TraceFault::Line(number) => {
            let line = line_of("", text, number);
            line.start.saturating_add(line.line.len()) == text.len()
        }
    }
}

// What is against the line of that number, which is the first that is not of the form, or follows the last one.
fn faulty_slip(alloc: Global, text: &str, number: usize) -> Result<Found, AllocError> {
    let line = line_of("", text, number);
    let has_feed = line.start.saturating_add(line.line.len()) < text.len();
    let before = line_of("", text, number.saturating_sub(1)).line;
    if line.line.is_empty() && !has_feed {
        return Ok(Found::of(Slip::NoEnd, 0, 0));
    }
    if number > 2 && read_totals(before).is_some() {
        return Ok(Found::of(Slip::AfterEnd, 0, line.line.len()));
    }
    if !has_feed {
        let slip = if is_of_form(alloc, text, line.line)? {
            Slip::NoFeed
        } else {
            Slip::CutOff
        };
        return Ok(Found::of(slip, line.line.len(), line.line.len()));
    }
    let whole = without_return(line.line);
    if is_among_carried(text, number) {
        return Ok(Found::of(Slip::Carried, 0, line.line.len()));
    }
    if first_word(whole) == "end" {
        return Ok(last_slip(whole, line.line));
    }
    line_slip(alloc, line.line, Kept::Trace, version_of(text))
}

// Whether the line of that number, which is not of the form, stands where a carried line may stand: all before it are carried lines, and
// more have to follow, or it begins as one.
fn is_among_carried(text: &str, number: usize) -> bool {
    if !is_continued(text) {
        return false;
    }
    let version = version_of(text);
    let mut order = Order::new();
    for line in text.split('\n').skip(1).take(number.saturating_sub(2)) {
        match read_carried(version, line) {
            Some(line) => {
                order.take(&line);
            }
            None => return false,
        }
    }
    let line = line_of("", text, number).line;
    !order.is_complete() || is_begun_as_carried(line)
}

// Whether a line begins as a carried line, and is none of a record.
fn is_begun_as_carried(line: &str) -> bool {
    !line.contains(" = ")
        && matches!(
            first_word(line),
            "numbers" | "clock" | "openings" | "word" | "ccb" | "freeze"
        )
}

/// Whether a text begins as a continued trace.
pub fn is_continued(text: &str) -> bool {
    text.starts_with(continued_header(Version::One))
        || text.starts_with(continued_header(Version::Two))
        || text.starts_with(continued_header(Version::Three))
}

// What is against the last line, with and without a carriage return at its end.
fn last_slip(whole: &str, line: &str) -> Found {
    match fields_slip(&SUMS, whole, 3) {
        Some(found) => found,
        None if whole.len() < line.len() => Found::of(Slip::Return, whole.len(), line.len()),
        None => Found::of(Slip::Other, 0, line.len()),
    }
}

// Whether a line is that of a record which a text may have that begins so, or has sums.
fn is_of_form(alloc: Global, text: &str, line: &str) -> Result<bool, AllocError> {
    let version = version_of(text);
    if is_continued(text) && read_carried(version, line).is_some() {
        return Ok(true);
    }
    Ok(read_totals(line).is_some() || read_record(alloc, version, line)?.is_some())
}

/// The version that a text's first line says; the second if it says none.
pub fn version_of(text: &str) -> Version {
    if begins(text, Version::One) {
        Version::One
    } else if begins(text, Version::Three) {
        Version::Three
    } else {
        Version::Two
    }
}

// Whether a text begins as one of a version, or as a continued one.
fn begins(text: &str, version: Version) -> bool {
    text.starts_with(header(version)) || text.starts_with(continued_header(version))
}
