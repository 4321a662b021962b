// The report of a trace whose lines are of the form, of which one does not follow: the line that would have followed. It relies on
// `engine_core`, `engine_succession` and `replay` for the engine after the lines before it, and on `trace` and `carried_lines` for the texts
// of lines.

use crate::lines::{Line, line_of};
use crate::telling::{put_cause, put_code, put_line};
use crate::traces::{is_continued, version_of};
use carried_lines::{continued_header, read_carried};
use cli_text_page::Page;
use engine_core::{Config, NumberedEngine};
use engine_succession::{BeginFault, begin_numbered};
use replay::{ReplayFault, follows};
use std::alloc::{AllocError, Global};
use trace::{header, print_entry, print_totals, read_record};
use trace_lines::Text;
use world_calls::{Call, CarriedLine, Record, Totals, Version};

/// Puts what there is to say of a trace, its path and text, of which a line does not follow over a configuration. The memory that it takes
/// does not grow with the trace.
pub fn put(
    alloc: Global,
    path: &str,
    text: &str,
    config: &Config,
    fault: ReplayFault,
    page: &mut Page,
) -> Result<(), AllocError> {
    match fault {
        ReplayFault::Header => {
            put_version(&line_of(path, text, 1), version_of(text), config, page);
            put_code(page, "X3");
            page.text("  = to mend it: give the manifest over which the trace was written\n");
        }
        ReplayFault::Carried(count) => {
            let line = line_of(path, text, count.saturating_add(2));
            put_line(page, &line, 0, line.line.len());
            page.text(
                "  = here: no engine of the manifest begins with this line after those before it\n",
            );
            put_code(page, "X4");
            put_cause(page, "X4");
        }
        ReplayFault::Behind { carried, records } => {
            let count = carried.saturating_add(records);
            let line = line_of(path, text, count.saturating_add(2));
            put_line(page, &line, 0, line.line.len());
            put_next(alloc, text, config, records, line.line, page)?;
            put_code(page, "X3");
            put_cause(page, "X3");
        }
    }
    Ok(())
}

/// Puts, of a trace without its last line, which of its lines is the first that does not follow, as `put` does; or that all follow, as in a
/// journal's segment that is still written.
pub fn put_unended(
    alloc: Global,
    path: &str,
    text: &str,
    config: &Config,
    page: &mut Page,
) -> Result<(), AllocError> {
    match first_unfollowed(alloc, text, config)? {
        Some(fault) => {
            page.text("\nrefused too: ");
            page.shown(&fault);
            page.text("\n");
            put(alloc, path, text, config, fault, page)
        }
        None => {
            page.text(
                "  = note: all lines before it follow, as in a journal's segment that an engine still writes\n",
            );
            Ok(())
        }
    }
}

// Which whole line of a text is the first that does not follow.
fn first_unfollowed(
    alloc: Global,
    text: &str,
    config: &Config,
) -> Result<Option<ReplayFault>, AllocError> {
    let version = Version::of(config.helpers());
    if !text.starts_with(header(version)) && !text.starts_with(continued_header(version)) {
        return Ok(Some(ReplayFault::Header));
    }
    let end = text.rfind('\n').unwrap_or(0);
    let whole = text.get(..end).unwrap_or("");
    let carried = carried_of(alloc, whole)?;
    match begun(alloc, text, config, &carried) {
        Ok(mut engine) => first_after(alloc, &mut engine, version, whole, carried.len()),
        Err(BeginFault::DoesNotFit(place)) => Ok(Some(ReplayFault::Carried(place))),
        Err(BeginFault::OutOfMemory) => Err(AllocError),
    }
}

// The carried lines with which a text begins.
fn carried_of(alloc: Global, text: &str) -> Result<Vec<CarriedLine>, AllocError> {
    let version = version_of(text);
    let mut carried = Vec::new(alloc);
    if is_continued(text) {
        for line in text.split('\n').skip(1) {
            match read_carried(version, line) {
                Some(line) => carried.push(line)?,
                None => break,
            }
        }
    }
    Ok(carried)
}

// The engine before the first record of a text, which has these carried lines.
fn begun<'a>(
    alloc: Global,
    text: &str,
    config: &'a Config,
    carried: &[CarriedLine],
) -> Result<NumberedEngine<'a>, BeginFault> {
    if is_continued(text) {
        return begin_numbered(alloc, config, carried);
    }
    match NumberedEngine::open(alloc, config) {
        Ok(engine) => Ok(engine),
        Err(AllocError) => Err(BeginFault::OutOfMemory),
    }
}

// Which record's line is the first that does not follow, by an engine after which no line was followed yet. So many carried lines stand
// before the records.
fn first_after(
    alloc: Global,
    engine: &mut NumberedEngine<'_>,
    version: Version,
    text: &str,
    carried: usize,
) -> Result<Option<ReplayFault>, AllocError> {
    let mut records = 0usize;
    for line in text.split('\n').skip(carried.saturating_add(1)) {
        if !is_followed(alloc, engine, version, line)? {
            return Ok(Some(ReplayFault::Behind { carried, records }));
        }
        records = records.saturating_add(1);
    }
    Ok(None)
}

// Whether a line follows, if it is that of a record; then it is one of those that the engine followed.
fn is_followed(
    alloc: Global,
    engine: &mut NumberedEngine<'_>,
    version: Version,
    line: &str,
) -> Result<bool, AllocError> {
    match read_record(alloc, version, line)? {
        Some(record) => follows(engine, &record),
        None => Ok(true),
    }
}

// Puts that a trace is of another version than a manifest.
fn put_version(line: &Line<'_>, trace: Version, config: &Config, page: &mut Page) {
    put_line(page, line, 0, line.line.len());
    let version = Version::of(config.helpers());
    page.fill(
        "  = here: the trace is of version {}, and the manifest of version {}\n",
        &[number_of(trace), number_of(version)],
    );
    page.text("  = would have been the first line: ");
    page.text(header(version).trim_end());
    page.text("\n");
}

fn number_of(version: Version) -> u64 {
    match version {
        Version::One => 1,
        Version::Two => 2,
        Version::Three => 3,
    }
}

// Puts the line that would have followed so many records, if the same was asked as in a line.
fn put_next(
    alloc: Global,
    text: &str,
    config: &Config,
    count: usize,
    line: &str,
    page: &mut Page,
) -> Result<(), AllocError> {
    let version = Version::of(config.helpers());
    let carried = carried_of(alloc, text)?;
    match begun(alloc, text, config, &carried) {
        Ok(mut engine) => {
            let before = carried.len().saturating_add(1);
            follow_first(alloc, &mut engine, version, text, before, count)?;
            put_after(alloc, &mut engine, version, count, line, page)
        }
        // The fault is then that of a carried line, and no record is asked for.
        Err(BeginFault::DoesNotFit(_)) => Ok(()),
        Err(BeginFault::OutOfMemory) => Err(AllocError),
    }
}

// Lets an engine follow the lines of so many records, before which so many lines stand.
fn follow_first(
    alloc: Global,
    engine: &mut NumberedEngine<'_>,
    version: Version,
    text: &str,
    before: usize,
    count: usize,
) -> Result<(), AllocError> {
    for line in text.split('\n').skip(before).take(count) {
        is_followed(alloc, engine, version, line)?;
    }
    Ok(())
}

// Puts what an engine that followed so many lines makes of the next one.
fn put_after(
    alloc: Global,
    engine: &mut NumberedEngine<'_>,
    version: Version,
    count: usize,
    line: &str,
    page: &mut Page,
) -> Result<(), AllocError> {
    match read_record(alloc, version, line)? {
        Some(record) => put_record(engine, record, page),
        None => {
            put_sums(engine.totals(count as u64), page);
            Ok(())
        }
    }
}

// Puts the last line that would have followed.
fn put_sums(totals: Totals, page: &mut Page) {
    page.text("  = here: these are not the sums after the lines before it\n");
    let mut text = Text::none();
    print_totals(totals, &mut text);
    put_followed(page, &text);
}

// Puts the record that an engine makes if it is asked the same as in a record.
fn put_record(
    engine: &mut NumberedEngine<'_>,
    record: Record,
    page: &mut Page,
) -> Result<(), AllocError> {
    let made = match record {
        Record::Called { answer: _, call } => called(engine, call, page)?,
        Record::Advance { run, .. } => advanced(engine, run, page)?,
    };
    if let Some(made) = made {
        put_made(&made, page);
    }
    Ok(())
}

// Puts the record that an engine made.
fn put_made(made: &Record, page: &mut Page) {
    page.text("  = here: the engine answers otherwise after the lines before it\n");
    let mut text = Text::none();
    if print_entry(made, &mut text).is_ok() {
        put_followed(page, &text);
    }
}

// What an engine makes of a call; that it is asked in vain is put on the page.
fn called(
    engine: &mut NumberedEngine<'_>,
    call: Call,
    page: &mut Page,
) -> Result<Option<Record>, AllocError> {
    match engine.call(&call)? {
        Some(answer) => Ok(Some(Record::Called { answer, call })),
        None => {
            page.text(in_vain(&call));
            Ok(None)
        }
    }
}

// Why a call is no event.
fn in_vain(call: &Call) -> &'static str {
    match call {
        Call::GuestRelease { .. } =>
            "  = here: no guest holds this freeze after the lines before it\n",
        Call::Park { .. } => "  = here: this run is not out after the lines before it\n",
        _ => "  = here: no engine is asked so\n",
    }
}

// The next stop of a run; that it is not out is put on the page.
fn advanced(
    engine: &mut NumberedEngine<'_>,
    run: u32,
    page: &mut Page,
) -> Result<Option<Record>, AllocError> {
    let made = engine.advance(run)?;
    if made.is_none() {
        page.fill(
            "  = here: run {} is not out after the lines before it\n",
            &[u64::from(run)],
        );
    }
    Ok(made)
}

// Puts a line that would have followed.
fn put_followed(page: &mut Page, text: &Text) {
    page.text("  = would have followed: ");
    page.foreign(str::from_utf8(text.as_slice()).unwrap_or("").trim_end());
    page.text("\n");
}
