// An open trace, closed: its whole lines, and a last line that fits them. It relies on `whole_trace` for lines, and on `show_events` for the
// sums.

ghost use Rattle.std.specs.Prelude.{◌≡◌, ◌++◌, ◌∷◌, IfOk, IfSome, string_bytes};
ghost use Rattle.cli_inspection.specs.Shown.{Closes, IsLastFeed};

use base::OrMemory;
use cli_commands::text;
use cli_text_page::Page;
use show_events::{Ending, Walk};
use std::alloc::{AllocError, Global};
use whole_trace::WholeTrace;
use world_calls::{CarriedLine, Totals, Trace};

/// A last line whose sums are all 0.
const NOTHING: &str = "end 0 0 0 0\n";

/// A trace that was open, with a last line of the program's own, and how it ended.
#[derive(Drop)]
pub(crate) struct ClosedTrace {
    pub(crate) text: String,
    pub(crate) ending: Ending,
}

/// Closes the trace, if it is open: each of its whole lines is one of a trace, and none is the last one.
pub(crate) fn closed(
    alloc: Global,
    manifest: (&str, &[u8]),
    trace: (&str, &[u8]),
) -> Result<Option<ClosedTrace>, AllocError>
    ensures { IfOk result (λ closed. IfSome closed (λ it. Closes trace.entry.1.now (string_bytes it.text))) }
{
    let Ok(manifest) = text(manifest) else {
        return Ok(None);
    };
    let Ok(trace) = text(trace) else {
        return Ok(None);
    };
    let Some((lines, rest)) = last_feed(trace) else {
        return Ok(None);
    };
    let ending = if rest.is_empty() {
        Ending::Open
    } else {
        Ending::Cut
    };
    let Some(last) = last_line(alloc, manifest, lines)? else {
        return Ok(None);
    };
    if last.is_empty() {
        return Ok(None);
    }
    let text = followed(alloc, lines, last.as_str())?;
    Ok(Some(ClosedTrace { text, ending }))
}

// What stands before the last line feed, and after it.
fn last_feed(text: &str) -> Option<(&str, &str)>
    ensures { IfSome result (λ parts. IsLastFeed text.now parts.0.now parts.1.now) }
{
    match text.rsplit_once('\n') {
        Some((lines, rest)) => Some((lines, rest)),
        None => None,
    }
}

// The lines, and a further one after them.
fn followed(alloc: Global, lines: &str, last: &str) -> Result<String, AllocError>
    ensures { IfOk result (λ text. string_bytes text ≡ lines.now ++ 10 ∷ last.now) }
{
    let mut text = String::from_str(alloc, lines)?;
    text.push_str("\n")?;
    text.push_str(last)?;
    Ok(text)
}

// The last line that fits these lines over the manifest; none if one of them is not that of a trace. If no engine begins with the carried
// lines, whatever the last line says is refused for one of these.
fn last_line(alloc: Global, manifest: &str, lines: &str) -> Result<Option<String>, AllocError> {
    let nothing = followed(alloc, lines, NOTHING)?;
    let whole = match whole_trace::read(alloc, nothing.as_str()) {
        Ok(whole) => whole,
        Err(OrMemory::OutOfMemory) => return Err(AllocError),
        Err(OrMemory::Fault(_)) => return Ok(None),
    };
    let manifest = match manifest::read(alloc, manifest) {
        Ok(manifest) => manifest,
        Err(OrMemory::OutOfMemory) => return Err(AllocError),
        Err(OrMemory::Fault(_)) => return Ok(None),
    };
    match Walk::open(alloc, &manifest.config, carried_by(&whole))? {
        Some(mut walk) => {
            let totals = totals_of(alloc, &mut walk, &whole.trace)?;
            Ok(Some(line_of(alloc, &totals)?))
        }
        None => Ok(Some(String::from_str(alloc, NOTHING)?)),
    }
}

// The last line with these sums.
fn line_of(alloc: Global, totals: &Totals) -> Result<String, AllocError> {
    let mut page = Page::new(alloc);
    page.fill(
        "end {} {} {} {}\n",
        &[
            totals.history,
            u64::from(totals.frozen),
            u64::from(totals.active),
            u64::from(totals.runs),
        ],
    );
    page.finish()
}

/// The carried lines of a trace, if it is a continued one.
pub(crate) fn carried_by(whole: &WholeTrace) -> Option<&[CarriedLine]> {
    match &whole.carried {
        Some(lines) => Some(lines.as_slice()),
        None => None,
    }
}

// The sums after all records of a trace.
fn totals_of(alloc: Global, walk: &mut Walk<'_>, trace: &Trace) -> Result<Totals, AllocError> {
    let mut events = Vec::new(alloc);
    for record in trace.records.iter() {
        events.clear();
        walk.step(record, &mut events)?;
    }
    Ok(walk.engine().totals(trace.records.len() as u64))
}
