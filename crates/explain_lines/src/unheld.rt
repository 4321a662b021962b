// The report of a scenario that gives back a freeze which no guest holds: whose the freeze is, and which ones guests hold then. It relies on
// `world_calls` for the records of the lines before, on `trace_lines` for the line, and on `telling` for the report.

use crate::lines::{line_of, start_of};
use crate::telling::{put_code, put_line};
use cli_text_page::Page;
use helpers::{Gives, Helper};
use std::alloc::{AllocError, Global};
use trace_lines::{number_at, read_line};
use world_calls::{Call, CallAnswer, Record, StoppedAt, Trace};

/// How many freezes are named that guests hold.
const MOST: usize = 16;

/// How many reports wait at most: if so many do, they are served before another one is put.
const MOST_WAITING: usize = 256;

// The freeze that guests took, in the order of their numbers, and whether each was given back.
#[derive(Clone, Copy)]
struct Taken {
    freeze: u32,
    is_back: bool,
}

// What became of a freeze that is to be given back.
#[derive(Clone, Copy)]
enum Fate {
    /// None has that number.
    None,
    /// A guest gave it back before.
    Back,
    /// It is, or was, that of a run.
    OfRun(u32),
}

/// The text before the line of that number.
pub fn lines_before(text: &str, number: usize) -> &str {
    text.get(..start_of(text, number)).unwrap_or("")
}

/// Puts what there is to say of a scenario, its path and text, whose line of that number gives back a freeze that no guest holds. The trace
/// is that of the lines before it.
pub fn put(
    alloc: Global,
    path: &str,
    text: &str,
    number: usize,
    before: &Trace,
    page: &mut Page,
) -> Result<(), AllocError> {
    let line = line_of(path, text, number);
    let freeze = match read_line(line.line) {
        Some((_, held)) => number_at(held.first),
        None => 0,
    };
    let taken = taken_before(alloc, before)?;
    let start = line.line.find(' ').unwrap_or(0).saturating_add(1);
    let count = served_before(lines_before(text, number), before);
    put_line(page, &line, start, line.line.len());
    let lines = lines_before(text, number);
    let fate = fate_of(freeze, &taken, before, count);
    put_fate(page, fate, freeze, lines);
    put_held(page, &taken);
    put_code(page, "N2");
    if let Fate::None = fate {
        put_waiting(page, lines);
    }
    Ok(())
}

// The freezes that guests took.
fn taken_before(alloc: Global, trace: &Trace) -> Result<Vec<Taken>, AllocError> {
    let mut taken = Vec::new(alloc);
    for record in trace.records.iter() {
        if let Record::Called { answer, call } = record {
            see(*answer, call, &mut taken)?;
        }
    }
    Ok(taken)
}

fn see(answer: CallAnswer, call: &Call, taken: &mut Vec<Taken>) -> Result<(), AllocError> {
    match (call, answer) {
        (Call::GuestFreeze { .. }, CallAnswer::Freeze(freeze)) => {
            taken.push(Taken {
                freeze,
                is_back: false,
            })?;
        }
        (Call::GuestRelease { freeze }, CallAnswer::Left(_)) => give_back(taken, *freeze),
        _ => {}
    }
    Ok(())
}

// Notes that a freeze was given back.
fn give_back(taken: &mut Vec<Taken>, freeze: u32) {
    let place = taken.partition_point(|it| it.freeze < freeze);
    if let Some(it) = taken.get_mut(place) {
        if it.freeze == freeze {
            it.is_back = true;
        }
    }
}

// What became of a freeze by the records of a trace, of the first so many.
fn fate_of(freeze: u32, taken: &[Taken], trace: &Trace, count: usize) -> Fate {
    if freeze == 0 {
        return Fate::None;
    }
    if taken.iter().any(|it| it.freeze == freeze) {
        return Fate::Back;
    }
    for record in trace.records.iter().take(count) {
        if let Some(run) = run_taking(record, freeze) {
            return Fate::OfRun(run);
        }
    }
    Fate::None
}

// The run that takes a freeze of that number by a record, if one does.
fn run_taking(record: &Record, freeze: u32) -> Option<u32> {
    match record {
        Record::Called { answer, .. } => run_started(*answer, freeze),
        Record::Advance { run, stop, r0, .. } => {
            if takes_freeze(stop) && *r0 == u64::from(freeze) {
                Some(*run)
            } else {
                None
            }
        }
    }
}

fn run_started(answer: CallAnswer, freeze: u32) -> Option<u32> {
    match answer {
        CallAnswer::Started { run, freeze: its } if its == freeze => Some(run),
        _ => None,
    }
}

// How many records there are before the reports that wait at the end of the lines, which are served after them.
fn served_before(text: &str, trace: &Trace) -> usize {
    let served = reports_in(trace).saturating_sub(waiting_at_end(text));
    let mut seen = 0usize;
    let mut count = 0usize;
    for record in trace.records.iter() {
        if is_report(record) {
            seen = seen.saturating_add(1);
        }
        if seen <= served {
            count = count.saturating_add(1);
        }
    }
    count
}

fn reports_in(trace: &Trace) -> usize {
    let mut count = 0usize;
    for record in trace.records.iter() {
        if is_report(record) {
            count = count.saturating_add(1);
        }
    }
    count
}

fn is_report(record: &Record) -> bool {
    match record {
        Record::Called { call, .. } => matches!(call, Call::Complete { .. }),
        Record::Advance { .. } => false,
    }
}

// How many reports wait at the end of the lines of a scenario.
fn waiting_at_end(text: &str) -> usize {
    let mut waiting = 0usize;
    for line in text.split('\n') {
        if line == "drain" {
            waiting = 0;
        } else if line.starts_with("complete ") {
            waiting = (waiting % MOST_WAITING).saturating_add(1);
        }
    }
    waiting
}

fn takes_freeze(stop: &StoppedAt) -> bool {
    match stop {
        StoppedAt::Helper(helper) => is_of_freeze(*helper),
        _ => false,
    }
}

fn is_of_freeze(helper: Helper) -> bool {
    helper.row().gives == Gives::NewFreeze
}

// Puts how many reports wait at the end of lines, whose runs may take the freeze that is meant.
fn put_waiting(page: &mut Page, lines: &str) {
    let waiting = waiting_at_end(lines) as u64;
    if waiting == 0 {
        return;
    }
    let last = last_line(lines, "complete ", None);
    page.fill(
        if waiting == 1 {
            "  = note: {} report waits here, and its run takes its freeze only when it is served: a `drain` after line {} serves it\n"
        } else {
            "  = note: {} reports wait here, and their runs take their freezes only when they are served: a `drain` after line {} serves them\n"
        },
        &[waiting, last],
    );
}

// The number of the last line that begins with a word, and after it has that number alone if there is one; 0 if there is none.
fn last_line(lines: &str, word: &str, number: Option<u32>) -> u64 {
    let mut last = 0u64;
    let mut at = 0u64;
    for line in lines.split('\n') {
        at = at.saturating_add(1);
        if let Some(rest) = line.strip_prefix(word) {
            if number.is_none() || rest.parse::<u32>().ok() == number {
                last = at;
            }
        }
    }
    last
}

fn put_fate(page: &mut Page, fate: Fate, freeze: u32, lines: &str) {
    match fate {
        Fate::None => page.fill(
            "  = here: freeze {} does not exist at this line\n",
            &[u64::from(freeze)],
        ),
        Fate::Back => page.fill(
            "  = here: a guest gave this freeze back at line {}\n",
            &[last_line(lines, "grelease ", Some(freeze))],
        ),
        Fate::OfRun(run) => page.fill(
            "  = here: this freeze is that of run {}, and no guest's\n",
            &[u64::from(run)],
        ),
    }
}

// Puts which freezes guests hold.
fn put_held(page: &mut Page, taken: &[Taken]) {
    let held = taken.iter().filter(|it| !it.is_back).count();
    if held == 0 {
        page.text("  = then: no guest holds a freeze\n");
        return;
    }
    page.text("  = then: guests hold these freezes:");
    for it in taken.iter().filter(|it| !it.is_back).take(MOST) {
        page.fill(" {}", &[u64::from(it.freeze)]);
    }
    if held > MOST {
        page.fill(" and {} more", &[held.saturating_sub(MOST) as u64]);
    }
    page.text("\n");
}
