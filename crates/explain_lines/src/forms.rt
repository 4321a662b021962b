// The forms that lines have, in words, by the rows of `trace_lines`, by which lines are read. It relies on `helpers` and `ccb` for what a
// field may be.

use crate::bytes::is_status;
use crate::firsts::{Kept, is_of};
use crate::numbers::{least_of, most_of};
use crate::slips::Field;
use ccb::REFUSALS;
use cli_text_page::Page;
use helpers::{HELPERS, Tells};
use trace_lines::{Form, Kind, LINES, Row, Slots, Word, has_classes};
use world_calls::Version;

/// The names of a line's fields, of each word at its place, as camr-scenario(5) and camr-trace(5) have them.
const NAMES: [[&str; 4]; 11] = [
    ["Q", "PRIORITY", "RETRIES", "CLASS"],
    ["Q", "", "", ""],
    ["C", "STATUS", "SCSI", "SENSE"],
    ["C", "", "", ""],
    ["R", "N", "STOP", ""],
    ["Q", "G", "", ""],
    ["C", "G", "", ""],
    ["F", "", "", ""],
    ["T", "", "", ""],
    ["R", "", "", ""],
    ["R", "", "", ""],
];

/// The names of the sums in the last line of a trace.
const SUMS: [&str; 4] = ["HISTORY", "FROZEN", "ACTIVE", "RUNS"];

/// Puts the form of the line of a word, as a line of a report.
pub fn put_form(page: &mut Page, word: Word, kept: Kept, version: Version) {
    let row = word.row();
    page.text("  = form: ");
    page.text(word.text());
    put_names(page, word, &row.fields, kept, version);
    if kept == Kept::Trace {
        page.text(" = ");
        put_answer(page, &row, version);
    }
    page.text("\n");
}

fn put_names(page: &mut Page, word: Word, fields: &Slots<Kind>, kept: Kept, version: Version) {
    let kinds = [fields.first, fields.second, fields.third, fields.fourth];
    for (place, kind) in kinds.iter().enumerate() {
        let name = name_of(Some(word), place);
        match kind {
            Some(Kind::Class) => put_class(page, name, kept, version),
            Some(_) => {
                page.text(" ");
                page.text(name);
            }
            None => {}
        }
    }
}

// Puts the name of a class: a scenario may leave it out, and a trace says it, if CCBs have one.
fn put_class(page: &mut Page, name: &str, kept: Kept, version: Version) {
    if !has_classes(version) {
        return;
    }
    let (before, after) = match kept {
        Kept::Scenario => (" [", "]"),
        Kept::Trace => (" ", ""),
    };
    page.text(before);
    page.text(name);
    page.text(after);
}

/// The name of a field of the line of a word, or of a trace's last line.
pub fn name_of(word: Option<Word>, place: usize) -> &'static str {
    let names = match word {
        Some(word) => NAMES[word as usize],
        None => SUMS,
    };
    names.get(place).copied().unwrap_or("")
}

// Puts what a line is answered: the answer that is no refusal, and the codes of those that are.
fn put_answer(page: &mut Page, row: &Row, version: Version) {
    page.text(match row.form {
        Form::Ccb => "ccb C",
        Form::Start if has_classes(version) => "ccb C advice W",
        Form::Start => "ccb C",
        Form::Completed => "done, or run R freeze F",
        Form::Freeze => "freeze F",
        Form::Left => "LEFT",
        Form::Went => "WENT",
        Form::Ok => "ok",
        Form::R0 => "R0",
    });
    for refusal in &REFUSALS {
        if row.may_be(refusal.refusal) && is_of_version(refusal.since, version) {
            page.text(", or ");
            page.shown(&refusal.refusal);
        }
    }
}

// Whether traces of a version have what there is since one.
fn is_of_version(since: u8, version: Version) -> bool {
    match version {
        Version::One => since <= 1,
        Version::Two => since <= 2,
        Version::Three => true,
    }
}

/// Puts the form of the last line of a trace.
pub fn put_last_form(page: &mut Page) {
    page.text("  = form: end");
    for name in SUMS {
        page.text(" ");
        page.text(name);
    }
    page.text("\n");
}

/// Puts the words with which lines begin, as a line of a report.
pub fn put_words(page: &mut Page, kept: Kept) {
    page.text("  = form: a line begins with ");
    for row in &LINES {
        if is_of(row.word, kept) {
            page.text(row.word.text());
            page.text(", ");
        }
    }
    page.text(match kept {
        Kept::Scenario => "or is drain\n",
        Kept::Trace => "or end\n",
    });
}

/// Puts what a field may be, as a line of a report.
pub fn put_field(page: &mut Page, word: Option<Word>, field: Field) {
    page.text("  = ");
    page.text(name_of(word, field.place));
    page.text(": ");
    match field.kind {
        Kind::Number | Kind::LongNumber | Kind::Instructions | Kind::Class => page.fill(
            "a number from {} to {}, in decimal digits without a sign and without leading zeros\n",
            &[least_of(field.kind), most_of(field.kind)],
        ),
        Kind::Status => put_statuses(page),
        Kind::Byte => page.text("a byte, as two digits of base 16 in lower case\n"),
        Kind::Sense => page.text(
            "1 to 64 bytes, each as two digits of base 16 in lower case, with nothing between them; or - for none\n",
        ),
        Kind::Stop => put_stops(page),
    }
}

// Puts the codes of the statuses that are reported.
fn put_statuses(page: &mut Page) {
    page.text("a CAM status, as two digits of base 16 in lower case: ");
    let mut before = "";
    for value in 0..=u8::MAX {
        if is_status(value) {
            page.text(before);
            page.byte(value);
            page.text(" ");
            page.text(status_name(value));
            before = ", ";
        }
    }
    page.text("\n");
}

// How a status that is reported is called.
fn status_name(value: u8) -> &'static str {
    match value {
        0x01 => "completed",
        0x02 => "aborted",
        0x05 => "busy",
        0x0a => "selection timeout",
        0x0b => "command timeout",
        0x0c => "SCSI status error",
        0x0e => "bus reset",
        0x17 => "device reset",
        _ => "requeue",
    }
}

// Puts where a run may stop.
fn put_stops(page: &mut Page) {
    page.text("exit, or helper H with the number of a helper");
    for row in &HELPERS {
        let pattern = match row.tells {
            Tells::Name => "",
            Tells::Code => "; helper {} CODE with a code from 00 to 3f",
            Tells::Bytes => "; helper {} BYTES with 1 to 64 bytes",
        };
        if !pattern.is_empty() {
            page.fill(pattern, &[u64::from(row.helper.number())]);
        }
    }
    page.text("\n");
}
