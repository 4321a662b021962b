// The line of an event: when, where, and what. It relies on `show_events` for its words, on `names` for names, and on `show_sense` for SCSI
// statuses and sense data.

ghost use Rattle.std.specs.Prelude.{◌++◌, ℕ, List, codes};
ghost use Rattle.std.specs.Fmt.{decimal};
ghost use Rattle.cli_text_page.specs.Page.{Puts};
ghost use Rattle.show_account.specs.Names.{IsCodeText, advice_text, named_text, unnamed_text};

use crate::names::{advice_name, failure_of, name_of_code, status_name};
use ccb::{CallRefusal, CamStatus, Place};
use cli_text_page::Page;
use show_events::{Cause, Event, Happening, Programs, Subject, Values};
use show_sense::{put_scsi_status, put_sense, sense_code};

/// How many digits a time has at least, and the bytes after it.
const TIME: usize = 6;

/// Puts the line of an event after what is there; the place of each is padded to that many bytes.
pub(crate) fn put_line(event: &Event, programs: &Programs<'_>, width: usize, page: &mut Page) {
    let subject = &event.subject;
    let nowhere = if subject.ccb.is_none() && subject.run.is_none() {
        "clock"
    } else {
        "-"
    };
    put_head(event.clock, subject.place, nowhere, width, page);
    put_text(event, programs, page);
}

/// Puts what stands before the text of a line: when it was, and where, or this word if it was nowhere.
pub(crate) fn put_head(
    clock: u64,
    place: Option<Place>,
    nowhere: &str,
    width: usize,
    page: &mut Page,
) {
    put_time(clock, page);
    put_place(place, nowhere, width, page);
}

// A time, with blanks before it.
fn put_time(clock: u64, page: &mut Page) {
    let mut least = 10u64;
    for _ in 1..TIME {
        page.text(if clock < least { " " } else { "" });
        least = least.saturating_mul(10);
    }
    page.fill("{} ms  ", &[clock]);
}

// Where it was, with blanks after it.
fn put_place(place: Option<Place>, nowhere: &str, width: usize, page: &mut Page) {
    let before = page.len();
    match place {
        Some(place) => {
            page.text(place.kind_word());
            page.fill(" {}", &[u64::from(place.number())]);
        }
        None => page.text(nowhere),
    }
    let wide = page.len().saturating_sub(before);
    page.blanks(width.saturating_sub(wide));
    page.text("  ");
}

// The text of the event, with its values.
fn put_text(event: &Event, programs: &Programs<'_>, page: &mut Page) {
    for (place, part) in event.happening.words().split('%').enumerate() {
        if place == 0 {
            page.text(part);
        } else {
            put_value(part, event, programs, page);
        }
    }
    page.text("\n");
}

// The value that stands for the first letter of a part, and the words after it.
fn put_value(part: &str, event: &Event, programs: &Programs<'_>, page: &mut Page) {
    let subject = &event.subject;
    match part.as_bytes().first() {
        Some(b'c') => page.fill("ccb {}", &[u64::from(subject.ccb.unwrap_or(0))]),
        Some(b'r') => page.fill("run {}", &[u64::from(subject.run.unwrap_or(0))]),
        Some(b'f') => page.fill("freeze {}", &[u64::from(subject.freeze.unwrap_or(0))]),
        Some(b'n') => {
            let program = programs.of(event.queue().unwrap_or(u32::MAX));
            page.foreign(programs.name(program));
        }
        Some(b'x') => put_why_not(event, page),
        Some(letter) => put_held(*letter, &event.values, page),
        None => {}
    }
    page.text(part.get(1..).unwrap_or(""));
}

// The value of the event that stands for that letter.
fn put_held(letter: u8, values: &Values, page: &mut Page) {
    match letter {
        b'1' => page.number(values.numbers[0]),
        b'2' => page.number(values.numbers[1]),
        b'3' => page.number(values.numbers[2]),
        b'4' => page.number(values.numbers[3]),
        b'5' => page.number(values.numbers[4]),
        b't' => put_times(values.frozen, page),
        b'z' => put_state(values.frozen, page),
        b'g' => page.number(u64::from(values.guest)),
        b's' => page.text(status_name(values.status)),
        b'v' => put_failure(values, page),
        b'y' => put_reported(values, page),
        b'k' => put_code(values.code, page),
        b'l' => put_class(values.numbers[2], page),
        b'a' => put_advised(values.numbers[2], page),
        b'd' => put_advice(values.numbers[0], page),
        b'o' => page.shown(&values.refusal),
        b'p' => put_openings(values.numbers[2], page),
        b'w' => put_cause(values.cause, page),
        b'b' => put_traced(values.bytes.as_slice(), page),
        _ => {}
    }
}

/// Puts why a call is refused. If something is not there that it names, this says what.
pub fn put_why_not(event: &Event, page: &mut Page) {
    if event.values.refusal == CallRefusal::Unknown {
        put_unknown(&event.subject, page);
    } else {
        page.text(cause_of(event));
    }
}

// Why a call is refused that names what is there. A CCB is withdrawn only if it waits.
fn cause_of(event: &Event) -> &'static str {
    let is_withdrawal = matches!(event.happening, Happening::NotWithdrawn);
    if is_withdrawal && event.values.refusal == CallRefusal::NotActive {
        "it does not wait"
    } else {
        event.values.refusal.cause()
    }
}

// What of the subject of a call is not there: the run, else the CCB, else the queue or the controller. A CCB that has a queue was there.
fn put_unknown(subject: &Subject, page: &mut Page) {
    if let Some(run) = subject.run {
        page.fill("no run {} is parked", &[u64::from(run)]);
    } else if let Some(ccb) = subject.ccb {
        let words = if subject.place.is_some() {
            "ccb {} is finished"
        } else {
            "there is no ccb {}"
        };
        page.fill(words, &[u64::from(ccb)]);
    } else if let Some(place) = subject.place {
        page.text("there is no ");
        page.text(place.kind_word());
        page.fill(" {}", &[u64::from(place.number())]);
    }
}

/// Puts the class of a CCB after a comma, if it has one.
pub(crate) fn put_class(class: u64, page: &mut Page) {
    if class != 0 {
        page.fill(", class {}", &[class]);
    }
}

/// Puts what was advised after a comma, if anything was.
pub(crate) fn put_advised(word: u64, page: &mut Page) {
    if word != 0 {
        page.text(", advised ");
        put_advice(word, page);
    }
}

/// Puts a word of advice: its usual name with its number, or its number alone if it has no name.
pub fn put_advice(word: u64, page: &mut Page)
    ensures { Puts page.old (advice_text word) page.new }
{
    let name = advice_name(word);
    if name.is_empty() {
        page.number(word);
    } else {
        put_advice_named(name, word, page);
    }
}

// Puts a word of advice under its name.
fn put_advice_named(name: &str, word: u64, page: &mut Page)
    ensures { Puts page.old (name.now ++ (codes " (" ++ (decimal word ++ codes ")"))) page.new }
{
    page.text(name);
    page.text(" (");
    page.number(word);
    page.text(")");
}

// So many openings.
fn put_openings(count: u64, page: &mut Page) {
    let words = if count == 1 {
        "{} opening"
    } else {
        "{} openings"
    };
    page.fill(words, &[count]);
}

// So many times.
fn put_times(count: u32, page: &mut Page) {
    let words = if count == 1 { "{} time" } else { "{} times" };
    page.fill(words, &[u64::from(count)]);
}

// Whether a place is frozen still, after a freeze went.
fn put_state(frozen: u32, page: &mut Page) {
    if frozen == 0 {
        page.text("thawed");
    } else {
        page.text("still frozen ");
        put_times(frozen, page);
    }
}

/// Puts what became of a CCB that failed: with the SCSI status and the sense that came, if any did.
pub fn put_failure(values: &Values, page: &mut Page) {
    if values.status == CamStatus::ScsiStatusError {
        page.text("got SCSI status ");
        put_status_and_sense(values, page);
    } else {
        page.text(failure_of(values.status));
        put_reported(values, page);
    }
}

// The SCSI status and the sense that a completion reports, if it reports any.
fn put_reported(values: &Values, page: &mut Page) {
    if values.scsi != 0 {
        page.text(" with SCSI status ");
        put_status_and_sense(values, page);
    } else if !values.bytes.is_empty() {
        page.text(" with ");
        put_sense_data(values.bytes.as_slice(), page);
    }
}

// A SCSI status, and the sense data that came with it, if any did.
fn put_status_and_sense(values: &Values, page: &mut Page) {
    put_scsi_status(values.scsi, page);
    if !values.bytes.is_empty() {
        page.text(", ");
        put_sense_data(values.bytes.as_slice(), page);
    }
}

// Sense data: decoded, or as its bytes if it is of no known format.
fn put_sense_data(bytes: &[u8], page: &mut Page) {
    match sense_code(bytes) {
        Some(code) => put_sense(code, page),
        None => {
            page.text("sense bytes ");
            put_bytes(bytes, page);
        }
    }
}

/// Puts a final code: the name of the status that it is, and its two digits.
pub fn put_code(code: u8, page: &mut Page)
    ensures { (text : List ℕ) × IsCodeText code text × Puts page.old text page.new }
{
    let name = name_of_code(code);
    if name.is_empty() {
        put_unnamed(code, page)
    } else {
        put_named(name, code, page)
    }
}

// Puts a final code that is no status.
fn put_unnamed(code: u8, page: &mut Page)
    ensures { Puts page.old (unnamed_text code) page.new }
{
    page.text("code ");
    page.byte(code);
}

// Puts a final code under its name.
fn put_named(name: &str, code: u8, page: &mut Page)
    ensures { Puts page.old (named_text name.now code) page.new }
{
    page.text(name);
    page.text(" (");
    page.byte(code);
    page.text(")");
}

// What there was before a freeze: a failure, or a guest that took it.
fn put_cause(cause: Cause, page: &mut Page) {
    match cause {
        Cause::Failure {
            ccb,
            status,
            run: _,
        } => {
            page.fill("ccb {} ", &[u64::from(ccb)]);
            page.text(failure_of(status));
        }
        Cause::Guest(guest) => page.fill("guest {} took it", &[u64::from(guest)]),
        Cause::CarriedOver => page.text("it was carried over"),
    }
}

fn put_bytes(bytes: &[u8], page: &mut Page) {
    for byte in bytes {
        page.byte(*byte);
    }
}

// Bytes as digits, and as text, in which what is no printable ASCII is a dot.
fn put_traced(bytes: &[u8], page: &mut Page) {
    put_bytes(bytes, page);
    page.text(" \"");
    for byte in bytes {
        page.ascii(*byte);
    }
    page.text("\"");
}
