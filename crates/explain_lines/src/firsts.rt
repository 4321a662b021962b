// What is against a line of a scenario or of a trace before its fields: what it begins with, and its first word. It relies on `fields` for
// the rest, on `trace_lines` and `scenario` for words, on `ccb` for refusals, and on `strsim` for words that are near.

use crate::answers::answered_slip;
use crate::fields::asked_slip;
use crate::lines::without_return;
use crate::numbers::character_slip;
use crate::slips::{Advice, Found, Slip};
use crate::stops::{blanks_of, first_word};
use base::OrMemory;
use ccb::CallRefusal;
use scenario::is_of_run;
use std::alloc::{AllocError, Global};
use strsim::levenshtein;
use trace::read_record;
use trace_lines::{LINES, Word};
use world_calls::Version;

/// What a line stands in.
#[derive(Clone, Copy, PartialEq, Eq)]
pub enum Kept {
    Scenario,
    Trace,
}

/// How far a word may be from one that is meant, in letters that differ.
const NEAR: usize = 2;

/// How many bytes a word has at most that is compared with others.
const LONGEST: usize = 24;

/// The words of `camr live` that are no calls.
const LIVE: [&str; 6] = ["step", "drive", "totals", "ccbs", "quit", "help"];

/// The words with which a comment begins elsewhere.
const COMMENTS: [&str; 5] = ["//", "/*", "--", ";", "%"];

/// What is against a line that is not of the form, in a trace of that version, or in a scenario over such a manifest. If it ends with a carriage return, that is all only if there is nothing else.
pub fn line_slip(
    alloc: Global,
    line: &str,
    kept: Kept,
    version: Version,
) -> Result<Found, AllocError> {
    let whole = without_return(line);
    if let Some(found) = front_slip(whole, kept) {
        return Ok(found);
    }
    let name = first_word(whole);
    let found = match Word::named(name) {
        Some(word) => known_slip(word, whole, kept, version),
        None => Some(unknown_slip(alloc, whole, name, kept)?),
    };
    Ok(match found {
        Some(found) => found,
        None if whole.len() < line.len() => Found::of(Slip::Return, whole.len(), line.len()),
        None => last_found(last_slip(alloc, line, kept, version)?, line),
    })
}

// That slip of a line in which nothing else is found: if only its answer is one of version 2, of this one, and of a class, of it alone.
fn last_found(slip: Slip, line: &str) -> Found {
    if slip.is(Slip::Classed) {
        let begin = line.rfind(' ').unwrap_or(0).saturating_add(1);
        return Found::of(slip, begin, line.len());
    }
    let begin = match line.rsplit_once(" = ") {
        Some((asked, answer)) if is_later(answer) => asked.len().saturating_add(3),
        _ => 0,
    };
    Found::of(slip, begin, line.len())
}

// Whether that is the code of a refusal which the first version does not have.
fn is_later(answer: &str) -> bool {
    match CallRefusal::coded(answer) {
        Some(refusal) => refusal.row().since > 1,
        None => false,
    }
}

// What is against a line in which nothing else is found: it is one of another version, or that is not known.
fn last_slip(alloc: Global, line: &str, kept: Kept, version: Version) -> Result<Slip, AllocError> {
    if kept == Kept::Scenario {
        return Ok(if is_faulty(alloc, Version::Three, line)? {
            Slip::Other
        } else {
            Slip::Classed
        });
    }
    if read_record(alloc, Version::Two, line)?.is_some() {
        return Ok(lower_slip(version));
    }
    match read_record(alloc, Version::Three, line)? {
        Some(_) => Ok(Slip::ThirdVersion),
        None => Ok(Slip::Other),
    }
}

/// Whether a line by itself is no scenario over a manifest of that version.
pub fn is_faulty(alloc: Global, version: Version, line: &str) -> Result<bool, AllocError> {
    match scenario::read(alloc, version, line) {
        Ok(_) => Ok(false),
        Err(OrMemory::OutOfMemory) => Err(AllocError),
        Err(OrMemory::Fault(_)) => Ok(true),
    }
}

// What is against a line of version 2, which may be one of version 1 too, in a trace of another one.
fn lower_slip(version: Version) -> Slip {
    match version {
        Version::One | Version::Two => Slip::SecondVersion,
        Version::Three => Slip::LowerVersion,
    }
}

// What is against the front of a line.
fn front_slip(line: &str, kept: Kept) -> Option<Found> {
    let rest = line.trim_start();
    let blanks = line.len().saturating_sub(rest.len());
    if line.starts_with('\u{feff}') {
        Some(Found::of(Slip::Mark, 0, 3))
    } else if blanks > 0 {
        Some(Found::of(blank_slip(rest), 0, blanks))
    } else if kept == Kept::Trace && (line.is_empty() || line.starts_with('#')) {
        Some(Found::of(Slip::Skipped, 0, line.len()))
    } else {
        None
    }
}

// What is against blanks before this rest of a line.
fn blank_slip(rest: &str) -> Slip {
    if rest.is_empty() {
        Slip::OnlyBlanks
    } else if rest.starts_with('#') {
        Slip::IndentedComment
    } else {
        Slip::Indented
    }
}

// What is against a line that begins with a word that lines begin with.
fn known_slip(word: Word, line: &str, kept: Kept, version: Version) -> Option<Found> {
    match (kept, word) {
        (Kept::Scenario, word) if is_of_run(word) => {
            Some(Found::of(Slip::OfRuns, 0, word.text().len()))
        }
        (Kept::Scenario, _) => asked_slip(&word.row(), line, word.text().len(), version),
        (Kept::Trace, _) => answered_slip(word, line, version),
    }
}

// What is against a line that begins with another word, or with none.
fn unknown_slip(alloc: Global, line: &str, name: &str, kept: Kept) -> Result<Found, AllocError> {
    match other_slip(line, name, kept) {
        Some(found) => Ok(found),
        None => named_slip(alloc, name, kept),
    }
}

// What is against such a line, if it is one of another kind of file, a `drain`, or a comment that begins otherwise, or if its first word
// has a character that stands in no word.
fn other_slip(line: &str, name: &str, kept: Kept) -> Option<Found> {
    if COMMENTS.iter().any(|sign| name.starts_with(*sign)) {
        return Some(Found::of(Slip::OtherComment, 0, name.len()));
    }
    if let Some(found) = character_slip(name) {
        return Some(found);
    }
    if name == "drain" {
        Some(drain_slip(line, name.len(), kept))
    } else if name.starts_with("camr-trace") {
        Some(Found::of(Slip::Header, 0, line.len()))
    } else if name == "end" && kept == Kept::Scenario {
        Some(Found::of(Slip::LastLine, 0, line.len()))
    } else if LIVE.iter().any(|word| *word == name) {
        Some(Found::of(Slip::OfLive, 0, name.len()))
    } else {
        None
    }
}

// What is against a line that begins with `drain`.
fn drain_slip(line: &str, start: usize, kept: Kept) -> Found {
    let rest = line.get(start..).unwrap_or("");
    let blanks = blanks_of(rest);
    if kept == Kept::Trace {
        Found::of(Slip::Drains, 0, start)
    } else if blanks == rest.len() {
        Found::of(Slip::Trailing, start, line.len())
    } else if rest.get(blanks..).unwrap_or("").starts_with('#') {
        Found::of(Slip::Comment, start.saturating_add(blanks), line.len())
    } else {
        Found::of(Slip::TooMany, start.saturating_add(blanks), line.len())
    }
}

// What is against a first word that is no word of a line: it is one in other letters, or near one.
fn named_slip(alloc: Global, name: &str, kept: Kept) -> Result<Found, AllocError> {
    if let Some(word) = in_other_letters(name, kept) {
        return Ok(Found::advised(Slip::Capitals, 0, name.len(), Advice::Word(word)));
    }
    Ok(match nearest(alloc, name, kept)? {
        Some(word) => Found::advised(Slip::Near, 0, name.len(), Advice::Word(word)),
        None => Found::of(Slip::NoWord, 0, name.len()),
    })
}

// The word of a line that a name is but for the case of its letters.
fn in_other_letters(name: &str, kept: Kept) -> Option<&'static str> {
    let other = last_word(kept);
    if other.eq_ignore_ascii_case(name) {
        return Some(other);
    }
    for row in &LINES {
        let word = row.word.text();
        if is_of(row.word, kept) && word.eq_ignore_ascii_case(name) {
            return Some(word);
        }
    }
    None
}

// The word that begins a line and is that of no call: that of a scenario, or that of a trace.
fn last_word(kept: Kept) -> &'static str {
    match kept {
        Kept::Scenario => "drain",
        Kept::Trace => "end",
    }
}

/// Whether lines of that word stand in a scenario, or in a trace.
pub fn is_of(word: Word, kept: Kept) -> bool {
    kept == Kept::Trace || !is_of_run(word)
}

// The word of a line that is nearest to a name, if one is near.
fn nearest(alloc: Global, name: &str, kept: Kept) -> Result<Option<&'static str>, AllocError> {
    if name.len() > LONGEST {
        return Ok(None);
    }
    let mut found = None;
    let mut least = NEAR + 1;
    for row in &LINES {
        let word = row.word.text();
        let distance = levenshtein(alloc, name, word)?;
        if is_of(row.word, kept) && distance < least {
            least = distance;
            found = Some(word);
        }
    }
    let other = last_word(kept);
    if levenshtein(alloc, name, other)? < least {
        found = Some(other);
    }
    Ok(found)
}
