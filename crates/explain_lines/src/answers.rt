// What is against a line of a trace: of what was asked, and of what was answered. It relies on `fields` for the one, and on `trace_lines`
// for the other.

use crate::fields::asked_slip;
use crate::numbers::character_slip;
use crate::slips::{Found, Slip};
use trace_lines::{Form, Row, Word, long_number};
use world_calls::{CallRefusal, Version};

/// What stands between what was asked and what was answered.
const BETWEEN: &str = " = ";

/// What is against a line that begins with that word, in a trace of that version, if it is that of no record of any version.
pub fn answered_slip(word: Word, line: &str, version: Version) -> Option<Found> {
    let row = word.row();
    let start = word.text().len();
    let Some((asked, told)) = line.split_once(BETWEEN) else {
        return Some(unanswered_slip(&row, line, start, version));
    };
    if let Some(found) = asked_slip(&row, asked, start, version) {
        return Some(found);
    }
    let start = asked.len().saturating_add(BETWEEN.len());
    match told_slip(&row, told) {
        Some(found) => Some(found.shifted(start)),
        None => None,
    }
}

// What is against a line without ` = `, which begins with a word that ends at that byte.
fn unanswered_slip(row: &Row, line: &str, start: usize, version: Version) -> Found {
    let end = line.find('=').unwrap_or(line.len());
    let asked = line.get(..end).unwrap_or(line);
    match asked_slip(row, asked.trim_end(), start, version) {
        Some(found) => found,
        None if end < line.len() => Found::of(Slip::NoEquals, end, end.saturating_add(1)),
        None => Found::of(Slip::NoAnswer, line.len(), line.len()),
    }
}

// What is against an answer, if it is none of the line's.
fn told_slip(row: &Row, told: &str) -> Option<Found> {
    let is_good = match row.form {
        Form::R0 => long_number(told).is_some(),
        _ => row.read_answer(told).is_some(),
    };
    if is_good {
        return None;
    }
    let trimmed = told.trim_end();
    Some(if trimmed.is_empty() {
        Found::of(Slip::NoAnswer, told.len(), told.len())
    } else if trimmed.len() < told.len() {
        Found::of(Slip::Trailing, trimmed.len(), told.len())
    } else if let Some(found) = character_slip(told) {
        found
    } else if CallRefusal::coded(told).is_some() {
        Found::of(Slip::OtherRefusal, 0, told.len())
    } else {
        Found::of(Slip::OtherAnswer, 0, told.len())
    })
}
