// Where the fields of a line end to be of the form. It goes through the kinds of the line's row, and asks `trace_lines` for each field
// whether it is one, and whether there are classes. It relies on `numbers`, `bytes` and `stops` for what is against a field that is none.

use crate::bytes::{byte_slip, bytes_slip};
use crate::numbers::{character_slip, has_digits16, number_slip};
use crate::slips::{Field, Found, Slip};
use crate::stops::{blanks_of, first_word, stop_slip};
use trace_lines::{Kind, Row, Slots, has_classes};
use world_calls::Version;

// How far the fields of a line are of the form: up to that byte so far, or up to what is found.
#[derive(Clone, Copy)]
enum Reached {
    At(usize),
    Fault(Found),
}

/// What is against the fields of a line of that row, which begin at that byte of a text, in a trace or a scenario of that version. Nothing is
/// found if the version alone is against them.
pub fn asked_slip(row: &Row, text: &str, start: usize, version: Version) -> Option<Found> {
    let found = fields_slip(&row.fields, text, start);
    if found.is_none() || has_classes(version) {
        return found;
    }
    fields_slip(&without_class(&row.fields), text, start)
}

// The fields without a class.
fn without_class(fields: &Slots<Kind>) -> Slots<Kind> {
    match fields.fourth {
        Some(Kind::Class) => Slots {
            first: fields.first,
            second: fields.second,
            third: fields.third,
            fourth: None,
        },
        _ => *fields,
    }
}

/// What is against fields that begin at that byte of a text, each after a blank, if the text is not of their form.
pub fn fields_slip(fields: &Slots<Kind>, text: &str, start: usize) -> Option<Found> {
    let reached = field_at(fields.first, 0, text, Reached::At(start));
    let reached = field_at(fields.second, 1, text, reached);
    let reached = field_at(fields.third, 2, text, reached);
    let reached = field_at(fields.fourth, 3, text, reached);
    match reached {
        Reached::Fault(found) => Some(found),
        Reached::At(end) => end_slip(last_of(fields), text, end),
    }
}

// The kind of the last field.
fn last_of(fields: &Slots<Kind>) -> Option<Kind> {
    if fields.fourth.is_some() {
        fields.fourth
    } else if fields.third.is_some() {
        fields.third
    } else if fields.second.is_some() {
        fields.second
    } else {
        fields.first
    }
}

// The same one field further, if there is such a field.
fn field_at(kind: Option<Kind>, place: usize, text: &str, reached: Reached) -> Reached {
    match reached {
        Reached::At(start) => match kind {
            Some(kind) => one_field(Field { place, kind }, text, start),
            None => reached,
        },
        Reached::Fault(_) => reached,
    }
}

fn one_field(field: Field, text: &str, start: usize) -> Reached {
    let rest = text.get(start..).unwrap_or("");
    let blanks = blanks_of(rest);
    let begin = start.saturating_add(1);
    if may_lack(field.kind) && is_over(rest) {
        return Reached::At(start);
    }
    let word = match field.kind {
        Kind::Stop => rest.get(1..).unwrap_or(""),
        _ => first_word(rest.get(1..).unwrap_or("")),
    };
    if rest.len() == blanks {
        return Reached::Fault(Found::of(Slip::Missing, start, text.len()).about(field));
    }
    if blanks > 1 {
        return Reached::Fault(Found::of(Slip::Doubled, start, start.saturating_add(blanks)));
    }
    if field.kind.read(word).is_some() {
        return Reached::At(begin.saturating_add(word.len()));
    }
    Reached::Fault(field_slip(field, word).shifted(begin))
}

// Whether a line may end before a field of that kind.
fn may_lack(kind: Kind) -> bool {
    matches!(kind, Kind::Class)
}

// Whether no field follows: only blanks do, an answer, or a comment.
fn is_over(rest: &str) -> bool {
    let word = first_word(rest.trim_start());
    word.is_empty() || word == "=" || word.starts_with('#')
}

// What is against a word that is none of a field's kind.
fn field_slip(field: Field, word: &str) -> Found {
    let found = match field.kind {
        Kind::Number | Kind::LongNumber | Kind::Instructions | Kind::Class => {
            number_slip(field.kind, word)
        }
        Kind::Status | Kind::Byte => byte_slip(field.kind, word),
        Kind::Sense => bytes_slip(word),
        Kind::Stop => stop_slip(word),
    };
    found.about(field)
}

// What follows the last field of a line, which is of that kind, from that byte on.
fn end_slip(last: Option<Kind>, text: &str, start: usize) -> Option<Found> {
    let rest = text.get(start..).unwrap_or("");
    if rest.is_empty() {
        return None;
    }
    Some(rest_slip(last, rest).shifted(start))
}

fn rest_slip(last: Option<Kind>, rest: &str) -> Found {
    let blanks = blanks_of(rest);
    let word = first_word(rest.get(blanks..).unwrap_or(""));
    if word.is_empty() {
        return Found::of(Slip::Trailing, 0, rest.len());
    }
    if let Some(found) = character_slip(rest.get(blanks..).unwrap_or("")) {
        let found = found.shifted(blanks);
        if found.slip.is(Slip::Comment) {
            return Found::of(Slip::Comment, found.start, rest.len());
        }
        return found;
    }
    if word == "=" {
        return Found::of(Slip::Answered, 0, rest.len());
    }
    if let Some(Kind::Sense) = last {
        if has_digits16(word) {
            return Found::of(Slip::PartedBytes, 0, blanks);
        }
    }
    Found::of(Slip::TooMany, blanks, rest.len())
}
