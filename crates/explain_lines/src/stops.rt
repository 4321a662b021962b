// What is against a text that is to say where a run stopped. It relies on `bytes` and `numbers`, and on `helpers` for what is told of a
// call.

use crate::bytes::{bytes_slip, code_slip};
use crate::numbers::number_slip;
use crate::slips::{Found, Slip};
use helpers::{Helper, Tells};
use trace_lines::{Kind, Value};

/// What is against such a text, which is none.
pub fn stop_slip(text: &str) -> Found {
    let name = first_word(text);
    if name == "exit" {
        return Found::of(Slip::TooMany, name.len(), text.len());
    }
    if name != "helper" {
        return Found::of(Slip::NoStop, 0, name.len());
    }
    let start = name.len().saturating_add(1);
    let rest = text.get(start..).unwrap_or("");
    if rest.is_empty() {
        return Found::of(Slip::NoStop, 0, text.len());
    }
    helper_slip(rest).shifted(start)
}

// The same of what follows `helper`.
fn helper_slip(text: &str) -> Found {
    let name = first_word(text);
    if name.is_empty() {
        return Found::of(Slip::Doubled, 0, blanks_of(text));
    }
    let number = match Kind::Number.read(name) {
        Some(Value::Number(number)) => number,
        _ => return number_slip(Kind::Number, name),
    };
    match helper_of(number) {
        Some(helper) => told_slip(helper, text, name.len()),
        None => Found::of(Slip::NoHelper, 0, name.len()),
    }
}

// The same of what follows the number of a helper, from that byte on.
fn told_slip(helper: Helper, text: &str, start: usize) -> Found {
    let told = helper.row().tells;
    if let Tells::Name = told {
        return Found::of(Slip::TooMany, start, text.len());
    }
    let start = start.saturating_add(1);
    let word = text.get(start..).unwrap_or("");
    if word.is_empty() {
        return Found::of(Slip::Untold, text.len(), text.len());
    }
    if word.starts_with(' ') {
        return Found::of(
            Slip::Doubled,
            start.saturating_sub(1),
            start.saturating_add(blanks_of(word)),
        );
    }
    match told {
        Tells::Code => code_slip(word).shifted(start),
        _ => bytes_slip(word).shifted(start),
    }
}

/// The helper of a number, if there is one.
pub fn helper_of(number: u32) -> Option<Helper> {
    match u8::try_from(number) {
        Ok(number) => Helper::with_number(i32::from(number)),
        Err(_) => None,
    }
}

/// The front of a text up to its first blank.
pub fn first_word(text: &str) -> &str {
    match text.split(' ').next() {
        Some(word) => word,
        None => "",
    }
}

/// How many blanks a text begins with.
pub fn blanks_of(text: &str) -> usize {
    text.bytes().take_while(|byte| *byte == b' ').count()
}
