// What is written as a value of a manifest: its type, the part of it that is wrong, a number, and the numbers of an array. It relies on
// `toml_parser` for what a word stands for.

use crate::keys::Wants;
use explain_layout::Span;
use std::alloc::{AllocError, Global};
use toml_parser::{ParseError, Scalar, quoted, starts_string, unquoted};

/// Whether it is a header in one pair of brackets.
pub fn is_single(text: &str, span: Span) -> bool {
    let header = written(text, span);
    header.starts_with('[') && !header.starts_with("[[")
}

/// What stands in a part of a text.
pub fn written(text: &str, part: Span) -> &str {
    match text.get(part.start..part.end) {
        Some(written) => written,
        None => "",
    }
}

/// Whether a value is of the type that a key has.
pub fn is_of_form(alloc: Global, wants: Wants, value: &str) -> Result<bool, AllocError> {
    Ok(match wants {
        Wants::Number { .. } => number_in(alloc, value)?.is_some(),
        Wants::Text => starts_string(value),
        Wants::Code => is_code(alloc, value)?,
        Wants::Words => elements_in(alloc, value)?.are_numbers,
        Wants::Tables => value.starts_with('['),
    })
}

/// The elements of an array: how many there are, whether all are whole numbers, and the first negative one.
#[derive(Clone, Copy)]
pub struct Elements {
    pub count: u64,
    pub are_numbers: bool,
    pub negative: Option<i64>,
}

impl Elements {
    fn see(&mut self, alloc: Global, word: &str) -> Result<(), AllocError> {
        self.count = self.count.saturating_add(1);
        match number_in(alloc, word)? {
            Some(number) => {
                if number < 0 && self.negative.is_none() {
                    self.negative = Some(number);
                }
            }
            None => self.are_numbers = false,
        }
        Ok(())
    }
}

/// The elements of a value, of an array of numbers: what commas and line feeds part, without comments and blanks.
pub fn elements_in(alloc: Global, value: &str) -> Result<Elements, AllocError> {
    let mut elements = Elements {
        count: 0,
        are_numbers: value.starts_with('['),
        negative: None,
    };
    for line in inside(value).split('\n') {
        for word in uncommented(line).split(',') {
            let word = word.trim();
            if !word.is_empty() {
                elements.see(alloc, word)?;
            }
        }
    }
    Ok(elements)
}

// What stands between the brackets of an array.
fn inside(value: &str) -> &str {
    let end = value.len().saturating_sub(1);
    value.get(1..end).unwrap_or("")
}

// A line without its comment.
fn uncommented(line: &str) -> &str {
    match line.split_once('#') {
        Some((before, _)) => before,
        None => line,
    }
}

/// The whole number that is written so.
pub fn number_in(alloc: Global, value: &str) -> Result<Option<i64>, AllocError> {
    match unquoted(alloc, value) {
        Ok((Scalar::Integer(number), _)) => Ok(Some(number)),
        Err(ParseError::OutOfMemory) => Err(AllocError),
        _ => Ok(None),
    }
}

// Whether it is a text of pairs of digits.
fn is_code(alloc: Global, value: &str) -> Result<bool, AllocError> {
    if !starts_string(value) {
        return Ok(false);
    }
    match quoted(alloc, value) {
        Ok((text, _)) => Ok(text.as_str().split(is_blank).all(is_of_pairs)),
        Err(_) => Err(AllocError),
    }
}

/// The part of a value that is not of the form: of a text of digits the first word that is not pairs of them, and else the whole value.
pub fn fault_in(text: &str, wants: Wants, value: Span) -> Span {
    if wants != Wants::Code || !starts_string(written(text, value)) {
        return value;
    }
    let mut start = value.start;
    for word in written(text, value).split(is_around_word) {
        let end = start.saturating_add(word.len());
        if !is_of_pairs(word) {
            return Span { start, end };
        }
        start = end.saturating_add(1);
    }
    value
}

fn is_blank(letter: char) -> bool {
    matches!(letter, ' ' | '\t' | '\n')
}

fn is_around_word(letter: char) -> bool {
    is_blank(letter) || matches!(letter, '"' | '\'')
}

fn is_of_pairs(word: &str) -> bool {
    word.len() & 1 == 0 && word.bytes().all(is_of_pair)
}

fn is_of_pair(byte: u8) -> bool {
    matches!(byte, b'0'..=b'9' | b'a'..=b'f')
}
