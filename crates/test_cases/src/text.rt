// A text of a case, as it is written line by line. It relies on `escapes`.

use crate::escapes;
use crate::fault::LineFault;
use std::alloc::{AllocError, Global};

/// A text, and in a shared one the place that is left for a case's own text.
#[derive(Drop)]
pub struct Text {
    bytes: Vec<u8>,
    place: Option<usize>,
}

impl Text {
    pub fn new(alloc: Global) -> Self {
        Text {
            bytes: Vec::new(alloc),
            place: None,
        }
    }

    /// Whether a line of a file is one of a text, by what it begins with.
    pub fn has_line(line: &str) -> bool {
        line.starts_with('|')
            || line.starts_with('>')
            || line.starts_with('*')
            || line.starts_with('@')
    }

    /// Adds what one line of a file says. After an error the text may have a part of it.
    pub fn push(&mut self, alloc: Global, line: &str) -> Result<(), LineFault> {
        match line.split_once(' ') {
            Some(("|", rest)) => self.push_line(rest),
            Some((">", rest)) => escapes::push(&mut self.bytes, rest),
            Some(("*", rest)) => self.push_lines(alloc, rest),
            None if line == "|" => self.push_line(""),
            None if line == "@" => self.leave_place(),
            _ => Err(LineFault::Form),
        }
    }

    /// Adds a shared text; one with a place left in it is refused.
    pub fn push_text(&mut self, text: &Text) -> Result<(), LineFault> {
        if text.place.is_some() {
            return Err(LineFault::Form);
        }
        self.bytes.extend_from_slice(&text.bytes)?;
        Ok(())
    }

    fn push_line(&mut self, line: &str) -> Result<(), LineFault> {
        self.bytes.extend_from_slice(line.as_bytes())?;
        self.end_line()
    }

    fn end_line(&mut self) -> Result<(), LineFault> {
        self.bytes.push(b'\n').map_err(AllocError::from)?;
        Ok(())
    }

    // `1..255 TEXT`: a line for each number, which stands in it where the text has `{}`.
    fn push_lines(&mut self, alloc: Global, line: &str) -> Result<(), LineFault> {
        let (numbers, text) = line.split_once(' ').ok_or(LineFault::Form)?;
        let (first, last) = numbers.split_once("..").ok_or(LineFault::Form)?;
        let (first, last) = (number(first)?, number(last)?);
        if last < first {
            return Err(LineFault::Form);
        }
        for number in first..=last {
            let digits = format!(in alloc; "{number}")?;
            self.push_numbered(text, digits.as_str())?;
        }
        Ok(())
    }

    fn push_numbered(&mut self, text: &str, digits: &str) -> Result<(), LineFault> {
        for (place, part) in text.split("{}").enumerate() {
            if place > 0 {
                self.bytes.extend_from_slice(digits.as_bytes())?;
            }
            escapes::push(&mut self.bytes, part)?;
        }
        self.end_line()
    }

    // A second place is refused.
    fn leave_place(&mut self) -> Result<(), LineFault> {
        if self.place.is_some() {
            return Err(LineFault::Form);
        }
        self.place = Some(self.bytes.len());
        Ok(())
    }

    /// The bytes of a text of a case; one with a place left in it is refused.
    pub fn into_bytes(self) -> Result<Vec<u8>, LineFault> {
        let Text { bytes, place } = self;
        match place {
            None => Ok(bytes),
            Some(_) => Err(LineFault::Form),
        }
    }

    /// The bytes of this shared text with those of a case at its place, or after it where it has none.
    pub fn filled(&self, alloc: Global, own: &[u8]) -> Result<Vec<u8>, AllocError> {
        let parts = self
            .place
            .and_then(|place| self.bytes.split_at_checked(place));
        let (front, back) = match parts {
            Some(parts) => parts,
            None => (self.bytes.as_slice(), [].as_slice()),
        };
        let mut bytes = front.to_vec(alloc)?;
        bytes.extend_from_slice(own)?;
        bytes.extend_from_slice(back)?;
        Ok(bytes)
    }
}

fn number(digits: &str) -> Result<u32, LineFault> {
    digits.parse().map_err(|_| LineFault::Form)
}
