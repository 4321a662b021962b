// Reads a file of cases, line by line. It relies on `text` for the lines of texts, on `draft` for what a case may have, and on
// `given` for what is usual.

use crate::case::Case;
use crate::draft::{Draft, Part};
use crate::escapes;
use crate::fault::{CaseError, LineFault};
use crate::given::{Content, Source, Usual};
use crate::text::Text;
use std::alloc::{AllocError, Global};
use std::mem;

/// The cases of a file, in its order.
pub fn read(alloc: Global, text: &str) -> Result<Vec<Case<'_>>, CaseError> {
    let mut reader = Reader::new(alloc);
    let mut number = 0usize;
    for line in text.split('\n') {
        number = number.saturating_add(1);
        reader.take(line, number).map_err(|fault| fault.at(number))?;
    }
    reader.finish().map_err(|fault| fault.at(number))
}

// A text that several cases share.
#[derive(Drop)]
struct Shared<'a> {
    name: &'a str,
    text: Text,
}

// Which text is being read. One that stands in a shared one has that one's name.
#[derive(Clone, Copy)]
enum Heading<'a> {
    // the shared one of that name
    Shared(&'a str),
    // the usual file of that name
    Usual(&'a str, Option<&'a str>),
    // one of the case
    OfCase(Part<'a>, Option<&'a str>),
}

#[derive(Drop)]
struct Reader<'a> {
    alloc: Global,
    shared: Vec<Shared<'a>>,
    usual: Usual<'a>,
    cases: Vec<Case<'a>>,
    draft: Option<Draft<'a>>,
    heading: Option<Heading<'a>>,
    // what was read of the text under the heading
    text: Text,
}

impl<'a> Reader<'a> {
    fn new(alloc: Global) -> Self {
        Reader {
            alloc,
            shared: Vec::new(alloc),
            usual: Usual::new(alloc),
            cases: Vec::new(alloc),
            draft: None,
            heading: None,
            text: Text::new(alloc),
        }
    }

    fn take(&mut self, line: &'a str, number: usize) -> Result<(), LineFault> {
        if line.is_empty() || line.starts_with('#') {
            return Ok(());
        }
        if Text::has_line(line) {
            return self.take_text(line);
        }
        self.end_text()?;
        let (word, rest) = parted(line);
        match word {
            "shared" => self.begin_shared(rest),
            "usual" => self.take_usual(rest),
            "case" => self.begin_case(rest, number),
            "words" => self.take_words(rest),
            "file" => self.begin_file(rest),
            "calls" => self.take_calls(rest),
            "in" => self.begin_text(Part::Input, rest),
            "out" => self.begin_text(Part::Out, rest),
            "err" => self.begin_text(Part::Err, rest),
            "status" => self.take_status(rest),
            _ => Err(LineFault::Form),
        }
    }

    // A line of the text under the heading.
    fn take_text(&mut self, line: &str) -> Result<(), LineFault> {
        if self.heading.is_none() {
            return Err(LineFault::Form);
        }
        match line.strip_prefix("@ ") {
            Some(name) => self.take_shared(name),
            None => self.text.push(self.alloc, line),
        }
    }

    // The shared text of that name stands here.
    fn take_shared(&mut self, name: &str) -> Result<(), LineFault> {
        match self.shared.iter().find(|shared| shared.name == name) {
            Some(shared) => self.text.push_text(&shared.text),
            None => Err(LineFault::Form),
        }
    }

    // A shared text stands between cases, and its name is its own.
    fn begin_shared(&mut self, rest: &'a str) -> Result<(), LineFault> {
        self.end_case(None)?;
        let (name, line) = parted(rest);
        if name.is_empty() || self.has_shared(name) {
            return Err(LineFault::Form);
        }
        self.heading = Some(Heading::Shared(name));
        self.take_behind(line)
    }

    fn has_shared(&self, name: &str) -> bool {
        self.shared.iter().any(|shared| shared.name == name)
    }

    // `usual words ..`, `usual file ..` or `usual calls ..`, which stands between cases.
    fn take_usual(&mut self, rest: &'a str) -> Result<(), LineFault> {
        self.end_case(None)?;
        let (word, rest) = parted(rest);
        match word {
            "words" => {
                let words = words_of(self.alloc, rest)?;
                self.usual.set_words(words);
                Ok(())
            }
            "file" => {
                let (name, rest) = parted(rest);
                let (within, line) = self.parts_of(rest)?;
                self.heading = Some(Heading::Usual(name, within));
                self.take_behind(line)
            }
            "calls" => Ok(self.usual.set_file(calls_in(rest))?),
            _ => Err(LineFault::Form),
        }
    }

    fn begin_case(&mut self, name: &'a str, number: usize) -> Result<(), LineFault> {
        self.end_case(None)?;
        if name.is_empty() {
            return Err(LineFault::Form);
        }
        self.draft = Some(Draft::new(self.alloc, name, number));
        Ok(())
    }

    fn take_words(&mut self, line: &str) -> Result<(), LineFault> {
        let words = words_of(self.alloc, line)?;
        match &mut self.draft {
            Some(draft) => draft.set_words(words),
            None => Err(LineFault::Form),
        }
    }

    fn take_calls(&mut self, name: &'a str) -> Result<(), LineFault> {
        match &mut self.draft {
            Some(draft) => draft.add_file(calls_in(name)),
            None => Err(LineFault::Form),
        }
    }

    fn begin_file(&mut self, rest: &'a str) -> Result<(), LineFault> {
        let (name, rest) = parted(rest);
        self.begin_text(Part::File(name), rest)
    }

    fn begin_text(&mut self, part: Part<'a>, rest: &'a str) -> Result<(), LineFault> {
        if self.draft.is_none() {
            return Err(LineFault::Form);
        }
        let (within, line) = self.parts_of(rest)?;
        self.heading = Some(Heading::OfCase(part, within));
        self.take_behind(line)
    }

    // What follows a heading: the shared text in which the text stands, if any, and its first line, which is empty where it has none.
    fn parts_of(&self, rest: &'a str) -> Result<(Option<&'a str>, &'a str), LineFault> {
        if rest.is_empty() || Text::has_line(rest) {
            return Ok((None, rest));
        }
        let (name, line) = parted(rest);
        if self.has_shared(name) {
            Ok((Some(name), line))
        } else {
            Err(LineFault::Form)
        }
    }

    // The line of a text that stands after its heading, if any does.
    fn take_behind(&mut self, line: &str) -> Result<(), LineFault> {
        if line.is_empty() {
            Ok(())
        } else {
            self.take_text(line)
        }
    }

    // The text that was read goes where it belongs.
    fn end_text(&mut self) -> Result<(), LineFault> {
        let Some(heading) = self.heading else {
            return Ok(());
        };
        self.heading = None;
        let text = mem::replace(&mut self.text, Text::new(self.alloc));
        match heading {
            Heading::Shared(name) => {
                let shared = Shared { name, text };
                self.shared.push(shared).map_err(AllocError::from)?;
                Ok(())
            }
            Heading::Usual(name, within) => {
                let content = Content::Bytes(self.bytes_of(text, within)?);
                Ok(self.usual.set_file(Source { name, content })?)
            }
            Heading::OfCase(part, within) => {
                let bytes = self.bytes_of(text, within)?;
                match &mut self.draft {
                    Some(draft) => draft.set(part, bytes),
                    None => Err(LineFault::Form),
                }
            }
        }
    }

    // The bytes of a text of a case, and of the shared one in which it stands.
    fn bytes_of(&self, text: Text, within: Option<&str>) -> Result<Vec<u8>, LineFault> {
        let bytes = text.into_bytes()?;
        let Some(within) = within else {
            return Ok(bytes);
        };
        match self.shared.iter().find(|shared| shared.name == within) {
            Some(shared) => Ok(shared.text.filled(self.alloc, &bytes)?),
            None => Err(LineFault::Form),
        }
    }

    fn take_status(&mut self, status: &str) -> Result<(), LineFault> {
        if self.draft.is_none() {
            return Err(LineFault::Form);
        }
        let status = status.parse::<u8>().map_err(|_| LineFault::Form)?;
        self.end_case(Some(status))
    }

    // The case that is being read, if one is, ends with that status.
    fn end_case(&mut self, status: Option<u8>) -> Result<(), LineFault> {
        let Some(draft) = self.draft.take() else {
            return Ok(());
        };
        let case = draft.finish(self.alloc, status, &self.usual)?;
        self.cases.push(case).map_err(AllocError::from)?;
        Ok(())
    }

    fn finish(mut self) -> Result<Vec<Case<'a>>, LineFault> {
        self.end_text()?;
        self.end_case(None)?;
        Ok(self.cases)
    }
}

// The file of that name, with the calls of the trace.
fn calls_in(name: &str) -> Source<'_> {
    Source {
        name,
        content: Content::Calls,
    }
}

// A line's first word, and what follows the blank.
fn parted(line: &str) -> (&str, &str) {
    line.split_once(' ').unwrap_or((line, ""))
}

// The words of a line, which are parted by blanks.
fn words_of(alloc: Global, line: &str) -> Result<Vec<Vec<u8>>, LineFault> {
    let mut words = Vec::new(alloc);
    for spelled in line.split(' ') {
        if !spelled.is_empty() {
            let mut word = Vec::new(alloc);
            escapes::push(&mut word, spelled)?;
            words.push(word).map_err(AllocError::from)?;
        }
    }
    Ok(words)
}
