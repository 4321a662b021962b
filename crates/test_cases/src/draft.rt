// A case while it is read. It relies on `case` for what becomes of it, and on `given` for what is usual.

use crate::case::{Case, File};
use crate::fault::LineFault;
use crate::given::{Content, Source, Usual};
use crate::outcome::Outcome;
use std::alloc::{AllocError, Global};

/// Where a text of a case belongs.
#[derive(Clone, Copy)]
pub enum Part<'a> {
    /// In the input file of that name.
    File(&'a str),
    /// What comes on standard input.
    Input,
    /// On standard output.
    Out,
    /// On standard error.
    Err,
}

/// What was read of a case so far.
#[derive(Drop)]
pub struct Draft<'a> {
    name: &'a str,
    line: usize,
    words: Option<Vec<Vec<u8>>>,
    files: Vec<Source<'a>>,
    input: Option<Vec<u8>>,
    out: Option<Vec<u8>>,
    err: Option<Vec<u8>>,
}

impl<'a> Draft<'a> {
    /// The case that begins on that line.
    pub fn new(alloc: Global, name: &'a str, line: usize) -> Self {
        Draft {
            name,
            line,
            words: None,
            files: Vec::new(alloc),
            input: None,
            out: None,
            err: None,
        }
    }

    /// Refused where the case has its words.
    pub fn set_words(&mut self, words: Vec<Vec<u8>>) -> Result<(), LineFault> {
        if self.words.is_some() {
            return Err(LineFault::Form);
        }
        self.words = Some(words);
        Ok(())
    }

    /// Puts a text where it belongs; refused where there is one.
    pub fn set(&mut self, part: Part<'a>, bytes: Vec<u8>) -> Result<(), LineFault> {
        match part {
            Part::File(name) => self.add_file(Source {
                name,
                content: Content::Bytes(bytes),
            }),
            Part::Input if self.input.is_none() => {
                self.input = Some(bytes);
                Ok(())
            }
            Part::Out if self.out.is_none() => {
                self.out = Some(bytes);
                Ok(())
            }
            Part::Err if self.err.is_none() => {
                self.err = Some(bytes);
                Ok(())
            }
            Part::Input | Part::Out | Part::Err => Err(LineFault::Form),
        }
    }

    /// One input file more; refused where there is one of its name.
    pub fn add_file(&mut self, added: Source<'a>) -> Result<(), LineFault> {
        let name = added.name;
        if self.files.iter().any(|file| file.name == name) {
            return Err(LineFault::Form);
        }
        self.files.push(added).map_err(AllocError::from)?;
        Ok(())
    }

    /// The case with what is usual. It wants nothing on an output that it says nothing of, and without a status 1 where it wants something on
    /// standard error and else 0. Refused where it has no words, or no trace for its calls.
    pub fn finish(
        self,
        alloc: Global,
        status: Option<u8>,
        usual: &Usual<'a>,
    ) -> Result<Case<'a>, LineFault> {
        let Draft {
            name,
            line,
            words,
            files,
            input,
            out,
            err,
        } = self;
        let words = match words {
            Some(words) => words,
            None => usual.words(alloc)?.ok_or(LineFault::Case(line))?,
        };
        let wanted = wanted(alloc, out, err, status);
        let mut own = files_of(alloc, &files, &wanted.out, line)?;
        usual.add_files(alloc, &words, &wanted.out, line, &mut own)?;
        Ok(Case {
            name,
            line,
            words,
            files: own,
            input: input.unwrap_or(Vec::new(alloc)),
            wanted,
        })
    }
}

fn wanted(
    alloc: Global,
    out: Option<Vec<u8>>,
    err: Option<Vec<u8>>,
    status: Option<u8>,
) -> Outcome {
    let err = err.unwrap_or(Vec::new(alloc));
    let status = status.unwrap_or(if err.is_empty() { 0 } else { 1 });
    Outcome {
        out: out.unwrap_or(Vec::new(alloc)),
        err,
        status,
    }
}

fn files_of<'a>(
    alloc: Global,
    sources: &[Source<'a>],
    out: &[u8],
    line: usize,
) -> Result<Vec<File<'a>>, LineFault> {
    let mut files = Vec::new(alloc);
    for source in sources {
        let file = source.file(alloc, out, line)?;
        files.push(file).map_err(AllocError::from)?;
    }
    Ok(files)
}
