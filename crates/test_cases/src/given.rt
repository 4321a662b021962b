// What a command is given: its words and its input files. It relies on `world_calls` for those that are read off a trace.

use crate::calls::calls_of;
use crate::case::File;
use crate::fault::LineFault;
use std::alloc::{AllocError, Global};

/// What stands in an input file.
#[derive(Drop)]
pub enum Content {
    Bytes(Vec<u8>),
    /// The calls of the trace that is wanted on standard output.
    Calls,
}

/// An input file as a case has it.
#[derive(Drop)]
pub struct Source<'a> {
    pub name: &'a str,
    pub content: Content,
}

impl<'a> Source<'a> {
    /// The file of the case on that line, which wants that on standard output. Refused where its calls are asked for and that is no trace.
    pub fn file(&self, alloc: Global, out: &[u8], line: usize) -> Result<File<'a>, LineFault> {
        let bytes = match &self.content {
            Content::Bytes(bytes) => bytes.as_slice().to_vec(alloc)?,
            Content::Calls => calls_of(alloc, out)?.ok_or(LineFault::Case(line))?,
        };
        Ok(File {
            name: self.name,
            bytes,
        })
    }
}

/// The words and files that a case has where it says nothing else.
#[derive(Drop)]
pub struct Usual<'a> {
    words: Option<Vec<Vec<u8>>>,
    files: Vec<Source<'a>>,
}

impl<'a> Usual<'a> {
    /// Nothing is usual.
    pub fn new(alloc: Global) -> Self {
        Usual {
            words: None,
            files: Vec::new(alloc),
        }
    }

    /// From here on these are the usual words.
    pub fn set_words(&mut self, words: Vec<Vec<u8>>) {
        self.words = Some(words);
    }

    /// From here on this is the usual file of its name.
    pub fn set_file(&mut self, file: Source<'a>) -> Result<(), AllocError> {
        let name = file.name;
        self.files.retain(|other| other.name != name);
        self.files.push(file)?;
        Ok(())
    }

    /// A copy of the usual words, if there are any.
    pub fn words(&self, alloc: Global) -> Result<Option<Vec<Vec<u8>>>, AllocError> {
        let Some(words) = &self.words else {
            return Ok(None);
        };
        let mut copies = Vec::new(alloc);
        for word in words {
            copies.push(word.as_slice().to_vec(alloc)?)?;
        }
        Ok(Some(copies))
    }

    /// Adds the usual files that the words of the case on that line name, and that are not among its own.
    pub fn add_files(
        &self,
        alloc: Global,
        words: &[Vec<u8>],
        out: &[u8],
        line: usize,
        files: &mut Vec<File<'a>>,
    ) -> Result<(), LineFault> {
        for source in &self.files {
            let name = source.name;
            if names(words, name) && !files.iter().any(|file| file.name == name) {
                let file = source.file(alloc, out, line)?;
                files.push(file).map_err(AllocError::from)?;
            }
        }
        Ok(())
    }
}

// Whether one of the words is that name.
fn names(words: &[Vec<u8>], name: &str) -> bool {
    words.iter().any(|word| word.as_slice() == name.as_bytes())
}
