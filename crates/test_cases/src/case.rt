// A case: a command with its files, and what it has to show. It relies on `outcome`.

use crate::outcome::Outcome;

/// A command and what it has to show.
#[derive(Drop)]
pub struct Case<'a> {
    pub name: &'a str,
    /// The line on which it begins, the first being 1.
    pub line: usize,
    /// The words after the program's name, which need not be UTF-8.
    pub words: Vec<Vec<u8>>,
    pub files: Vec<File<'a>>,
    /// What comes on standard input.
    pub input: Vec<u8>,
    pub wanted: Outcome,
}

/// An input file.
#[derive(Drop)]
pub struct File<'a> {
    pub name: &'a str,
    pub bytes: Vec<u8>,
}
