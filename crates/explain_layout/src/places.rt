// What a text has, with its places. It relies on nothing.

use std::alloc::{AllocError, Global};

/// Bytes of a text: from `start` on, up to `end`.
#[derive(Clone, Copy, Debug, PartialEq, Eq)]
pub struct Span {
    pub start: usize,
    pub end: usize,
}

/// How many tables and keys are kept at most. A manifest that is accepted has some four hundred.
const MOST: usize = 20_000;

/// How many characters of a name are kept at most: more than a name has that means anything.
const MOST_OF_NAME: usize = 256;

/// A table of the text: the text itself, one with a header, or one in braces.
#[derive(Drop)]
pub struct TableAt {
    /// Its name as its header or its key has it, or the beginning of a long one; none for the text itself.
    pub name: String,
    /// Its header, or its opening brace.
    pub span: Span,
}

/// A key with its value.
#[derive(Drop)]
pub struct Entry {
    /// Which of the text's tables it stands in.
    pub table: usize,
    /// Its name, or the beginning of a long one; with dots, the last part.
    pub name: String,
    pub key: Span,
    pub value: Span,
}

/// The tables and keys of a text, in its order: all, or the first 20,000 of them.
#[derive(Drop)]
pub struct Layout {
    pub tables: Vec<TableAt>,
    pub entries: Vec<Entry>,
    /// The first table or key that is not kept, if there is one.
    pub left_out: Option<Span>,
    /// Where a text in quotes begins of which the end was not found, or which is none; all after it is not read.
    pub unread_string: Option<usize>,
}

impl Layout {
    /// Nothing.
    pub(crate) fn empty(alloc: Global) -> Self {
        Layout {
            tables: Vec::new(alloc),
            entries: Vec::new(alloc),
            left_out: None,
            unread_string: None,
        }
    }

    // Whether as many tables and keys are kept as may be.
    pub(crate) fn is_full(&self) -> bool {
        self.tables.len().saturating_add(self.entries.len()) >= MOST
    }

    /// The table of that name before which so many of its name stand, by its place among all tables.
    pub fn table(&self, name: &str, number: usize) -> Option<usize> {
        let mut before = 0usize;
        for (place, table) in self.tables.iter().enumerate() {
            if table.name.as_str() == name {
                if before == number {
                    return Some(place);
                }
                before = before.saturating_add(1);
            }
        }
        None
    }

    /// The key of that name in a table.
    pub fn entry(&self, table: usize, name: &str) -> Option<&Entry> {
        for entry in &self.entries {
            if entry.table == table && entry.name.as_str() == name {
                return Some(entry);
            }
        }
        None
    }
}

/// A name, or the beginning of one that is too long to mean anything.
pub(crate) fn kept_name(alloc: Global, name: String) -> Result<String, AllocError> {
    match name.as_str().char_indices().nth(MOST_OF_NAME) {
        Some((end, _)) => String::from_str(alloc, name.as_str().get(..end).unwrap_or("")),
        None => Ok(name),
    }
}
