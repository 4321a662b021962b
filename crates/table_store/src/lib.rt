// The tables that recovery programs share: each is a row of 64 bit words, named by table and index.
// All memory is taken when the tables are made. It relies on nothing but the standard library.
#![tactic(auto)]

ghost use Rattle.std.specs.Prelude.{◌≡◌, ◌+◌, ◌%◌, ◌^◌, ◌<◌, ◌↔◌, IsTrue, IfOk, length, map, slice_index, slice_index_or, [], List, ℕ};
ghost use Rattle.table_store.specs.Tables.{HasWord, table_with, tables_with, with_word, word_at, zero_table};

use std::alloc::{AllocError, Global};
use std::marker::Model;

// The first words of the table of this number, none if there is no list for it.
fn firsts_at(firsts: &[Vec<u64>], number: usize) -> &[u64]
    ensures { result.now ≡ slice_index_or (map (λ words. words.items) firsts.now) number [] }
{
    match firsts.get(number) {
        Some(words) => words.as_slice(),
        None => &[],
    }
}

// A table of this length that begins with these words.
fn table_with(alloc: Global, length: u16, words: &[u64]) -> Result<Vec<u64>, AllocError>
    ensures { IfOk result (λ table. table.items ≡ table_with length words.now) }
{
    let length = usize::from(length);
    let mut table = Vec::with_capacity(alloc, length)?;
    for index in 0..length {
        table.push(word_of(words, index))?;
    }
    Ok(table)
}

// The word at this index, 0 if there are fewer.
fn word_of(words: &[u64], index: usize) -> u64
    ensures { result ≡ slice_index words.now index }
{
    words.get(index).copied().unwrap_or(0)
}

/// Tables of words. Contracts see the list of tables, each a list of its words.
#[derive(Debug, Drop)]
pub struct TableStore {
    tables: Vec<Vec<u64>>,
}

impl Model for TableStore {
    ghost use Rattle.std.specs.Prelude.{ℕ, List, map};

    ghost Value = { List (List ℕ) };

    ghost view = { λ store. map (λ table. table.items) store.tables.items };
}

impl TableStore {
    /// One table of each of these lengths in words, numbered from 0 in this order, with all words 0.
    /// Only this call takes memory; where it is refused, nothing is kept.
    pub fn with_lengths(alloc: Global, lengths: &[u16]) -> Result<Self, AllocError>
        ensures { IfOk result (λ store. store ≡ map zero_table lengths.now) }
    {
        let mut tables = Vec::with_capacity(alloc, lengths.len())?;
        for length in lengths {
            tables.push(vec![in alloc; 0; usize::from(*length)]?)?;
        }
        Ok(TableStore { tables })
    }

    /// One table of each of these lengths in words, numbered from 0 in this order. Each begins with the words of its list, if there is
    /// one, as many as it has room for, and its other words are 0. If memory is refused, nothing is kept.
    pub fn with_words(
        alloc: Global,
        lengths: &[u16],
        firsts: &[Vec<u64>],
    ) -> Result<Self, AllocError>
        ensures { IfOk result (λ store. store ≡ tables_with lengths.now (map (λ words. words.items) firsts.now)) }
    {
        let mut tables = Vec::with_capacity(alloc, lengths.len())?;
        for number in 0..lengths.len() {
            let table = table_with(alloc, lengths[number], firsts_at(firsts, number))?;
            tables.push(table)?;
        }
        Ok(TableStore { tables })
    }

    /// Whether there is a word of this index in a table of this number.
    pub fn has_word(&self, table: usize, index: usize) -> bool
        ensures { IsTrue result ↔ HasWord self.now table index }
    {
        self.tables
            .get(table)
            .is_some_and(|words| index < words.len())
    }

    /// The word at an index, from 0, of a table.
    pub fn get(&self, table: usize, index: usize) -> u64
        requires { HasWord self.now table index }
        ensures { result ≡ word_at self.now table index }
    {
        self.tables[table][index]
    }

    /// Writes the word, and answers the one that stood there.
    pub fn put(&mut self, table: usize, index: usize, value: u64) -> u64
        requires { HasWord self.old table index }
        ensures answer { result ≡ word_at self.old table index }
        ensures tables { self.new ≡ with_word self.old table index value }
        ensures lengths { map length self.new ≡ map length self.old }
    {
        let word = &mut self.tables[table][index];
        let old = *word;
        *word = value;
        old
    }

    /// Adds to the word, modulo 2^64, and answers the sum.
    pub fn add(&mut self, table: usize, index: usize, value: u64) -> u64
        requires { HasWord self.old table index }
        ensures answer { result ≡ (word_at self.old table index + value) % 2 ^ 64 }
        ensures tables { self.new ≡ with_word self.old table index result }
        ensures lengths { map length self.new ≡ map length self.old }
    {
        let word = &mut self.tables[table][index];
        *word = word.wrapping_add(value);
        *word
    }
}
