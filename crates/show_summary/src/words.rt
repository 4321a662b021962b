// The words of tables, as runs left them. It relies on `show_events` for the calls of helpers that write them.

use cli_text_page::Page;
use engine_config::Config;
use helpers::HelperEffect;
use show_events::{Event, Happening};
use show_json::Json;
use std::alloc::{AllocError, Global};

/// The tables of a configuration.
#[derive(Drop)]
pub(crate) struct Words {
    tables: Vec<Vec<u64>>,
}

impl Words {
    /// All words are 0.
    pub(crate) fn new(alloc: Global, config: &Config) -> Result<Self, AllocError> {
        let mut tables = Vec::new(alloc);
        for length in config.table_lengths() {
            tables.push(vec![in alloc; 0u64; *length as usize]?)?;
        }
        Ok(Words { tables })
    }

    /// The words are those with which the configuration has its tables begin.
    pub(crate) fn begin(&mut self, config: &Config) {
        let mut table = 0u64;
        for words in config.first_words() {
            self.begin_table(table, words.as_slice());
            table = table.saturating_add(1);
        }
    }

    fn begin_table(&mut self, table: u64, words: &[u64]) {
        let mut index = 0u64;
        for word in words {
            self.set(table, index, *word);
            index = index.saturating_add(1);
        }
    }

    /// Takes a word that was carried over.
    pub(crate) fn carry(&mut self, table: u32, index: u32, word: u64) {
        self.set(u64::from(table), u64::from(index), word);
    }

    /// Takes what an event says.
    pub(crate) fn see(&mut self, event: &Event) {
        let numbers = event.values.numbers;
        let Happening::Helped(effect) = event.happening else {
            return;
        };
        // a word that is put is R3, and after an addition the sum is the answer
        match effect {
            HelperEffect::PutWord => self.set(numbers[0], numbers[1], numbers[2]),
            HelperEffect::AddWord => self.set(numbers[0], numbers[1], numbers[3]),
            _ => {}
        }
    }

    // The word of the table is that, if there is such a word.
    fn set(&mut self, table: u64, index: u64, value: u64) {
        let (Ok(table), Ok(index)) = (usize::try_from(table), usize::try_from(index)) else {
            return;
        };
        if let Some(words) = self.tables.as_mut_slice().get_mut(table) {
            if let Some(word) = words.as_mut_slice().get_mut(index) {
                *word = value;
            }
        }
    }

    /// Puts each word that is not 0, a line each.
    pub(crate) fn print(&self, page: &mut Page) {
        let mut number = 0u64;
        for words in &self.tables {
            page.fill("table {}\n", &[number]);
            print_words(words, page);
            number = number.saturating_add(1);
        }
    }

    /// Puts the same as a list of tables, each with a list of its words.
    pub(crate) fn put(&self, json: &mut Json) {
        json.begin_list("tables");
        let mut number = 0u64;
        for words in &self.tables {
            json.begin();
            json.number("table", number);
            put_words(words, json);
            json.end();
            number = number.saturating_add(1);
        }
        json.end_list();
    }
}

fn print_words(words: &[u64], page: &mut Page) {
    let mut index = 0u64;
    let mut has_any = false;
    for word in words {
        if *word != 0 {
            page.fill("  word {}: {}\n", &[index, *word]);
            has_any = true;
        }
        index = index.saturating_add(1);
    }
    if !has_any {
        page.text("  all words are 0\n");
    }
}

fn put_words(words: &[u64], json: &mut Json) {
    json.begin_list("words");
    let mut index = 0u64;
    for word in words {
        if *word != 0 {
            json.begin();
            json.number("index", index);
            json.digits("word", *word);
            json.end();
        }
        index = index.saturating_add(1);
    }
    json.end_list();
}
