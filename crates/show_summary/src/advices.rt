// What policies advised: by the word, how often it was advised, and how often a start told it. It relies on `show_events` for both, and on
// `show_account` for the names of words.

use cli_text_page::Page;
use helpers::HelperEffect;
use show_account::put_advice;
use show_events::{Event, Happening};
use show_json::{Json, put_advice_word};
use std::alloc::{AllocError, Global};
use std::collections::BTreeMap;

/// How many different words are counted each by itself. Those that come later are counted together.
const WORDS: usize = 1024;

/// How often a word was advised, and how often a start told it.
#[derive(Clone, Copy, Default)]
struct Advised {
    calls: u64,
    starts: u64,
}

impl Advised {
    fn add(&mut self, more: Advised) {
        self.calls = self.calls.saturating_add(more.calls);
        self.starts = self.starts.saturating_add(more.starts);
    }
}

/// All that was advised.
#[derive(Drop)]
pub(crate) struct Advices {
    words: BTreeMap<u64, Advised>,
    // those beyond the words that are counted
    others: Advised,
}

impl Advices {
    /// Nothing was advised.
    pub(crate) fn new(alloc: Global) -> Self {
        Advices {
            words: BTreeMap::new(alloc),
            others: Advised::default(),
        }
    }

    /// Takes what an event says.
    pub(crate) fn see(&mut self, event: &Event) -> Result<(), AllocError> {
        let numbers = event.values.numbers;
        match event.happening {
            Happening::Helped(HelperEffect::Advise) => {
                self.count(
                    numbers[0],
                    Advised {
                        calls: 1,
                        starts: 0,
                    },
                )
            }
            Happening::Started if numbers[2] != 0 => {
                self.count(
                    numbers[2],
                    Advised {
                        calls: 0,
                        starts: 1,
                    },
                )
            }
            _ => Ok(()),
        }
    }

    fn count(&mut self, word: u64, more: Advised) -> Result<(), AllocError> {
        if let Some(advised) = self.words.get_mut(&word) {
            advised.add(more);
            return Ok(());
        }
        if self.words.len() >= WORDS {
            self.others.add(more);
            return Ok(());
        }
        let _ = self.words.insert(word, more)?;
        Ok(())
    }

    /// Puts them, a line each; nothing if there are none.
    pub(crate) fn print(&self, page: &mut Page) {
        if self.words.is_empty() {
            return;
        }
        page.text("advice\n");
        for (word, advised) in self.words.iter() {
            page.text("  ");
            put_advice(*word, page);
            print_counts(*advised, page);
        }
        if self.others.calls > 0 || self.others.starts > 0 {
            page.text("  others");
            print_counts(self.others, page);
        }
    }

    /// Puts the same as a list; nothing if there are none.
    pub(crate) fn put(&self, json: &mut Json) {
        if self.words.is_empty() {
            return;
        }
        json.begin_list("advice");
        for (word, advised) in self.words.iter() {
            json.begin();
            put_advice_word(*word, json);
            put_counts(*advised, json);
            json.end();
        }
        json.end_list();
        json.begin_at("advice_others");
        put_counts(self.others, json);
        json.end();
    }
}

fn print_counts(advised: Advised, page: &mut Page) {
    page.fill(
        ": advised {}, told at starts {}\n",
        &[advised.calls, advised.starts],
    );
}

fn put_counts(advised: Advised, json: &mut Json) {
    json.number("calls", advised.calls);
    json.number("starts", advised.starts);
}
