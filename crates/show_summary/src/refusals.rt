// How often calls were refused, by the code of the refusal. It relies on `show_events` for refused calls, and on `ccb` for the codes.

use ccb::REFUSALS;
use cli_text_page::Page;
use show_events::Event;
use show_json::Json;

/// How many refusals there are.
const CODES: usize = REFUSALS.len();

/// How often a call was refused so, in the order of the refusals.
#[derive(Clone, Copy)]
pub(crate) struct Refused {
    counts: [u64; CODES],
}

impl Refused {
    /// No call was refused.
    pub(crate) fn new() -> Self {
        Refused { counts: [0; CODES] }
    }

    /// Takes what an event says.
    pub(crate) fn see(&mut self, event: &Event) {
        if event.happening.is_refused() {
            if let Some(count) = self.counts.get_mut(event.values.refusal as usize) {
                *count = count.saturating_add(1);
            }
        }
    }

    /// Puts the codes that there were, and how often each was.
    pub(crate) fn print(&self, page: &mut Page) {
        page.text("refused calls ");
        let mut has_any = false;
        for row in &REFUSALS {
            let count = self.of(row.refusal as usize);
            if count > 0 {
                page.text(if has_any { ", " } else { "" });
                page.shown(&row.refusal);
                page.fill(": {}", &[count]);
                has_any = true;
            }
        }
        page.text(if has_any { "\n" } else { "none\n" });
    }

    /// Puts the same as a list.
    pub(crate) fn put(&self, json: &mut Json) {
        json.begin_list("refused");
        for row in &REFUSALS {
            let count = self.of(row.refusal as usize);
            if count > 0 {
                json.begin();
                json.shown("code", &row.refusal);
                json.number("count", count);
                json.end();
            }
        }
        json.end_list();
    }

    fn of(&self, place: usize) -> u64 {
        match self.counts.get(place) {
            Some(count) => *count,
            None => 0,
        }
    }
}
