// The CCBs that were started most often. It relies on `show_events` for starts.

use cli_text_page::Page;
use show_events::{Event, Happening};
use show_json::Json;

/// How many CCBs are listed.
const LISTED: usize = 5;

/// A CCB, its queue, and how often it was started; 0 for none.
#[derive(Clone, Copy, Default)]
struct Tried {
    ccb: u32,
    queue: u32,
    attempts: u64,
}

impl Tried {
    // Whether it stands before that one: it was started more often, or as often and has the lower number.
    fn is_before(&self, other: &Tried) -> bool {
        self.attempts > other.attempts || (self.attempts == other.attempts && self.ccb < other.ccb)
    }
}

/// Those that were started most often, in their order.
#[derive(Clone, Copy, Default)]
pub(crate) struct MostTried {
    listed: [Tried; LISTED],
}

impl MostTried {
    /// Takes what an event says.
    pub(crate) fn see(&mut self, event: &Event) {
        let Happening::Started = event.happening else {
            return;
        };
        self.add(Tried {
            ccb: event.subject.ccb.unwrap_or(0),
            queue: event.queue().unwrap_or(0),
            attempts: event.values.numbers[0],
        });
    }

    // Puts it at its place. Those after it move on by one, up to the place where the same CCB stood.
    fn add(&mut self, it: Tried) {
        let mut moved = it;
        for place in 0..LISTED {
            if let Some(slot) = self.listed.get_mut(place) {
                if moved.is_before(slot) {
                    let next = *slot;
                    *slot = moved;
                    moved = if next.ccb == it.ccb {
                        Tried::default()
                    } else {
                        next
                    };
                }
            }
        }
    }

    /// Puts them, a line each.
    pub(crate) fn print(&self, page: &mut Page) {
        page.text("most attempts\n");
        for tried in &self.listed {
            if tried.attempts > 0 {
                page.fill(
                    "  ccb {} of queue {}: {}\n",
                    &[u64::from(tried.ccb), u64::from(tried.queue), tried.attempts],
                );
            }
        }
        if self.listed[0].attempts == 0 {
            page.text("  none\n");
        }
    }

    /// Puts the same as a list.
    pub(crate) fn put(&self, json: &mut Json) {
        json.begin_list("most_attempts");
        for tried in &self.listed {
            if tried.attempts > 0 {
                json.begin();
                json.number("ccb", u64::from(tried.ccb));
                json.number("queue", u64::from(tried.queue));
                json.number("attempts", tried.attempts);
                json.end();
            }
        }
        json.end_list();
    }
}
