// How many openings queues had over time. It relies on `show_events` for when they change.

use cli_text_page::Page;
use engine_config::Config;
use helpers::HelperEffect;
use show_events::{Event, Happening};
use show_json::{Json, OPENINGS};

/// How many changes of a queue are told one by one.
const TOLD: usize = 8;

/// How many queues there are at most.
const QUEUES: usize = 64;

/// A change: when, and to how many.
#[derive(Clone, Copy, Default)]
struct Change {
    clock: u64,
    openings: u64,
}

/// The openings of a queue.
#[derive(Clone, Copy, Default)]
struct Openings {
    first: u64,
    changes: [Change; TOLD],
    // how many changes there were, and how many openings there were after the last
    count: u64,
    last: u64,
}

/// The openings of all queues, in the order of their numbers.
#[derive(Clone, Copy)]
pub(crate) struct AllOpenings {
    queues: [Openings; QUEUES],
}

impl AllOpenings {
    /// Those at the opening of a configuration.
    pub(crate) fn new(config: &Config) -> Self {
        let mut queues = [Openings::default(); QUEUES];
        for queue in 0..config.queues() {
            if let Some(openings) = queues.get_mut(queue as usize) {
                openings.first = u64::from(config.openings(queue));
            }
        }
        AllOpenings { queues }
    }

    /// Takes how many openings of a queue were carried over.
    pub(crate) fn carry(&mut self, queue: u32, count: u32) {
        if let Some(openings) = self.queues.get_mut(queue as usize) {
            openings.first = u64::from(count);
        }
    }

    /// Takes what an event says.
    pub(crate) fn see(&mut self, event: &Event) {
        let Happening::Helped(HelperEffect::SetOpenings) = event.happening else {
            return;
        };
        let (new, old) = (event.values.numbers[0], event.values.numbers[3]);
        let queue = event.queue().unwrap_or(u32::MAX);
        if old != new {
            if let Some(openings) = self.queues.get_mut(queue as usize) {
                openings.set(event.clock, new);
            }
        }
    }

    /// Puts how many openings the queue had, one after the other.
    pub(crate) fn print(&self, queue: u32, page: &mut Page) {
        if let Some(openings) = self.queues.get(queue as usize) {
            openings.print(page);
        }
    }

    /// Puts the same as an object.
    pub(crate) fn put(&self, queue: u32, json: &mut Json) {
        if let Some(openings) = self.queues.get(queue as usize) {
            openings.put(json);
        }
    }
}

impl Openings {
    fn set(&mut self, clock: u64, openings: u64) {
        if let Some(change) = self.changes.get_mut(self.count as usize) {
            *change = Change { clock, openings };
        }
        self.count = self.count.saturating_add(1);
        self.last = openings;
    }

    fn print(&self, page: &mut Page) {
        page.number(self.first);
        for change in self.changes.iter().take(self.count as usize) {
            page.fill(", {} at {} ms", &[change.openings, change.clock]);
        }
        let more = self.count.saturating_sub(TOLD as u64);
        if more > 0 {
            page.fill(", and after {} further changes {}", &[more, self.last]);
        }
    }

    fn put(&self, json: &mut Json) {
        json.begin_at(OPENINGS);
        json.number("first", self.first);
        json.begin_list("changes");
        for change in self.changes.iter().take(self.count as usize) {
            json.begin();
            json.digits("time", change.clock);
            json.number(OPENINGS, change.openings);
            json.end();
        }
        json.end_list();
        json.number("further_changes", self.count.saturating_sub(TOLD as u64));
        let last = if self.count > 0 {
            self.last
        } else {
            self.first
        };
        json.number("last", last);
        json.end();
    }
}
