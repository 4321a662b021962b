// How long CCBs of queues waited and were active: how many times there were of each length, from which come the median and the time within
// which 99 % of them were. It relies on `show_events` for when a CCB starts and ends.

use cli_text_page::Page;
use show_events::{Event, Happening};
use show_json::Json;
use std::alloc::{AllocError, Global};
use std::collections::BTreeMap;

/// How many times there were, and of each length how many, in milliseconds.
#[derive(Drop)]
struct Durations {
    counts: BTreeMap<u64, u64>,
    all: u64,
    most: u64,
}

impl Durations {
    fn new(alloc: Global) -> Self {
        Durations {
            counts: BTreeMap::new(alloc),
            all: 0,
            most: 0,
        }
    }

    fn add(&mut self, time: u64) -> Result<(), AllocError> {
        self.all = self.all.saturating_add(1);
        self.most = self.most.max(time);
        if let Some(count) = self.counts.get_mut(&time) {
            *count = count.saturating_add(1);
            return Ok(());
        }
        let _ = self.counts.insert(time, 1)?;
        Ok(())
    }

    // The time of that rank, from 1 for the shortest.
    fn of_rank(&self, rank: u64) -> u64 {
        let mut shorter = 0u64;
        let mut found = 0u64;
        for (time, count) in self.counts.iter() {
            if shorter < rank {
                found = *time;
            }
            shorter = shorter.saturating_add(*count);
        }
        found
    }

    fn median(&self) -> u64 {
        self.of_rank(self.all.saturating_add(1) / 2)
    }

    // The time within which 99 % are.
    fn almost_most(&self) -> u64 {
        self.of_rank(self.all.saturating_sub(self.all / 100))
    }

    // Puts the median, the time within which 99 % are, and the longest one.
    fn print(&self, page: &mut Page) {
        if self.all == 0 {
            page.text("never\n");
            return;
        }
        page.fill(
            "median {} ms, 99 % {} ms, most {} ms\n",
            &[self.median(), self.almost_most(), self.most],
        );
    }

    // Puts the same under a key; null if there were no times.
    fn put(&self, key: &str, json: &mut Json) {
        if self.all == 0 {
            json.null(key);
            return;
        }
        json.begin_at(key);
        json.digits("median", self.median());
        json.digits("within_99_percent", self.almost_most());
        json.digits("most", self.most);
        json.end();
    }
}

/// Those of all queues, in the order of their numbers.
#[derive(Drop)]
pub(crate) struct AllDurations {
    waited: Vec<Durations>,
    active: Vec<Durations>,
}

impl AllDurations {
    /// No CCB waited or was active.
    pub(crate) fn new(alloc: Global, queues: u32) -> Result<Self, AllocError> {
        Ok(AllDurations {
            waited: none(alloc, queues)?,
            active: none(alloc, queues)?,
        })
    }

    /// Takes what an event says.
    pub(crate) fn see(&mut self, event: &Event) -> Result<(), AllocError> {
        let queue = event.queue().unwrap_or(u32::MAX) as usize;
        match event.happening {
            Happening::Started => add(&mut self.waited, queue, event.values.numbers[1]),
            Happening::Completed | Happening::Failed | Happening::FailedAtLimit => {
                add(&mut self.active, queue, event.values.numbers[0])
            }
            _ => Ok(()),
        }
    }

    /// Puts how long CCBs of the queue waited before a start, and how long they were active before a completion.
    pub(crate) fn print(&self, queue: u32, page: &mut Page) {
        page.text("  waited        ");
        print_of(&self.waited, queue, page);
        page.text("  active        ");
        print_of(&self.active, queue, page);
    }

    /// Puts the same as two objects.
    pub(crate) fn put(&self, queue: u32, json: &mut Json) {
        put_of("waited", &self.waited, queue, json);
        put_of("active", &self.active, queue, json);
    }
}

fn none(alloc: Global, queues: u32) -> Result<Vec<Durations>, AllocError> {
    let mut all = Vec::new(alloc);
    for _ in 0..queues {
        all.push(Durations::new(alloc))?;
    }
    Ok(all)
}

fn add(all: &mut Vec<Durations>, queue: usize, time: u64) -> Result<(), AllocError> {
    match all.as_mut_slice().get_mut(queue) {
        Some(durations) => durations.add(time),
        None => Ok(()),
    }
}

fn print_of(all: &Vec<Durations>, queue: u32, page: &mut Page) {
    if let Some(durations) = all.get(queue as usize) {
        durations.print(page);
    }
}

fn put_of(key: &str, all: &Vec<Durations>, queue: u32, json: &mut Json) {
    if let Some(durations) = all.get(queue as usize) {
        durations.put(key, json);
    }
}
