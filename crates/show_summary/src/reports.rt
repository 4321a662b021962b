// What completions reported: how often each SCSI status and each sense code was, by queue. It relies on `show_events` for completions, and on
// `show_sense` for the names.

use cli_text_page::Page;
use show_events::Event;
use show_json::{Json, put_scsi_status as put_status, put_sense_code};
use show_sense::{SenseCode, put_scsi_status, put_sense, sense_code};
use std::alloc::{AllocError, Global};
use std::collections::BTreeMap;

/// How many SCSI statuses a byte can be.
const STATUSES: usize = 256;

/// How many different sense codes are counted each by itself, over all queues. Those that come later are counted together.
const CODES: usize = 1024;

/// How many numbers of sense codes there are: a place of a code in the table of all queues is its number, and this times its queue's.
const ORDERS: u32 = 0x20_0000;

/// A sense code of a queue, and how often it was.
#[derive(Clone, Copy)]
struct Reported {
    queue: u32,
    code: SenseCode,
    count: u64,
}

/// What the completions of all queues reported.
#[derive(Drop)]
pub(crate) struct Reports {
    statuses: Vec<u64>,
    codes: BTreeMap<u32, Reported>,
    // by queue, how many sense codes were beyond those that are counted
    others: Vec<u64>,
    // by queue, how often sense data came that is not decoded
    undecoded: Vec<u64>,
}

impl Reports {
    /// Nothing was reported.
    pub(crate) fn new(alloc: Global, queues: u32) -> Result<Self, AllocError> {
        let queues = queues as usize;
        Ok(Reports {
            statuses: vec![in alloc; 0u64; queues.saturating_mul(STATUSES)]?,
            codes: BTreeMap::new(alloc),
            others: vec![in alloc; 0u64; queues]?,
            undecoded: vec![in alloc; 0u64; queues]?,
        })
    }

    /// Takes what an event says.
    pub(crate) fn see(&mut self, event: &Event) -> Result<(), AllocError> {
        let Some(queue) = event.queue() else {
            return Ok(());
        };
        if !event.happening.is_completion() {
            return Ok(());
        }
        if let Some(status) = event.scsi_status() {
            count_at(&mut self.statuses, status_at(queue, status));
        }
        self.count_sense(queue, event.sense())
    }

    // Sense data came, or none, as no bytes.
    fn count_sense(&mut self, queue: u32, sense: &[u8]) -> Result<(), AllocError> {
        if let Some(code) = sense_code(sense) {
            return self.count_code(queue, code);
        }
        if !sense.is_empty() {
            count_at(&mut self.undecoded, queue as usize);
        }
        Ok(())
    }

    fn count_code(&mut self, queue: u32, code: SenseCode) -> Result<(), AllocError> {
        let place = queue.saturating_mul(ORDERS).saturating_add(code.order());
        if let Some(reported) = self.codes.get_mut(&place) {
            reported.count = reported.count.saturating_add(1);
            return Ok(());
        }
        if self.codes.len() >= CODES {
            count_at(&mut self.others, queue as usize);
            return Ok(());
        }
        let reported = Reported {
            queue,
            code,
            count: 1,
        };
        let _ = self.codes.insert(place, reported)?;
        Ok(())
    }

    /// Puts those of a queue.
    pub(crate) fn print(&self, queue: u32, page: &mut Page) {
        page.text("  SCSI status   ");
        self.print_statuses(queue, page);
        page.text("\n  sense         ");
        self.print_codes(queue, page);
        page.text("\n");
    }

    /// Puts the same as lists and counts.
    pub(crate) fn put(&self, queue: u32, json: &mut Json) {
        json.begin_list("scsi_statuses");
        for status in 0..=u8::MAX {
            let count = at(&self.statuses, status_at(queue, status));
            if count > 0 {
                json.begin();
                put_status(status, json);
                json.number("count", count);
                json.end();
            }
        }
        json.end_list();
        self.put_codes(queue, json);
        json.number("sense_others", at(&self.others, queue as usize));
        json.number("sense_not_decoded", at(&self.undecoded, queue as usize));
    }

    fn put_codes(&self, queue: u32, json: &mut Json) {
        json.begin_list("sense");
        for (_, reported) in self.codes.iter() {
            if reported.queue == queue {
                json.begin();
                put_sense_code(reported.code, json);
                json.number("count", reported.count);
                json.end();
            }
        }
        json.end_list();
    }

    fn print_statuses(&self, queue: u32, page: &mut Page) {
        let before = page.len();
        for status in 0..=u8::MAX {
            let count = at(&self.statuses, status_at(queue, status));
            if count > 0 {
                put_comma(before, page);
                put_scsi_status(status, page);
                page.fill(": {}", &[count]);
            }
        }
        put_none(before, page);
    }

    fn print_codes(&self, queue: u32, page: &mut Page) {
        let before = page.len();
        for (_, reported) in self.codes.iter() {
            if reported.queue == queue {
                put_comma(before, page);
                put_sense(reported.code, page);
                page.fill(": {}", &[reported.count]);
            }
        }
        let others = at(&self.others, queue as usize);
        put_some("others: {}", others, before, page);
        let undecoded = at(&self.undecoded, queue as usize);
        put_some("not decoded: {}", undecoded, before, page);
        put_none(before, page);
    }
}

// Puts a pattern with its count into a list that begins after so many bytes, if it is not 0.
fn put_some(pattern: &str, count: u64, before: usize, page: &mut Page) {
    if count > 0 {
        put_comma(before, page);
        page.fill(pattern, &[count]);
    }
}

// What parts the next one from those that stand in such a list.
fn put_comma(before: usize, page: &mut Page) {
    let comma = if page.len() > before { ", " } else { "" };
    page.text(comma);
}

// What stands in such a list if nothing else does.
fn put_none(before: usize, page: &mut Page) {
    let none = if page.len() > before { "" } else { "none" };
    page.text(none);
}

// The place of a status in the table of all queues.
fn status_at(queue: u32, status: u8) -> usize {
    (queue as usize)
        .saturating_mul(STATUSES)
        .saturating_add(status as usize)
}

fn at(counts: &[u64], place: usize) -> u64 {
    match counts.get(place) {
        Some(count) => *count,
        None => 0,
    }
}

fn count_at(counts: &mut Vec<u64>, place: usize) {
    if let Some(count) = counts.as_mut_slice().get_mut(place) {
        *count = count.saturating_add(1);
    }
}
