// Which numbers there are in a trace: CCBs, runs and freezes are numbered from 1, and in a continued trace go on from the greatest numbers
// that were given before it. It relies on `show_events` for what is wanted, and on `world_calls` for what was carried over.

use cli_text_page::Page;
use engine_config::Config;
use show_events::{Event, Filter, Happening};
use world_calls::CarriedLine;

/// The greatest numbers that came up to some record.
#[derive(Clone, Copy, Default)]
pub struct Known {
    ccb: u32,
    run: u32,
    freeze: u32,
}

impl Known {
    /// Takes what an event says.
    pub fn see(&mut self, event: &Event) {
        let subject = &event.subject;
        match event.happening {
            Happening::Submitted => self.ccb = self.ccb.max(subject.ccb.unwrap_or(0)),
            Happening::Failed | Happening::FailedAtLimit => {
                self.run = self.run.max(subject.run.unwrap_or(0));
            }
            _ => {}
        }
        self.freeze = self.freeze.max(subject.freeze.unwrap_or(0));
    }

    /// What of all that is wanted is not there at all, in a trace with these carried lines.
    pub fn missing(
        &self,
        filter: &Filter,
        config: &Config,
        carried: Option<&[CarriedLine]>,
    ) -> Missing {
        let lines = carried.unwrap_or(&[]);
        let last = last_of(lines);
        let has_ccb = has_ccb(filter.ccb, lines);
        let has_freeze = has_freeze(filter.freeze, lines);
        Missing {
            queue: match filter.queue {
                Some(queue) if u32::from(queue) >= config.queues() => Some(u64::from(queue)),
                _ => None,
            },
            ccb: unknown(filter.ccb, last.ccb, self.ccb, has_ccb),
            run: unknown(filter.run, last.run, self.run, false),
            freeze: unknown(filter.freeze, last.freeze, self.freeze, has_freeze),
        }
    }
}

/// A queue that the manifest does not have, and a CCB, a run and a freeze that the trace does not have, by their numbers, if they are wanted.
#[derive(Clone, Copy)]
pub struct Missing {
    pub queue: Option<u64>,
    pub ccb: Option<u64>,
    pub run: Option<u64>,
    pub freeze: Option<u64>,
}

impl Missing {
    /// Puts each of these, a line each.
    pub(crate) fn put(&self, page: &mut Page) {
        put_unknown("the manifest has no queue {}\n", self.queue, page);
        put_unknown("the trace has no ccb {}\n", self.ccb, page);
        put_unknown("the trace has no run {}\n", self.run, page);
        put_unknown("the trace has no freeze {}\n", self.freeze, page);
    }
}

// The greatest numbers that were given before the trace.
fn last_of(lines: &[CarriedLine]) -> Known {
    for line in lines {
        if let CarriedLine::Numbers { ccb, freeze, run } = line {
            return Known {
                ccb: *ccb,
                run: *run,
                freeze: *freeze,
            };
        }
    }
    Known::default()
}

// Whether a CCB of that number was carried over.
fn has_ccb(wanted: Option<u32>, lines: &[CarriedLine]) -> bool {
    for line in lines {
        if let CarriedLine::Ccb(it) = line {
            if wanted == Some(it.number.0) {
                return true;
            }
        }
    }
    false
}

// Whether a freeze of that number was carried over.
fn has_freeze(wanted: Option<u32>, lines: &[CarriedLine]) -> bool {
    for line in lines {
        if let CarriedLine::Freeze(it) = line {
            if wanted == Some(it.number) {
                return true;
            }
        }
    }
    false
}

// The number that is wanted, if there is none of that number: it was not carried over, and not given in the trace, whose numbers come after
// the last one and go up to the greatest one.
fn unknown(wanted: Option<u32>, last: u32, greatest: u32, is_carried: bool) -> Option<u64> {
    let number = wanted?;
    let is_given = last < number && number <= greatest;
    if is_given || is_carried {
        None
    } else {
        Some(u64::from(number))
    }
}

// Puts the pattern with the number, if there is one.
fn put_unknown(pattern: &str, number: Option<u64>, page: &mut Page) {
    if let Some(number) = number {
        page.fill(pattern, &[number]);
    }
}
