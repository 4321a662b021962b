// The account of a whole trace, or of what of it is wanted. It relies on `show_events` for the events, on `line` for their lines, and on
// `carried` for what was carried over.

use crate::carried::put_carried;
use crate::fitting::fits;
use crate::known::Known;
use crate::line::put_line;
use cli_text_page::Page;
use engine_config::Config;
use show_events::{Ending, Event, Filter, NamedAccepted, Programs, Shown, Walk};
use std::alloc::{AllocError, Global};
use std::io;
use std::io::Write;
use world_calls::Record;

/// Writes a line for each event of a trace of this configuration that fits the filter: the clock in milliseconds, the queue or the
/// controller, and what happened. Of a continued trace it first writes what was carried over: a line with the sums, and one for each CCB, each
/// freeze, each word and each changed number of openings that fits. If no event fits it says so, and if there is no such queue, CCB, run or
/// freeze it says that. The programs are the manifest's, with their names. The trace is one that a replay accepts, or is open. Of its lines it
/// keeps nothing: what it takes is for what is live or was carried over, and a byte for each CCB that was submitted. It fails if memory is
/// refused, as such an error, or if the writer does; some may be out then.
pub fn account<'a, W: Write>(
    alloc: Global,
    config: &'a Config,
    named: &'a [NamedAccepted<'a>],
    shown: Shown<'_>,
    filter: &Filter,
    out: &mut W,
) -> io::Result<()> {
    let mut telling = Telling::open(alloc, config, named, shown)?;
    telling.write(shown, filter, out)
}

/// A walk along a trace, with the lines of the record that it came to.
#[derive(Drop)]
struct Telling<'a> {
    config: &'a Config,
    programs: Programs<'a>,
    walk: Walk<'a>,
    events: Vec<Event>,
    known: Known,
    page: Page,
}

impl<'a> Telling<'a> {
    // Before the first record.
    fn open(
        alloc: Global,
        config: &'a Config,
        named: &'a [NamedAccepted<'a>],
        shown: Shown<'_>,
    ) -> io::Result<Self> {
        Ok(Telling {
            config,
            programs: Programs::new(alloc, config, named)?,
            walk: Walk::of(alloc, config, shown)?,
            events: Vec::new(alloc),
            known: Known::default(),
            page: Page::new(alloc),
        })
    }

    // Writes the lines of all events that fit.
    fn write<W: Write>(
        &mut self,
        shown: Shown<'_>,
        filter: &Filter,
        out: &mut W,
    ) -> io::Result<()> {
        if let Some(lines) = shown.carried {
            let width = width_of(self.config);
            put_carried(lines, filter, self.config, width, &mut self.page);
        }
        let mut has_any = false;
        for record in shown.trace.records.iter() {
            if self.goes_on(record, filter)? {
                has_any = true;
                self.page.write_to(out)?;
            }
        }
        if !has_any {
            self.page.text("no event fits\n");
        }
        self.known
            .missing(filter, self.config, shown.carried)
            .put(&mut self.page);
        if let Ending::Open | Ending::Cut = shown.ending {
            self.page.fill(shown.words(), &[shown.line()]);
            self.page.text("\n");
        }
        self.page.write_to(out)
    }

    // Goes one record on, and puts the lines of its events that fit: whether any does.
    fn goes_on(&mut self, record: &Record, filter: &Filter) -> Result<bool, AllocError> {
        let width = width_of(self.config);
        let mut has_any = false;
        self.events.clear();
        self.walk.step(record, &mut self.events)?;
        for event in &self.events {
            self.known.see(event);
            if fits(filter, event, self.config) {
                put_line(event, &self.programs, width, &mut self.page);
                has_any = true;
            }
        }
        Ok(has_any)
    }
}

// How many bytes the longest name of a place has.
fn width_of(config: &Config) -> usize {
    if config.controllers() > 0 {
        "controller 0".len()
    } else if config.queues() > 10 {
        "queue 10".len()
    } else {
        "queue 0".len()
    }
}
