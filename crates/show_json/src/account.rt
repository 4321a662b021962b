// The account of a whole trace, or of what of it is wanted, as lines of JSON. It relies on `show_events` for the events, on `show_account` for which
// of them are wanted, and on `event` for their objects.

use crate::carried::put_carried_line;
use crate::event::put_event;
use crate::json::Json;
use engine_config::Config;
use show_account::{Known, fits};
use show_events::{Ending, Event, Filter, NamedAccepted, Programs, Shown, Walk};
use std::alloc::{AllocError, Global};
use std::io;
use std::io::Write;
use world_calls::Record;

/// Writes an object for each event of a trace of this configuration that fits the filter, a line each, and a last one that says how the trace ends
/// and what of all that is wanted is not there. Of a continued trace it first writes one that has all that was carried over, whatever is wanted.
/// The events are those of the account, in its order. The programs are the manifest's, with their names. The trace is one that a replay accepts,
/// or is open. Of its lines it keeps nothing. It fails if memory is refused, as such an error, or if the writer does; some may be out then.
pub fn write_account<'a, W: Write>(
    alloc: Global,
    config: &'a Config,
    named: &'a [NamedAccepted<'a>],
    shown: Shown<'_>,
    filter: &Filter,
    out: &mut W,
) -> io::Result<()> {
    let mut telling = Telling::open(alloc, config, named, shown)?;
    telling.write(shown, filter, out)
}

/// A walk along a trace, with the lines of the record that it came to.
#[derive(Drop)]
struct Telling<'a> {
    config: &'a Config,
    programs: Programs<'a>,
    walk: Walk<'a>,
    events: Vec<Event>,
    known: Known,
    // how many events fit so far
    count: u64,
    json: Json,
}

impl<'a> Telling<'a> {
    // Before the first record.
    fn open(
        alloc: Global,
        config: &'a Config,
        named: &'a [NamedAccepted<'a>],
        shown: Shown<'_>,
    ) -> io::Result<Self> {
        Ok(Telling {
            config,
            programs: Programs::new(alloc, config, named)?,
            walk: Walk::of(alloc, config, shown)?,
            events: Vec::new(alloc),
            known: Known::default(),
            count: 0,
            json: Json::new(alloc),
        })
    }

    // Writes the lines of all events that fit, and the last one.
    fn write<W: Write>(
        &mut self,
        shown: Shown<'_>,
        filter: &Filter,
        out: &mut W,
    ) -> io::Result<()> {
        if let Some(lines) = shown.carried {
            put_carried_line(lines, self.config, &mut self.json);
        }
        for record in shown.trace.records.iter() {
            self.goes_on(record, filter)?;
            self.json.write_to(out)?;
        }
        self.put_end(shown, filter);
        self.json.write_to(out)
    }

    // Goes one record on, and puts the lines of its events that fit.
    fn goes_on(&mut self, record: &Record, filter: &Filter) -> Result<(), AllocError> {
        self.events.clear();
        self.walk.step(record, &mut self.events)?;
        for event in &self.events {
            self.known.see(event);
            if fits(filter, event, self.config) {
                put_event(event, &self.programs, &mut self.json);
                self.count = self.count.saturating_add(1);
            }
        }
        Ok(())
    }

    // Puts the last line: how many events fit, of how many records, how the trace ends, and what is missing.
    fn put_end(&mut self, shown: Shown<'_>, filter: &Filter) {
        let missing = self.known.missing(filter, self.config, shown.carried);
        let json = &mut self.json;
        json.begin();
        json.word("kind", "end");
        json.number("events", self.count);
        json.number("records", shown.trace.records.len() as u64);
        put_ending(shown, json);
        json.begin_at("missing");
        put_missing("queue", missing.queue, json);
        put_missing("ccb", missing.ccb, json);
        put_missing("run", missing.run, json);
        put_missing("freeze", missing.freeze, json);
        json.end();
        json.end();
        json.line();
    }
}

/// Puts how a trace ends: whether it is open, whether a line of it is cut then, and up to which line it goes, or which one is cut.
pub fn put_ending(shown: Shown<'_>, json: &mut Json) {
    let (is_open, is_cut) = match shown.ending {
        Ending::Whole => (false, false),
        Ending::Open => (true, false),
        Ending::Cut => (true, true),
    };
    json.flag("open", is_open);
    json.flag("cut", is_cut);
    if is_open {
        json.number("line", shown.line());
    }
}

fn put_missing(key: &str, number: Option<u64>, json: &mut Json) {
    if let Some(number) = number {
        json.number(key, number);
    }
}
