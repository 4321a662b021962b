// The trace events of a whole trace. It relies on `show_events` for the events, on `tracks` for what is drawn of them, and on `time` for when.

use crate::output::Output;
use crate::time::Time;
use crate::tracks::Tracks;
use engine_config::Config;
use show_events::{Event, NamedAccepted, Programs, Shown, Walk};
use std::alloc::{AllocError, Global};
use std::io;
use std::io::Write;
use world_calls::Record;

/// Writes a trace of this configuration as trace events, a line each. A queue is a process, and so is a controller that was frozen. A process has
/// threads on which CCBs were active, each beside those that were active at the same time, and threads of runs, with the helpers that they called; async
/// events for which it was frozen by a run, a timer or a guest; and counts of the CCBs that wait and of the freezes. An arrow leads from a failure of a
/// CCB to its next start. What was carried over begins at the carried clock reading, and what lasts at the end ends there; both say so. The programs are
/// the manifest's, with their names. The trace is one that a replay accepts, or is open. Of its lines it keeps nothing: what it takes is for what is
/// live or was carried over, and a byte for each CCB that was submitted. It fails if memory is refused, as such an error, or if the writer does; some
/// may be out then.
pub fn write_trace_events<'a, W: Write>(
    alloc: Global,
    config: &'a Config,
    named: &'a [NamedAccepted<'a>],
    shown: Shown<'_>,
    out: &mut W,
) -> io::Result<()> {
    let mut telling = Telling::open(alloc, config, named, shown)?;
    telling.write(shown, out)
}

/// A walk along a trace, with what lasts at the record that it came to.
#[derive(Drop)]
struct Telling<'a> {
    programs: Programs<'a>,
    walk: Walk<'a>,
    events: Vec<Event>,
    time: Time,
    tracks: Tracks,
    output: Output,
}

impl<'a> Telling<'a> {
    // Before the first record.
    fn open(
        alloc: Global,
        config: &'a Config,
        named: &'a [NamedAccepted<'a>],
        shown: Shown<'_>,
    ) -> io::Result<Self> {
        let walk = Walk::of(alloc, config, shown)?;
        let time = Time::of(shown.trace, walk.clock());
        Ok(Telling {
            programs: Programs::new(alloc, config, named)?,
            walk,
            events: Vec::new(alloc),
            time,
            tracks: Tracks::new(alloc, config.queues())?,
            output: Output::new(alloc, config),
        })
    }

    // Writes all of a trace.
    fn write<W: Write>(&mut self, shown: Shown<'_>, out: &mut W) -> io::Result<()> {
        self.output.begin();
        if let Some(lines) = shown.carried {
            let at = self.time.at();
            self.tracks.carry(lines, at, &self.walk, &mut self.output)?;
        }
        for record in shown.trace.records.iter() {
            self.goes_on(record)?;
            self.output.write_to(out)?;
        }
        self.tracks.end(self.time.at(), &mut self.output);
        self.output.end(shown);
        self.output.write_to(out)
    }

    // Goes one record on, and puts what it says.
    fn goes_on(&mut self, record: &Record) -> Result<(), AllocError> {
        self.events.clear();
        self.walk.step(record, &mut self.events)?;
        self.time.step(self.walk.clock());
        let at = self.time.at();
        for event in &self.events {
            self.tracks
                .see(event, at, &self.programs, &self.walk, &mut self.output)?;
        }
        Ok(())
    }
}
