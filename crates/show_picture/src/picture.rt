// The picture of a whole trace. It relies on `tracking` for the stretches, and on `drawing` and `frame` for how they are drawn.

use crate::drawing::Drawing;
use crate::frame::{Thin, begin, end};
use crate::lanes::Lanes;
use crate::marks::Marks;
use crate::scale::Scale;
use crate::tracking::Tracking;
use cli_text_page::Page;
use engine_config::Config;
use show_events::{Event, NamedAccepted, Programs, Shown, Walk};
use std::alloc::{AllocError, Global};
use std::io;
use std::io::Write;
use world_calls::Record;

/// Writes the picture of a trace of this configuration as SVG: a lane for each queue and each controller, over the clock in milliseconds,
/// or over the records if the clock never moved. In a lane stand the stretches for which a CCB was active, one waited, and the place was
/// frozen by a run, a timer or a guest, each with its numbers as a hover text. Marks stand where a CCB failed and where a run finished one.
/// What was carried over begins at the left edge. Stretches too thin to see are drawn together, and the picture says so. The programs are the
/// manifest's, with their names. The trace is one that a replay accepts, or is open. It fails if memory is refused, as such an error, or if
/// the writer does; some may be out then.
pub fn draw<'a, W: Write>(
    alloc: Global,
    config: &'a Config,
    named: &'a [NamedAccepted<'a>],
    shown: Shown<'_>,
    out: &mut W,
) -> io::Result<()> {
    let mut picture = Picture::open(alloc, config, named, shown)?;
    picture.write(shown, out)
}

/// A picture of a trace, on which the stretches are drawn that ended up to some record.
#[derive(Drop)]
struct Picture<'a> {
    scale: Scale,
    lanes: Lanes,
    programs: Programs<'a>,
    walk: Walk<'a>,
    events: Vec<Event>,
    tracking: Tracking,
    drawing: Drawing,
    marks: Marks,
    page: Page,
}

impl<'a> Picture<'a> {
    // Before the first record.
    fn open(
        alloc: Global,
        config: &'a Config,
        named: &'a [NamedAccepted<'a>],
        shown: Shown<'_>,
    ) -> io::Result<Self> {
        let walk = Walk::of(alloc, config, shown)?;
        let carried = match shown.carried {
            Some(_) => Some(walk.clock()),
            None => None,
        };
        let scale = Scale::of(shown.trace, carried);
        let programs = Programs::new(alloc, config, named)?;
        let lanes = Lanes::of(config, &programs);
        Ok(Picture {
            scale,
            lanes,
            programs,
            walk,
            events: Vec::new(alloc),
            tracking: Tracking::new(alloc),
            drawing: Drawing::new(alloc, scale, lanes)?,
            marks: Marks::new(alloc, scale, lanes)?,
            page: Page::new(alloc),
        })
    }

    // Goes along the trace to its end.
    fn go(&mut self, shown: Shown<'_>) -> Result<(), AllocError> {
        let carried = shown.carried.unwrap_or(&[]);
        self.tracking.carry(carried, self.scale.first)?;
        let mut number = 0usize;
        for record in shown.trace.records.iter() {
            number = number.saturating_add(1);
            self.step(record, number)?;
        }
        self.tracking.end(self.scale.last, &mut self.drawing)?;
        self.drawing.trim()
    }

    // Goes on by the record of that number, from 1.
    fn step(&mut self, record: &Record, number: usize) -> Result<(), AllocError> {
        self.events.clear();
        self.walk.step(record, &mut self.events)?;
        for event in &self.events {
            let at = self.scale.place(event.clock, number);
            if let Some(stretch) = self.tracking.see(event, at)? {
                self.drawing.add(&stretch)?;
            }
            self.marks.see(event, at)?;
        }
        Ok(())
    }

    // Writes the picture of the whole trace.
    fn write<W: Write>(&mut self, shown: Shown<'_>, out: &mut W) -> io::Result<()> {
        self.go(shown)?;
        let (columns, stretches) = self.drawing.limit();
        let thin = Thin {
            stretches,
            columns,
            marks: self.marks.further(),
        };
        begin(&self.lanes, &self.scale, &self.programs, &mut self.page);
        self.drawing.write(&mut self.page, out)?;
        self.marks.write(&mut self.page, out)?;
        end(&self.lanes, &self.scale, thin, shown, &mut self.page);
        self.page.write_to(out)
    }
}
