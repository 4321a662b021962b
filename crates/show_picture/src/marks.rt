// The marks of a picture: where CCBs failed, and where runs finished them. Each of the first ones is drawn by itself, with a text, and the
// others together. It relies on `show_events` for the events, on `lanes` and `scale` for where, and on `show_account` for words.

use crate::lanes::Lanes;
use crate::scale::{COLUMNS, Scale};
use ccb::Place;
use cli_text_page::Page;
use show_account::{put_code, put_failure};
use show_events::{Event, Happening};
use std::alloc::{AllocError, Global};
use std::io;
use std::io::Write;

/// How many marks are drawn each by itself, at most.
const MOST: usize = 2000;

/// How many kinds of marks there are.
const KINDS: usize = 2;

/// What is marked.
#[derive(Clone, Copy)]
pub(crate) enum MarkKind {
    /// A CCB failed.
    Failure,
    /// A run finished a CCB.
    Finish,
}

/// The kinds, in their order.
const ALL_KINDS: [MarkKind; KINDS] = [MarkKind::Failure, MarkKind::Finish];

impl MarkKind {
    /// The name of its class in the picture.
    pub(crate) fn class(self) -> &'static str {
        match self {
            MarkKind::Failure => "f",
            MarkKind::Finish => "e",
        }
    }

    // How far below the lane's upper edge it begins.
    fn below(self) -> u64 {
        match self {
            MarkKind::Failure => 3,
            MarkKind::Finish => 13,
        }
    }
}

/// Puts the shape of a mark, the upper point of which is there.
pub(crate) fn put_shape(kind: MarkKind, x: u64, y: u64, page: &mut Page) {
    page.fill(
        match kind {
            MarkKind::Failure => "M{} {}l4 8h-8z",
            MarkKind::Finish => "M{} {}l4 4l-4 4l-4 -4z",
        },
        &[x, y],
    );
}

/// A mark: where, and what happened there.
#[derive(Clone, Copy)]
struct Mark {
    kind: MarkKind,
    at: u64,
    event: Event,
}

/// All marks.
#[derive(Drop)]
pub(crate) struct Marks {
    scale: Scale,
    lanes: Lanes,
    alone: Vec<Mark>,
    // of each lane and kind, the columns that have others, and how many others there are
    together: Vec<Vec<bool>>,
    further: u64,
}

impl Marks {
    /// Nothing is marked.
    pub(crate) fn new(alloc: Global, scale: Scale, lanes: Lanes) -> Result<Self, AllocError> {
        let mut together = Vec::new(alloc);
        for _ in 0..lanes.count() {
            for _ in 0..KINDS {
                together.push(vec![in alloc; false; COLUMNS as usize + 1]?)?;
            }
        }
        Ok(Marks {
            scale,
            lanes,
            alone: Vec::new(alloc),
            together,
            further: 0,
        })
    }

    /// Takes what an event at that place of the clock says.
    pub(crate) fn see(&mut self, event: &Event, at: u64) -> Result<(), AllocError> {
        let kind = match event.happening {
            Happening::Failed | Happening::FailedAtLimit => MarkKind::Failure,
            Happening::Finished => MarkKind::Finish,
            _ => return Ok(()),
        };
        let Some(place) = event.subject.place else {
            return Ok(());
        };
        if self.alone.len() < MOST {
            let event = *event;
            self.alone.push(Mark { kind, at, event })?;
        } else {
            self.further = self.further.saturating_add(1);
            self.join(kind, place, at);
        }
        Ok(())
    }

    // Draws a mark together with others.
    fn join(&mut self, kind: MarkKind, place: Place, at: u64) {
        let row = row_of(self.lanes.lane(place), kind);
        let column = self.scale.column(at) as usize;
        if let Some(columns) = self.together.as_mut_slice().get_mut(row) {
            if let Some(is_marked) = columns.as_mut_slice().get_mut(column) {
                *is_marked = true;
            }
        }
    }

    /// How many are drawn together.
    pub(crate) fn further(&self) -> u64 {
        self.further
    }

    /// Writes all, a mark or a row at a time.
    pub(crate) fn write<W: Write>(&self, page: &mut Page, out: &mut W) -> io::Result<()> {
        for lane in 0..self.lanes.count() {
            for kind in ALL_KINDS {
                self.put_row(lane, kind, page);
                page.write_to(out)?;
            }
        }
        for mark in &self.alone {
            self.put_mark(mark, page);
            page.write_to(out)?;
        }
        Ok(())
    }

    // Puts those of a row that are drawn together.
    fn put_row(&self, lane: u32, kind: MarkKind, page: &mut Page) {
        let Some(columns) = self.together.get(row_of(lane, kind)) else {
            return;
        };
        let y = self.lanes.top(lane).saturating_add(kind.below());
        let mut x = self.lanes.left;
        let mut has_any = false;
        for is_marked in columns {
            if *is_marked {
                if !has_any {
                    begin(kind, page);
                    has_any = true;
                }
                put_shape(kind, x, y, page);
            }
            x = x.saturating_add(1);
        }
        page.text(if has_any { "\"/>\n" } else { "" });
    }

    // Puts a mark by itself, with its text.
    fn put_mark(&self, mark: &Mark, page: &mut Page) {
        let Some(place) = mark.event.subject.place else {
            return;
        };
        let top = self.lanes.top(self.lanes.lane(place));
        let x = self.scale.column(mark.at).saturating_add(self.lanes.left);
        begin(mark.kind, page);
        put_shape(mark.kind, x, top.saturating_add(mark.kind.below()), page);
        page.text("\"><title>");
        put_what(mark, page);
        page.fill(
            if self.scale.by_records {
                ", record {}</title></path>\n"
            } else {
                ", {} ms</title></path>\n"
            },
            &[mark.at],
        );
    }
}

fn begin(kind: MarkKind, page: &mut Page) {
    page.text("<path class=\"");
    page.text(kind.class());
    page.text("\" d=\"");
}

// What happened there.
fn put_what(mark: &Mark, page: &mut Page) {
    let subject = &mark.event.subject;
    page.fill("ccb {} ", &[u64::from(subject.ccb.unwrap_or(0))]);
    let run = u64::from(subject.run.unwrap_or(0));
    match mark.kind {
        MarkKind::Failure => {
            put_failure(&mark.event.values, page);
            page.fill(", run {} begins", &[run]);
        }
        MarkKind::Finish => {
            page.fill("is finished by run {}, ", &[run]);
            put_code(mark.event.values.code, page);
        }
    }
}

// Which row that is of all lanes and kinds.
fn row_of(lane: u32, kind: MarkKind) -> usize {
    (lane as usize)
        .saturating_mul(KINDS)
        .saturating_add(match kind {
            MarkKind::Failure => 0,
            MarkKind::Finish => 1,
        })
}
