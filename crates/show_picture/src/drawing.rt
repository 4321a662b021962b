// Draws stretches: the wide ones each by itself, with a text, and those that are too thin together, a path a row of a lane. It relies on
// `lanes` and `scale` for where, and on `widths` for which are wide.

use crate::lanes::Lanes;
use crate::scale::{COLUMNS, Scale};
use crate::stretch::{ROWS, Row, Stretch, What};
use crate::widths::{LEAST, MOST, Widths, width_of};
use cli_text_page::Page;
use std::alloc::{AllocError, Global};
use std::io;
use std::io::Write;
use std::mem::replace;

/// The rows of a lane.
const ALL_ROWS: [Row; ROWS] = [
    Row::Active,
    Row::Waiting,
    Row::HeldByRun,
    Row::HeldByTimer,
    Row::HeldByGuest,
];

/// The thin stretches of a row: which columns have any.
#[derive(Drop)]
struct ThinRow {
    columns: Vec<bool>,
}

/// What there is to draw: the widest stretches, and the columns of those that are thinner.
#[derive(Drop)]
pub(crate) struct Drawing {
    scale: Scale,
    lanes: Lanes,
    wide: Vec<Stretch>,
    // from how many columns on a stretch is drawn by itself, and how many are thinner
    limit: u64,
    thinner: u64,
    thin: Vec<ThinRow>,
}

impl Drawing {
    /// Nothing is to be drawn.
    pub(crate) fn new(alloc: Global, scale: Scale, lanes: Lanes) -> Result<Self, AllocError> {
        let mut thin = Vec::new(alloc);
        for _ in 0..lanes.count() {
            for _ in 0..ROWS {
                let columns = vec![in alloc; false; COLUMNS as usize + 1]?;
                thin.push(ThinRow { columns })?;
            }
        }
        Ok(Drawing {
            scale,
            lanes,
            wide: Vec::new(alloc),
            limit: LEAST,
            thinner: 0,
            thin,
        })
    }

    /// Takes a stretch. If there are twice as many as are drawn each by itself, the thinner half joins those that are drawn together.
    pub(crate) fn add(&mut self, stretch: &Stretch) -> Result<(), AllocError> {
        self.sort(stretch)?;
        if self.wide.len() / 2 >= MOST {
            self.trim()?;
        }
        Ok(())
    }

    // Puts a stretch where it is drawn.
    fn sort(&mut self, stretch: &Stretch) -> Result<(), AllocError> {
        if width_of(stretch, &self.scale) >= self.limit {
            self.wide.push(*stretch)?;
        } else {
            self.thinner = self.thinner.saturating_add(1);
            self.mark(stretch);
        }
        Ok(())
    }

    /// Leaves no more stretches than are drawn each by itself.
    pub(crate) fn trim(&mut self) -> Result<(), AllocError> {
        let alloc = *self.wide.allocator();
        let limit = Widths::of(alloc, &self.wide, &self.scale)?.limit();
        self.limit = limit.max(self.limit);
        let before = replace(&mut self.wide, Vec::new(alloc));
        for stretch in &before {
            self.sort(stretch)?;
        }
        Ok(())
    }

    /// From how many columns on stretches are drawn each by itself, and how many are thinner.
    pub(crate) fn limit(&self) -> (u64, u64) {
        (self.limit, self.thinner)
    }

    /// Writes all, a stretch or a row at a time.
    pub(crate) fn write<W: Write>(&self, page: &mut Page, out: &mut W) -> io::Result<()> {
        for lane in 0..self.lanes.count() {
            for row in ALL_ROWS {
                self.put_row(lane, row, page);
                page.write_to(out)?;
            }
        }
        for stretch in &self.wide {
            self.put_wide(stretch, page);
            page.write_to(out)?;
        }
        Ok(())
    }

    // Puts a stretch by itself.
    fn put_wide(&self, stretch: &Stretch, page: &mut Page) {
        let (below, height) = stretch.row.extent();
        let x = self
            .scale
            .column(stretch.from)
            .saturating_add(self.lanes.left);
        let lane = self.lanes.lane(stretch.place);
        let y = self.lanes.top(lane).saturating_add(below);
        let width = width_of(stretch, &self.scale);
        page.text("<rect class=\"");
        page.text(stretch.row.class());
        page.fill(
            "\" x=\"{}\" y=\"{}\" width=\"{}\" height=\"{}\"><title>",
            &[x, y, width, height],
        );
        stretch.put_what(page);
        page.fill(
            if self.scale.by_records {
                ", record {} to {}</title></rect>\n"
            } else {
                ", {} to {} ms</title></rect>\n"
            },
            &[stretch.from, stretch.to],
        );
    }

    // Marks the columns of a thin stretch, one at least.
    fn mark(&mut self, stretch: &Stretch) {
        let at = place_of(self.lanes.lane(stretch.place), stretch.row);
        let from = self.scale.column(stretch.from) as usize;
        let to = (self.scale.column(stretch.to) as usize).max(from.saturating_add(1));
        if let Some(row) = self.thin.as_mut_slice().get_mut(at) {
            for column in from..to {
                if let Some(is_marked) = row.columns.as_mut_slice().get_mut(column) {
                    *is_marked = true;
                }
            }
        }
    }

    // Puts the path of a row, a rectangle for each run of marked columns.
    fn put_row(&self, lane: u32, row: Row, page: &mut Page) {
        let Some(thin) = self.thin.get(place_of(lane, row)) else {
            return;
        };
        let (below, height) = row.extent();
        let y = self.lanes.top(lane).saturating_add(below);
        let mut has_any = false;
        let mut width = 0u64;
        let mut x = self.lanes.left;
        for is_marked in &thin.columns {
            if *is_marked {
                width = width.saturating_add(1);
            } else if width > 0 {
                if !has_any {
                    page.text("<path class=\"");
                    page.text(row.class());
                    page.text("\" d=\"");
                    has_any = true;
                }
                let begin = x.saturating_sub(width);
                page.fill("M{} {}h{}v{}h-{}z", &[begin, y, width, height, width]);
                width = 0;
            }
            x = x.saturating_add(1);
        }
        if has_any {
            page.text("\"/>\n");
        }
    }
}

// Which row of all lanes that is.
fn place_of(lane: u32, row: Row) -> usize {
    (lane as usize)
        .saturating_mul(ROWS)
        .saturating_add(row.index())
}
