// Which stretches are drawn each by itself: the widest, as many as a picture is to have. The others are too thin to see, and are drawn
// together. It relies on `scale` for how wide a stretch is.

use crate::scale::{COLUMNS, Scale};
use crate::stretch::Stretch;
use std::alloc::{AllocError, Global};

/// How many stretches are drawn each by itself, at most.
pub(crate) const MOST: usize = 6000;

/// How wide a stretch has to be for that, at least.
pub(crate) const LEAST: u64 = 2;

/// How many stretches there are of each width in columns.
#[derive(Drop)]
pub(crate) struct Widths {
    counts: Vec<u64>,
}

/// How many columns a stretch takes.
pub(crate) fn width_of(stretch: &Stretch, scale: &Scale) -> u64 {
    let to = scale.column(stretch.to);
    to.saturating_sub(scale.column(stretch.from))
}

impl Widths {
    /// Those of these stretches.
    pub(crate) fn of(
        alloc: Global,
        stretches: &[Stretch],
        scale: &Scale,
    ) -> Result<Self, AllocError> {
        let mut counts = vec![in alloc; 0u64; COLUMNS as usize + 1]?;
        for stretch in stretches {
            let width = width_of(stretch, scale) as usize;
            if let Some(count) = counts.as_mut_slice().get_mut(width) {
                *count = count.saturating_add(1);
            }
        }
        Ok(Widths { counts })
    }

    /// The least width of which, with all wider ones, there are no more than may be.
    pub(crate) fn limit(&self) -> u64 {
        let mut wide = 0u64;
        let mut limit = COLUMNS.saturating_add(1);
        for width in (LEAST..=COLUMNS).rev() {
            let count = self.counts.get(width as usize).copied().unwrap_or(0);
            wide = wide.saturating_add(count);
            if wide > MOST as u64 {
                return limit;
            }
            limit = width;
        }
        limit
    }
}
