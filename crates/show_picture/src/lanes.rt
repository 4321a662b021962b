// The lanes of a picture: one for each queue and, below these, one for each controller. It relies on `engine_config` for how many there
// are, and on `show_events` for the names that stand before them.

use ccb::Place;
use engine_config::Config;
use show_events::Programs;

/// How high a lane is, and where the first begins.
pub(crate) const HEIGHT: u64 = 36;

pub(crate) const TOP: u64 = 64;

/// Where the names of lanes begin, and where the columns begin at least.
pub(crate) const NAMES: u64 = 8;

const LEFT: u64 = 190;

/// How wide a character of a program's name is at most. A name has letters, digits and `_` and `-` alone, and they are all as wide.
const CHARACTER: u64 = 7;

/// How many lanes there are of each kind, and where their columns begin.
#[derive(Clone, Copy)]
pub(crate) struct Lanes {
    pub(crate) queues: u32,
    pub(crate) controllers: u32,
    pub(crate) left: u64,
}

impl Lanes {
    /// Those of a configuration. The columns begin after the longest name of a program.
    pub(crate) fn of(config: &Config, programs: &Programs<'_>) -> Self {
        Lanes {
            queues: config.queues(),
            controllers: config.controllers(),
            left: LEFT.max(longest(programs)),
        }
    }

    /// How many there are.
    pub(crate) fn count(&self) -> u32 {
        self.queues.saturating_add(self.controllers)
    }

    /// Which lane is that of a place, from 0; after the last if none is.
    pub(crate) fn lane(&self, place: Place) -> u32 {
        match place {
            Place::Device(queue) => queue.0.min(self.count()),
            Place::Controller(controller) => {
                self.queues.saturating_add(controller).min(self.count())
            }
        }
    }

    /// Where a lane begins, from the upper edge of the picture.
    pub(crate) fn top(&self, lane: u32) -> u64 {
        u64::from(lane) * HEIGHT + TOP
    }

    /// Where the last lane ends.
    pub(crate) fn bottom(&self) -> u64 {
        self.top(self.count())
    }
}

// Where the longest name of a program ends, and some more.
fn longest(programs: &Programs<'_>) -> u64 {
    let mut most = 0usize;
    for program in 0..programs.len() {
        most = most.max(programs.name(program).len());
    }
    (most as u64)
        .saturating_mul(CHARACTER)
        .saturating_add(2 * NAMES)
}
