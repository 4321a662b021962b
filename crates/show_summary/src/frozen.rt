// How long places were frozen. It relies on `show_events` for when a freeze comes and goes.

use ccb::Place;
use freeze_ledger::Freeze;
use show_events::{Event, Happening};

/// How long a place was frozen, in milliseconds.
#[derive(Clone, Copy, Default)]
pub(crate) struct Frozen {
    /// In all.
    pub(crate) all: u64,
    /// Without a break, and by which freeze that began; freeze 0 is none.
    pub(crate) longest: u64,
    pub(crate) by: u32,
    // since when it is frozen, and by which freeze that began
    since: Option<(u64, u32)>,
}

impl Frozen {
    fn begin(&mut self, clock: u64, freeze: u32) {
        self.since = Some((clock, freeze));
    }

    /// It is frozen no more at that reading, if it was.
    pub(crate) fn end(&mut self, clock: u64) {
        if let Some((since, freeze)) = self.since {
            let time = clock.saturating_sub(since);
            self.all = self.all.saturating_add(time);
            if self.by == 0 || time > self.longest {
                self.longest = time;
                self.by = freeze;
            }
        }
        self.since = None;
    }
}

/// How many numbers of places there may be: two for each of 64 queues.
const PLACES: usize = 128;

/// How long each queue and each controller was frozen, by the places' numbers.
#[derive(Clone, Copy)]
pub(crate) struct FrozenPlaces {
    places: [Frozen; PLACES],
}

impl FrozenPlaces {
    /// No place was frozen.
    pub(crate) fn new() -> Self {
        FrozenPlaces {
            places: [Frozen::default(); PLACES],
        }
    }

    /// Takes a freeze that was carried over at that reading. They come by rising number: the first one of a place begins the time for which
    /// it is frozen.
    pub(crate) fn carry(&mut self, freeze: &Freeze, clock: u64) {
        if let Some(frozen) = self.places.get_mut(freeze.place.index()) {
            if frozen.since.is_none() {
                frozen.begin(clock, freeze.number);
            }
        }
    }

    /// Takes what an event says of its place.
    pub(crate) fn see(&mut self, event: &Event) {
        let Some(place) = event.subject.place else {
            return;
        };
        let Some(frozen) = self.places.get_mut(place.index()) else {
            return;
        };
        let freeze = event.subject.freeze.unwrap_or(0);
        let count = event.values.frozen;
        match event.happening {
            Happening::Failed | Happening::FrozenByGuest | Happening::FrozenByRun => {
                if count == 1 {
                    frozen.begin(event.clock, freeze);
                }
            }
            Happening::GivenBackByGuest | Happening::GivenBackByRun | Happening::TimerCame => {
                if count == 0 {
                    frozen.end(event.clock);
                }
            }
            _ => {}
        }
    }

    /// How long that place was frozen up to this reading.
    pub(crate) fn of(&self, place: Place, clock: u64) -> Frozen {
        match self.places.get(place.index()) {
            Some(frozen) => {
                let mut frozen = *frozen;
                frozen.end(clock);
                frozen
            }
            None => Frozen::default(),
        }
    }
}
