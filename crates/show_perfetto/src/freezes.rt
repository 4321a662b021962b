// Freezes, by who holds them. It relies on `show_events` for the events.

use crate::output::Output;
use freeze_ledger::{Freeze, Holder};
use show_events::{Event, Happening};
use std::alloc::{AllocError, Global};
use std::collections::BTreeMap;

/// The names of stretches, by who holds the freeze.
const BY_RUN: &str = "frozen by a run";

const BY_TIMER: &str = "frozen by a timer";

const BY_GUEST: &str = "frozen by a guest";

/// A freeze that is there: of which process, and which stretch it is that goes on.
#[derive(Clone, Copy)]
struct Held {
    process: u64,
    name: &'static str,
    stretch: u64,
}

/// The freezes that are there, by their numbers.
#[derive(Drop)]
pub(crate) struct Freezes {
    held: BTreeMap<u32, Held>,
}

impl Freezes {
    /// There is none.
    pub(crate) fn new(alloc: Global) -> Self {
        Freezes {
            held: BTreeMap::new(alloc),
        }
    }

    /// Takes a freeze that was carried over at that time.
    pub(crate) fn carry(
        &mut self,
        it: &Freeze,
        at: u64,
        output: &mut Output,
    ) -> Result<(), AllocError> {
        let name = match it.holder {
            Holder::Guest(_) => BY_GUEST,
            Holder::Timer(_) | Holder::Run(_) => BY_TIMER,
        };
        let process = output.process(it.place);
        let stretch = output.carry_freeze(name, it, process, at);
        let held = Held {
            process,
            name,
            stretch,
        };
        let _ = self.held.insert(it.number, held)?;
        Ok(())
    }

    /// Takes what an event at that time says.
    pub(crate) fn see(
        &mut self,
        event: &Event,
        at: u64,
        output: &mut Output,
    ) -> Result<(), AllocError> {
        match event.happening {
            Happening::Failed | Happening::FrozenByRun => self.begin(BY_RUN, event, at, output),
            Happening::FrozenByGuest => self.begin(BY_GUEST, event, at, output),
            Happening::LeftToTimer => {
                self.end(event, at, output);
                self.begin(BY_TIMER, event, at, output)
            }
            Happening::GivenBackByRun | Happening::GivenBackByGuest | Happening::TimerCame => {
                self.end(event, at, output);
                Ok(())
            }
            _ => Ok(()),
        }
    }

    /// Puts the end of those that are there at the end.
    pub(crate) fn end_all(&self, at: u64, output: &mut Output) {
        for (_, held) in self.held.iter() {
            output.end_freeze(held.name, held.stretch, None, held.process, at);
        }
    }

    fn begin(
        &mut self,
        name: &'static str,
        event: &Event,
        at: u64,
        output: &mut Output,
    ) -> Result<(), AllocError> {
        if let (Some(freeze), Some(place)) = (event.subject.freeze, event.subject.place) {
            let process = output.process(place);
            let stretch = output.begin_freeze(name, event, process, at);
            let held = Held {
                process,
                name,
                stretch,
            };
            let _ = self.held.insert(freeze, held)?;
        }
        Ok(())
    }

    fn end(&mut self, event: &Event, at: u64, output: &mut Output) {
        let Some(freeze) = event.subject.freeze else {
            return;
        };
        if let Some(held) = self.held.remove(&freeze) {
            output.end_freeze(held.name, held.stretch, Some(event), held.process, at);
        }
    }
}
