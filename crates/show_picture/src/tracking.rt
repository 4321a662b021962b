// Follows what is so along a trace, and reports each stretch at its end. It relies on `show_events` for the events, and on `world_calls` for
// what was so before them.

use crate::drawing::Drawing;
use crate::stretch::{Row, Stretch, What};
use ccb::Place;
use freeze_ledger::{Freeze, Holder};
use show_events::{Event, Happening};
use std::alloc::{AllocError, Global};
use std::collections::BTreeMap;
use world_calls::{CarriedCcb, CarriedLine};

/// What is so at a moment, by the numbers of CCBs and of freezes: as a stretch that has no end yet.
#[derive(Drop)]
pub(crate) struct Tracking {
    ccbs: BTreeMap<u32, Stretch>,
    freezes: BTreeMap<u32, Stretch>,
}

impl Tracking {
    /// Nothing is so.
    pub(crate) fn new(alloc: Global) -> Self {
        Tracking {
            ccbs: BTreeMap::new(alloc),
            freezes: BTreeMap::new(alloc),
        }
    }

    /// Takes what was carried over, at the place of the clock at which the picture begins.
    pub(crate) fn carry(&mut self, lines: &[CarriedLine], at: u64) -> Result<(), AllocError> {
        for line in lines {
            match line {
                CarriedLine::Ccb(it) => self.carry_ccb(it, at)?,
                CarriedLine::Freeze(it) => self.carry_freeze(it, at)?,
                _ => {}
            }
        }
        Ok(())
    }

    fn carry_ccb(&mut self, it: &CarriedCcb, at: u64) -> Result<(), AllocError> {
        let ccb = it.number.0;
        let stretch = Stretch {
            place: Place::Device(it.queue),
            row: if it.is_active {
                Row::Active
            } else {
                Row::Waiting
            },
            what: What::Ccb(ccb),
            from: at,
            to: at,
        };
        let _ = self.ccbs.insert(ccb, stretch)?;
        Ok(())
    }

    fn carry_freeze(&mut self, it: &Freeze, at: u64) -> Result<(), AllocError> {
        let freeze = it.number;
        let (row, what) = match it.holder {
            Holder::Guest(guest) => (Row::HeldByGuest, What::OfGuest { freeze, guest }),
            Holder::Timer(_) | Holder::Run(_) => (Row::HeldByTimer, What::CarriedOver(freeze)),
        };
        let stretch = Stretch {
            place: it.place,
            row,
            what,
            from: at,
            to: at,
        };
        let _ = self.freezes.insert(freeze, stretch)?;
        Ok(())
    }

    /// Takes what an event at that place of the clock says: the stretch that ends with it, if one does.
    pub(crate) fn see(&mut self, event: &Event, at: u64) -> Result<Option<Stretch>, AllocError> {
        match event.happening {
            Happening::Submitted | Happening::Requeued => {
                self.begin_ccb(event, Row::Waiting, at)
            }
            Happening::Started => self.begin_ccb(event, Row::Active, at),
            Happening::Completed | Happening::FailedAtLimit | Happening::Withdrawn => {
                Ok(self.end_ccb(event, at))
            }
            Happening::Failed => {
                self.begin_freeze(event, Row::HeldByRun, of_run(event), at)?;
                Ok(self.end_ccb(event, at))
            }
            Happening::FrozenByRun => {
                self.begin_freeze(event, Row::HeldByRun, of_run(event), at)?;
                Ok(None)
            }
            Happening::FrozenByGuest => {
                let freeze = event.subject.freeze.unwrap_or(0);
                let what = What::OfGuest {
                    freeze,
                    guest: event.values.guest,
                };
                self.begin_freeze(event, Row::HeldByGuest, what, at)?;
                Ok(None)
            }
            Happening::LeftToTimer => self.leave_to_timer(event, at),
            Happening::GivenBackByRun | Happening::GivenBackByGuest | Happening::TimerCame => Ok(
                self.end_freeze(event, at),
            ),
            _ => Ok(None),
        }
    }

    /// Draws what is so at the end, each as a stretch up to there.
    pub(crate) fn end(&self, at: u64, drawing: &mut Drawing) -> Result<(), AllocError> {
        for (_, stretch) in self.ccbs.iter() {
            drawing.add(&ended(*stretch, at))?;
        }
        for (_, stretch) in self.freezes.iter() {
            drawing.add(&ended(*stretch, at))?;
        }
        Ok(())
    }

    // The event's CCB is where this row says, from here on: the stretch that it was elsewhere.
    fn begin_ccb(
        &mut self,
        event: &Event,
        row: Row,
        at: u64,
    ) -> Result<Option<Stretch>, AllocError> {
        let (Some(ccb), Some(place)) = (event.subject.ccb, event.subject.place) else {
            return Ok(None);
        };
        let stretch = Stretch {
            place,
            row,
            what: What::Ccb(ccb),
            from: at,
            to: at,
        };
        let before = self.ccbs.insert(ccb, stretch)?;
        Ok(before.map(|before| ended(before, at)))
    }

    fn end_ccb(&mut self, event: &Event, at: u64) -> Option<Stretch> {
        let ccb = event.subject.ccb?;
        let before = self.ccbs.remove(&ccb)?;
        Some(ended(before, at))
    }

    fn begin_freeze(
        &mut self,
        event: &Event,
        row: Row,
        what: What,
        at: u64,
    ) -> Result<(), AllocError> {
        if let (Some(freeze), Some(place)) = (event.subject.freeze, event.subject.place) {
            let stretch = Stretch {
                place,
                row,
                what,
                from: at,
                to: at,
            };
            let _ = self.freezes.insert(freeze, stretch)?;
        }
        Ok(())
    }

    // A run left its freeze to a timer: the stretch for which it held it.
    fn leave_to_timer(&mut self, event: &Event, at: u64) -> Result<Option<Stretch>, AllocError> {
        let Some(freeze) = event.subject.freeze else {
            return Ok(None);
        };
        match self.freezes.get_mut(&freeze) {
            Some(stretch) => {
                let before = ended(*stretch, at);
                stretch.row = Row::HeldByTimer;
                stretch.from = at;
                Ok(Some(before))
            }
            None => Ok(None),
        }
    }

    fn end_freeze(&mut self, event: &Event, at: u64) -> Option<Stretch> {
        let freeze = event.subject.freeze?;
        let before = self.freezes.remove(&freeze)?;
        Some(ended(before, at))
    }
}

fn ended(stretch: Stretch, at: u64) -> Stretch {
    let mut stretch = stretch;
    stretch.to = at;
    stretch
}

// What holds the freeze that the event's run took.
fn of_run(event: &Event) -> What {
    What::OfRun {
        freeze: event.subject.freeze.unwrap_or(0),
        run: event.subject.run.unwrap_or(0),
        ccb: event.subject.ccb.unwrap_or(0),
    }
}
