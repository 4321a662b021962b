// What a clock reading tells: which timers came. It relies on `walk` for the world, which says what is there still.

use crate::event::{Cause, Event, Subject, Values};
use crate::happening::Happening;
use crate::times::FreezeTimes;
use crate::walk::Walk;
use ccb::Place;
use std::alloc::AllocError;
use world_calls::CallAnswer;

impl Walk<'_> {
    /// The clock was read, and the engine has taken the reading.
    pub(crate) fn clock_read(
        &mut self,
        answer: CallAnswer,
        reading: u64,
        events: &mut Vec<Event>,
    ) -> Result<(), AllocError> {
        match answer {
            CallAnswer::Removed(0) => self.tell(
                Subject::default(),
                Happening::ClockRead,
                Values::none(),
                events,
            ),
            CallAnswer::Removed(_) => self.timers_came(events),
            CallAnswer::Refused(refusal) => {
                let values = Values {
                    refusal,
                    ..Values::numbers(reading, 0)
                };
                self.tell(Subject::default(), Happening::NotRead, values, events)
            }
            _ => Ok(()),
        }
    }

    // The freezes that are there no more, by rising number.
    fn timers_came(&mut self, events: &mut Vec<Event>) -> Result<(), AllocError> {
        self.find_gone()?;
        for at in 0..self.came.len() {
            let Some(number) = self.came.get(at).copied() else {
                return Ok(());
            };
            let more = self.gone_after(at);
            if let Some(times) = self.times.freezes.remove(&number) {
                self.timer_came(number, &times, more, events)?;
            }
        }
        Ok(())
    }

    // Puts into `came` those freezes that are there no more.
    fn find_gone(&mut self) -> Result<(), AllocError> {
        let mut came = Vec::new(*self.came.allocator());
        for (number, times) in self.times.freezes.iter() {
            if self.holder(times.place, *number).is_none() {
                came.push(*number)?;
            }
        }
        self.came = came;
        Ok(())
    }

    // How many freezes of the same place went after that one.
    fn gone_after(&self, at: usize) -> u32 {
        let mut count = 0u32;
        let Some(first) = self.place_gone(at) else {
            return 0;
        };
        for other in at.saturating_add(1)..self.came.len() {
            if self.place_gone(other) == Some(first) {
                count = count.saturating_add(1);
            }
        }
        count
    }

    fn place_gone(&self, at: usize) -> Option<Place> {
        let number = self.came.get(at)?;
        Some(self.times.freezes.get(number)?.place)
    }

    fn timer_came(
        &mut self,
        number: u32,
        times: &FreezeTimes,
        more: u32,
        events: &mut Vec<Event>,
    ) -> Result<(), AllocError> {
        let (ccb, run) = match times.cause {
            Cause::Failure {
                ccb,
                status: _,
                run,
            } => (Some(ccb), Some(run)),
            Cause::Guest(_) | Cause::CarriedOver => (None, None),
        };
        let subject = Subject {
            ccb,
            place: Some(times.place),
            run,
            freeze: Some(number),
        };
        let frozen = self.frozen(times.place).saturating_add(more);
        let held = self.engine.clock().saturating_sub(times.since);
        let values = Values {
            cause: times.cause,
            ..Values::frozen(frozen, held)
        };
        self.tell(subject, Happening::TimerCame, values, events)
    }
}
