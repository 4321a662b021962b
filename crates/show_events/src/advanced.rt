// What the record of an advance tells: the call of a helper, with what it was asked, or the end of a run. It relies on `walk` for the
// world, and on `helpers` for what a helper does.

use crate::called::some_freeze;
use crate::event::{Cause, Event, Subject, Values};
use crate::happening::Happening;
use crate::walk::Walk;
use base::ShortBytes;
use ccb::{CamStatus, CcbId, Place, QueueId};
use engine_core::{QueueInfo, RunInfo};
use helpers::{Arguments, Helper, HelperEffect};
use std::alloc::AllocError;
use world_calls::StoppedAt;

/// A run at its stop: its number, what is recorded of it, and what the call of a helper asks.
#[derive(Clone, Copy)]
struct Caller {
    number: u32,
    it: RunInfo,
    asked: Arguments,
    // of its CCB, before the call
    retries: u32,
}

impl Caller {
    // The run, with its CCB and queue.
    fn subject(&self) -> Subject {
        Subject {
            ccb: Some(self.it.ccb.0),
            place: Some(Place::Device(self.it.queue)),
            run: Some(self.number),
            freeze: None,
        }
    }

    // What a helper was asked that answered this: R1 to R3, R0, and what R0 was before R3 was added to it.
    fn values(&self, r0: u64) -> Values {
        let asked = self.asked;
        Values {
            numbers: [
                asked.first,
                asked.second,
                asked.third,
                r0,
                r0.wrapping_sub(asked.third),
            ],
            ..Values::none()
        }
    }
}

// What a queue has.
fn queue_values(info: QueueInfo) -> Values {
    Values {
        numbers: [
            u64::from(info.active),
            u64::from(info.waiting),
            u64::from(info.openings),
            0,
            0,
        ],
        frozen: info.frozen,
        ..Values::none()
    }
}

impl Walk<'_> {
    /// Goes on by the record of an advance, and tells it.
    pub(crate) fn advanced(
        &mut self,
        run: u32,
        instructions: u32,
        stop: &StoppedAt,
        r0: u64,
        events: &mut Vec<Event>,
    ) -> Result<(), AllocError> {
        let caller = self.caller(run)?;
        let _ = self.engine.advance(run)?;
        self.count_instructions(run, instructions);
        let Some(caller) = caller else {
            return Ok(());
        };
        match stop {
            StoppedAt::Helper(helper) => self.helped(&caller, *helper, r0, events),
            StoppedAt::Trace(_, bytes) => {
                let values = Values {
                    bytes: ShortBytes::new(bytes.as_slice()).unwrap_or(ShortBytes::none()),
                    ..Values::none()
                };
                self.tell(caller.subject(), Happening::Traced, values, events)
            }
            StoppedAt::Finish(_, code) => self.finished(&caller, *code, events),
            StoppedAt::Exit => self.ended(&caller, r0, events),
        }
    }

    // What the run is before it goes on, if it is out.
    fn caller(&mut self, run: u32) -> Result<Option<Caller>, AllocError> {
        let asked = self.engine.asked(run)?;
        let Some(it) = self.engine.run(run) else {
            return Ok(None);
        };
        let retries = self.retries(it.ccb);
        let asked = match asked {
            Some(request) => request.arguments,
            None => Arguments {
                first: 0,
                second: 0,
                third: 0,
            },
        };
        Ok(Some(Caller {
            number: run,
            it,
            asked,
            retries,
        }))
    }

    // How many retries a live CCB has left.
    fn retries(&self, ccb: CcbId) -> u32 {
        self.engine.ccb(ccb).map_or(0, |it| it.ccb().retries)
    }

    fn count_instructions(&mut self, run: u32, instructions: u32) {
        if let Some(times) = self.times.runs.get_mut(&run) {
            times.instructions = times.instructions.saturating_add(u64::from(instructions));
        }
    }

    fn helped(
        &mut self,
        caller: &Caller,
        helper: Helper,
        r0: u64,
        events: &mut Vec<Event>,
    ) -> Result<(), AllocError> {
        let effect = helper.row().effect;
        match effect {
            HelperEffect::Freeze => {
                let queue = u32::try_from(caller.asked.first).unwrap_or(u32::MAX);
                self.taken(caller, Place::Device(QueueId(queue)), r0, events)
            }
            HelperEffect::FreezeController => {
                let controller = caller.it.controller;
                self.taken(caller, Place::Controller(controller), r0, events)
            }
            HelperEffect::GiveBack => self.given_back(caller, events),
            HelperEffect::HandOver => self.handed_over(caller, events),
            HelperEffect::Requeue => self.requeued(caller, events),
            HelperEffect::TellController => {
                let mut subject = caller.subject();
                subject.place = Some(Place::Controller(caller.it.controller));
                let values = Values::frozen(u32::try_from(r0).unwrap_or(u32::MAX), 0);
                self.tell(subject, Happening::Helped(effect), values, events)
            }
            HelperEffect::TellQueue => {
                let values = queue_values(self.told_of(caller.it.queue));
                self.tell(caller.subject(), Happening::Helped(effect), values, events)
            }
            _ => {
                let values = caller.values(r0);
                self.tell(caller.subject(), Happening::Helped(effect), values, events)
            }
        }
    }

    /// What a queue has; nothing if there is no such queue.
    pub(crate) fn told_of(&self, queue: QueueId) -> QueueInfo {
        self.engine.queue_info(queue).unwrap_or(QueueInfo {
            frozen: 0,
            active: 0,
            waiting: 0,
            openings: 0,
        })
    }

    // The run took a freeze, or none if it was answered 0.
    fn taken(
        &mut self,
        caller: &Caller,
        place: Place,
        r0: u64,
        events: &mut Vec<Event>,
    ) -> Result<(), AllocError> {
        let freeze = u32::try_from(r0).unwrap_or(0);
        let cause = self.cause_of(caller);
        self.times.take(freeze, place, cause, self.engine.clock())?;
        let mut subject = caller.subject();
        subject.place = Some(place);
        subject.freeze = some_freeze(freeze);
        let frozen = self.frozen(place);
        let happening = if freeze == 0 {
            Happening::NotFrozenByRun
        } else {
            Happening::FrozenByRun
        };
        self.tell(subject, happening, Values::frozen(frozen, 0), events)
    }

    // Why the run is there: its CCB failed.
    fn cause_of(&self, caller: &Caller) -> Cause {
        let status = match self.times.runs.get(&caller.number) {
            Some(times) => times.status,
            None => CamStatus::RequestInProgress,
        };
        Cause::Failure {
            ccb: caller.it.ccb.0,
            status,
            run: caller.number,
        }
    }

    fn given_back(&mut self, caller: &Caller, events: &mut Vec<Event>) -> Result<(), AllocError> {
        let freeze = u32::try_from(caller.asked.first).unwrap_or(0);
        let mut subject = caller.subject();
        subject.freeze = some_freeze(freeze);
        let Some(times) = self.times.freezes.remove(&freeze) else {
            return Ok(());
        };
        subject.place = Some(times.place);
        let frozen = self.frozen(times.place);
        let held = self.engine.clock().saturating_sub(times.since);
        let values = Values::frozen(frozen, held);
        self.tell(subject, Happening::GivenBackByRun, values, events)
    }

    fn handed_over(&mut self, caller: &Caller, events: &mut Vec<Event>) -> Result<(), AllocError> {
        let freeze = u32::try_from(caller.asked.first).unwrap_or(0);
        let mut subject = caller.subject();
        subject.freeze = some_freeze(freeze);
        if let Some(times) = self.times.freezes.get(&freeze) {
            subject.place = Some(times.place);
        }
        let due = self.engine.clock().saturating_add(caller.asked.second);
        let values = Values::numbers(due, 0);
        self.tell(subject, Happening::LeftToTimer, values, events)
    }

    fn requeued(&mut self, caller: &Caller, events: &mut Vec<Event>) -> Result<(), AllocError> {
        let _ = self.times.move_ccb(caller.it.ccb.0, self.engine.clock())?;
        let now = self.retries(caller.it.ccb);
        let values = Values::numbers(u64::from(caller.retries), u64::from(now));
        self.tell(caller.subject(), Happening::Requeued, values, events)
    }

    fn finished(
        &mut self,
        caller: &Caller,
        code: u8,
        events: &mut Vec<Event>,
    ) -> Result<(), AllocError> {
        let _ = self.times.drop_ccb(caller.it.ccb.0, self.engine.clock());
        let values = Values {
            code,
            ..Values::none()
        };
        self.tell(caller.subject(), Happening::Finished, values, events)
    }

    fn ended(
        &mut self,
        caller: &Caller,
        r0: u64,
        events: &mut Vec<Event>,
    ) -> Result<(), AllocError> {
        let instructions = match self.times.runs.remove(&caller.number) {
            Some(times) => times.instructions,
            None => 0,
        };
        let values = Values::numbers(instructions, r0);
        self.tell(caller.subject(), Happening::Ended, values, events)
    }
}
