// What the record of a call tells. It relies on `walk` for the world, and on `timers` for a clock reading.

use crate::event::{Cause, Event, Subject, Values};
use crate::happening::Happening;
use crate::times::RunTimes;
use crate::walk::Walk;
use ccb::{CamStatus, CcbId, Place, QueueId};
use std::alloc::AllocError;
use world_calls::{Call, CallAnswer, CompletionRecord};

impl Walk<'_> {
    /// Goes on by the record of a call, and tells it.
    pub(crate) fn called(
        &mut self,
        answer: CallAnswer,
        call: &Call,
        events: &mut Vec<Event>,
    ) -> Result<(), AllocError> {
        match call {
            Call::Submit {
                queue,
                priority,
                retries,
                class,
            } => {
                let _ = self.engine.call(call)?;
                let values = Values::three(
                    u64::from(*priority),
                    u64::from(*retries),
                    u64::from(class.unwrap_or(0)),
                );
                self.submitted(answer, *queue, values, events)
            }
            Call::Dispatch { queue } => {
                let _ = self.engine.call(call)?;
                self.dispatched(answer, *queue, events)
            }
            Call::Complete { completion } => {
                let _ = self.engine.call(call)?;
                self.completed(answer, completion, events)
            }
            Call::Withdraw { ccb } => {
                let _ = self.engine.call(call)?;
                self.withdrawn(answer, *ccb, events)
            }
            Call::GuestFreeze { place, guest } => {
                let _ = self.engine.call(call)?;
                self.frozen_by_guest(answer, *place, *guest, events)
            }
            Call::GuestRelease { freeze } => {
                let _ = self.engine.call(call)?;
                self.given_back_by_guest(*freeze, events)
            }
            Call::Clock { reading } => {
                let _ = self.engine.call(call)?;
                self.clock_read(answer, *reading, events)
            }
            Call::Park { run } => {
                let _ = self.engine.call(call)?;
                self.tell(
                    self.run_subject(*run),
                    Happening::Parked,
                    Values::none(),
                    events,
                )
            }
            Call::Resume { run } => {
                let _ = self.engine.call(call)?;
                self.resumed(answer, *run, events)
            }
        }
    }

    /// A run, with its CCB and queue.
    pub(crate) fn run_subject(&self, run: u32) -> Subject {
        let it = self.engine.run(run);
        Subject {
            ccb: it.map(|it| it.ccb.0),
            place: it.map(|it| Place::Device(it.queue)),
            run: Some(run),
            freeze: None,
        }
    }

    fn submitted(
        &mut self,
        answer: CallAnswer,
        queue: QueueId,
        values: Values,
        events: &mut Vec<Event>,
    ) -> Result<(), AllocError> {
        let mut subject = Subject {
            place: Some(Place::Device(queue)),
            ..Subject::default()
        };
        match answer {
            CallAnswer::Ccb(ccb) => {
                self.times.submit(ccb.0, queue, self.engine.clock())?;
                subject.ccb = Some(ccb.0);
                self.tell(subject, Happening::Submitted, values, events)
            }
            CallAnswer::Refused(refusal) => {
                let values = Values::refused(refusal);
                self.tell(subject, Happening::NotSubmitted, values, events)
            }
            _ => Ok(()),
        }
    }

    fn dispatched(
        &mut self,
        answer: CallAnswer,
        queue: QueueId,
        events: &mut Vec<Event>,
    ) -> Result<(), AllocError> {
        let subject = Subject {
            place: Some(Place::Device(queue)),
            ..Subject::default()
        };
        match answer {
            CallAnswer::Ccb(ccb) => self.started(subject, ccb, 0, events),
            CallAnswer::Advised(ccb, advice) => self.started(subject, ccb, advice, events),
            CallAnswer::Refused(refusal) => {
                let frozen = self.frozen(self.what_stops(queue));
                let happening = if frozen > 0 {
                    Happening::NotStartedFrozen
                } else {
                    Happening::NotStarted
                };
                let values = Values {
                    frozen,
                    ..Values::refused(refusal)
                };
                self.tell(subject, happening, values, events)
            }
            _ => Ok(()),
        }
    }

    // A queue started a CCB, for which that was advised.
    fn started(
        &mut self,
        queue: Subject,
        ccb: CcbId,
        advice: u32,
        events: &mut Vec<Event>,
    ) -> Result<(), AllocError> {
        let waited = self.times.move_ccb(ccb.0, self.engine.clock())?;
        let attempt = self.engine.ccb(ccb).map_or(0, |it| it.ccb().attempts);
        let subject = Subject {
            ccb: Some(ccb.0),
            ..queue
        };
        let values = Values::three(u64::from(attempt), waited, u64::from(advice));
        self.tell(subject, Happening::Started, values, events)
    }

    fn withdrawn(
        &mut self,
        answer: CallAnswer,
        ccb: CcbId,
        events: &mut Vec<Event>,
    ) -> Result<(), AllocError> {
        let subject = Subject {
            ccb: Some(ccb.0),
            place: self.times.queue_of(ccb.0).map(Place::Device),
            ..Subject::default()
        };
        match answer {
            CallAnswer::Ok => {
                let waited = self.times.drop_ccb(ccb.0, self.engine.clock());
                let values = Values {
                    code: CamStatus::RequestAborted.code(),
                    ..Values::numbers(waited, 0)
                };
                self.tell(subject, Happening::Withdrawn, values, events)
            }
            CallAnswer::Refused(refusal) => {
                let values = Values::refused(refusal);
                self.tell(subject, Happening::NotWithdrawn, values, events)
            }
            _ => Ok(()),
        }
    }

    // What is frozen if a start is refused for a freeze: the queue itself; or, if the queue could start a CCB, the controller that
    // it is under.
    fn what_stops(&self, queue: QueueId) -> Place {
        let info = self.told_of(queue);
        if info.frozen == 0 && info.waiting > 0 && info.active < info.openings {
            Place::Controller(self.config.controller(queue))
        } else {
            Place::Device(queue)
        }
    }

    fn completed(
        &mut self,
        answer: CallAnswer,
        completion: &CompletionRecord,
        events: &mut Vec<Event>,
    ) -> Result<(), AllocError> {
        let ccb = completion.ccb().0;
        let mut subject = Subject {
            ccb: Some(ccb),
            place: self.times.queue_of(ccb).map(Place::Device),
            ..Subject::default()
        };
        match answer {
            CallAnswer::Done => {
                let active = self.times.drop_ccb(ccb, self.engine.clock());
                let values = Values::reported(completion, active);
                self.tell(subject, Happening::Completed, values, events)
            }
            CallAnswer::Started { run, freeze } => {
                subject.run = Some(run);
                subject.freeze = some_freeze(freeze);
                self.failed(completion, subject, run, freeze, events)
            }
            CallAnswer::Refused(refusal) => {
                let values = Values {
                    refusal,
                    ..Values::reported(completion, 0)
                };
                self.tell(subject, Happening::NotCompleted, values, events)
            }
            _ => Ok(()),
        }
    }

    // A CCB failed, and a run began, with a freeze or with none, as number 0.
    fn failed(
        &mut self,
        completion: &CompletionRecord,
        subject: Subject,
        run: u32,
        freeze: u32,
        events: &mut Vec<Event>,
    ) -> Result<(), AllocError> {
        let clock = self.engine.clock();
        let ccb = completion.ccb().0;
        let status = completion.status();
        let active = self.times.move_ccb(ccb, clock)?;
        let times = RunTimes {
            ccb,
            status,
            since: clock,
            instructions: 0,
        };
        let _ = self.times.runs.insert(run, times)?;
        let mut frozen = 0;
        if let Some(place) = subject.place {
            let cause = Cause::Failure { ccb, status, run };
            self.times.take(freeze, place, cause, clock)?;
            frozen = self.frozen(place);
        }
        let happening = if freeze == 0 {
            Happening::FailedAtLimit
        } else {
            Happening::Failed
        };
        let values = Values {
            frozen,
            ..Values::reported(completion, active)
        };
        self.tell(subject, happening, values, events)
    }

    fn frozen_by_guest(
        &mut self,
        answer: CallAnswer,
        place: Place,
        guest: u32,
        events: &mut Vec<Event>,
    ) -> Result<(), AllocError> {
        let mut subject = Subject {
            place: Some(place),
            ..Subject::default()
        };
        match answer {
            CallAnswer::Freeze(freeze) => {
                self.times
                    .take(freeze, place, Cause::Guest(guest), self.engine.clock())?;
                subject.freeze = Some(freeze);
                let frozen = self.frozen(place);
                let values = Values {
                    guest,
                    ..Values::frozen(frozen, 0)
                };
                self.tell(subject, Happening::FrozenByGuest, values, events)
            }
            CallAnswer::Refused(refusal) => {
                let values = Values {
                    guest,
                    ..Values::refused(refusal)
                };
                self.tell(subject, Happening::NotFrozenByGuest, values, events)
            }
            _ => Ok(()),
        }
    }

    fn given_back_by_guest(
        &mut self,
        freeze: u32,
        events: &mut Vec<Event>,
    ) -> Result<(), AllocError> {
        let Some(times) = self.times.freezes.remove(&freeze) else {
            return Ok(());
        };
        let Cause::Guest(guest) = times.cause else {
            return Ok(());
        };
        let subject = Subject {
            place: Some(times.place),
            freeze: Some(freeze),
            ..Subject::default()
        };
        let frozen = self.frozen(times.place);
        let held = self.engine.clock().saturating_sub(times.since);
        let values = Values {
            guest,
            ..Values::frozen(frozen, held)
        };
        self.tell(subject, Happening::GivenBackByGuest, values, events)
    }

    fn resumed(
        &mut self,
        answer: CallAnswer,
        run: u32,
        events: &mut Vec<Event>,
    ) -> Result<(), AllocError> {
        let (happening, values) = match answer {
            CallAnswer::Refused(refusal) => (Happening::NotResumed, Values::refused(refusal)),
            _ => (Happening::Resumed, Values::none()),
        };
        self.tell(self.run_subject(run), happening, values, events)
    }
}

/// The freeze of a number, of which 0 is none.
pub(crate) fn some_freeze(number: u32) -> Option<u32> {
    if number == 0 { None } else { Some(number) }
}
