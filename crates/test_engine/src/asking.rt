// How an engine is asked: by its events, or by its methods. It relies on `engine_core` for both, and on `interpreter` for what a run
// does apart.

use ccb::{CcbId, Place, QueueId};
use engine_core::{
    AdvanceAnswer, AdvanceFault, CallFault, CompleteAnswer, DriveFault, Engine, Event,
    ReleaseFault, Reply, Returned, Run, Stopped, Success,
};
use freeze_ledger::FreezeToken;
use host_handles::Responder;
use interpreter::{Segment, to_stop};
use std::alloc::AllocError;
use std::mem;
use std::sync::Arc;
use world_calls::Version;

/// How an engine is asked.
#[derive(Clone, Copy, Debug, PartialEq, Eq)]
pub enum Manner {
    /// An event is a value, and so is the reply.
    Events,
    /// Each event by a method of its own.
    Methods,
    /// The same, but a run and what it did stand apart.
    Segments,
}

/// An engine that is asked in this manner.
#[derive(Drop)]
pub struct Asked {
    pub engine: Engine,
    pub manner: Manner,
}

impl Responder for Asked {
    ghost answers = { λ _ _ _ _. Unit };

    fn answer(&mut self, event: Event<'_>) -> Reply {
        match self.manner {
            Manner::Events => self.engine.answer(event),
            Manner::Methods => by_method(&mut self.engine, event),
            Manner::Segments => match event {
                Event::Advance { run } => by_segment(&mut self.engine, run.back()),
                other => by_method(&mut self.engine, other),
            },
        }
    }
}

// Each method's clauses stay in a function of its own.

fn by_method(engine: &mut Engine, event: Event<'_>) -> Reply {
    match event {
        Event::Submit {
            queue,
            priority,
            retries,
            class,
        } => ccb_replied(engine.submit(queue, priority, retries, class)),
        Event::Dispatch { queue } => start_replied(engine, queue),
        Event::Complete { completion } => match engine.complete(*completion) {
            Ok(CompleteAnswer::Done) => Reply::Success(Success::Done),
            Ok(CompleteAnswer::Started(run, freeze)) => Reply::Success(Success::Started(
                run, freeze,
            )),
            // it comes back as it was
            Err((fault, back)) if back == *completion => refused(fault),
            Err(_) => Reply::NotAdmitted(Returned::Nothing),
        },
        Event::Withdraw { ccb } => withdraw_replied(engine.withdraw(ccb)),
        Event::Advance { run } => stop_replied(engine.go_on(run)),
        Event::Clock { reading } => count_replied(engine.clock(reading)),
        Event::GuestFreeze { place, guest } => match place {
            Place::Device(queue) => token_replied(engine.guest_freeze(queue, guest)),
            Place::Controller(controller) => {
                token_replied(engine.guest_freeze_controller(controller, guest))
            }
        },
        Event::GuestRelease { token } => release_replied(engine.guest_release(token)),
        Event::Park { run } => park_replied(engine.park(run)),
        Event::Resume { run } => resume_replied(engine.resume(run)),
    }
}

fn refused(fault: CallFault) -> Reply {
    match fault {
        CallFault::OutOfMemory => Reply::OutOfMemory(Returned::Nothing),
        CallFault::Refused(refusal) => Reply::Refused(refusal),
    }
}

fn ccb_replied(answer: Result<CcbId, CallFault>) -> Reply {
    match answer {
        Ok(ccb) => Reply::Success(Success::Ccb(ccb)),
        Err(fault) => refused(fault),
    }
}

// A start in an engine without classes gives the CCB alone.
fn start_replied(engine: &mut Engine, queue: QueueId) -> Reply {
    match engine.dispatch(queue) {
        Ok(start) => Reply::Success(match engine.version() {
            Version::One | Version::Two => Success::Ccb(start.ccb),
            Version::Three => Success::Advised(start),
        }),
        Err(fault) => refused(fault),
    }
}

fn withdraw_replied(answer: Result<(), CallFault>) -> Reply {
    match answer {
        Ok(()) => Reply::Success(Success::Withdrawn),
        Err(fault) => refused(fault),
    }
}

fn count_replied(answer: Result<u32, CallFault>) -> Reply {
    match answer {
        Ok(count) => Reply::Success(Success::Removed(count)),
        Err(fault) => refused(fault),
    }
}

fn token_replied(answer: Result<FreezeToken, CallFault>) -> Reply {
    match answer {
        Ok(token) => Reply::Success(Success::Freeze(token)),
        Err(fault) => refused(fault),
    }
}

fn release_replied(answer: Result<u32, (ReleaseFault, FreezeToken)>) -> Reply {
    match answer {
        Ok(count) => Reply::Success(Success::Left(count)),
        Err((ReleaseFault::NotHeld, token)) => Reply::NotAdmitted(Returned::Token(token)),
        Err((ReleaseFault::OutOfMemory, token)) => Reply::OutOfMemory(Returned::Token(token)),
    }
}

fn park_replied(answer: Result<(), Run>) -> Reply {
    match answer {
        Ok(()) => Reply::Success(Success::Parked),
        Err(run) => Reply::NotAdmitted(Returned::Run(run)),
    }
}

fn resume_replied(answer: Result<Run, CallFault>) -> Reply {
    match answer {
        Ok(run) => Reply::Success(Success::Resumed(run)),
        Err(fault) => refused(fault),
    }
}

fn advanced(answer: AdvanceAnswer) -> Reply {
    match answer {
        AdvanceAnswer::Goes(run, r0) => Reply::Success(Success::Goes(run, r0)),
        AdvanceAnswer::Ended(r0) => Reply::Success(Success::Ended(r0)),
    }
}

fn not_advanced(fault: AdvanceFault, run: Run) -> Reply {
    match fault {
        AdvanceFault::NotOut => Reply::NotAdmitted(Returned::Run(run)),
        AdvanceFault::OutOfMemory => Reply::OutOfMemory(Returned::Run(run)),
    }
}

fn stop_replied(answer: Result<AdvanceAnswer, (AdvanceFault, Run)>) -> Reply {
    match answer {
        Ok(answer) => advanced(answer),
        Err((fault, run)) => not_advanced(fault, run),
    }
}

// What the run does up to its next stop.
fn segment_of(run: &Run) -> Result<Segment, AllocError> {
    Ok(to_stop(Arc::try_clone(run.program())?, run.machine()))
}

fn by_segment(engine: &mut Engine, run: Run) -> Reply {
    match segment_of(&run) {
        Ok(segment) => present(engine, run, segment).0,
        Err(AllocError) => Reply::OutOfMemory(Returned::Run(run)),
    }
}

// Hands a run in with a segment, which comes back if it is not taken over.
fn present(engine: &mut Engine, run: Run, segment: Segment) -> (Reply, Option<Segment>) {
    match engine.advance(run, segment) {
        Ok(answer) => (advanced(answer), None),
        Err((fault, run, segment)) => (not_advanced(fault, run), Some(segment)),
    }
}

/// Keeps what a run does up to its next stop. The run comes back.
#[derive(Drop)]
pub struct Stretching {
    pub kept: Option<Segment>,
}

impl Responder for Stretching {
    ghost answers = { λ _ _ _ _. Unit };

    fn answer(&mut self, event: Event<'_>) -> Reply {
        let run = match event {
            Event::Advance { run } => run.back(),
            other => return Reply::NotAdmitted(other.owned()),
        };
        match segment_of(&run) {
            Ok(segment) => {
                self.kept = Some(segment);
                Reply::NotAdmitted(Returned::Run(run))
            }
            Err(AllocError) => Reply::OutOfMemory(Returned::Run(run)),
        }
    }
}

/// An engine to which a run is handed in with what was kept, whatever run that was of.
#[derive(Drop)]
pub struct Presenting<'a> {
    pub engine: &'a mut Engine,
    pub kept: &'a mut Option<Segment>,
}

impl Responder for Presenting<'_> {
    ghost use Rattle.std.specs.Prelude.{◌≡◌};

    // it keeps the loans that it has
    ghost answers = { λ old _ _ new. (new.engine.ghost_name ≡ old.engine.ghost_name) × (new.kept.ghost_name ≡ old.kept.ghost_name) };

    fn answer(&mut self, event: Event<'_>) -> Reply {
        let run = match event {
            Event::Advance { run } => run.back(),
            other => return Reply::NotAdmitted(other.owned()),
        };
        match mem::replace(self.kept, None) {
            Some(segment) => {
                let (reply, back) = present(self.engine, run, segment);
                *self.kept = back;
                reply
            }
            None => Reply::NotAdmitted(Returned::Run(run)),
        }
    }
}

/// An engine that drives a run to its exit, whatever of it is handed in.
#[derive(Drop)]
pub struct Driving<'a> {
    pub engine: &'a mut Engine,
}

impl Responder for Driving<'_> {
    ghost use Rattle.std.specs.Prelude.{◌≡◌};

    // it keeps the loan that it has
    ghost answers = { λ old _ _ new. new.engine.ghost_name ≡ old.engine.ghost_name };

    fn answer(&mut self, event: Event<'_>) -> Reply {
        match event {
            Event::Advance { run } => driven(self.engine, run.back()),
            other => Reply::NotAdmitted(other.owned()),
        }
    }
}

fn driven(engine: &mut Engine, run: Run) -> Reply {
    match engine.drive(run) {
        Ok(r0) => Reply::Success(Success::Ended(r0)),
        Err(fault) => {
            let DriveFault { why, run, r0: _ } = fault;
            not_advanced(why, run)
        }
    }
}
