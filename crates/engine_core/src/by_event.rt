// A call as a value, for whoever holds one as data: each is answered by its method. It relies on `methods`.

ghost use Rattle.std.specs.Prelude.{◌≡◌};
ghost use Rattle.engine_core.specs.EngineState.{IsRun};
ghost use Rattle.engine_core.specs.declared.event.Event.TheVariants.{Dispatch};
ghost use Rattle.engine_core.specs.Replies.{GivesAsRecorded, IsOfKnown, IsRecorded, ReplyMatchesEvent, ToldFit, fault_reply};

use crate::answers::{AdvanceAnswer, AdvanceFault, CallFault, CompleteAnswer, ReleaseFault};
use crate::engine::Engine;
use crate::event::Event;
use crate::reply::{Reply, Returned, Success};
use ccb::{Place, QueueId};

// Why a call that owns nothing is not carried out.
fn fault_reply(fault: CallFault) -> Reply
    ensures { result ≡ fault_reply fault }
{
    match fault {
        CallFault::OutOfMemory => Reply::OutOfMemory(Returned::Nothing),
        CallFault::Refused(refusal) => Reply::Refused(refusal),
    }
}

impl Engine {
    /// Answers an event by one record more, with what it gives or why it is refused. Where it is unfit (C4, C6) or memory is
    /// refused nothing changes, and what it owned comes back. A park takes no memory.
    pub fn answer(&mut self, event: Event<'_>) -> Reply
        ensures recorded { IsRecorded self.old event.entry result self.new }
        ensures fits { ReplyMatchesEvent event.entry result }
        ensures fit { ToldFit self.old.world event.entry result }
        ensures gives { GivesAsRecorded self.old.setup self.old.world event.entry self.new.world result }
        ensures run { IsRun self.new }
    {
        self.answer_known(event, None)
    }

    /// The same, where the run of an advance is known to have the program of a queue. If the run of its number is recorded
    /// for that queue, the two programs are not compared; else nothing comes of what is known.
    pub fn answer_known(&mut self, event: Event<'_>, known: Option<QueueId>) -> Reply
        requires { IsOfKnown self.old.setup event known }
        ensures recorded { IsRecorded self.old event.entry result self.new }
        ensures fits { ReplyMatchesEvent event.entry result }
        ensures fit { ToldFit self.old.world event.entry result }
        ensures gives { GivesAsRecorded self.old.setup self.old.world event.entry self.new.world result }
        ensures run { IsRun self.new }
    {
        match event {
            Event::Submit {
                queue,
                priority,
                retries,
                class,
            } => match self.submit(queue, priority, retries, class) {
                Ok(ccb) => Reply::Success(Success::Ccb(ccb)),
                Err(fault) => fault_reply(fault),
            },
            Event::Dispatch { queue } => self.started(queue),
            Event::Complete { completion } => match self.complete_lent(completion) {
                Ok(CompleteAnswer::Done) => Reply::Success(Success::Done),
                Ok(CompleteAnswer::Started(run, freeze)) => {
                    Reply::Success(Success::Started(run, freeze))
                }
                Err(fault) => fault_reply(fault),
            },
            Event::Withdraw { ccb } => match self.withdraw(ccb) {
                Ok(()) => Reply::Success(Success::Withdrawn),
                Err(fault) => fault_reply(fault),
            },
            Event::Advance { run } => match self.go_on_known(run, known) {
                Ok(AdvanceAnswer::Goes(run, r0)) => Reply::Success(Success::Goes(run, r0)),
                Ok(AdvanceAnswer::Ended(r0)) => Reply::Success(Success::Ended(r0)),
                Err((AdvanceFault::NotOut, run)) => Reply::NotAdmitted(Returned::Run(run)),
                Err((AdvanceFault::OutOfMemory, run)) => Reply::OutOfMemory(Returned::Run(run)),
            },
            Event::Clock { reading } => match self.clock(reading) {
                Ok(count) => Reply::Success(Success::Removed(count)),
                Err(fault) => fault_reply(fault),
            },
            Event::GuestFreeze { place, guest } => match self.freeze_place(place, guest) {
                Ok(token) => Reply::Success(Success::Freeze(token)),
                Err(fault) => fault_reply(fault),
            },
            Event::GuestRelease { token } => match self.guest_release(token) {
                Ok(count) => Reply::Success(Success::Left(count)),
                Err((ReleaseFault::NotHeld, token)) => Reply::NotAdmitted(Returned::Token(token)),
                Err((ReleaseFault::OutOfMemory, token)) => {
                    Reply::OutOfMemory(Returned::Token(token))
                }
            },
            Event::Park { run } => match self.park(run) {
                Ok(()) => Reply::Success(Success::Parked),
                Err(run) => Reply::NotAdmitted(Returned::Run(run)),
            },
            Event::Resume { run } => match self.resume(run) {
                Ok(run) => Reply::Success(Success::Resumed(run)),
                Err(fault) => fault_reply(fault),
            },
        }
    }
    // What a dispatch leads to.
    fn started(&mut self, queue: QueueId) -> Reply
        ensures recorded { IsRecorded self.old (Dispatch queue) result self.new }
        ensures fits { ReplyMatchesEvent (Dispatch queue) result }
        ensures fit { ToldFit self.old.world (Dispatch queue) result }
        ensures gives { GivesAsRecorded self.old.setup self.old.world (Dispatch queue) self.new.world result }
        ensures run { IsRun self.new }
    {
        let version = self.version();
        match self.dispatch(queue) {
            Ok(start) => Reply::Success(Success::of_start(version, start)),
            Err(fault) => fault_reply(fault),
        }
    }
}
