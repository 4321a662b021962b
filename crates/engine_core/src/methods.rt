// The engine's calls, each as a method: room for the call's record is taken first, then the call changes the engine's parts, and its
// record joins the history. Nothing is undone. It relies on `ccb_events`, `freeze_events` and `run_events` for what a call does.

ghost use Rattle.std.specs.Prelude.{◌≡◌, ◌≢◌, IfOk, IfErr, IfSome, MatchResult};
ghost use Rattle.freeze_ledger.specs.declared.freeze.Holder.TheVariants.{Guest};
ghost use Rattle.engine_core.specs.RunState.{before_stop, IsOut, IsOutUnder};
ghost use Rattle.ccb.specs.declared.place.Place.TheVariants.{Controller, Device};
ghost use Rattle.world_calls.specs.declared.call.Call.TheVariants.{Submit, Dispatch, Complete, Withdraw, GuestFreeze, GuestRelease, Clock, Park, Resume};
ghost use Rattle.world_calls.specs.declared.call_answer.CallAnswer.TheVariants as answers;
ghost use Rattle.world_calls.specs.declared.record.Record.TheVariants.{Called, Advance};
ghost use Rattle.world_calls.specs.Answered.{started_answer};
ghost use Rattle.world_calls.specs.declared.trace.Version.TheVariants.{Three};
ghost use Rattle.world.specs.World.{class_kept, queue_setup, version_of};
ghost use Rattle.engine_core.specs.EngineState.{IsRun, Records, GuestHolds};
ghost use Rattle.engine_core.specs.Answers.{completed_of, StartsOut, stopped_at, r0_of, GoesOrEnds};
ghost use Rattle.engine_core.specs.Faults.{FaultIs, HoldsUnlessTold, AdmitsUnlessTold};

use crate::answers::{AdvanceAnswer, AdvanceFault, CallFault, CompleteAnswer, ReleaseFault, given};
use crate::ccb_events::{complete, dispatch, submit, withdraw};
use crate::engine::{Engine, ROOM};
use crate::freeze_events::{guest_freeze, guest_release, read_clock};
use crate::run::Run;
use crate::run_events::{advance, park, resume};
use crate::setting::Setting;
use crate::stopped::Stopped;
use ccb::{CcbId, Completion, Place, QueueId};
use freeze_ledger::FreezeToken;
use std::alloc::AllocError;
use world_calls::Start;

impl Engine {
    /// Submits a CCB to a queue, with a priority (the lowest number starts first), how often it may be tried again, and its
    /// class, which is taken as 0 if CCBs have none: its number. C1 where there is no such queue; C2 where the queue has 256 CCBs, the engine 4096, or the
    /// numbers up to 4,294,967,295 are used up. Both are recorded and change nothing else.
    pub fn submit(
        &mut self,
        queue: QueueId,
        priority: u32,
        retries: u32,
        class: u32,
    ) -> Result<CcbId, CallFault>
        ensures answered { IfOk result (λ ccb. Records self.old self.new (Called (answers.Ccb ccb) (Submit queue priority retries (class_kept self.old.setup class)))) }
        ensures fault { IfErr result (λ fault. FaultIs fault (self.new ≡ self.old) (λ refusal. Records self.old self.new (Called (answers.Refused refusal) (Submit queue priority retries (class_kept self.old.setup class))))) }
        ensures run { IsRun self.new }
    {
        if self.history.reserve(ROOM).is_err() {
            return Err(CallFault::OutOfMemory);
        }
        let (answer, submitted) = submit(
            &Setting {
                config: &self.config,
                over: &self.over,
            },
            &mut self.parts.transport,
            queue,
            priority,
            retries,
            class,
        );
        self.history.push_reserved(submitted);
        given(answer)
    }

    /// Starts the waiting CCB of the queue that has the lowest priority number, and among these the lowest CCB
    /// number: its number, and what its policy advised for this start, or 0; from then on it advises nothing. If CCBs have no advice, it is 0. Refused with the first refusal of a dispatch that holds (`ccb::REFUSALS` has them in their order),
    /// which is recorded and changes nothing else.
    pub fn dispatch(&mut self, queue: QueueId) -> Result<Start, CallFault>
        ensures answered { IfOk result (λ start. Records self.old self.new (Called (started_answer (version_of self.old.setup) start) (Dispatch queue))) }
        ensures fault { IfErr result (λ fault. FaultIs fault (self.new ≡ self.old) (λ refusal. Records self.old self.new (Called (answers.Refused refusal) (Dispatch queue)))) }
        ensures unadvised { version_of self.old.setup ≢ Three → IfOk result (λ start. start.advice ≡ 0) }
        ensures run { IsRun self.new }
    {
        if self.history.reserve(ROOM).is_err() {
            return Err(CallFault::OutOfMemory);
        }
        let (answer, told) = dispatch(
            &Setting {
                config: &self.config,
                over: &self.over,
            },
            &mut self.parts.transport,
            queue,
        );
        self.history.push_reserved(told);
        given(answer)
    }

    /// Withdraws a CCB that waits: it is gone, with the code of REQ_ABORTED. C1 if no such CCB is live, or CCBs may not be withdrawn;
    /// C3 if it does not wait. Both are recorded and change nothing else.
    pub fn withdraw(&mut self, ccb: CcbId) -> Result<(), CallFault>
        ensures answered { IfOk result (λ _. Records self.old self.new (Called answers.Ok (Withdraw ccb))) }
        ensures fault { IfErr result (λ fault. FaultIs fault (self.new ≡ self.old) (λ refusal. Records self.old self.new (Called (answers.Refused refusal) (Withdraw ccb)))) }
        ensures run { IsRun self.new }
    {
        if self.history.reserve(ROOM).is_err() {
            return Err(CallFault::OutOfMemory);
        }
        let (answer, told) = withdraw(
            &Setting {
                config: &self.config,
                over: &self.over,
            },
            &mut self.parts.transport,
            ccb,
        );
        self.history.push_reserved(told);
        given(answer)
    }

    /// Takes a completion of an active CCB. With REQ_CMP the CCB is finished and gone. With any other status the
    /// queue is frozen once more, the CCB is in recovery, and a run of the queue's program starts, which holds the
    /// freeze; where that freeze meets a limit the run starts without it and is told number 0. C1 where no such CCB
    /// is live; C2 where a run is to start and there are 256, or their numbers up to 4,294,967,295 are used up; C3
    /// where the CCB is not active. These are recorded and change nothing else. Every fault hands the completion
    /// back.
    pub fn complete(
        &mut self,
        completion: Completion,
    ) -> Result<CompleteAnswer, (CallFault, Completion)>
        ensures answered { IfOk result (λ answer. Records self.old self.new (Called (completed_of answer) (Complete completion))) }
        ensures started { IfOk result (StartsOut self.new.setup self.new.world) }
        ensures fault { IfErr result (λ fault. FaultIs fault.0 (self.new ≡ self.old) (λ refusal. Records self.old self.new (Called (answers.Refused refusal) (Complete completion)))) }
        ensures back { IfErr result (λ fault. fault.1 ≡ completion) }
        ensures run { IsRun self.new }
    {
        match self.complete_lent(&completion) {
            Ok(answer) => Ok(answer),
            Err(fault) => Err((fault, completion)),
        }
    }

    /// The same of a completion that is lent.
    pub(crate) fn complete_lent(
        &mut self,
        completion: &Completion,
    ) -> Result<CompleteAnswer, CallFault>
        ensures answered { IfOk result (λ answer. Records self.old self.new (Called (completed_of answer) (Complete completion.now))) }
        ensures started { IfOk result (StartsOut self.new.setup self.new.world) }
        ensures fault { IfErr result (λ fault. FaultIs fault (self.new ≡ self.old) (λ refusal. Records self.old self.new (Called (answers.Refused refusal) (Complete completion.now)))) }
        ensures run { IsRun self.new }
    {
        if self.history.reserve(ROOM).is_err() {
            return Err(CallFault::OutOfMemory);
        }
        let alloc = *self.history.allocator();
        match complete(
            alloc,
            &Setting {
                config: &self.config,
                over: &self.over,
            },
            &mut self.parts.transport,
            &mut self.parts.runs,
            completion,
        ) {
            Ok((answer, told)) => {
                self.history.push_reserved(told);
                given(answer)
            }
            Err(AllocError) => Err(CallFault::OutOfMemory),
        }
    }

    /// Takes over what a run did: its private instructions (`Run::to_stop`), and the helper call or exit at their end, with
    /// R0 after it. A run that goes on comes back with its next machine; one that exited is gone. What a call does, by the
    /// number of its helper:
    ///
    /// 1. A queue is frozen once more, and the run holds the freeze: R0 is its number, or 0 exactly where that meets a
    ///    limit, and then nothing is frozen.
    /// 2. A freeze that the run holds is given back: R0 is how many freezes its place has then.
    /// 3. A timer has a freeze that the run holds from now on, due so many milliseconds after the last clock reading.
    /// 4. The run's CCB waits again with so many retries fewer.
    /// 5. The run's CCB is finished and gone, with the final code that the record tells.
    /// 9. What the run's queue has is written to the run's stack.
    /// 10. The call's bytes are in the record.
    /// 13. The controller of the run's queue is frozen once more, as a queue by helper 1.
    /// 14. R0 is how many freezes that controller has.
    /// 15. The next start of the run's CCB reports the word.
    ///
    /// R0 is 0 after helpers 3 to 5, 9, 10 and 15. C4, which is not recorded, exactly where no run of that number is out in this engine,
    /// or its program or the machine from which it went is not the recorded one; programs are compared by their
    /// instructions. Every fault hands the run back where it was, and changes nothing.
    pub fn go_on(&mut self, run: Stopped) -> Result<AdvanceAnswer, (AdvanceFault, Run)>
        ensures answered { IfOk result (λ answer. Records self.old self.new (Advance run.number run.segment.steps (stopped_at run.segment.stop) (r0_of answer))) }
        ensures goes { IfOk result (GoesOrEnds self.old.setup self.old.world self.new.world (before_stop run) run.segment) }
        ensures admitted { MatchResult result (λ _. IsOut self.old.world (before_stop run)) (λ fault. AdmitsUnlessTold fault.0 (IsOut self.old.world (before_stop run))) }
        ensures back { IfErr result (λ fault. (fault.1 ≡ before_stop run) × (self.new ≡ self.old)) }
        ensures run { IsRun self.new }
    {
        self.go_on_known(run, None)
    }

    /// The same, where the run is known to have the program of a queue. If the run of its number is recorded for that queue, the
    /// two programs are not compared; else nothing comes of what is known.
    pub fn go_on_known(
        &mut self,
        run: Stopped,
        known: Option<QueueId>,
    ) -> Result<AdvanceAnswer, (AdvanceFault, Run)>
        requires { IfSome known (λ queue. run.segment.program.program ≡ (queue_setup self.old.setup queue.0).program) }
        ensures answered { IfOk result (λ answer. Records self.old self.new (Advance run.number run.segment.steps (stopped_at run.segment.stop) (r0_of answer))) }
        ensures goes { IfOk result (GoesOrEnds self.old.setup self.old.world self.new.world (before_stop run) run.segment) }
        ensures admitted { MatchResult result (λ _. IsOut self.old.world (before_stop run)) (λ fault. AdmitsUnlessTold fault.0 (IsOut self.old.world (before_stop run))) }
        ensures back { IfErr result (λ fault. (fault.1 ≡ before_stop run) × (self.new ≡ self.old)) }
        ensures run { IsRun self.new }
    {
        let Some(place) = self
            .parts
            .runs
            .admit_run(run.number(), run.program(), known, run.from())
        else {
            return Err((AdvanceFault::NotOut, run.back()));
        };
        if self.history.reserve(ROOM).is_err() {
            return Err((AdvanceFault::OutOfMemory, run.back()));
        }
        let alloc = *self.history.allocator();
        match advance(
            alloc,
            &mut self.parts.transport,
            &mut self.parts.runs,
            place,
            run,
        ) {
            Ok((answer, told)) => {
                self.history.push_reserved(told);
                Ok(answer)
            }
            Err(back) => Err((AdvanceFault::OutOfMemory, back)),
        }
    }

    /// Parks a run that is out: it takes no step, and keeps its machine and its freezes, until it is resumed. It takes no
    /// memory. C4, which is not recorded, exactly where no run of that number is out in this engine, or its program or its
    /// machine is not the recorded one; programs are compared by their instructions. It hands the run back and changes
    /// nothing.
    pub fn park(&mut self, run: Run) -> Result<(), Run>
        ensures parked { IfOk result (λ _. Records self.old self.new (Called answers.Ok (Park run.number))) }
        ensures admitted { MatchResult result (λ _. IsOut self.old.world run) (λ _. IsOut self.old.world run → ⊥) }
        ensures back { IfErr result (λ back. (back ≡ run) × (self.new ≡ self.old)) }
        ensures run { IsRun self.new }
    {
        let Some(place) = self
            .parts
            .runs
            .admit_run(run.number(), run.program(), None, run.machine())
        else {
            return Err(run);
        };
        let told = park(&mut self.parts.runs, place, run);
        self.history.push_reserved(told);
        Ok(())
    }

    /// Lets a run that is parked go on: the run, with the machine that it had. C1 where no run of that number is parked; it
    /// is recorded and changes nothing else.
    pub fn resume(&mut self, run: u32) -> Result<Run, CallFault>
        ensures resumed { IfOk result (λ again. Records self.old self.new (Called answers.Ok (Resume run)) × (again.number ≡ run) × IsOutUnder self.new.setup self.new.world again) }
        ensures fault { IfErr result (λ fault. FaultIs fault (self.new ≡ self.old) (λ refusal. Records self.old self.new (Called (answers.Refused refusal) (Resume run)))) }
        ensures run { IsRun self.new }
    {
        if self.history.reserve(ROOM).is_err() {
            return Err(CallFault::OutOfMemory);
        }
        match resume(
            &Setting {
                config: &self.config,
                over: &self.over,
            },
            &mut self.parts.runs,
            run,
        ) {
            Ok((answer, told)) => {
                self.history.push_reserved(told);
                given(answer)
            }
            Err(AllocError) => Err(CallFault::OutOfMemory),
        }
    }

    /// Freezes a queue for a guest: the token of the new freeze. C1 where there is no such queue; C2 where
    /// the queue has 255 freezes, the ledger 1024, or the numbers up to 4,294,967,295 are used up. Both are
    /// recorded and change nothing else.
    pub fn guest_freeze(&mut self, queue: QueueId, guest: u32) -> Result<FreezeToken, CallFault>
        ensures taken { IfOk result (λ token. Records self.old self.new (Called (answers.Freeze token.number) (GuestFreeze (Device queue) guest))) }
        ensures token { IfOk result (λ token. GuestHolds self.new.world token × (token.place ≡ Device queue) × (token.holder ≡ Guest guest)) }
        ensures fault { IfErr result (λ fault. FaultIs fault (self.new ≡ self.old) (λ refusal. Records self.old self.new (Called (answers.Refused refusal) (GuestFreeze (Device queue) guest)))) }
        ensures run { IsRun self.new }
    {
        self.freeze_place(Place::Device(queue), guest)
    }

    /// Freezes a controller for a guest, as a queue: the token of the new freeze. C1 where there is no such controller; C2 where
    /// the controller has 255 freezes, the ledger 1024, or the numbers up to 4,294,967,295 are used up. Both are recorded and
    /// change nothing else.
    pub fn guest_freeze_controller(
        &mut self,
        controller: u32,
        guest: u32,
    ) -> Result<FreezeToken, CallFault>
        ensures taken { IfOk result (λ token. Records self.old self.new (Called (answers.Freeze token.number) (GuestFreeze (Controller controller) guest))) }
        ensures token { IfOk result (λ token. GuestHolds self.new.world token × (token.place ≡ Controller controller) × (token.holder ≡ Guest guest)) }
        ensures fault { IfErr result (λ fault. FaultIs fault (self.new ≡ self.old) (λ refusal. Records self.old self.new (Called (answers.Refused refusal) (GuestFreeze (Controller controller) guest)))) }
        ensures run { IsRun self.new }
    {
        self.freeze_place(Place::Controller(controller), guest)
    }

    /// Freezes a place of either kind for a guest, as `guest_freeze` a queue and `guest_freeze_controller` a controller.
    pub fn freeze_place(&mut self, place: Place, guest: u32) -> Result<FreezeToken, CallFault>
        ensures taken { IfOk result (λ token. Records self.old self.new (Called (answers.Freeze token.number) (GuestFreeze place guest))) }
        ensures token { IfOk result (λ token. GuestHolds self.new.world token × (token.place ≡ place) × (token.holder ≡ Guest guest)) }
        ensures fault { IfErr result (λ fault. FaultIs fault (self.new ≡ self.old) (λ refusal. Records self.old self.new (Called (answers.Refused refusal) (GuestFreeze place guest)))) }
        ensures run { IsRun self.new }
    {
        if self.history.reserve(ROOM).is_err() {
            return Err(CallFault::OutOfMemory);
        }
        let (answer, told) = guest_freeze(
            &Setting {
                config: &self.config,
                over: &self.over,
            },
            &mut self.parts.transport,
            place,
            guest,
        );
        self.history.push_reserved(told);
        given(answer)
    }

    /// Gives a guest's freeze back: how many freezes its place has then. C6, which is not recorded, exactly
    /// where no guest's freeze is the token's. Every fault hands the token back and changes nothing.
    pub fn guest_release(&mut self, token: FreezeToken) -> Result<u32, (ReleaseFault, FreezeToken)>
        ensures released { IfOk result (λ count. Records self.old self.new (Called (answers.Left count) (GuestRelease token.number))) }
        ensures held { MatchResult result (λ _. GuestHolds self.old.world token) (λ fault. HoldsUnlessTold fault.0 (GuestHolds self.old.world token)) }
        ensures back { IfErr result (λ fault. (fault.1 ≡ token) × (self.new ≡ self.old)) }
        ensures run { IsRun self.new }
    {
        if !self.parts.transport.is_guests(&token) {
            return Err((ReleaseFault::NotHeld, token));
        }
        if self.history.reserve(ROOM).is_err() {
            return Err((ReleaseFault::OutOfMemory, token));
        }
        let (count, told) = guest_release(&mut self.parts.transport, token);
        self.history.push_reserved(told);
        Ok(count)
    }

    /// Takes a clock reading, in milliseconds: the freezes go whose timers are due at or before it, and no others. The
    /// answer is how many these were, at most 1024. C2 above 2^62; C5 below the last reading, which is 0 before the
    /// first. Both are recorded and change nothing else.
    pub fn clock(&mut self, reading: u64) -> Result<u32, CallFault>
        ensures answered { IfOk result (λ count. Records self.old self.new (Called (answers.Removed count) (Clock reading))) }
        ensures fault { IfErr result (λ fault. FaultIs fault (self.new ≡ self.old) (λ refusal. Records self.old self.new (Called (answers.Refused refusal) (Clock reading)))) }
        ensures run { IsRun self.new }
    {
        if self.history.reserve(ROOM).is_err() {
            return Err(CallFault::OutOfMemory);
        }
        let (answer, told) = read_clock(&mut self.parts.transport, reading);
        self.history.push_reserved(told);
        given(answer)
    }
}
