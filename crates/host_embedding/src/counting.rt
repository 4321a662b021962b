// The calls of a host, each with its records counted. It relies on `engine_handle` and `run_calls` for each call, and on `host_metrics` for
// what is counted.

ghost use Rattle.std.specs.Prelude.{◌≡◌, ◌≢◌, ◌≤◌, IfSome, drop, length, true, false};
ghost use Rattle.world.specs.World.{World, class_kept, version_of};
ghost use Rattle.world_calls.specs.declared.call.Call.TheVariants.{Submit, Dispatch, Complete, Withdraw, Clock};
ghost use Rattle.world_calls.specs.Answered.{started_answer};
ghost use Rattle.world_calls.specs.declared.call_answer.CallAnswer.TheVariants as answers;
ghost use Rattle.world_calls.specs.declared.trace.Version.TheVariants.{Three};
ghost use Rattle.host_embedding.specs.Calls.{IsAdvanced, IsCalled, IsCompleted, IsDriven, IsFrozen, IsParked, IsReleased, IsResumed};
ghost use Rattle.host_embedding.specs.Counting.{CountsMore, CountsRecords, IsNoted, IsNotedCcb, IsNotedOf, IsNotedRun};
ghost use Rattle.host_embedding.specs.Fates.{TellsFate};
ghost use Rattle.host_embedding.specs.Held.{is_same_run, out_of};

use crate::call_result::CallResult;
use crate::engine_handle::EngineHandle;
use crate::fates::Fate;
use crate::hosted_engine::HostedEngine;
use crate::run_handle::RunHandle;
use crate::text_lines::entry;
use ccb::{CcbId, Completion, Place, QueueId};
use engine_transport::Transport;
use host_metrics::{Before, Metrics};
use std::alloc::Global;
use world_calls::Call;

/// What is noted of an engine before it is asked, and how many records it had.
#[derive(Clone, Copy)]
pub(crate) struct Noted {
    pub(crate) before: Before,
    pub(crate) was: u64,
}

impl EngineHandle {
    // What is noted before a call.
    fn note_call(&self, call: &Call) -> Noted
        ensures { IsNotedOf self.now (λ world before. IsNoted world call.now before) result }
    {
        let _ = self.engine.taken();
        Noted {
            before: Before::of_call(self.engine.transport(), call),
            was: self.engine.recorded(),
        }
    }

    // What is noted before a completion of that CCB.
    fn note_completion(&self, ccb: CcbId) -> Noted
        ensures { IsNotedOf self.now (λ world before. IsNotedCcb world ccb.0 before) result }
    {
        let _ = self.engine.taken();
        Noted {
            before: before_completion(self.engine.transport(), ccb),
            was: self.engine.recorded(),
        }
    }

    // What is noted before the run of that number goes on.
    fn note_run(&self, run: u32) -> Noted
        ensures { IsNotedOf self.now (λ world before. IsNotedRun world run before) result }
    {
        let _ = self.engine.taken();
        Noted {
            before: Before::of_run(self.engine.runs(), run),
            was: self.engine.recorded(),
        }
    }
}

// What is noted before a completion: the same as before a start of its CCB's queue, since neither moves the clock on. If there is no such CCB,
// it is of no queue, as a resume is.
#[tactic(auto, using(crate::proofs::Counts::noted_of_queue, crate::proofs::Counts::noted_of_none))]
fn before_completion(transport: &Transport, ccb: CcbId) -> Before
    ensures { (world : World) → world.transport ≡ transport.now → IsNotedCcb world ccb.0 result }
{
    match transport.live(ccb) {
        Some(live) => {
            let queue = live.ccb().queue;
            Before::of_call(transport, &Call::Dispatch { queue })
        }
        None => Before::of_call(transport, &Call::Resume { run: 0 }),
    }
}

// Counts the records that were made since that was noted.
#[tactic(auto, using(crate::proofs::Counts::counts_none_yet))]
fn count_more(engine: &EngineHandle, noted: &Noted, metrics: &mut Metrics)
    requires kept { engine.now.taken ≤ noted.now.was }
    requires within { noted.now.was ≤ length engine.now.history }
    ensures { CountsMore noted.now.before (drop noted.now.was engine.now.history) metrics.old metrics.new }
{
    for number in noted.was..engine.engine.recorded() {
        metrics.count(&noted.before, entry(&engine.engine, number));
    }
}

impl HostedEngine {
    /// Submits a CCB to a queue, as `EngineHandle::submit`.
    #[tactic(auto, using(crate::proofs::Counts::made_called, crate::proofs::Counts::keeps, crate::proofs::Counts::counts))]
    pub fn submit(
        &mut self,
        queue: u32,
        priority: u32,
        retries: u32,
        class: u32,
        ccb: &mut u32,
    ) -> CallResult
        ensures recorded { IsCalled result self.old.engine self.new.engine (answers.Ccb (record { 0 = ccb.new })) (Submit (record { 0 = queue }) priority retries (class_kept self.old.engine.setup class)) }
        ensures kept { result ≢ CallResult.Done → ccb.new ≡ ccb.old }
        ensures counted { CountsRecords self.old self.new }
        ensures untaken { self.new.left ≡ self.old.left }
    {
        let noted = self.engine.note_call(&Call::Submit {
            queue: QueueId(queue),
            priority,
            retries,
            class: self.engine.class_said(class),
        });
        let result = self.engine.submit(queue, priority, retries, class, ccb);
        count_more(&self.engine, &noted, &mut self.metrics);
        result
    }

    /// Starts the waiting CCB of a queue that goes first, as `EngineHandle::dispatch`.
    #[tactic(auto, using(crate::proofs::Counts::made_called, crate::proofs::Counts::keeps, crate::proofs::Counts::counts))]
    pub fn dispatch(&mut self, queue: u32, ccb: &mut u32, advice: &mut u32) -> CallResult
        ensures recorded { IsCalled result self.old.engine self.new.engine (started_answer (version_of self.old.engine.setup) (record { ccb = record { 0 = ccb.new }; advice = advice.new })) (Dispatch (record { 0 = queue })) }
        ensures kept { result ≢ CallResult.Done → (ccb.new ≡ ccb.old) × (advice.new ≡ advice.old) }
        ensures unadvised { result ≡ CallResult.Done → version_of self.old.engine.setup ≢ Three → advice.new ≡ 0 }
        ensures counted { CountsRecords self.old self.new }
        ensures untaken { self.new.left ≡ self.old.left }
    {
        let noted = self.engine.note_call(&Call::Dispatch {
            queue: QueueId(queue),
        });
        let result = self.engine.dispatch(queue, ccb, advice);
        count_more(&self.engine, &noted, &mut self.metrics);
        result
    }

    /// Withdraws a CCB that waits, as `EngineHandle::withdraw`.
    #[tactic(auto, using(crate::proofs::Counts::made_called, crate::proofs::Counts::keeps, crate::proofs::Counts::counts))]
    pub fn withdraw(&mut self, ccb: u32) -> CallResult
        ensures recorded { IsCalled result self.old.engine self.new.engine answers.Ok (Withdraw (record { 0 = ccb })) }
        ensures counted { CountsRecords self.old self.new }
        ensures untaken { self.new.left ≡ self.old.left }
    {
        let noted = self.engine.note_call(&Call::Withdraw { ccb: CcbId(ccb) });
        let result = self.engine.withdraw(ccb);
        count_more(&self.engine, &noted, &mut self.metrics);
        result
    }

    /// Reads the clock, as `EngineHandle::clock`.
    #[tactic(auto, using(crate::proofs::Counts::made_called, crate::proofs::Counts::keeps, crate::proofs::Counts::counts))]
    pub fn clock(&mut self, reading: u64, removed: &mut u32) -> CallResult
        ensures recorded { IsCalled result self.old.engine self.new.engine (answers.Removed removed.new) (Clock reading) }
        ensures kept { result ≢ CallResult.Done → removed.new ≡ removed.old }
        ensures counted { CountsRecords self.old self.new }
        ensures untaken { self.new.left ≡ self.old.left }
    {
        let noted = self.engine.note_call(&Call::Clock { reading });
        let result = self.engine.clock(reading, removed);
        count_more(&self.engine, &noted, &mut self.metrics);
        result
    }

    /// Freezes a place for a guest, as `EngineHandle::guest_freeze`.
    #[tactic(auto, using(crate::proofs::Counts::made_frozen, crate::proofs::Counts::keeps, crate::proofs::Counts::counts))]
    pub fn guest_freeze(&mut self, place: Place, guest: u32, freeze: &mut u32) -> CallResult
        ensures recorded { IsFrozen result self.old.engine self.new.engine freeze.new place guest }
        ensures kept { result ≢ CallResult.Done → freeze.new ≡ freeze.old }
        ensures counted { CountsRecords self.old self.new }
        ensures untaken { self.new.left ≡ self.old.left }
    {
        let noted = self.engine.note_call(&Call::GuestFreeze { place, guest });
        let result = self.engine.guest_freeze(place, guest, freeze);
        count_more(&self.engine, &noted, &mut self.metrics);
        result
    }

    /// Gives the freeze of that number back, as `EngineHandle::guest_release`.
    #[tactic(auto, using(crate::proofs::Counts::made_released, crate::proofs::Counts::keeps, crate::proofs::Counts::counts))]
    pub fn guest_release(&mut self, freeze: u32, left: &mut u32) -> CallResult
        ensures recorded { IsReleased result self.old.engine self.new.engine left.new freeze }
        ensures kept { result ≢ CallResult.Done → left.new ≡ left.old }
        ensures counted { CountsRecords self.old self.new }
        ensures untaken { self.new.left ≡ self.old.left }
    {
        let noted = self.engine.note_call(&Call::GuestRelease { freeze });
        let result = self.engine.guest_release(freeze, left);
        count_more(&self.engine, &noted, &mut self.metrics);
        result
    }

    /// Takes a completion of an active CCB, as `EngineHandle::complete`.
    #[tactic(auto, using(crate::proofs::Counts::made_completed, crate::proofs::Counts::keeps, crate::proofs::Counts::counts))]
    pub fn complete(
        &mut self,
        alloc: Global,
        completion: Completion,
    ) -> Result<Option<Box<RunHandle>>, CallResult>
        ensures recorded { IsCompleted result self.old.engine self.new.engine (Complete completion) }
        ensures counted { CountsRecords self.old self.new }
        ensures untaken { self.new.left ≡ self.old.left }
    {
        let noted = self.engine.note_completion(completion.ccb());
        let result = self.engine.complete(alloc, completion);
        count_more(&self.engine, &noted, &mut self.metrics);
        result
    }

    /// Takes over what a run did up to its next stop, as `EngineHandle::advance`.
    #[tactic(auto, using(crate::proofs::Counts::made_advanced, crate::proofs::Counts::keeps, crate::proofs::Counts::counts))]
    pub fn advance(
        &mut self,
        run: &mut RunHandle,
        r0: &mut u64,
        ended: &mut bool,
        fate: &mut Fate,
    ) -> CallResult
        ensures recorded { IsAdvanced result run.old.held run.new.held self.old.engine self.new.engine r0.new ended.new }
        ensures kept { result ≢ CallResult.Done → (r0.new ≡ r0.old) × (ended.new ≡ ended.old) }
        ensures fate { TellsFate result (out_of run.old.held) self.new.engine.history fate.new }
        ensures same { is_same_run run.old run.new }
        ensures counted { CountsRecords self.old self.new }
        ensures untaken { self.new.left ≡ self.old.left }
    {
        let noted = self.engine.note_run(run.out_number());
        let result = self.engine.advance(run, r0, ended, fate);
        count_more(&self.engine, &noted, &mut self.metrics);
        result
    }

    /// Takes a run from stop to stop until it has ended, as `EngineHandle::drive`.
    #[tactic(auto, using(crate::proofs::Counts::made_driven, crate::proofs::Counts::keeps, crate::proofs::Counts::counts))]
    pub fn drive(
        &mut self,
        run: &mut RunHandle,
        r0: &mut u64,
        ended: &mut bool,
        fate: &mut Fate,
    ) -> CallResult
        ensures driven { IsDriven result (out_of run.old.held) run.new.held self.old.engine self.new.engine r0.new ended.new }
        ensures unended { result ≢ CallResult.Done → ended.new ≡ false }
        ensures fate { TellsFate result (out_of run.old.held) self.new.engine.history fate.new }
        ensures same { is_same_run run.old run.new }
        ensures counted { CountsRecords self.old self.new }
        ensures untaken { self.new.left ≡ self.old.left }
    {
        let noted = self.engine.note_run(run.out_number());
        let result = self.engine.drive(run, r0, ended, fate);
        count_more(&self.engine, &noted, &mut self.metrics);
        result
    }

    /// Parks a run, as `EngineHandle::park`.
    #[tactic(auto, using(crate::proofs::Counts::made_parked, crate::proofs::Counts::keeps, crate::proofs::Counts::counts))]
    pub fn park(&mut self, run: &mut RunHandle) -> CallResult
        ensures recorded { IsParked result (out_of run.old.held) run.new.held self.old.engine self.new.engine }
        ensures same { is_same_run run.old run.new }
        ensures counted { CountsRecords self.old self.new }
        ensures untaken { self.new.left ≡ self.old.left }
    {
        let noted = self.engine.note_call(&Call::Park {
            run: run.out_number(),
        });
        let result = self.engine.park(run);
        count_more(&self.engine, &noted, &mut self.metrics);
        result
    }

    /// Lets a run that is parked go on, as `EngineHandle::resume`.
    #[tactic(auto, using(crate::proofs::Counts::made_resumed, crate::proofs::Counts::keeps, crate::proofs::Counts::counts))]
    pub fn resume(&mut self, alloc: Global, run: u32) -> Result<Box<RunHandle>, CallResult>
        ensures recorded { IsResumed result self.old.engine self.new.engine run }
        ensures counted { CountsRecords self.old self.new }
        ensures untaken { self.new.left ≡ self.old.left }
    {
        let noted = self.engine.note_call(&Call::Resume { run });
        let result = self.engine.resume(alloc, run);
        count_more(&self.engine, &noted, &mut self.metrics);
        result
    }
}
