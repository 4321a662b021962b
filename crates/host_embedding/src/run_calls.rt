// The calls of an engine that start, take further, park and resume runs, each with the run in its host's handle. It relies on
// `engine_core` for each call.

ghost use Rattle.std.specs.Prelude.{◌≡◌, ◌≢◌, ◌↔◌, ℕ, Bool, IsTrue, true, false};
ghost use Rattle.engine_runs.specs.Admits.{IsOutWith};
ghost use Rattle.world_calls.specs.declared.call.Call.TheVariants.{Complete};
ghost use Rattle.host_embedding.specs.Calls.{IsAdvanced, IsCompleted, IsDriven, IsParked, IsResumed};
ghost use Rattle.host_embedding.specs.Fates.{TellsFate, reported};
ghost use Rattle.host_embedding.specs.Held.{is_same_run, out_of};

use crate::call_result::CallResult;
use crate::engine_handle::EngineHandle;
use crate::fates::{Fate, fate_of, note};
use crate::run_handle::{HeldRun, RunHandle};
use ccb::Completion;
use engine_core::{AdvanceAnswer, CompleteAnswer, DriveFault, Engine, Run};
use engine_runs::Runs;
use std::alloc::Global;

impl EngineHandle {
    /// Takes a completion of an active CCB. With REQ_CMP the CCB is finished and gone; with any other status a run of the queue's
    /// program starts, which goes out. Its handle's place is made first: where memory for it is refused, the engine is not asked.
    #[tactic(auto, using(crate::proofs::Guests::stay, crate::proofs::Guests::stay_faulted, crate::proofs::Beginning::recorded, crate::proofs::Beginning::faulted, crate::proofs::Courses::called, crate::proofs::Courses::faulted))]
    pub fn complete(
        &mut self,
        alloc: Global,
        completion: Completion,
    ) -> Result<Option<Box<RunHandle>>, CallResult>
        ensures recorded { IsCompleted result self.old self.new (Complete completion) }
    {
        let Ok(mut handle) = Box::new(alloc, RunHandle::none()) else {
            return Err(CallResult::OutOfMemory);
        };
        match self.engine.complete(completion) {
            Ok(CompleteAnswer::Done) => Ok(None),
            Ok(CompleteAnswer::Started(run, freeze)) => {
                handle.number = run.number();
                handle.freeze = freeze;
                handle.held.put(HeldRun::Out(run));
                Ok(Some(handle))
            }
            Err((fault, _)) => Err(CallResult::of(fault)),
        }
    }

    /// Takes over what a run did up to its next stop, at which it has to be, with R0 after it, and reports what it has done with its CCB.
    /// The run goes on, or has ended and is spent. Where it is not out in this engine it is back where it was. Room for what it did is made
    /// first: where memory for it is refused, the engine is not asked.
    pub fn advance(
        &mut self,
        run: &mut RunHandle,
        r0: &mut u64,
        ended: &mut bool,
        fate: &mut Fate,
    ) -> CallResult
        ensures recorded { IsAdvanced result run.old.held run.new.held self.old self.new r0.new ended.new }
        ensures kept { result ≢ CallResult.Done → (r0.new ≡ r0.old) × (ended.new ≡ ended.old) }
        ensures same { is_same_run run.old run.new }
        ensures fate { TellsFate result (out_of run.old.held) self.new.history fate.new }
    {
        let number = run.out_number();
        if self.fates.reserve(1).is_err() {
            let result = not_advanced(&self.engine, run);
            *fate = reported(result, Fate::Kept, fate_of(self.fates.as_slice(), number));
            return result;
        }
        // It is called for what it says of the engine.
        let _ = self.engine.taken();
        let was = self.engine.recorded();
        let result = advance(&mut self.engine, run, r0, ended);
        let told = note(&self.engine, &mut self.fates, was, number);
        *fate = reported(result, told, fate_of(self.fates.as_slice(), number));
        result
    }

    /// Takes a run from stop to stop until it has ended, with R0 at its exit, and reports what it has done with its CCB. What it did since
    /// its last stop is done again. Where memory is refused it goes on from the last stop that was recorded, with R0 after it, or 0 if there
    /// was none. Where it is not out in this engine it is back where it was.
    pub fn drive(
        &mut self,
        run: &mut RunHandle,
        r0: &mut u64,
        ended: &mut bool,
        fate: &mut Fate,
    ) -> CallResult
        ensures driven { IsDriven result (out_of run.old.held) run.new.held self.old self.new r0.new ended.new }
        ensures unended { result ≢ CallResult.Done → ended.new ≡ false }
        ensures same { is_same_run run.old run.new }
        ensures fate { TellsFate result (out_of run.old.held) self.new.history fate.new }
    {
        *r0 = 0;
        *ended = false;
        let number = run.out_number();
        if self.fates.reserve(1).is_err() {
            let result = not_driven(&self.engine, run);
            *fate = reported(result, Fate::Kept, fate_of(self.fates.as_slice(), number));
            return result;
        }
        // It is called for what it says of the engine.
        let _ = self.engine.taken();
        let was = self.engine.recorded();
        let result = drive(&mut self.engine, run, r0, ended);
        let told = note(&self.engine, &mut self.fates, was, number);
        *fate = reported(result, told, fate_of(self.fates.as_slice(), number));
        result
    }

    /// Parks a run: it takes no step until it is resumed, and is spent here. What it did since its last stop is forgotten. Where
    /// it is not out in this engine it is back where it was.
    #[tactic(auto, using(crate::proofs::Guests::stay, crate::proofs::Beginning::same, crate::proofs::Beginning::recorded, crate::proofs::Courses::same, crate::proofs::Courses::called))]
    pub fn park(&mut self, run: &mut RunHandle) -> CallResult
        ensures recorded { IsParked result (out_of run.old.held) run.new.held self.old self.new }
        ensures same { is_same_run run.old run.new }
    {
        match run.held.take().out() {
            Some(out) => match self.engine.park(out) {
                Ok(()) => CallResult::Done,
                Err(back) => {
                    run.held.put(HeldRun::Out(back));
                    CallResult::NotOut
                }
            },
            None => CallResult::Spent,
        }
    }

    /// Lets a run that is parked go on. Its handle's place is made first: where memory for it is refused, the engine is not asked.
    #[tactic(auto, using(crate::proofs::Guests::stay, crate::proofs::Guests::stay_faulted, crate::proofs::Beginning::recorded, crate::proofs::Beginning::faulted, crate::proofs::Courses::called, crate::proofs::Courses::faulted))]
    pub fn resume(&mut self, alloc: Global, run: u32) -> Result<Box<RunHandle>, CallResult>
        ensures recorded { IsResumed result self.old self.new run }
    {
        let Ok(mut handle) = Box::new(alloc, RunHandle::none()) else {
            return Err(CallResult::OutOfMemory);
        };
        match self.engine.resume(run) {
            Ok(again) => {
                handle.number = run;
                handle.held.put(HeldRun::Out(again));
                Ok(handle)
            }
            Err(fault) => Err(CallResult::of(fault)),
        }
    }
}

// Takes over what a run did up to its next stop.
fn advance(engine: &mut Engine, run: &mut RunHandle, r0: &mut u64, ended: &mut bool) -> CallResult
    ensures recorded { IsAdvanced result run.old.held run.new.held engine.old engine.new r0.new ended.new }
    ensures kept { result ≢ CallResult.Done → (r0.new ≡ r0.old) × (ended.new ≡ ended.old) }
    ensures same { is_same_run run.old run.new }
{
    match run.held.take() {
        HeldRun::Stopped(stopped) => match engine.go_on(stopped) {
            Ok(AdvanceAnswer::Goes(again, value)) => {
                run.held.put(HeldRun::Out(again));
                *r0 = value;
                *ended = false;
                CallResult::Done
            }
            Ok(AdvanceAnswer::Ended(value)) => {
                *r0 = value;
                *ended = true;
                CallResult::Done
            }
            Err((fault, back)) => {
                run.held.put(HeldRun::Out(back));
                CallResult::advanced(fault)
            }
        },
        HeldRun::Out(out) => {
            run.held.put(HeldRun::Out(out));
            CallResult::NotStretched
        }
        HeldRun::Spent => CallResult::Spent,
    }
}

// Takes a run from stop to stop until it has ended.
#[tactic(auto, using(crate::proofs::Driving::exits, crate::proofs::Driving::stops))]
fn drive(engine: &mut Engine, run: &mut RunHandle, r0: &mut u64, ended: &mut bool) -> CallResult
    requires r0 { r0.old ≡ 0 }
    requires ended { ended.old ≡ false }
    ensures driven { IsDriven result (out_of run.old.held) run.new.held engine.old engine.new r0.new ended.new }
    ensures unended { result ≢ CallResult.Done → ended.new ≡ false }
    ensures same { is_same_run run.old run.new }
{
    let Some(out) = run.held.take().out() else {
        return CallResult::Spent;
    };
    match engine.drive(out) {
        Ok(value) => {
            *r0 = value;
            *ended = true;
            CallResult::Done
        }
        Err(fault) => {
            let DriveFault {
                why,
                run: back,
                r0: value,
            } = fault;
            run.held.put(HeldRun::Out(back));
            *r0 = value;
            CallResult::advanced(why)
        }
    }
}

// What is answered if there is no room for what a run did, so that the engine is not asked to take it over.
#[tactic(auto, using(crate::proofs::Taking::not_taken, crate::proofs::Taking::not_out))]
fn not_advanced(engine: &Engine, run: &mut RunHandle) -> CallResult
    ensures recorded { (r0 : ℕ) (ended : Bool) → IsAdvanced result run.old.held run.new.held engine.now engine.now r0 ended }
    ensures same { is_same_run run.old run.new }
    ensures undone { result ≢ CallResult.Done }
{
    match run.held.take() {
        HeldRun::Stopped(stopped) => {
            let back = stopped.back();
            let is_out = is_out(engine.runs(), &back);
            run.held.put(HeldRun::Out(back));
            if is_out {
                CallResult::OutOfMemory
            } else {
                CallResult::NotOut
            }
        }
        HeldRun::Out(out) => {
            run.held.put(HeldRun::Out(out));
            CallResult::NotStretched
        }
        HeldRun::Spent => CallResult::Spent,
    }
}

// The same of one that is not driven.
#[tactic(auto, using(crate::proofs::Driving::not_begun, crate::proofs::Driving::not_out))]
fn not_driven(engine: &Engine, run: &mut RunHandle) -> CallResult
    ensures driven { IsDriven result (out_of run.old.held) run.new.held engine.now engine.now 0 false }
    ensures same { is_same_run run.old run.new }
    ensures undone { result ≢ CallResult.Done }
{
    let Some(back) = run.held.take().out() else {
        return CallResult::Spent;
    };
    let is_out = is_out(engine.runs(), &back);
    run.held.put(HeldRun::Out(back));
    if is_out {
        CallResult::OutOfMemory
    } else {
        CallResult::NotOut
    }
}

// What is reported with a result, by what is told and kept of the run.
fn reported(its: CallResult, told: Fate, kept: Fate) -> Fate
    ensures { result ≡ reported its told kept }
{
    match its {
        CallResult::Done => told,
        CallResult::NotOut => Fate::Kept,
        CallResult::Spent => Fate::Kept,
        _ => kept,
    }
}

// Whether the run is out.
fn is_out(runs: &Runs, run: &Run) -> bool
    ensures { IsTrue result ↔ IsOutWith runs.now.runs.list run.now.number run.now.program.program run.now.machine }
{
    runs.admit_run(run.number(), run.program(), None, run.machine())
        .is_some()
}
