// What a completion asks for, and how a run starts. It relies on `engine_transport` for CCBs and
// freezes, on `engine_runs` for runs, and on `setting` for the program of a queue.

ghost use Rattle.std.specs.Prelude.{◌≡◌, ◌<◌, false, List, IfOk, OnErr};
ghost use Rattle.world_calls.specs.declared.record.Record.{Record as TheRecord};
ghost use Rattle.ccb.specs.Completion.{IsCompletion};
ghost use Rattle.world.specs.World.{Setup, World, queue_count};
ghost use Rattle.world_calls.specs.declared.call.Call.TheVariants.{Complete};
ghost use Rattle.world_calls.specs.declared.call_answer.CallAnswer.TheVariants as answers;
ghost use Rattle.world.specs.Event.{replies};
ghost use Rattle.world.specs.CcbSteps.{is_success, run_meets_limit, recovers};
ghost use Rattle.world.specs.Step.{step_call};
ghost use Rattle.engine_transport.specs.Listed.{IsPlaceOf};
ghost use Rattle.engine_core.specs.Courses.{takes, IsActive, IsOpen};
ghost use Rattle.engine_core.specs.Invariant.{HoldEntries, KeepsEngine};
ghost use Rattle.engine_core.specs.RunState.{IsOutUnder};

use crate::run::Run;
use crate::setting::Setting;
use ccb::{CamStatus, Ccb, Completion};
use engine_runs::Runs;
use engine_transport::Transport;
use std::alloc::AllocError;
use std::sync::Arc;
use world_calls::CallRefusal;

/// What is to be done about a completion.
#[derive(Drop)]
pub(crate) enum CompletionAction {
    Refuse(CallRefusal),
    /// The CCB is finished.
    Finish(Ccb),
    /// A run starts for the CCB, which stands at this place.
    Recover(usize, Ccb),
}

// Whether its status needs no recovery.
fn has_succeeded(completion: &Completion) -> bool
    ensures value { result ≡ is_success completion.now.status }
    ensures reported { IsCompletion completion.now }
{
    completion.status() == CamStatus::RequestCompleted
}

/// C1 where the CCB is not live; C2 where the status asks for a run and a further one meets a limit; C3 where the
/// CCB is not active; else it is finished, or recovered by a run.
#[inline(always)]
pub(crate) fn decide(
    transport: &Transport,
    runs: &Runs,
    completion: &Completion,
) -> CompletionAction
    ensures step { (setup : Setup) (world : World) →
        step_call setup (record world { transport = transport.now; runs = runs.now.runs }) (Complete completion.now)
        ≡ Some (takes setup (record world { transport = transport.now; runs = runs.now.runs }) completion.now result) }
    ensures ready { (world : World) → IsOpen (record world { transport = transport.now; runs = runs.now.runs }) completion.now result }
{
    let succeeded = has_succeeded(completion);
    let Some(place) = transport.place_of(completion.ccb()) else {
        return CompletionAction::Refuse(CallRefusal::Unknown);
    };
    let live = transport.at(place);
    if !succeeded && runs.is_full() {
        return CompletionAction::Refuse(CallRefusal::Limit);
    }
    if !live.is_active() {
        return CompletionAction::Refuse(CallRefusal::NotActive);
    }
    if succeeded {
        CompletionAction::Finish(live.ccb())
    } else {
        CompletionAction::Recover(place, live.ccb())
    }
}

/// Starts a run of the queue's program for an active CCB, which stands at this place and whose completion failed: the run,
/// and the number of its freeze, or 0 where that met a limit. Where memory is refused nothing changes.
#[inline(always)]
pub(crate) fn recover(
    setting: &Setting<'_>,
    transport: &mut Transport,
    runs: &mut Runs,
    place: usize,
    ccb: Ccb,
    completion: &Completion,
) -> Result<(Run, u32), AllocError>
    requires kept { (history : List TheRecord) × KeepsEngine setting.now history transport.old runs.old }
    requires known { ccb.queue.0 < queue_count setting.now }
    requires active { (world : World) → IsActive (record world { transport = transport.old }) completion.now ccb }
    requires there { IsPlaceOf completion.now.ccb.0 transport.old.live place }
    requires room { (world : World) → run_meets_limit (record world { runs = runs.old.runs }) ≡ false }
    ensures step { IfOk result (λ started. (world : World) →
        recovers setting.now (record world { transport = transport.old; runs = runs.old.runs }) ccb completion.now
        ≡ (replies (answers.Started started.0.number started.1), record world { transport = transport.new; runs = runs.new.runs })) }
    ensures out { IfOk result (λ started. (world : World) → IsOutUnder setting.now (record world { runs = runs.new.runs }) started.0) }
    ensures tokens { IfOk result (λ _. HoldEntries transport.new.freezes runs.new) }
    ensures refused { OnErr result ((transport.new ≡ transport.old) × (runs.new ≡ runs.old)) }
{
    let queue = ccb.queue;
    let program = setting.program(queue);
    let recorded = Arc::try_clone(program)?;
    let handed = Arc::try_clone(program)?;
    let kept = runs.place_for_run()?;
    let mut machine = runs.place_for_machine()?;
    let next = runs.place_for_machine()?;
    let (ccb, token) = transport.fail(place, ccb, completion, runs.next_number());
    let started = runs.start(
        &ccb,
        setting.controller(queue),
        recorded,
        token,
        kept,
        &mut machine,
    );
    Ok((
        Run::new(started.run, queue, handed, machine, next),
        started.freeze,
    ))
}
