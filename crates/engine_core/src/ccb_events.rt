// The events that are about CCBs: a submission, a start, a completion and a withdrawal. It relies on `engine_transport` for CCBs and their
// queues, and on `completion_action` for what becomes of a completed one.

ghost use Rattle.std.specs.Prelude.{◌≡◌, ◌≢◌, List, IfErr, IfOk, OnErr};
ghost use Rattle.world_calls.specs.declared.record.Record.{Record as TheRecord};
ghost use Rattle.engine_runs.specs.RunsState.{RunsState};
ghost use Rattle.world.specs.World.{World, class_fits, class_in, class_kept, has_classes, version_of};
ghost use Rattle.world_calls.specs.declared.call.Call.TheVariants as calls;
ghost use Rattle.world_calls.specs.declared.record.Record.TheVariants.{Called};
ghost use Rattle.world_calls.specs.Answered.{ccb_answer, start_answer, started_answer};
ghost use Rattle.world_calls.specs.declared.trace.Version.TheVariants.{Three};
ghost use Rattle.engine_core.specs.declared.event.Event.TheVariants.{Submit, Dispatch, Complete, Withdraw};
ghost use Rattle.engine_core.specs.Invariant.{KeepsEngine};
ghost use Rattle.engine_core.specs.Performing.{Performs};
ghost use Rattle.engine_core.specs.Replies.{ccb_reply, completed_answer, completed_reply, given_start, start_reply, withdrawn_answer, withdrawn_reply};
ghost use Rattle.engine_core.specs.Withdrawing.{IsRefusedWithdrawal, MayWithdraw};

use crate::answers::CompleteAnswer;
use crate::completion_action::{CompletionAction, decide, recover};
use crate::setting::Setting;
use crate::told::{ccb_told, refused, start_told};
use ccb::{CallRefusal, CcbId, Completion, QueueId};
use engine_config::Config;
use engine_runs::Runs;
use engine_transport::Transport;
use std::alloc::{AllocError, Global};
use world_calls::{Call, CallAnswer, CompletionRecord, Record, Start, Version};

/// A CCB waits, or C1, or C2.
#[inline(always)]
pub(crate) fn submit(
    setting: &Setting<'_>,
    transport: &mut Transport,
    queue: QueueId,
    priority: u32,
    retries: u32,
    class: u32,
) -> (Result<CcbId, CallRefusal>, Record)
    ensures told { result.1 ≡ Called (ccb_answer result.0) (calls.Submit queue priority retries (class_kept setting.now class)) }
    ensures performs { (runs : RunsState) → Performs setting.now (Submit queue priority retries class) transport.old runs transport.new runs (ccb_reply result.0) result.1 }
{
    let said = setting.class(class);
    let answer = transport.submit(queue, priority, retries, class_in(said));
    let told = ccb_told(
        answer,
        Call::Submit {
            queue,
            priority,
            retries,
            class: said,
        },
    );
    (answer, told)
}

/// The class of a CCB by that of its submission.
pub(crate) fn class_in(class: Option<u32>) -> u32
    ensures { result ≡ class_in class }
{
    match class {
        Some(class) => class,
        None => 0,
    }
}

/// Whether a submission has a class exactly where CCBs have one.
pub(crate) fn is_fit(config: &Config, class: Option<u32>) -> bool
    ensures { result ≡ class_fits (has_classes config.now) class }
{
    let has_classes = config.has_classes();
    match class {
        None => !has_classes,
        Some(_) => has_classes,
    }
}

/// The least CCB that waits is active, or the first refusal of a dispatch that holds.
#[inline(always)]
pub(crate) fn dispatch(
    setting: &Setting<'_>,
    transport: &mut Transport,
    queue: QueueId,
) -> (Result<Start, CallRefusal>, Record)
    ensures told { result.1 ≡ Called (start_answer (version_of setting.now) result.0) (calls.Dispatch queue) }
    ensures performs { (runs : RunsState) → Performs setting.now (Dispatch queue) transport.old runs transport.new runs (start_reply (version_of setting.now) result.0) result.1 }
    ensures unadvised { version_of setting.now ≢ Three → IfOk result.0 (λ start. start.advice ≡ 0) }
{
    let version = setting.version();
    let answer = reported(
        version,
        transport.dispatch(queue, setting.controller(queue)),
    );
    let told = start_told(version, answer, Call::Dispatch { queue });
    (answer, told)
}

// What is reported of a start: it has an advice only if CCBs have one.
fn reported(version: Version, answer: Result<Start, CallRefusal>) -> Result<Start, CallRefusal>
    ensures answer { start_answer version result ≡ start_answer version answer }
    ensures reply { start_reply version result ≡ start_reply version answer }
    ensures unadvised { version ≢ Three → IfOk result (λ start. start.advice ≡ 0) }
{
    match answer {
        Ok(start) => Ok(start_in(version, start)),
        Err(refusal) => Err(refusal),
    }
}

fn start_in(version: Version, start: Start) -> Start
    ensures answer { started_answer version result ≡ started_answer version start }
    ensures given { given_start version result ≡ given_start version start }
    ensures unadvised { version ≢ Three → result.advice ≡ 0 }
{
    match version {
        Version::Three => start,
        Version::One => unadvised(start),
        Version::Two => unadvised(start),
    }
}

fn unadvised(start: Start) -> Start
    ensures { result ≡ record start { advice = 0 } }
{
    Start {
        ccb: start.ccb,
        advice: 0,
    }
}

/// A CCB that waits is gone, or C1, or C3.
#[inline(always)]
pub(crate) fn withdraw(
    setting: &Setting<'_>,
    transport: &mut Transport,
    ccb: CcbId,
) -> (Result<(), CallRefusal>, Record)
    ensures told { result.1 ≡ Called (withdrawn_answer result.0) (calls.Withdraw ccb) }
    ensures performs { (runs : RunsState) → Performs setting.now (Withdraw ccb) transport.old runs transport.new runs (withdrawn_reply result.0) result.1 }
{
    let call = Call::Withdraw { ccb };
    match withdrawal(setting, transport, ccb) {
        Ok(()) => {
            transport.withdraw(ccb);
            let answer = CallAnswer::Ok;
            (Ok(()), Record::Called { answer, call })
        }
        Err(refusal) => (Err(refusal), refused(refusal, call)),
    }
}

// Whether the host may withdraw a CCB: CCBs may be withdrawn, and it is live and waits. Else why not.
fn withdrawal(setting: &Setting<'_>, transport: &Transport, ccb: CcbId) -> Result<(), CallRefusal>
    ensures may { IfOk result (λ _. MayWithdraw setting.now ccb transport.now) }
    ensures refused { IfErr result (λ refusal. (world : World) → IsRefusedWithdrawal setting.now ccb refusal (record world { transport = transport.now })) }
{
    if !setting.has_classes() {
        return Err(CallRefusal::Unknown);
    }
    let Some(live) = transport.live(ccb) else {
        return Err(CallRefusal::Unknown);
    };
    if !live.is_waiting() {
        return Err(CallRefusal::NotActive);
    }
    Ok(())
}

/// The CCB is finished, or a run of its queue's program starts, or C1 to C3. Where memory is refused nothing changes.
#[inline(always)]
pub(crate) fn complete(
    alloc: Global,
    setting: &Setting<'_>,
    transport: &mut Transport,
    runs: &mut Runs,
    completion: &Completion,
) -> Result<(Result<CompleteAnswer, CallRefusal>, Record), AllocError>
    requires { (history : List TheRecord) × KeepsEngine setting.now history transport.old runs.old }
    ensures told { IfOk result (λ it. it.1 ≡ Called (completed_answer it.0) (calls.Complete completion.now)) }
    ensures performs { IfOk result (λ it. Performs setting.now (Complete completion.entry) transport.old runs.old transport.new runs.new (completed_reply it.0) it.1) }
    ensures refused { OnErr result ((transport.new ≡ transport.old) × (runs.new ≡ runs.old)) }
{
    let course = decide(transport, runs, completion);
    let kept = CompletionRecord::new(alloc, completion)?;
    let call = Call::Complete { completion: kept };
    match course {
        CompletionAction::Refuse(refusal) => Ok((Err(refusal), refused(refusal, call))),
        CompletionAction::Finish(ccb) => {
            transport.finish(ccb.number);
            let answer = CallAnswer::Done;
            Ok((Ok(CompleteAnswer::Done), Record::Called { answer, call }))
        }
        CompletionAction::Recover(place, ccb) => {
            let (run, freeze) = recover(setting, transport, runs, place, ccb, completion)?;
            let answer = CallAnswer::Started {
                run: run.number(),
                freeze,
            };
            Ok((
                Ok(CompleteAnswer::Started(run, freeze)),
                Record::Called { answer, call },
            ))
        }
    }
}
