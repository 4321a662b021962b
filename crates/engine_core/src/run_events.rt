// The events of a run: an advance, a park and a resume. It relies on `engine_runs` for what is recorded of a run, and on
// `commit_segment` for what its segment's stop does.

ghost use Rattle.std.specs.Prelude.{◌≡◌, ℕ, List, IfOk, IfErr, OnErr};
ghost use Rattle.world.specs.World.{Transport as TheTransport};
ghost use Rattle.world_calls.specs.declared.record.Record.{Record as TheRecord};
ghost use Rattle.engine_runs.specs.Admits.{IsOutWith};
ghost use Rattle.world.specs.World.{Setup, LiveRun};
ghost use Rattle.engine_runs.specs.RunPlaces.{HasRunAt};
ghost use Rattle.world_calls.specs.declared.call.Call.TheVariants as calls;
ghost use Rattle.world_calls.specs.declared.call_answer.CallAnswer.TheVariants as answers;
ghost use Rattle.world_calls.specs.declared.record.Record.TheVariants.{Advance as Advanced, Called};
ghost use Rattle.engine_core.specs.Answers.{r0_of, stopped_at};
ghost use Rattle.engine_core.specs.declared.event.Event.TheVariants.{Advance, Park, Resume};
ghost use Rattle.engine_core.specs.declared.reply.Success.TheVariants.{Parked};
ghost use Rattle.engine_core.specs.declared.reply.Reply.TheVariants.{Success};
ghost use Rattle.engine_core.specs.Invariant.{KeepsEngine};
ghost use Rattle.engine_core.specs.Looking.{asked_at};
ghost use Rattle.engine_core.specs.Performing.{IsPlaced, Performs};
ghost use Rattle.engine_core.specs.Replies.{given_advanced, resumed_answer, resumed_reply};
ghost use Rattle.engine_core.specs.RunState.{before_stop, IsAgain};
ghost use Rattle.engine_core.specs.Stepping.{IsOutAt, IsStep, StopsAt};

use crate::answers::AdvanceAnswer;
use crate::commit_segment::{recorded, take_over};
use crate::run::Run;
use crate::setting::Setting;
use crate::stopped::Stopped;
use crate::told::refused;
use bpf_machine::Machine;
use bpf_semantics::Stop;
use engine_runs::Runs;
use engine_transport::Transport;
use helpers::Request;
use interpreter::{go_to_stop, stop_of};
use std::alloc::{AllocError, Global};
use std::sync::Arc;
use world_calls::{Call, CallAnswer, CallRefusal, Record};

/// What the run at this place executed is taken over. Where memory is refused nothing changes, and the run comes back.
#[inline(always)]
pub(crate) fn advance(
    alloc: Global,
    transport: &mut Transport,
    runs: &mut Runs,
    place: usize,
    run: Stopped,
) -> Result<(AdvanceAnswer, Record), Run>
    requires of { (setup : Setup) × (history : List TheRecord) × KeepsEngine setup history transport.old runs.old }
    requires out { IsOutWith runs.old.runs.list run.number run.segment.program.program run.segment.from }
    requires place { IsPlaced runs.old.runs.list run.number place }
    ensures told { IfOk result (λ it. it.1 ≡ Advanced run.number run.segment.steps (stopped_at run.segment.stop) (r0_of it.0)) }
    ensures performs { IfOk result (λ it. (setup : Setup) → (history : List TheRecord) → KeepsEngine setup history transport.old runs.old → Performs setup (Advance run) transport.old runs.old transport.new runs.new (Success (given_advanced it.0)) it.1) }
    ensures refused { IfErr result (λ back. (transport.new ≡ transport.old) × (runs.new ≡ runs.old) × (back ≡ before_stop run)) }
{
    let number = run.number();
    let instructions = run.steps();
    let at = run.stop();
    let Ok(stop) = recorded(alloc, &at) else {
        return Err(run.back());
    };
    let answer = run.take_over(transport, runs, place, &at);
    let told = Record::Advance {
        run: number,
        instructions,
        stop,
        r0: answer.r0(),
    };
    Ok((answer, told))
}

/// How far a run came: how many instructions it executed, with that of its stop, R0 after the stop, and whether it goes on.
#[derive(Clone, Copy)]
pub(crate) struct Progress {
    pub(crate) instructions: u32,
    pub(crate) r0: u64,
    pub(crate) goes_on: bool,
}

/// Executes what the run at this place does by itself, in that machine: how many instructions there are, with that of its next stop,
/// and the stop.
#[inline(always)]
pub(crate) fn to_stop(
    setting: &Setting<'_>,
    runs: &Runs,
    place: usize,
    to: &mut Machine,
) -> (u32, Stop)
    requires of { (transport : TheTransport) × (history : List TheRecord) × KeepsEngine setting.now history transport runs.now }
    requires out { IsOutAt runs.now.runs.list place }
    ensures { StopsAt setting.now runs.now.runs.list place to.new result.0 result.1 }
{
    to.copy_from(runs.machine(place));
    let program = setting.program(runs.queue(place));
    let instructions = go_to_stop(program, to);
    (instructions, stop_of(program, to))
}

/// The run at this place, which is out, goes on to its next stop in a machine of the engine's own, and what it did is taken over.
/// Nobody else has to have the right to it. Where memory is refused nothing changes.
#[inline(always)]
pub(crate) fn go_on_here(
    alloc: Global,
    setting: &Setting<'_>,
    transport: &mut Transport,
    runs: &mut Runs,
    place: usize,
) -> Result<(Progress, Record), AllocError>
    requires of { (history : List TheRecord) × KeepsEngine setting.now history transport.old runs.old }
    requires out { IsOutAt runs.old.runs.list place }
    ensures step { IfOk result (λ it. IsStep setting.now transport.old runs.old place transport.new runs.new it.0 it.1) }
    ensures refused { OnErr result ((transport.new ≡ transport.old) × (runs.new ≡ runs.old)) }
{
    let mut to = runs.place_for_machine()?;
    let (instructions, at) = to_stop(setting, runs, place, &mut to);
    let Ok(stop) = recorded(alloc, &at) else {
        runs.keep_place(to);
        return Err(AllocError);
    };
    let run = runs.number(place);
    let onward = take_over(transport, runs, place, to, &at);
    let (r0, goes_on) = (onward.r0(), onward.goes_on());
    runs.keep_place(onward.spare());
    let told = Record::Advance {
        run,
        instructions,
        stop,
        r0,
    };
    let progress = Progress {
        instructions,
        r0,
        goes_on,
    };
    Ok((progress, told))
}

/// The run at this place, which is out so, is parked. The places of its machines are kept for runs to come.
#[inline(always)]
pub(crate) fn park(runs: &mut Runs, place: usize, run: Run) -> Record
    requires out { IsOutWith runs.old.runs.list run.number run.program.program run.machine }
    requires place { IsPlaced runs.old.runs.list run.number place }
    ensures told { result ≡ Called answers.Ok (calls.Park run.number) }
    ensures performs { (setup : Setup) (transport : TheTransport) (history : List TheRecord) → KeepsEngine setup history transport runs.old → Performs setup (Park run) transport runs.old transport runs.new (Success Parked) result }
{
    let call = Call::Park { run: run.number() };
    let (machine, next) = run.spent();
    runs.keep_place(machine);
    runs.keep_place(next);
    runs.set_out(place, false);
    let answer = CallAnswer::Ok;
    Record::Called { answer, call }
}

/// The run of that number, which is parked, is out again, or C1. Where memory is refused nothing changes.
pub(crate) fn resume(
    setting: &Setting<'_>,
    runs: &mut Runs,
    run: u32,
) -> Result<(Result<Run, CallRefusal>, Record), AllocError>
    requires { (transport : TheTransport) × (history : List TheRecord) × KeepsEngine setting.now history transport runs.old }
    ensures told { IfOk result (λ it. it.1 ≡ Called (resumed_answer it.0) (calls.Resume run)) }
    ensures performs { IfOk result (λ it. (transport : TheTransport) → Performs setting.now (Resume run) transport runs.old transport runs.new (resumed_reply it.0) it.1) }
    ensures refused { OnErr result (runs.new ≡ runs.old) }
{
    let call = Call::Resume { run };
    let Some(place) = runs.parked(run) else {
        return Ok((
            Err(CallRefusal::Unknown),
            refused(CallRefusal::Unknown, call),
        ));
    };
    let again = run_at(setting, runs, place)?;
    runs.set_out(place, true);
    let answer = CallAnswer::Ok;
    Ok((Ok(again), Record::Called { answer, call }))
}

// The right to take the run at this place further, made anew, for one whose right was spent. Where memory is refused nothing
// changes.
fn run_at(setting: &Setting<'_>, runs: &mut Runs, place: usize) -> Result<Run, AllocError>
    requires of { (transport : TheTransport) × (history : List TheRecord) × KeepsEngine setting.now history transport runs.old }
    requires place { (run : ℕ) × IsPlaced runs.old.runs.list run place }
    ensures again { (it : LiveRun) → HasRunAt runs.old.runs.list place it → IfOk result (IsAgain setting.now it) }
    ensures same { runs.new ≡ runs.old }
{
    let program = Arc::try_clone(setting.program(runs.queue(place)))?;
    let mut machine = runs.place_for_machine()?;
    let next = runs.place_for_machine()?;
    machine.copy_from(runs.machine(place));
    Ok(Run::new(
        runs.number(place),
        runs.queue(place),
        program,
        machine,
        next,
    ))
}

/// What is asked there, if a helper is.
pub(crate) fn request_of(stop: Stop) -> Option<Request>
    ensures { result ≡ asked_at stop }
{
    match stop {
        Stop::Helper(request) => Some(request),
        Stop::Exit { .. } => None,
    }
}
