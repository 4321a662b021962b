// What the stop of a run's segment does, and what is recorded of it. It relies on `helper_effects` for what a call does, and on
// `engine_runs` for the run.

ghost use Rattle.std.specs.Prelude.{◌≡◌, IfOk};
ghost use Rattle.bpf_semantics.specs.declared.stop.Stop.TheVariants.{Helper};
ghost use Rattle.engine_core.specs.Answers.{stopped_at, NamesCode, StopsByCode};
ghost use Rattle.engine_core.specs.Invariant.{HoldEntries};
ghost use Rattle.engine_core.specs.TakingOver.{ArrivesAt, Continues, LeadsFrom, RunContinues, is_going, r0_onward};

use crate::helper_effects::carry_out;
use bpf_machine::Machine;
use bpf_semantics::Stop;
use engine_runs::Runs;
use engine_transport::Transport;
use helpers::{Request, Tells};
use std::alloc::{AllocError, Global};
use world_calls::{StoppedAt, TracedBytes};

/// What is recorded of a stop. Only bytes that a call tells take memory.
#[inline(always)]
pub(crate) fn recorded(alloc: Global, stop: &Stop) -> Result<StoppedAt, AllocError>
    requires { StopsByCode stop.now }
    ensures { IfOk result (λ kept. kept ≡ stopped_at stop.now) }
{
    match stop {
        Stop::Helper(request) => recorded_call(alloc, request),
        Stop::Exit(_) => Ok(StoppedAt::Exit),
    }
}

#[inline(always)]
fn recorded_call(alloc: Global, request: &Request) -> Result<StoppedAt, AllocError>
    requires { NamesCode request.now }
    ensures { IfOk result (λ kept. kept ≡ stopped_at (Helper request.now)) }
{
    let helper = request.helper;
    match helper.row().tells {
        Tells::Name => Ok(StoppedAt::Helper(helper)),
        Tells::Bytes => Ok(StoppedAt::Trace(helper, TracedBytes::new(alloc, request.bytes)?)),
        Tells::Code => Ok(StoppedAt::Finish(helper, request.arguments.first as u8)),
    }
}

/// What a stop led to, each with R0 after it and the place of a machine that is needed no more.
pub(crate) enum Onward {
    /// The run goes on after the call of a helper.
    Goes(u64, Box<Machine>),
    /// It exited and is gone.
    Ended(u64, Box<Machine>),
}

impl Onward {
    /// R0 after the stop.
    pub(crate) fn r0(&self) -> u64
        ensures { result ≡ r0_onward self.now }
    {
        match self {
            Onward::Goes(r0, _) => *r0,
            Onward::Ended(r0, _) => *r0,
        }
    }

    /// Whether the run goes on.
    pub(crate) fn goes_on(&self) -> bool
        ensures { result ≡ is_going self.now }
    {
        matches!(self, Onward::Goes(_, _))
    }

    /// The place that is needed no more.
    pub(crate) fn spare(self) -> Box<Machine> {
        match self {
            Onward::Goes(_, spare) => spare,
            Onward::Ended(_, spare) => spare,
        }
    }
}

/// Takes over what the run at this place executed, up to the stop at which this machine stands. The run goes on after the call of
/// a helper, or exited and is gone.
#[inline(always)]
pub(crate) fn take_over(
    transport: &mut Transport,
    runs: &mut Runs,
    place: usize,
    to: Box<Machine>,
    stop: &Stop,
) -> Onward
    requires { ArrivesAt transport.old runs.old place to.value stop.now }
    ensures leads { LeadsFrom to.value stop.now (r0_onward result) place transport.old runs.old transport.new runs.new }
    ensures continues { Continues result to.value stop.now runs.old.runs.list runs.new.runs.list place }
    ensures tokens { HoldEntries transport.new.freezes runs.new }
{
    match stop {
        Stop::Helper(request) => {
            let (r0, spare) = answer(transport, runs, place, to, request);
            Onward::Goes(r0, spare)
        }
        Stop::Exit(r0) => {
            runs.end(place);
            Onward::Ended(*r0, to)
        }
    }
}

// Does what the call of a helper asks, and lets the run go on with the answer: what R0 is then, and the place of the machine
// that was the recorded one.
#[inline(always)]
fn answer(
    transport: &mut Transport,
    runs: &mut Runs,
    place: usize,
    to: Box<Machine>,
    request: &Request,
) -> (u64, Box<Machine>)
    requires { ArrivesAt transport.old runs.old place to.value (Helper request.now) }
    ensures leads { LeadsFrom to.value (Helper request.now) result.0 place transport.old runs.old transport.new runs.new }
    ensures goes { RunContinues to.value (Helper request.now) runs.old.runs.list runs.new.runs.list place }
    ensures tokens { HoldEntries transport.new.freezes runs.new }
{
    let given = carry_out(transport, runs, place, request);
    let spare = runs.go_on(place, to, request, &given);
    (given.r0, spare)
}
