// The host of the guests: it runs a scenario on an engine that it shares with workers, and puts completions into the inbox
// from which they are served. It relies on `host_handles` for the guests' tokens, on `engine_lock` for the engine's replies, and on
// `workers` for serving.

ghost use Rattle.std.specs.Prelude.{◌≡◌, ◌≢◌, ℕ, ◌+◌, ◌≤◌, ◌∷◌, ◌++◌, [], All, IfErr, IfSome, MatchResult, OnOk, None, length, true, vec_capacity};
ghost use Rattle.world_calls.specs.declared.call.Call.TheVariants.{Complete};
ghost use Rattle.scenario.specs.Steps.{command_seen, step_seen};
ghost use Rattle.inbox.specs.Views.{IsOf};
ghost use Rattle.workers.specs.Recorded.{AreRecorded};
ghost use Rattle.world.specs.World.{version_of};
ghost use Rattle.world_calls.specs.declared.trace.Version.{Version};
ghost use Rattle.host_scenario.specs.Asked.{AreOf, call_of, call_told, calls_of, is_hosts, with_call};
ghost use Rattle.host_scenario.specs.Faults.{IsOfSteps, line_of};
ghost use Rattle.host_scenario.specs.Served.{InboxIsKept, completes_of, completion_for};
ghost use Rattle.host_scenario.specs.Holding.{Asks, HoldsAll, IsMade, IsOfLine, IsOfStep, fault_of};
ghost use Rattle.workers.specs.declared.serving.TheConstants.{MAX_WORKERS};
ghost use Rattle.host_scenario.specs.declared.host.RunFault.TheVariants.{OutOfMemory};

use crate::asking::Asked;
use crate::counting::{Counts, is_hosts};
use crate::watching::Watching;
use ccb::Completion;
use engine_lock::{Caller, Object, Shared};
use host_handles::{HeldHandles, Unanswered};
use inbox::{Inbox, PutPass, TakePass};
use monitor::Watch;
use scenario::{Scenario, Step};
use std::alloc::AllocError;
use std::mem;
use std::sync::{Mutex, Wait};
use std::thread::Threads;
use workers::{Gate, Seat, Served, Unserved, serve, settle};
use world_calls::{Call, Notices};

/// Why a run stopped.
#[derive(Clone, Copy, Debug, PartialEq, Eq)]
pub enum RunFault {
    OutOfMemory,
    /// N2: the `grelease` of that line is of a freeze whose token is not held.
    NotHeld(usize),
    /// What cannot be:
    ///
    /// - An inbox that was served until it was empty has a completion, or has no room for one.
    /// - A worker kept a run that is not out, or a run used its program's budget up.
    /// - A completion was refused with another code than C1 and C3.
    /// - A guest's freeze is gone whose token is held.
    /// - At the end a caller or a pass is missing, or a run is live.
    /// - The history has calls of somebody else.
    InternalError,
}

impl From<AllocError> for RunFault {
    ghost from_gives = { λ _ fault. fault ≡ OutOfMemory };

    fn from(_: AllocError) -> Self {
        RunFault::OutOfMemory
    }
}

/// What a scenario is run with: the engine and the inbox, what the host and its workers need for them, and who is told how far it
/// is.
pub(crate) struct Host<'a, B: Object, N: Notices> {
    pub(crate) shared: Shared<B>,
    pub(crate) caller: Caller<B>,
    // none, with room for all callers at the end
    pub(crate) callers: Vec<Caller<B>>,
    pub(crate) held: HeldHandles,
    pub(crate) inbox: Inbox,
    pub(crate) put: PutPass,
    // to see whether the workers left a completion
    pub(crate) take: TakePass,
    // none, with room for all passes at the end
    pub(crate) puts: Vec<PutPass>,
    pub(crate) takes: Vec<TakePass>,
    pub(crate) seats: Vec<Seat<B>>,
    pub(crate) watch: Mutex<Watch<B>>,
    pub(crate) notices: &'a N,
    pub(crate) ghost put_is: { IsOf inbox put },
    pub(crate) ghost take_is: { IsOf inbox take },
    pub(crate) ghost seats_are: { All (λ seat. IsOf inbox seat.pass) seats.items },
    pub(crate) ghost few: { length seats.items ≤ MAX_WORKERS },
    pub(crate) ghost room: { (callers.items ≡ []) × (length seats.items + 1 ≤ vec_capacity callers) },
    pub(crate) ghost take_room: { (takes.items ≡ []) × (length seats.items + 1 ≤ vec_capacity takes) },
    pub(crate) ghost put_room: { (puts.items ≡ []) × (1 ≤ vec_capacity puts) },
}

impl<'a, B: Object + Send + Sync, N: Notices + Sync> Host<'a, B, N> {
    /// Carries the steps out in their order, and serves the completions that are left then. How many steps were carried out, how many
    /// calls were recorded and how many completions were put, and why it stopped.
    pub(crate) fn carry_out_all<R: Threads + Wait + Sync>(
        &mut self,
        rt: &R,
        scenario: &Scenario<'_>,
    ) -> (Counts, Result<(), RunFault>)
        requires none { (self.old.caller.mine ≡ []) × (self.old.put.account.put ≡ []) }
        requires kept { InboxIsKept self.old.inbox self.old.put self.old.take self.old.seats.items }
        ensures asked { OnOk result.1 (AreOf self.new.caller.mine (calls_of (version_of B.setup) scenario.now)) }
        ensures put { OnOk result.1 (self.new.put.account.put ≡ completes_of scenario.now) }
        ensures kept { OnOk result.1 (InboxIsKept self.new.inbox self.new.put self.new.take self.new.seats.items) }
        ensures fault { IfErr result.1 (IsOfSteps (version_of B.setup) scenario.now result.0.steps self.new.caller.mine self.new.put.account.put) }
        ensures stays { IfErr result.1 (λ fault. (line_of fault ≢ None) → InboxIsKept self.new.inbox self.new.put self.new.take self.new.seats.items) }
        ensures all { length self.new.seats.items ≡ length self.old.seats.items }
        ensures steps { OnOk result.1 (result.0.steps ≡ length scenario.now) }
        ensures calls { MatchResult result.1 (λ _. result.0.calls ≡ length self.new.caller.mine) (λ fault. (line_of fault ≢ None) → result.0.calls ≡ length self.new.caller.mine) }
        ensures completions { MatchResult result.1 (λ _. result.0.completions ≡ length self.new.put.account.put) (λ fault. (line_of fault ≢ None) → result.0.completions ≡ length self.new.put.account.put) }
    {
        let mut carried = 0;
        let mut calls = 0;
        let mut completions = 0;
        for step in scenario.steps() {
            if let Err(fault) = self.carry_out(rt, step) {
                let counts = Counts {
                    steps: carried,
                    calls,
                    completions,
                };
                return (counts, Err(fault));
            }
            carried += 1;
            calls += calls_in(step.call);
            completions += completions_for(step.call);
        }
        let counts = Counts {
            steps: carried,
            calls,
            completions,
        };
        (counts, self.drain(rt))
    }

    fn carry_out<R: Threads + Wait + Sync>(
        &mut self,
        rt: &R,
        step: Step<'_>,
    ) -> Result<(), RunFault>
        requires { HoldsAll self.old.caller.mine self.old.held.tokens }
        ensures asked { OnOk result (Asks (version_of B.setup) (step_seen step.entry) self.old.caller.mine self.new.caller.mine) }
        ensures holds { OnOk result (HoldsAll self.new.caller.mine self.new.held.tokens) }
        ensures put { OnOk result (self.new.put.account.put ≡ self.old.put.account.put ++ completion_for (command_seen step.entry.call)) }
        ensures kept { OnOk result (InboxIsKept self.old.inbox self.old.put self.old.take self.old.seats.items → InboxIsKept self.new.inbox self.new.put self.new.take self.new.seats.items) }
        ensures all { length self.new.seats.items ≡ length self.old.seats.items }
        ensures fault { IfErr result (IsOfStep (step_seen step.entry) self.old.caller.mine self.new.caller.mine) }
        ensures stays { IfErr result (λ fault. (line_of fault ≢ None) → (self.new.inbox ≡ self.old.inbox) × (self.new.put ≡ self.old.put) × (self.new.take ≡ self.old.take) × (self.new.seats.items ≡ self.old.seats.items)) }
    {
        let Some(call) = step.call else {
            return self.drain(rt);
        };
        if is_hosts(call) {
            return self.ask(rt, step.line, call);
        }
        match completion_in(call) {
            Some(completion) => self.complete(rt, completion),
            // a call of a run, of which no scenario has a line
            None => Err(RunFault::InternalError),
        }
    }

    // A refusal is recorded, and the scenario goes on. Where memory is refused the host stops: what comes back is held.
    fn ask<R: Threads + Wait + Sync>(
        &mut self,
        rt: &R,
        line: usize,
        call: &Call,
    ) -> Result<(), RunFault>
        requires hosts { is_hosts call.now ≡ true }
        requires holds { HoldsAll self.old.caller.mine self.old.held.tokens }
        ensures asked { OnOk result (IsMade (call_told (version_of B.setup) call.now) self.old.caller.mine self.new.caller.mine) }
        ensures holds { OnOk result (HoldsAll self.new.caller.mine self.new.held.tokens) }
        ensures same { (self.new.inbox ≡ self.old.inbox) × (self.new.put ≡ self.old.put) × (self.new.take ≡ self.old.take) × (self.new.seats.items ≡ self.old.seats.items) }
        ensures all { length self.new.seats.items ≡ length self.old.seats.items }
        ensures fault { IfErr result (IsOfLine line call.now self.old.caller.mine self.new.caller.mine) }
    {
        let mut asked = Asked {
            rt,
            shared: &self.shared,
            caller: &mut self.caller,
        };
        match self.held.call(&mut asked, call) {
            Ok(_) => Ok(()),
            Err(unanswered) => Err(fault_of(unanswered, line)),
        }
    }

    // A full inbox is served first, so that there is room.
    fn complete<R: Threads + Wait + Sync>(
        &mut self,
        rt: &R,
        completion: Completion,
    ) -> Result<(), RunFault>
        ensures same { (self.new.caller ≡ self.old.caller) × (self.new.held ≡ self.old.held) }
        ensures put { OnOk result (self.new.put.account.put ≡ self.old.put.account.put ++ completion ∷ []) }
        ensures kept { OnOk result (InboxIsKept self.old.inbox self.old.put self.old.take self.old.seats.items → InboxIsKept self.new.inbox self.new.put self.new.take self.new.seats.items) }
        ensures all { length self.new.seats.items ≡ length self.old.seats.items }
        ensures fault { IfErr result (λ fault. line_of fault ≡ None) }
    {
        let Err(completion) = self.inbox.put(rt, &mut self.put, completion) else {
            return Ok(());
        };
        self.drain(rt)?;
        match self.inbox.put(rt, &mut self.put, completion) {
            Ok(()) => Ok(()),
            Err(_) => Err(RunFault::InternalError),
        }
    }

    // Serves until the inbox is empty.
    fn drain<R: Threads + Wait + Sync>(&mut self, rt: &R) -> Result<(), RunFault>
        ensures same { (self.new.caller ≡ self.old.caller) × (self.new.held ≡ self.old.held) × (self.new.put ≡ self.old.put) }
        ensures kept { OnOk result (InboxIsKept self.old.inbox self.old.put self.old.take self.old.seats.items → InboxIsKept self.new.inbox self.new.put self.new.take self.new.seats.items) }
        ensures all { length self.new.seats.items ≡ length self.old.seats.items }
        ensures fault { IfErr result (λ fault. line_of fault ≡ None) }
    {
        let none = Vec::new(*self.seats.allocator());
        let seats = mem::replace(&mut self.seats, none);
        let gate = Watching {
            shared: &self.shared,
            watch: &self.watch,
            notices: self.notices,
        };
        let (back, served) = serve_by(rt, seats, &self.shared, &self.inbox, &gate);
        mem::replace(&mut self.seats, back).destroy_empty();
        match served {
            Ok(()) => match self.inbox.take(rt, &mut self.take) {
                None => Ok(()),
                Some(_) => Err(RunFault::InternalError),
            },
            Err(fault) => Err(fault),
        }
    }
}

// Serves with these seats, which come back, and says why not all was served. Runs that are kept are parked then, and completions that
// are kept are let go.
fn serve_by<B: Object + Send + Sync, G: Gate + Sync, R: Threads + Wait + Sync>(
    rt: &R,
    seats: Vec<Seat<B>>,
    shared: &Shared<B>,
    inbox: &Inbox,
    gate: &G,
) -> (Vec<Seat<B>>, Result<(), RunFault>)
    requires few { length seats.items ≤ MAX_WORKERS }
    requires passes { All (λ seat. IsOf inbox.now seat.pass) seats.items }
    ensures recorded { OnOk result.1 (AreRecorded seats.items result.0.items) }
    ensures all { length result.0.items ≡ length seats.items }
    ensures passes { All (λ seat. IsOf inbox.now seat.pass) result.0.items }
    ensures fault { IfErr result.1 (λ fault. line_of fault ≡ None) }
{
    match serve(rt, seats, shared, inbox, gate) {
        Ok(served) => {
            if served.is_whole() {
                return (served.into_seats(), Ok(()));
            }
            let fault = fault_for(served.out_of_memory);
            (seats_behind(rt, served, shared, inbox), Err(fault))
        }
        Err(Unserved { seats }) => (seats, Err(RunFault::OutOfMemory)),
    }
}

// Why something is kept.
fn fault_for(out_of_memory: bool) -> RunFault
    ensures { line_of result ≡ None }
{
    if out_of_memory {
        RunFault::OutOfMemory
    } else {
        RunFault::InternalError
    }
}

// How many calls the host makes for such a line.
fn calls_in(call: Option<&Call>) -> usize
    ensures calls { (version : Version) → result ≡ length (with_call (call_of version (command_seen call.entry)) []) }
    ensures few { result ≤ 1 }
{
    match call {
        Some(call) if is_hosts(call) => 1,
        _ => 0,
    }
}

// How many completions are put for such a line.
fn completions_for(call: Option<&Call>) -> usize
    ensures many { result ≡ length (completion_for (command_seen call.entry)) }
    ensures few { result ≤ 1 }
{
    match call {
        Some(Call::Complete { .. }) => 1,
        _ => 0,
    }
}

// The completion that such a call brings; none of one that a device cannot report.
fn completion_in(call: &Call) -> Option<Completion>
    ensures { IfSome result (λ completion. call.now ≡ Complete completion) }
{
    match call {
        Call::Complete { completion } => completion.completion(),
        _ => None,
    }
}

// Why a call was not answered, as it is told of its line. C6 cannot be: it is told of a token that is held.
fn fault_of(unanswered: Unanswered, line: usize) -> RunFault
    ensures { result ≡ fault_of unanswered line }
{
    match unanswered {
        Unanswered::NotHeld => RunFault::NotHeld(line),
        Unanswered::NotAdmitted => RunFault::InternalError,
        Unanswered::OutOfMemory => RunFault::OutOfMemory,
    }
}

// The seats of a service, when the runs that it kept are parked. The completions that are kept are let go.
fn seats_behind<B: Object, R: Wait>(
    rt: &R,
    served: Served<B>,
    shared: &Shared<B>,
    inbox: &Inbox,
) -> Vec<Seat<B>>
    requires { All (λ seat. IsOf inbox.now seat.pass) served.seats }
    ensures all { length result.items ≡ length served.seats }
    ensures passes { All (λ seat. IsOf inbox.now seat.pass) result.items }
{
    match settle(rt, served, shared) {
        Ok(settled) => settled.into_seats(),
        // a run that the engine does not have out
        Err(unsettled) => unsettled.into_seats(),
    }
}
