// A run of a scenario from the opening of its engine to the end. It relies on `host` for what the steps ask for.

ghost use Rattle.std.specs.Prelude.{◌≡◌, ◌≢◌, ◌≤◌, ◌+◌, ◌++◌, [], All, Err, IfErr, IfOk, IsOk, None, OnOk, length, map, take, vec_capacity};
ghost use Rattle.inbox.specs.InboxLists.{Settles};
ghost use Rattle.inbox.specs.Views.{IsOf};
ghost use Rattle.host_scenario.specs.Asked.{by_host};
ghost use Rattle.host_scenario.specs.Faults.{IsOfRun, line_of};
ghost use Rattle.host_scenario.specs.Served.{HasTaken, InboxIsKept, completes_of};
ghost use Rattle.host_scenario.specs.Traces.{HasMade, IsOfScenario, IsTraceOf};
ghost use Rattle.host_scenario.specs.Turns.{AreInTurn, AreInTurnSoFar};
ghost use Rattle.workers.specs.Recorded.{completions_of};
ghost use Rattle.workers.specs.declared.serving.TheConstants.{MAX_WORKERS};

use crate::counting::Counts;
use crate::host::{Host, RunFault};
use crate::turns::are_in_turn;
use ccb::Completion;
use engine_core::{Config, Engine, Trace};
use engine_lock::{Caller, Object, Opened, Shared};
use host_handles::HeldHandles;
use inbox::{CloseFault, Inbox, MAX_CAPACITY, PutPass, TakePass};
use scenario::Scenario;
use std::alloc::{AllocError, Global};
use std::marker::Brand;
use std::sync::{Mutex, Wait};
use std::thread::Threads;
use workers::{Seat, seated};
use world_calls::Notices;

/// Runs a scenario's steps in their order on an engine of this configuration, and serves the completions that are left then, by 1 to 16
/// workers. Tokens that are out at the end are forfeited. With one worker the trace is determined; with more, completions that
/// wait together are served in any order. While workers serve, the engine's sums are told where they are wanted.
///
/// If memory was refused, that is the fault, whatever else is wrong.
pub fn run<N: Notices + Sync, R: Threads + Wait + Sync>(
    rt: &R,
    alloc: Global,
    config: Config,
    scenario: &Scenario<'_>,
    workers: usize,
    notices: &N,
) -> Result<Trace, RunFault>
    requires { (1 ≤ workers) × (workers ≤ MAX_WORKERS) }
    ensures trace { IfOk result (λ trace. IsTraceOf config trace.version trace.records.items trace.totals) }
    ensures asked { IfOk result (λ trace. IsOfScenario trace.version scenario.now trace.records.items) }
    // one worker serves the completions in the order of their lines
    ensures in_order { IfOk result (λ trace. workers ≡ 1 → completions_of trace.records.items ≡ completes_of scenario.now) }
    // each run that started has ended
    ensures ended { IfOk result (λ trace. trace.totals.runs ≡ 0) }
    // N2 is told at the line of a release of a freeze that is not held then
    ensures fault { IfErr result (IsOfRun config scenario.now) }
{
    let engine = match Engine::open(alloc, config) {
        Ok(engine) => engine,
        Err((fault, _)) => return Err(RunFault::from(fault)),
    };
    match Opened::new(alloc, engine) {
        Ok(opened) => run_on::<Brand, N, R>(rt, alloc, opened, scenario, workers, notices),
        Err((fault, _)) => Err(RunFault::from(fault)),
    }
}

// The same on this engine.
fn run_on<B: Object + Send + Sync, N: Notices + Sync, R: Threads + Wait + Sync>(
    rt: &R,
    alloc: Global,
    opened: Opened,
    scenario: &Scenario<'_>,
    workers: usize,
    notices: &N,
) -> Result<Trace, RunFault>
    requires few { (1 ≤ workers) × (workers ≤ MAX_WORKERS) }
    requires setup { opened.engine.setup ≡ B.setup }
    requires begun { opened.engine.history ≡ B.begun }
    requires name { (opened.calls.name ≡ B.name) × (opened.calls.parts ≡ B.parts) }
    requires table { opened.monitor ≡ B.table }
    ensures trace { IfOk result (λ trace. IsTraceOf B.setup trace.version trace.records.items trace.totals) }
    ensures asked { IfOk result (λ trace. IsOfScenario trace.version scenario.now trace.records.items) }
    ensures in_order { IfOk result (λ trace. workers ≡ 1 → completions_of trace.records.items ≡ completes_of scenario.now) }
    ensures ended { IfOk result (λ trace. trace.totals.runs ≡ 0) }
    ensures fault { IfErr result (IsOfRun B.setup scenario.now) }
{
    let mut host = open(rt, alloc, opened.named::<B>(), workers, notices)?;
    let (counts, carried_out) = host.carry_out_all(rt, scenario);
    match close(rt, host) {
        Ok(ended) => judged(counts, carried_out, ended, scenario),
        Err(fault) => Err(first_of(carried_out, fault)),
    }
}

// The trace, if all was carried out and is in it in turn, and each run has ended.
fn judged(
    counts: Counts,
    carried_out: Result<(), RunFault>,
    ended: Ended,
    scenario: &Scenario<'_>,
) -> Result<Trace, RunFault>
    requires all { OnOk carried_out (counts.steps ≡ length scenario.now) }
    ensures whole { IfOk result (λ trace. (trace ≡ ended.trace) × IsOk carried_out × (ended.left.items ≡ [])) }
    ensures counted { IfOk result (λ trace. (length (by_host ended.trace.records.items) ≡ counts.calls) × (length (completions_of ended.trace.records.items) + length ended.left.items ≡ counts.completions)) }
    ensures turns { IfOk result (λ trace. AreInTurn scenario.now ended.trace.records.items) }
    ensures ended { IfOk result (λ trace. trace.totals.runs ≡ 0) }
    ensures fault { IfErr result (λ fault. (line_of fault ≢ None) → (carried_out ≡ Err fault) × (length (by_host ended.trace.records.items) ≡ counts.calls) × (length (completions_of ended.trace.records.items) + length ended.left.items ≡ counts.completions) × AreInTurnSoFar (take counts.steps scenario.now) ended.trace.records.items) }
{
    let Ended { trace, left } = ended;
    let are_all = counts.are_of(&trace.records, left.len());
    match carried_out {
        Ok(()) => {
            if are_all
                && left.is_empty()
                && trace.totals.runs == 0
                && are_in_turn(scenario, counts.steps, &trace.records, true)
            {
                Ok(trace)
            } else {
                Err(RunFault::InternalError)
            }
        }
        Err(RunFault::NotHeld(line)) => {
            if are_all && are_in_turn(scenario, counts.steps, &trace.records, false) {
                Err(RunFault::NotHeld(line))
            } else {
                Err(RunFault::InternalError)
            }
        }
        Err(RunFault::OutOfMemory) => Err(RunFault::OutOfMemory),
        Err(RunFault::InternalError) => Err(RunFault::InternalError),
    }
}

// Want of memory first, and then why the host could not be ended.
fn first_of(carried_out: Result<(), RunFault>, fault: RunFault) -> RunFault
    requires { line_of fault ≡ None }
    ensures { line_of result ≡ None }
{
    match carried_out {
        Err(RunFault::OutOfMemory) => RunFault::OutOfMemory,
        _ => fault,
    }
}

// The host with its inbox and so many seats.
fn open<'a, B: Object, N: Notices, R: Wait>(
    rt: &R,
    alloc: Global,
    shared: Shared<B>,
    workers: usize,
    notices: &'a N,
) -> Result<Host<'a, B, N>, RunFault>
    requires { (1 ≤ workers) × (workers ≤ MAX_WORKERS) }
    ensures none { IfOk result (λ host. (host.caller.mine ≡ []) × (host.put.account.put ≡ [])) }
    ensures kept { IfOk result (λ host. InboxIsKept host.inbox host.put host.take host.seats.items) }
    ensures all { IfOk result (λ host. length host.seats.items ≡ workers) }
    ensures fault { IfErr result (λ fault. line_of fault ≡ None) }
{
    let Ok(caller) = shared.caller(rt) else {
        return Err(RunFault::InternalError);
    };
    let room = match make_room(alloc, workers) {
        Ok(room) => room,
        Err(fault) => {
            caller.forfeit();
            return Err(RunFault::from(fault));
        }
    };
    // a pass to take for each worker, and one for the host
    let (inbox, mut puts, mut passes) = match Inbox::new(alloc, MAX_CAPACITY, 1, workers + 1) {
        Ok(made) => made,
        Err(fault) => {
            caller.forfeit();
            room.forfeit();
            return Err(RunFault::from(fault));
        }
    };
    let put = puts.remove(0);
    let take = passes.remove(0);
    let Room {
        callers,
        seats,
        takes,
    } = room;
    let seats = match seated(rt, &shared, &inbox, passes, seats) {
        Ok(seats) => seats,
        // 64 callers were given out, which cannot be
        Err(unseated) => {
            unseated.forfeit();
            caller.forfeit();
            put.forfeit();
            take.forfeit();
            puts.destroy_empty();
            takes.destroy_empty();
            callers.destroy_empty();
            inbox.forfeit();
            return Err(RunFault::InternalError);
        }
    };
    let watch = Mutex::new(shared.watch(rt));
    Ok(Host {
        shared,
        caller,
        callers,
        held: HeldHandles::empty(alloc),
        inbox,
        put,
        take,
        puts,
        takes,
        seats,
        watch,
        notices,
    })
}

// Room for the seats of so many workers, and for their callers and passes with the host's.
struct Room<B: Object> {
    callers: Vec<Caller<B>>,
    seats: Vec<Seat<B>>,
    takes: Vec<TakePass>,
    ghost none: { (callers.items ≡ []) × (seats.items ≡ []) × (takes.items ≡ []) },
}

impl<B: Object> Room<B> {
    fn forfeit(self) {
        let Room {
            callers,
            seats,
            takes,
        } = self;
        callers.destroy_empty();
        seats.destroy_empty();
        takes.destroy_empty();
    }
}

fn make_room<B: Object>(alloc: Global, workers: usize) -> Result<Room<B>, AllocError>
    requires { workers ≤ MAX_WORKERS }
    ensures callers { IfOk result (λ room. workers + 1 ≤ vec_capacity room.callers) }
    ensures seats { IfOk result (λ room. workers ≤ vec_capacity room.seats) }
    ensures takes { IfOk result (λ room. workers + 1 ≤ vec_capacity room.takes) }
{
    let callers = Vec::with_capacity(alloc, workers + 1)?;
    let seats = match Vec::with_capacity(alloc, workers) {
        Ok(seats) => seats,
        Err(fault) => {
            callers.destroy_empty();
            return Err(fault);
        }
    };
    match Vec::with_capacity(alloc, workers + 1) {
        Ok(takes) => Ok(Room {
            callers,
            seats,
            takes,
        }),
        Err(fault) => {
            callers.destroy_empty();
            seats.destroy_empty();
            Err(fault)
        }
    }
}

// What a host leaves: the whole history of its engine, and the completions that nobody took.
#[derive(Drop)]
struct Ended {
    trace: Trace,
    left: Vec<Completion>,
}

// Ends the host, its inbox and the sharing of its engine.
fn close<B: Object, N: Notices, R: Wait>(rt: &R, host: Host<'_, B, N>) -> Result<Ended, RunFault>
    ensures trace { IfOk result (λ ended. IsTraceOf B.setup ended.trace.version ended.trace.records.items ended.trace.totals) }
    ensures made { IfOk result (λ ended. HasMade host.entry.caller ended.trace.records.items) }
    ensures taken { IfOk result (λ ended. InboxIsKept host.entry.inbox host.entry.put host.entry.take host.entry.seats.items →
        HasTaken (length host.entry.seats.items) host.entry.put.account.put ended.left.items ended.trace.records.items) }
    ensures fault { IfErr result (λ fault. line_of fault ≡ None) }
{
    let Host {
        shared,
        caller,
        mut callers,
        held: _,
        inbox,
        put,
        take,
        mut puts,
        mut takes,
        mut seats,
        watch: _,
        notices: _,
    } = host;
    puts.push_reserved(put);
    takes.push_reserved(take);
    callers.push_reserved(caller);
    while !seats.is_empty() {
        let Seat { caller, pass } = seats.remove(0);
        takes.push_reserved(pass);
        callers.push_reserved(caller);
    }
    seats.destroy_empty();
    let left = match close_inbox(rt, inbox, puts, takes) {
        Ok(left) => left,
        Err(fault) => {
            forfeit_all(callers);
            return Err(fault);
        }
    };
    match shared.close(rt, callers) {
        Ok(engine) => Ok(Ended {
            trace: engine.shut(),
            left,
        }),
        Err(unclosed) => {
            unclosed.forfeit();
            Err(RunFault::InternalError)
        }
    }
}

// The completions that nobody took.
fn close_inbox<R: Wait>(
    rt: &R,
    inbox: Inbox,
    puts: Vec<PutPass>,
    takes: Vec<TakePass>,
) -> Result<Vec<Completion>, RunFault>
    requires puts { All (IsOf inbox) puts.items }
    requires takes { All (IsOf inbox) takes.items }
    ensures closed { IfOk result (λ left. Settles inbox.shape (map (λ pass. pass.account) (puts.items ++ takes.items)) left.items) }
    ensures fault { IfErr result (λ fault. line_of fault ≡ None) }
{
    match inbox.close(rt, puts, takes) {
        Ok(left) => Ok(left),
        Err(unclosed) => {
            let fault = fault_of(unclosed.fault);
            unclosed.forfeit();
            Err(fault)
        }
    }
}

// Why an inbox is not closed, as it is told.
fn fault_of(fault: CloseFault) -> RunFault
    ensures { line_of result ≡ None }
{
    match fault {
        CloseFault::OutOfMemory => RunFault::OutOfMemory,
        CloseFault::PassMissing => RunFault::InternalError,
    }
}

fn forfeit_all<B: Object>(mut callers: Vec<Caller<B>>) {
    while let Some(caller) = callers.pop() {
        caller.forfeit();
    }
    callers.destroy_empty();
}
