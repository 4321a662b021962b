// What a worker does with one completion: it is answered, and the run that it starts is driven to its end. It relies on
// `engine_lock` for calls, and on `engine_core` for what a run executes by itself, outside the lock.

ghost use Rattle.std.specs.Prelude.{◌≡◌, ℕ, true, false, IfErr, IfSome, IfNone, OnOk};
ghost use Rattle.engine_core.specs.declared.reply.Returned.TheVariants as its;
ghost use Rattle.engine_core.specs.declared.reply.Success.TheVariants.{Started};
ghost use Rattle.engine_core.specs.declared.reply.Reply.TheVariants.{Refused};
ghost use Rattle.workers.specs.Serving.{Ends, HasServed, HasStopped, IsReady, IsRunBack, Leaves, StartsNone, is_answered, is_for_memory, why_of};

use crate::gate::Gate;
use crate::worker::{Kept, Worker};
use engine_core::{AdvanceFault, CallRefusal, DriveFault, Event, Reply, Returned, Run, Success};
use engine_lock::{Caller, Object, Shared};
use inbox::Inbox;
use std::sync::Wait;

/// Why a run was not driven to its end.
#[derive(Clone, Copy, Debug, PartialEq, Eq)]
pub enum Why {
    /// Memory was refused.
    OutOfMemory,
    /// C4: the engine does not have the run out.
    NotOut,
    /// The run was advanced as often as its program's budget has instructions. No run of an accepted program can be.
    BudgetUsed,
}

/// A run that was not driven to its end, and why.
pub struct Undriven {
    pub run: Run,
    pub why: Why,
}

/// A program of at most so many slots, whose runs execute at most so many instructions, is short. So many private instructions take 2 to
/// 10 microseconds, and comparing so many slots less than one: the others wait no longer than for a few handings over of the lock.
const SHORT: u32 = 1000;

/// How many runs one worker starts in one service at most: a sixteenth of the numbers that runs can have.
pub(crate) const MOST_STARTED: u32 = u32::MAX / 16;

/// Serves until the inbox is empty, or until something is kept.
pub(crate) fn work<B: Object, G: Gate, R: Wait>(
    rt: &R,
    shared: &Shared<B>,
    inbox: &Inbox,
    gate: &G,
    worker: &mut Worker<B>,
)
    requires { IsReady inbox.now worker.old }
    ensures served { HasServed B.setup worker.old worker.new }
    ensures stopped { HasStopped worker.new }
{
    for _ in rt.forever() {
        if !serve_next(rt, shared, inbox, gate, worker) {
            return;
        }
    }
    unreachable!()
}

// Takes a completion and serves it. Whether there may be more, and nothing is kept.
fn serve_next<B: Object, G: Gate, R: Wait>(
    rt: &R,
    shared: &Shared<B>,
    inbox: &Inbox,
    gate: &G,
    worker: &mut Worker<B>,
) -> bool
    requires { IsReady inbox.now worker.old }
    ensures served { HasServed B.setup worker.old worker.new }
    ensures ready { result ≡ true → IsReady inbox.now worker.new }
    ensures stopped { result ≡ false → HasStopped worker.new }
{
    if worker.started == MOST_STARTED {
        return false;
    }
    let Some(completion) = inbox.take(rt, &mut worker.pass) else {
        return false;
    };
    let event = Event::Complete {
        completion: &completion,
    };
    match shared.call(rt, &mut worker.caller, event) {
        Reply::Success(given) => {
            let Some(run) = started_by(given) else {
                return true;
            };
            worker.started += 1;
            match drive(rt, shared, gate, &mut worker.caller, run) {
                Ok(()) => {
                    worker.ended += 1;
                    true
                }
                Err(Undriven { run, why }) => {
                    worker.keep(Kept::Run(run), is_for_memory(why));
                    false
                }
            }
        }
        Reply::Refused(refusal) => {
            if is_passed_over(refusal) {
                return true;
            }
            worker.keep(Kept::Completion(completion), false);
            false
        }
        Reply::OutOfMemory(back) => {
            back.forfeit();
            worker.keep(Kept::Completion(completion), true);
            false
        }
        Reply::NotAdmitted(back) => {
            back.forfeit();
            unreachable!()
        }
    }
}

// Whether a refusal answers a completion for good: C1 and C3.
fn is_passed_over(refusal: CallRefusal) -> bool
    ensures { result ≡ is_answered (Refused refusal) }
{
    matches!(refusal, CallRefusal::Unknown | CallRefusal::NotActive)
}

// Whether memory was refused.
fn is_for_memory(why: Why) -> bool
    ensures { result ≡ is_for_memory why }
{
    matches!(why, Why::OutOfMemory)
}

// The run that was started, if one was.
fn started_by(given: Success) -> Option<Run>
    ensures started { IfSome result (λ run. (freeze : ℕ) × (given ≡ Started run freeze)) }
    ensures none { IfNone result (StartsNone given) }
{
    match given {
        Success::Started(run, _) => Some(run),
        other => {
            other.forfeit();
            None
        }
    }
}

/// Drives a run to its end. If an advance is not carried out, the run comes back with the reason. Where the gate is open and the run
/// is short all its stops are one section under the engine's lock. Else each stop is one, after the gate was asked, and what is private
/// to the run is executed outside the lock.
pub fn drive<B: Object, G: Gate, R: Wait>(
    rt: &R,
    shared: &Shared<B>,
    gate: &G,
    caller: &mut Caller<B>,
    run: Run,
) -> Result<(), Undriven>
    ensures ended { OnOk result (Ends B.setup run.number caller.old caller.new) }
    ensures kept { IfErr result (λ back. Leaves B.setup run back.run back.why caller.old caller.new) }
{
    if gate.is_open() && is_short(&run) {
        drive_at_once(rt, shared, caller, run)
    } else {
        drive_by_stops(rt, shared, gate, caller, run)
    }
}

// Whether the run's program is short.
fn is_short(run: &Run) -> bool {
    let program = run.program();
    program.budget() <= SHORT && program.program().len() <= SHORT as usize
}

// Drives a run to its end in one section.
fn drive_at_once<B: Object, R: Wait>(
    rt: &R,
    shared: &Shared<B>,
    caller: &mut Caller<B>,
    run: Run,
) -> Result<(), Undriven>
    ensures ended { OnOk result (Ends B.setup run.number caller.old caller.new) }
    ensures kept { IfErr result (λ back. Leaves B.setup run back.run back.why caller.old caller.new) }
{
    match shared.drive(rt, caller, run) {
        Ok(_) => Ok(()),
        Err(fault) => {
            let DriveFault { why, run, r0: _ } = fault;
            Err(Undriven {
                run,
                why: why_of(why),
            })
        }
    }
}

// The engine's reason as a worker's.
fn why_of(fault: AdvanceFault) -> Why
    ensures { result ≡ why_of fault }
{
    match fault {
        AdvanceFault::OutOfMemory => Why::OutOfMemory,
        AdvanceFault::NotOut => Why::NotOut,
    }
}

// Drives a run to its end, a section a stop. Each turn executes an instruction at least, so an accepted program's run ends within its
// budget of turns.
fn drive_by_stops<B: Object, G: Gate, R: Wait>(
    rt: &R,
    shared: &Shared<B>,
    gate: &G,
    caller: &mut Caller<B>,
    run: Run,
) -> Result<(), Undriven>
    ensures ended { OnOk result (Ends B.setup run.number caller.old caller.new) }
    ensures kept { IfErr result (λ back. Leaves B.setup run back.run back.why caller.old caller.new) }
{
    let budget = run.program().budget();
    let mut stopped = run.to_stop();
    for turn in 0..budget {
        gate.before(rt, stopped.number(), turn + 1);
        match shared.call(rt, caller, Event::Advance { run: stopped }) {
            Reply::Success(Success::Goes(run, _)) => stopped = run.to_stop(),
            Reply::Success(Success::Ended(_)) => return Ok(()),
            Reply::NotAdmitted(back) => {
                return Err(Undriven {
                    run: run_of(back),
                    why: Why::NotOut,
                });
            }
            Reply::OutOfMemory(back) => {
                return Err(Undriven {
                    run: run_of(back),
                    why: Why::OutOfMemory,
                });
            }
            Reply::Success(given) => {
                given.forfeit();
                unreachable!()
            }
            Reply::Refused(_) => unreachable!(),
        }
    }
    Err(Undriven {
        run: stopped.back(),
        why: Why::BudgetUsed,
    })
}

/// The run that came back.
pub(crate) fn run_of(back: Returned) -> Run
    requires { IsRunBack back }
    ensures { back ≡ its.Run result }
{
    match back {
        Returned::Run(run) => run,
        other => {
            other.forfeit();
            unreachable!()
        }
    }
}
