// How the runs that a service kept are parked, so that none has to be forfeited. It relies on `engine_lock` for calls, and on
// `engine_core` for parks, which take no memory.

ghost use Rattle.std.specs.Prelude.{◌≡◌, All, length, IfOk, IfErr, IfSome, IfNone, MatchResult};
ghost use Rattle.inbox.specs.Views.{InboxView, IsOf};
ghost use Rattle.engine_core.specs.declared.event.Event.TheVariants.{Park};
ghost use Rattle.engine_core.specs.declared.reply.Returned.TheVariants as its;
ghost use Rattle.engine_core.specs.declared.reply.Success.TheVariants.{Parked};
ghost use Rattle.engine_core.specs.declared.reply.Reply.TheVariants as replied;
ghost use Rattle.engine_lock.specs.Sharing.{Section};
ghost use Rattle.workers.specs.Settling.{AreSettled, AreSettledBy, IsSettled, IsUnsettled};

use crate::driving::run_of;
use crate::seat::Seat;
use crate::serving::Served;
use ccb::Completion;
use engine_core::{Event, Reply, Run, Success};
use engine_lock::{Caller, Object, Shared};
use std::marker::Model;
use std::sync::Wait;

/// What is left of a service whose kept runs are parked.
pub struct Settled<B: Object> {
    /// All seats, in their order.
    pub seats: Vec<Seat<B>>,
    /// The completions that were taken and not answered, at most one a seat.
    pub completions: Vec<Completion>,
}

impl<B: Object> Model for Settled<B> {
    ghost use Rattle.workers.specs.Settling.{SettledState};

    ghost Value = { SettledState };

    ghost view = { λ s. record { seats = s.seats.items; completions = s.completions.items } };
}

impl<B: Object> Settled<B> {
    /// The seats alone. The completions that are kept are let go.
    pub fn into_seats(self) -> Vec<Seat<B>>
        ensures { result.items ≡ self.seats }
    {
        let Settled {
            seats,
            completions: _,
        } = self;
        seats
    }
}

/// Parks each run that is kept, by the first seat's caller, in their order. It takes no memory, and may wait for other callers.
/// A run for which the engine answers C4, since it is not out there, is left in what comes back, with all seats, completions
/// and counts; the others are parked nevertheless. Without a seat all comes back, if a run is kept.
pub fn settle<B: Object, R: Wait>(
    rt: &R,
    served: Served<B>,
    shared: &Shared<B>,
) -> Result<Settled<B>, Served<B>>
    ensures settled { IfOk result (IsSettled B.setup served) }
    ensures unsettled { IfErr result (IsUnsettled B.setup served) }
    ensures all { MatchResult result (λ settled. length settled.seats ≡ length served.seats) (λ back. length back.seats ≡ length served.seats) }
    ensures passes { (inbox : InboxView) → All (λ seat. IsOf inbox seat.pass) served.seats → MatchResult result (λ settled. All (λ seat. IsOf inbox seat.pass) settled.seats) (λ back. All (λ seat. IsOf inbox seat.pass) back.seats) }
{
    let Served {
        mut seats,
        started,
        ended,
        completions,
        mut runs,
        out_of_memory,
    } = served;
    park_by_first(rt, shared, &mut seats, &mut runs);
    if runs.is_empty() {
        runs.destroy_empty();
        Ok(Settled { seats, completions })
    } else {
        Err(Served {
            seats,
            started,
            ended,
            completions,
            runs,
            out_of_memory,
        })
    }
}

// Parks the runs by the first seat, if there is one.
fn park_by_first<B: Object, R: Wait>(
    rt: &R,
    shared: &Shared<B>,
    seats: &mut Vec<Seat<B>>,
    runs: &mut Vec<Run>,
)
    ensures { AreSettledBy B.setup seats.old.items runs.old.items runs.new.items seats.new.items }
{
    if !seats.is_empty() {
        park_all(rt, shared, &mut seats[0].caller, runs);
    }
}

// Parks the runs by this caller. Those that are not out are left.
fn park_all<B: Object, R: Wait>(
    rt: &R,
    shared: &Shared<B>,
    caller: &mut Caller<B>,
    runs: &mut Vec<Run>,
)
    ensures { AreSettled B.setup caller.old runs.old.items runs.new.items caller.new }
{
    for _ in 0..runs.len() {
        let run = runs.remove(0);
        if let Some(run) = park(rt, shared, caller, run) {
            runs.push_reserved(run);
        }
    }
}

// Parks the run. It comes back where it is not out.
fn park<B: Object, R: Wait>(
    rt: &R,
    shared: &Shared<B>,
    caller: &mut Caller<B>,
    run: Run,
) -> Option<Run>
    ensures parked { IfNone result (Section B.setup (Park run) (replied.Success Parked) caller.old caller.new) }
    ensures back { IfSome result (λ back. (back ≡ run) × Section B.setup (Park run) (replied.NotAdmitted (its.Run run)) caller.old caller.new) }
{
    let reply = shared.call(rt, caller, Event::Park { run });
    match reply {
        Reply::Success(Success::Parked) => None,
        Reply::NotAdmitted(back) => Some(run_of(back)),
        Reply::Success(given) => {
            given.forfeit();
            unreachable!()
        }
        Reply::OutOfMemory(back) => {
            back.forfeit();
            unreachable!()
        }
        Reply::Refused(_) => unreachable!(),
    }
}
