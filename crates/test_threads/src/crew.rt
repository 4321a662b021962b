// Workers of a shared engine: their inbox and their seats, and a caller for the one who makes them serve. If memory is refused, the same
// call succeeds the second time.

ghost use Rattle.std.specs.Prelude.{◌≡◌, ◌≤◌, [], All, IfSome, MatchResult, length, vec_capacity, vec_len};
ghost use Rattle.inbox.specs.Views.{IsOf};
ghost use Rattle.workers.specs.declared.serving.TheConstants.{MAX_WORKERS};

use crate::asking::{caller_of, closed, put_in, told};
use crate::services::{Service, serve_by};
use ccb::{CamStatus, CcbId, Completion};
use engine_core::Run;
use engine_lock::{Caller, Object, Shared};
use inbox::{Inbox, PutPass, TakePass};
use std::alloc::{AllocError, Global};
use std::mem;
use std::sync::Wait;
use std::thread::Threads;
use workers::{Gate, Open, Seat, Served, Settled, seated, settle};
use world_calls::{Totals, Trace};

/// How many completions find room in the inbox.
const CAPACITY: usize = 16;

/// What workers serve with.
pub struct Crew<B: Object> {
    pub caller: Caller<B>,
    inbox: Inbox,
    put: PutPass,
    seats: Vec<Seat<B>>,
    ghost put_is: { IsOf inbox put },
    ghost seats_are: { All (λ seat. IsOf inbox seat.pass) seats.items },
    ghost few: { length seats.items ≤ MAX_WORKERS },
}

/// What came of a service: how many runs it started and ended, and how many completions and runs it kept.
#[derive(Clone, Copy)]
pub struct Course {
    pub started: u32,
    pub ended: u32,
    pub kept: usize,
}

impl Course {
    /// Whether so many runs were started, all of which ended, and nothing was kept.
    pub fn is_whole(&self, runs: u32) -> bool {
        self.started == runs && self.ended == runs && self.kept == 0
    }
}

// What is left of a service when the runs that it kept are parked.
struct Left<B: Object> {
    seats: Vec<Seat<B>>,
    completions: Vec<Completion>,
    // how many runs came back, since they were not out
    back: usize,
}

// Room for so many seats.
fn room_for<B: Object>(alloc: Global, workers: usize) -> Option<Vec<Seat<B>>>
    ensures { IfSome result (λ seats. (seats.items ≡ []) × (workers ≤ vec_capacity seats)) }
{
    match Vec::with_capacity(alloc, workers) {
        Ok(seats) => Some(seats),
        Err(AllocError) => match Vec::with_capacity(alloc, workers) {
            Ok(seats) => Some(seats),
            Err(AllocError) => None,
        },
    }
}

// An inbox with its one pass to put, and so many to take.
fn inbox_for(alloc: Global, workers: usize) -> Option<(Inbox, Vec<PutPass>, Vec<TakePass>)>
    requires { (1 ≤ workers) × (workers ≤ MAX_WORKERS) }
    ensures puts { IfSome result (λ made. (vec_len made.1 ≡ 1) × All (IsOf made.0) made.1.items) }
    ensures takes { IfSome result (λ made. (vec_len made.2 ≡ workers) × All (IsOf made.0) made.2.items) }
{
    match Inbox::new(alloc, CAPACITY, 1, workers) {
        Ok(made) => Some(made),
        Err(AllocError) => match Inbox::new(alloc, CAPACITY, 1, workers) {
            Ok(made) => Some(made),
            Err(AllocError) => None,
        },
    }
}

// The one pass.
fn only(inbox: &Inbox, mut puts: Vec<PutPass>) -> PutPass
    requires { (vec_len puts ≡ 1) × All (IsOf inbox.now) puts.items }
    ensures { IsOf inbox.now result }
{
    let put = puts.remove(0);
    puts.destroy_empty();
    put
}

// Spends seats that nobody serves with.
fn stand_up<B: Object>(mut seats: Vec<Seat<B>>) {
    while let Some(seat) = seats.pop() {
        let Seat { caller, pass } = seat;
        pass.forfeit();
        caller.forfeit();
    }
    seats.destroy_empty();
}

// Puts the seats' callers after the others.
fn put_all_in<B: Object>(callers: &mut Vec<Caller<B>>, mut seats: Vec<Seat<B>>) {
    while let Some(seat) = seats.pop() {
        let Seat { caller, pass } = seat;
        pass.forfeit();
        put_in(callers, caller);
    }
    seats.destroy_empty();
}

// Workers with this inbox and these passes.
fn crew_of<B: Object, R: Wait>(
    rt: &R,
    shared: &Shared<B>,
    inbox: Inbox,
    puts: Vec<PutPass>,
    takes: Vec<TakePass>,
    room: Vec<Seat<B>>,
) -> Option<Crew<B>>
    requires puts { (vec_len puts ≡ 1) × All (IsOf inbox) puts.items }
    requires takes { (length takes.items ≤ MAX_WORKERS) × All (IsOf inbox) takes.items }
    requires room { (room.items ≡ []) × (length takes.items ≤ vec_capacity room) }
{
    let put = only(&inbox, puts);
    let seats = match seated(rt, shared, &inbox, takes, room) {
        Ok(seats) => seats,
        Err(unseated) => {
            unseated.forfeit();
            put.forfeit();
            inbox.forfeit();
            return None;
        }
    };
    match caller_of(rt, shared) {
        Some(caller) => Some(Crew {
            caller,
            inbox,
            put,
            seats,
        }),
        None => {
            put.forfeit();
            inbox.forfeit();
            stand_up(seats);
            None
        }
    }
}

// The run as a service keeps it. It is forfeited if memory is refused.
fn kept(alloc: Global, run: Run) -> Option<Vec<Run>> {
    match Vec::with_capacity(alloc, 1) {
        Ok(mut runs) => {
            runs.push_reserved(run);
            Some(runs)
        }
        Err(AllocError) => {
            run.forfeit();
            None
        }
    }
}

// Parks the runs that a service kept, whose seats have passes of this inbox.
fn settled<B: Object, R: Wait>(
    rt: &R,
    served: Served<B>,
    shared: &Shared<B>,
    inbox: &Inbox,
) -> Result<Settled<B>, Served<B>>
    requires { All (λ seat. IsOf inbox.now seat.pass) served.seats }
    ensures many { MatchResult result (λ settled. length settled.seats ≡ length served.seats) (λ back. length back.seats ≡ length served.seats) }
    ensures passes { MatchResult result (λ settled. All (λ seat. IsOf inbox.now seat.pass) settled.seats) (λ back. All (λ seat. IsOf inbox.now seat.pass) back.seats) }
{
    settle(rt, served, shared)
}

// The same. What is left has all its seats.
fn left_of<B: Object, R: Wait>(
    rt: &R,
    served: Served<B>,
    shared: &Shared<B>,
    inbox: &Inbox,
) -> Left<B>
    requires { All (λ seat. IsOf inbox.now seat.pass) served.seats }
    ensures many { length result.seats.items ≡ length served.seats }
    ensures passes { All (λ seat. IsOf inbox.now seat.pass) result.seats.items }
{
    match settled(rt, served, shared, inbox) {
        Ok(settled) => {
            let Settled { seats, completions } = settled;
            Left {
                seats,
                completions,
                back: 0,
            }
        }
        Err(unsettled) => {
            let back = unsettled.runs.len();
            let seats = unsettled.into_seats();
            Left {
                completions: Vec::new(*seats.allocator()),
                seats,
                back,
            }
        }
    }
}

impl<B: Object> Crew<B> {
    /// So many workers, whose inbox is empty.
    pub fn open<R: Wait>(rt: &R, alloc: Global, shared: &Shared<B>, workers: usize) -> Option<Self>
        requires { (1 ≤ workers) × (workers ≤ MAX_WORKERS) }
    {
        let room = room_for(alloc, workers)?;
        match inbox_for(alloc, workers) {
            Some((inbox, puts, takes)) => crew_of(rt, shared, inbox, puts, takes, room),
            None => {
                room.destroy_empty();
                None
            }
        }
    }

    /// Puts this completion. Whether there was room.
    pub fn put<R: Wait>(&mut self, rt: &R, completion: Completion) -> bool {
        self.inbox.put(rt, &mut self.put, completion).is_ok()
    }

    /// Puts a completion of the CCB of that number.
    pub fn end_ccb<R: Wait>(&mut self, rt: &R, ccb: u32, status: CamStatus) -> bool {
        match Completion::new(CcbId(ccb), status, 0, &[]) {
            Some(completion) => self.put(rt, completion),
            None => false,
        }
    }

    /// Puts a completion of each CCB up to that number, whose time is over.
    pub fn end_all<R: Wait>(&mut self, rt: &R, ccbs: u32) -> bool {
        let mut put = true;
        for ccb in 1..=ccbs {
            put = self.end_ccb(rt, ccb, CamStatus::CommandTimeout) && put;
        }
        put
    }

    // Puts these completions again.
    fn put_back<R: Wait>(&mut self, rt: &R, completions: &[Completion]) {
        for completion in completions {
            self.put(rt, *completion);
        }
    }

    // Parks the runs that a service of these seats kept: the completions that it kept, and how many runs came back.
    fn settle_all<R: Wait>(
        &mut self,
        rt: &R,
        shared: &Shared<B>,
        served: Served<B>,
    ) -> (Vec<Completion>, usize)
        requires passes { All (λ seat. IsOf self.old.inbox seat.pass) served.seats }
        requires few { length served.seats ≤ MAX_WORKERS }
        requires none { self.old.seats.items ≡ [] }
    {
        let Left {
            seats,
            completions,
            back,
        } = left_of(rt, served, shared, &self.inbox);
        mem::replace(&mut self.seats, seats).destroy_empty();
        (completions, back)
    }

    /// Settles a service that kept this run: how many runs came back, since they were not out; these are forfeited.
    pub fn settle<R: Wait>(&mut self, rt: &R, shared: &Shared<B>, run: Run) -> Option<usize> {
        let alloc = *self.seats.allocator();
        let runs = kept(alloc, run)?;
        let seats = mem::replace(&mut self.seats, Vec::new(alloc));
        let served = Served {
            seats,
            started: 1,
            ended: 0,
            completions: Vec::new(alloc),
            runs,
            out_of_memory: true,
        };
        let (_, back) = self.settle_all(rt, shared, served);
        Some(back)
    }

    /// All callers, once nobody serves any more. The completions that wait are let go.
    pub fn into_callers(self) -> Vec<Caller<B>> {
        let Crew {
            caller,
            inbox,
            put,
            seats,
        } = self;
        put.forfeit();
        inbox.forfeit();
        let mut callers = Vec::new(*seats.allocator());
        put_in(&mut callers, caller);
        put_all_in(&mut callers, seats);
        callers
    }

    /// The sums in the end, when nobody shares the engine any more.
    pub fn close<R: Wait>(self, rt: &R, shared: Shared<B>) -> Option<Totals> {
        closed(rt, shared, self.into_callers())
    }

    /// The whole history then.
    pub fn told<R: Wait>(self, rt: &R, shared: Shared<B>) -> Option<Trace> {
        told(rt, shared, self.into_callers())
    }
}

impl<B: Object + Send + Sync> Crew<B> {
    /// Serves so until the inbox is empty, or nobody serves.
    pub fn serve<G: Gate + Sync, R: Threads + Wait + Sync>(
        &mut self,
        rt: &R,
        shared: &Shared<B>,
        service: Service,
        gate: &G,
    ) -> Course {
        let none = Vec::new(*self.seats.allocator());
        let seats = mem::replace(&mut self.seats, none);
        let served = serve_by(rt, service, seats, shared, &self.inbox, gate);
        let course = Course {
            started: served.started,
            ended: served.ended,
            kept: served.completions.len().wrapping_add(served.runs.len()),
        };
        let back = served.into_seats();
        mem::replace(&mut self.seats, back).destroy_empty();
        course
    }

    /// Serves, and settles what is kept: the number of the run that is parked then, if one is. The completions are put back.
    pub fn serve_settled<R: Threads + Wait + Sync>(
        &mut self,
        rt: &R,
        shared: &Shared<B>,
    ) -> Option<u32> {
        let none = Vec::new(*self.seats.allocator());
        let seats = mem::replace(&mut self.seats, none);
        let served = serve_by(rt, Service::Workers, seats, shared, &self.inbox, &Open);
        let parked = served.runs.first().map(|run| run.number());
        let (completions, _) = self.settle_all(rt, shared, served);
        self.put_back(rt, &completions);
        parked
    }
}
