// The service: each seat serves in a thread of its own. It relies on `driving` for what one does.

ghost use Rattle.std.specs.Prelude.{◌≡◌, ◌↔◌, ℕ, ◌<◌, ◌≤◌, [], All, IfErr, IfOk, IsTrue, length, map, slice_index_or, vec_capacity};
ghost use Rattle.inbox.specs.Views.{IsOf};
ghost use Rattle.workers.specs.Recorded.{AreRecorded};
ghost use Rattle.workers.specs.Serving.{AreServed, HasServed, HasStopped, IsReady, WorkerState, all_of, at_rest, nothing_served};
ghost use Rattle.workers.specs.declared.driving.TheConstants.{MOST_STARTED};

use crate::driving::work;
use crate::gate::Gate;
use crate::seat::Seat;
use crate::worker::{Kept, Worker};
use ccb::Completion;
use engine_core::Run;
use engine_lock::{Object, Shared};
use inbox::Inbox;
use std::alloc::{AllocError, Global};
use std::marker::Model;
use std::sync::Wait;
use std::thread;
use std::thread::Threads;

/// How many seats may serve.
pub const MAX_WORKERS: usize = 16;

/// What a service gives back. It must be spent.
pub struct Served<B: Object> {
    /// All seats, in their order.
    pub seats: Vec<Seat<B>>,
    /// How many runs were started.
    pub started: u32,
    /// How many of these ended.
    pub ended: u32,
    /// The completions that were taken and not answered, at most one a seat.
    pub completions: Vec<Completion>,
    /// The runs that were started and did not end, at most one a seat.
    pub runs: Vec<Run>,
    /// Whether memory was refused to a seat, which keeps what it had then.
    pub out_of_memory: bool,
}

/// Seats that did not serve, since memory was refused before any did.
pub struct Unserved<B: Object> {
    /// All seats, as they were given.
    pub seats: Vec<Seat<B>>,
}

impl<B: Object> Model for Served<B> {
    ghost use Rattle.workers.specs.Serving.{ServedState};

    ghost Value = { ServedState };

    ghost view = { λ s. record { seats = s.seats.items; started = s.started; ended = s.ended; completions = s.completions.items; runs = s.runs.items; out_of_memory = s.out_of_memory } };
}

impl<B: Object> Served<B> {
    /// Whether all that was taken was answered, and all that was started has ended.
    pub fn is_whole(&self) -> bool
        ensures { IsTrue result ↔ ((self.now.completions ≡ []) × (self.now.runs ≡ [])) }
    {
        self.completions.is_empty() && self.runs.is_empty()
    }

    /// The seats alone. The completions that are kept are let go, and the runs are forfeited.
    pub fn into_seats(self) -> Vec<Seat<B>>
        ensures { result.items ≡ self.seats }
    {
        let Served {
            seats,
            started: _,
            ended: _,
            completions: _,
            mut runs,
            out_of_memory: _,
        } = self;
        while let Some(run) = runs.pop() {
            run.forfeit();
        }
        runs.destroy_empty();
        seats
    }
}

// Room for what a service needs.
struct Room<B: Object> {
    workers: Vec<Worker<B>>,
    completions: Vec<Completion>,
    runs: Vec<Run>,
}

// Room for so many seats.
fn make_room<B: Object>(alloc: Global, seats: usize) -> Result<Room<B>, AllocError>
    ensures workers { IfOk result (λ room. (room.workers.items ≡ []) × (seats ≤ vec_capacity room.workers)) }
    ensures completions { IfOk result (λ room. (room.completions.items ≡ []) × (seats ≤ vec_capacity room.completions)) }
    ensures runs { IfOk result (λ room. (room.runs.items ≡ []) × (seats ≤ vec_capacity room.runs)) }
{
    let completions = Vec::with_capacity(alloc, seats)?;
    let runs = Vec::with_capacity(alloc, seats)?;
    match Vec::with_capacity(alloc, seats) {
        Ok(workers) => Ok(Room {
            workers,
            completions,
            runs,
        }),
        Err(fault) => {
            runs.destroy_empty();
            Err(fault)
        }
    }
}

/// Serves with 1 to 16 seats, each in a thread of its own where one can be made, the caller's thread with the first: each takes
/// completions, has them answered, and drives the runs that start to their ends, until the inbox is empty. C1 and C3 are passed
/// over. On another refusal, or where memory is refused, a seat keeps the completion or the run that it has, and serves no more;
/// nothing is dropped. If memory is refused before any seat serves, all seats come back as they were.
pub fn serve<B: Object + Send + Sync, G: Gate + Sync, R: Threads + Wait + Sync>(
    rt: &R,
    seats: Vec<Seat<B>>,
    shared: &Shared<B>,
    inbox: &Inbox,
    gate: &G,
) -> Result<Served<B>, Unserved<B>>
    requires few { length seats.items ≤ MAX_WORKERS }
    requires passes { All (λ seat. IsOf inbox.now seat.pass) seats.items }
    ensures served { IfOk result (AreServed B.setup seats.items) }
    // If no completion is kept, each seat's caller recorded the completions that its pass took.
    ensures recorded { IfOk result (λ served. served.completions ≡ [] → AreRecorded seats.items served.seats) }
    ensures passes { IfOk result (λ served. All (λ seat. IsOf inbox.now seat.pass) served.seats) }
    ensures all { IfOk result (λ served. length served.seats ≡ length seats.items) }
    ensures unserved { IfErr result (λ back. back.seats.items ≡ seats.items) }
{
    match make_room(*seats.allocator(), seats.len()) {
        Ok(room) => Ok(serve_in(rt, room, seats, shared, inbox, gate)),
        Err(AllocError) => Err(Unserved { seats }),
    }
}

// The same, where there is room.
fn serve_in<B: Object + Send + Sync, G: Gate + Sync, R: Threads + Wait + Sync>(
    rt: &R,
    room: Room<B>,
    mut seats: Vec<Seat<B>>,
    shared: &Shared<B>,
    inbox: &Inbox,
    gate: &G,
) -> Served<B>
    requires few { length seats.items ≤ MAX_WORKERS }
    requires passes { All (λ seat. IsOf inbox.now seat.pass) seats.items }
    requires workers { (room.workers.items ≡ []) × (length seats.items ≤ vec_capacity room.workers) }
    requires completions { (room.completions.items ≡ []) × (length seats.items ≤ vec_capacity room.completions) }
    requires runs { (room.runs.items ≡ []) × (length seats.items ≤ vec_capacity room.runs) }
    ensures { AreServed B.setup seats.items result }
{
    let Room {
        mut workers,
        completions,
        runs,
    } = room;
    take_seats(&mut seats, &mut workers);
    serve_all(rt, &mut workers, shared, inbox, gate);
    give_back(workers, seats, completions, runs)
}

// Each worker serves.
fn serve_all<B: Object + Send + Sync, G: Gate + Sync, R: Threads + Wait + Sync>(
    rt: &R,
    workers: &mut [Worker<B>],
    shared: &Shared<B>,
    inbox: &Inbox,
    gate: &G,
)
    requires ready { All (IsReady inbox.now) workers.old }
    ensures { (place : ℕ) (none : WorkerState) → place < length workers.old → HasServed B.setup (slice_index_or workers.old place none) (slice_index_or workers.new place none) × HasStopped (slice_index_or workers.new place none) }
{
    thread::for_each_mut(
        rt,
        workers,
        MAX_WORKERS,
        &|_, worker: &mut Worker<B>|
            requires { IsReady inbox.now worker.now }
            ensures { HasServed B.setup worker.entry.now worker.exit.now × HasStopped worker.exit.now }
        { work(rt, shared, inbox, gate, worker) },
    );
}

// The seats become workers, in their order.
fn take_seats<B: Object>(seats: &mut Vec<Seat<B>>, workers: &mut Vec<Worker<B>>)
    requires { (workers.old.items ≡ []) × (length seats.old.items ≤ vec_capacity workers.old) }
    ensures workers { workers.new.items ≡ map at_rest seats.old.items }
    ensures seats { (seats.new.items ≡ []) × (vec_capacity seats.new ≡ vec_capacity seats.old) }
{
    while !seats.is_empty() {
        let seat = seats.remove(0);
        workers.push_reserved(Worker::new(seat));
    }
}

// The workers' seats, with what they keep, for which there is room.
fn give_back<B: Object>(
    mut workers: Vec<Worker<B>>,
    mut seats: Vec<Seat<B>>,
    mut completions: Vec<Completion>,
    mut runs: Vec<Run>,
) -> Served<B>
    requires few { length workers.items ≤ MAX_WORKERS }
    requires started { All (λ worker. (worker.started ≤ MOST_STARTED) × (worker.ended ≤ worker.started)) workers.items }
    requires seats { (seats.items ≡ []) × (length workers.items ≤ vec_capacity seats) }
    requires completions { (completions.items ≡ []) × (length workers.items ≤ vec_capacity completions) }
    requires runs { (runs.items ≡ []) × (length workers.items ≤ vec_capacity runs) }
    ensures { result ≡ all_of workers.items nothing_served }
{
    let mut started = 0;
    let mut ended = 0;
    let mut out_of_memory = false;
    while !workers.is_empty() {
        let Worker {
            caller,
            pass,
            kept,
            out_of_memory: refused,
            started: more_started,
            ended: more_ended,
        } = workers.remove(0);
        seats.push_reserved(Seat { caller, pass });
        match kept {
            Kept::Nothing => {}
            Kept::Completion(completion) => completions.push_reserved(completion),
            Kept::Run(run) => runs.push_reserved(run),
        }
        started += more_started;
        ended += more_ended;
        out_of_memory |= refused;
    }
    workers.destroy_empty();
    Served {
        seats,
        started,
        ended,
        completions,
        runs,
        out_of_memory,
    }
}
