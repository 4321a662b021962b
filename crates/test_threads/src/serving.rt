// Workers that serve an inbox: that each run is driven in a thread of its own, and what comes of completions of each kind. That
// bodies which drive all runs in one thread, or serve nobody, are found out stands here too: no contract refuses them.

ghost use Rattle.std.specs.Prelude.{◌≤◌};
ghost use Rattle.workers.specs.declared.serving.TheConstants.{MAX_WORKERS};

use crate::asking::are_sums;
use crate::crew::{Course, Crew};
use crate::services::Service;
use ccb::CamStatus;
use engine_lock::{Object, Shared};
use std::alloc::Global;
use std::sync::Wait;
use std::sync::atomic::{AtomicBool, AtomicU32, Ordering};
use std::thread;
use std::thread::Threads;
use workers::{Gate, Open};
use world_calls::Totals;

// How often one that is held up looks for the others.
const TURNS: u32 = 1_000_000;

// Holds each run up before its first stop until so many have come there, and gives up after so many turns.
#[derive(Drop)]
struct Meeting {
    runs: u32,
    come: AtomicU32,
    missed: AtomicBool,
}

impl Meeting {
    fn of(runs: u32) -> Self {
        Meeting {
            runs,
            come: AtomicU32::new(0),
            missed: AtomicBool::new(false),
        }
    }

    // Whether one did not see the others.
    fn is_missed(&self) -> bool {
        self.missed.load(Ordering::SeqCst)
    }
}

impl Gate for Meeting {
    fn before<R: Wait>(&self, _rt: &R, _run: u32, ordinal: u32) {
        if ordinal != 1 {
            return;
        }
        self.come.fetch_add(1, Ordering::SeqCst);
        for _ in 0..TURNS {
            if self.come.load(Ordering::SeqCst) >= self.runs {
                return;
            }
            thread::yield_now();
        }
        self.missed.store(true, Ordering::SeqCst);
    }
}

// Whether all of so many runs ended: each CCB was submitted and started, its run started and went on twice and ended, and nothing is
// frozen.
fn have_ended(course: Course, totals: &Totals, runs: u32) -> bool {
    course.is_whole(runs) && are_sums(totals, u64::from(runs).wrapping_mul(6), 0, 0, 0)
}

// Whether so many runs met as they ought to by that service: in threads of their own they see each other, in one they do not, and by
// nobody they are not even started.
fn have_met(service: Service, course: Course, missed: bool, totals: &Totals, runs: u32) -> bool {
    match service {
        Service::Workers => !missed && have_ended(course, totals, runs),
        Service::OneThread => missed && have_ended(course, totals, runs),
        Service::Nobody => !missed && course.started == 0 && totals.active == runs,
    }
}

/// Whether so many runs, which are held up until all have come to their first stop, meet as they ought to if so many seats serve so.
pub fn meet<B: Object + Send + Sync, R: Threads + Wait + Sync>(
    rt: &R,
    alloc: Global,
    shared: Shared<B>,
    service: Service,
    runs: u32,
) -> Option<bool>
    requires { (1 ≤ runs) × (runs ≤ MAX_WORKERS) }
{
    let mut crew = Crew::open(rt, alloc, &shared, runs as usize)?;
    let put = crew.end_all(rt, runs);
    let meeting = Meeting::of(runs);
    let course = crew.serve(rt, &shared, service, &meeting);
    let totals = crew.close(rt, shared)?;
    Some(put && have_met(service, course, meeting.is_missed(), &totals, runs))
}

// Puts completions of each kind: CCB 4 waits, and there is no CCB 9.
fn puts_each_kind<B: Object, R: Wait>(rt: &R, crew: &mut Crew<B>) -> bool {
    crew.end_ccb(rt, 1, CamStatus::RequestCompleted)
        && crew.end_ccb(rt, 2, CamStatus::CommandTimeout)
        && crew.end_ccb(rt, 4, CamStatus::CommandTimeout)
        && crew.end_ccb(rt, 3, CamStatus::SelectionTimeout)
        && crew.end_ccb(rt, 9, CamStatus::RequestCompleted)
}

/// Whether completions of each kind come to what they ought to, by so many seats.
pub fn serves_each_kind<B: Object + Send + Sync, R: Threads + Wait + Sync>(
    rt: &R,
    alloc: Global,
    shared: Shared<B>,
    seats: usize,
) -> Option<bool>
    requires { (1 ≤ seats) × (seats ≤ MAX_WORKERS) }
{
    let mut crew = Crew::open(rt, alloc, &shared, seats)?;
    let put = puts_each_kind(rt, &mut crew);
    let course = crew.serve(rt, &shared, Service::Workers, &Open);
    let totals = crew.close(rt, shared)?;
    Some(put && course.is_whole(2) && are_sums(&totals, 18, 0, 0, 0))
}
