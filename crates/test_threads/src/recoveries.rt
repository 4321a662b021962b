// Ten thousand recoveries by sixteen workers, and a watch that reads the sums beside them in a loop: no reading shows fewer records
// than the one before, each shows sums that belong together, and the last one those of the end.

use crate::asking::{are_sums, given, is_ccb};
use crate::crew::Crew;
use crate::engines::QUEUE;
use crate::services::Service;
use crate::watching::comes;
use ccb::QueueId;
use engine_core::Event;
use engine_lock::{Caller, Object, Shared};
use monitor::Watch;
use std::alloc::Global;
use std::sync::Wait;
use std::sync::atomic::{AtomicBool, Ordering};
use std::thread::{Threads, join_mut, yield_now};
use workers::{MAX_WORKERS, Open};
use world_calls::Totals;

/// How many CCBs fail in a round.
pub const CCBS: u32 = 16;

// How many rounds there are.
const ROUNDS: u32 = 625;

// Whether the watch has begun, and whether the recoveries are over.
#[derive(Drop)]
struct Progress {
    begun: AtomicBool,
    over: AtomicBool,
}

impl Progress {
    fn new() -> Self {
        Progress {
            begun: AtomicBool::new(false),
            over: AtomicBool::new(false),
        }
    }
}

// What the watch saw: its last reading, whether one showed fewer records than the one before, and whether one was of no moment.
#[derive(Clone, Copy)]
struct Seen {
    last: Totals,
    shrank: bool,
    torn: bool,
}

impl Seen {
    fn see(&mut self, sums: Totals) {
        self.shrank |= sums.history < self.last.history;
        self.torn |= is_torn(&sums);
        self.last = sums;
    }
}

// Whether these are the sums of no moment: each freeze is a run's, and each CCB is active or has one run at most.
fn is_torn(sums: &Totals) -> bool {
    sums.frozen > sums.runs || sums.runs > CCBS || sums.active > CCBS - sums.runs
}

// The shared engine's sums, without the clauses of `read`.
fn sums<B: Object, R: Wait>(rt: &R, shared: &Shared<B>, watch: &mut Watch<B>) -> Totals {
    shared.monitor().read(rt, watch)
}

// Reads until the recoveries are over, and once more.
fn read_on<B: Object, R: Wait>(
    rt: &R,
    shared: &Shared<B>,
    progress: &Progress,
    watch: &mut Watch<B>,
) -> Seen {
    let mut seen = Seen {
        last: sums(rt, shared, watch),
        shrank: false,
        torn: false,
    };
    progress.begun.store(true, Ordering::SeqCst);
    for _ in rt.forever() {
        let is_over = progress.over.load(Ordering::SeqCst);
        seen.see(sums(rt, shared, watch));
        if is_over {
            break;
        }
        yield_now();
    }
    seen
}

// Starts a CCB again.
fn starts<B: Object, R: Wait>(
    rt: &R,
    shared: &Shared<B>,
    caller: &mut Caller<B>,
    queue: QueueId,
) -> bool {
    is_ccb(given(rt, shared, caller, Event::Dispatch { queue }))
}

// Starts all CCBs again.
fn starts_all<B: Object, R: Wait>(rt: &R, shared: &Shared<B>, caller: &mut Caller<B>) -> bool {
    let mut started = true;
    for _ in 0..CCBS {
        started = starts(rt, shared, caller, QUEUE) && started;
    }
    started
}

// Each CCB fails and is recovered, and starts again.
fn recovers_each<B: Object + Send + Sync, R: Threads + Wait + Sync>(
    rt: &R,
    shared: &Shared<B>,
    crew: &mut Crew<B>,
) -> bool {
    let put = crew.end_all(rt, CCBS);
    let course = crew.serve(rt, shared, Service::Workers, &Open);
    put && course.is_whole(CCBS) && starts_all(rt, shared, &mut crew.caller)
}

/// So many rounds of recoveries by all workers.
pub fn recovers_all<B: Object + Send + Sync, R: Threads + Wait + Sync>(
    rt: &R,
    shared: &Shared<B>,
    crew: &mut Crew<B>,
    rounds: u32,
) -> bool {
    for _ in 0..rounds {
        if !recovers_each(rt, shared, crew) {
            return false;
        }
    }
    true
}

// All rounds, once the watch has begun.
fn recovers_beside<B: Object + Send + Sync, R: Threads + Wait + Sync>(
    rt: &R,
    shared: &Shared<B>,
    progress: &Progress,
    crew: &mut Crew<B>,
) -> bool {
    let recovered = comes(&progress.begun) && recovers_all(rt, shared, crew, ROUNDS);
    progress.over.store(true, Ordering::SeqCst);
    recovered
}

// What the two threads have: the one that recovers, and the one that reads.
struct Hands<B: Object> {
    crew: Crew<B>,
    watch: Watch<B>,
}

// One thread recovers, the other reads.
fn both<B: Object + Send + Sync, R: Threads + Wait + Sync>(
    rt: &R,
    shared: &Shared<B>,
    progress: &Progress,
    hands: &mut Hands<B>,
) -> (bool, Seen) {
    let (crew, watch) = (&mut hands.crew, &mut hands.watch);
    join_mut(
        rt,
        &mut || recovers_beside(rt, shared, progress, crew),
        &mut || read_on(rt, shared, progress, watch),
    )
}

/// Whether all readings were in order, and the last one showed the sums of the end: each recovery is a completion, three stops and a
/// start.
pub fn shows_ten_thousand_recoveries<B: Object + Send + Sync, R: Threads + Wait + Sync>(
    rt: &R,
    alloc: Global,
    shared: Shared<B>,
) -> Option<bool> {
    let mut hands = Hands {
        crew: Crew::open(rt, alloc, &shared, MAX_WORKERS)?,
        watch: shared.watch(rt),
    };
    let progress = Progress::new();
    let (recovered, seen) = both(rt, &shared, &progress, &mut hands);
    let Hands { crew, watch: _ } = hands;
    let whole = crew.close(rt, shared)?;
    Some(
        recovered
            && !seen.shrank
            && !seen.torn
            && seen.last == whole
            && are_sums(&whole, 50_032, 0, 16, 0),
    )
}
