// The sums of a shared engine beside its lock: read by a run's gate while another run is held up, and while a call is held up in its
// section. That a monitor which shows old sums, or which takes the engine's lock, is found out stands here: no contract refuses a
// reading that waits.

use crate::asking::{are_sums, caller_of, closed, given, put_in};
use crate::crew::Crew;
use crate::engines::QUEUE;
use crate::services::Service;
use ccb::Place;
use engine_core::{Event, Success};
use engine_lock::{Caller, Object, Pause, Shared};
use monitor::Watch;
use std::alloc::Global;
use std::sync::atomic::{AtomicBool, Ordering};
use std::sync::{Mutex, Wait};
use std::thread::{Threads, join_mut, yield_now};
use workers::Gate;
use world_calls::Totals;

// How often one that is held up looks for the other.
const TURNS: u32 = 1_000_000;

/// Waits until the flag is up. Whether it came up before so many turns.
pub fn comes(flag: &AtomicBool) -> bool {
    for _ in 0..TURNS {
        if flag.load(Ordering::SeqCst) {
            return true;
        }
        yield_now();
    }
    false
}

// Holds run 1 up before its first stop until run 2 has come there, which reads the monitor first.
struct Meeting<'a, B: Object> {
    shared: &'a Shared<B>,
    watch: Mutex<Watch<B>>,
    sums: Mutex<Option<Totals>>,
    come: AtomicBool,
    missed: AtomicBool,
}

impl<'a, B: Object> Meeting<'a, B> {
    fn read<R: Wait>(&self, rt: &R) -> Totals {
        let mut guard = self.watch.lock(rt);
        let watch = &mut *guard;
        self.shared.monitor().read(rt, watch)
    }

    // What run 2 saw, if run 1 was held up meanwhile.
    fn seen_by_run_2(self) -> Option<Totals> {
        let missed = self.missed.load(Ordering::SeqCst);
        let Meeting {
            shared: _,
            watch: _,
            sums,
            come: _,
            missed: _,
        } = self;
        let seen = sums.into_inner();
        if missed { None } else { seen }
    }
}

impl<'a, B: Object> Gate for Meeting<'a, B> {
    fn before<R: Wait>(&self, rt: &R, run: u32, ordinal: u32) {
        if ordinal != 1 {
            return;
        }
        if run == 1 {
            let missed = !comes(&self.come);
            self.missed.store(missed, Ordering::SeqCst);
        } else {
            let seen = self.read(rt);
            let mut guard = self.sums.lock(rt);
            *guard = Some(seen);
            self.come.store(true, Ordering::SeqCst);
        }
    }
}

// What was seen while the runs were held up, if they met, and after.
#[derive(Clone, Copy)]
struct Seen {
    meanwhile: Option<Totals>,
    last: Totals,
}

// Two runs, each driven by a thread of its own, that meet before their first stops.
fn two_runs<B: Object + Send + Sync, R: Threads + Wait + Sync>(
    rt: &R,
    shared: &Shared<B>,
    crew: &mut Crew<B>,
) -> Seen {
    let meeting = Meeting {
        shared,
        watch: Mutex::new(shared.watch(rt)),
        sums: Mutex::new(None),
        come: AtomicBool::new(false),
        missed: AtomicBool::new(false),
    };
    crew.serve(rt, shared, Service::Workers, &meeting);
    let last = meeting.read(rt);
    Seen {
        meanwhile: meeting.seen_by_run_2(),
        last,
    }
}

/// The sums are those of both runs while they are held up, and in the end those of the engine.
pub fn shows_two_runs<B: Object + Send + Sync, R: Threads + Wait + Sync>(
    rt: &R,
    alloc: Global,
    shared: Shared<B>,
) -> Option<bool> {
    let mut crew = Crew::open(rt, alloc, &shared, 2)?;
    let put = crew.end_all(rt, 2);
    let seen = two_runs(rt, &shared, &mut crew);
    let whole = crew.close(rt, shared)?;
    let meanwhile = seen.meanwhile?;
    Some(
        put && are_sums(&meanwhile, 6, 2, 0, 2)
            && are_sums(&seen.last, 12, 0, 0, 0)
            && seen.last == whole,
    )
}

// Holds a call up in its section until somebody has read the monitor.
#[derive(Drop)]
struct Held {
    inside: AtomicBool,
    read: AtomicBool,
    missed: AtomicBool,
}

impl Held {
    fn new() -> Self {
        Held {
            inside: AtomicBool::new(false),
            read: AtomicBool::new(false),
            missed: AtomicBool::new(false),
        }
    }

    // Whether nobody read meanwhile.
    fn is_missed(&self) -> bool {
        self.missed.load(Ordering::SeqCst)
    }
}

impl Pause for Held {
    fn inside<R: Wait>(&self, _rt: &R) {
        self.inside.store(true, Ordering::SeqCst);
        let missed = !comes(&self.read);
        self.missed.store(missed, Ordering::SeqCst);
    }
}

/// How the sums are read meanwhile.
#[derive(Clone, Copy)]
pub enum Reading {
    Beside,
    /// As a monitor would that takes the engine's lock.
    UnderLock,
}

// Who calls, and who reads.
struct Pair<B: Object> {
    caller: Caller<B>,
    // has seen what the caller has
    other: Caller<B>,
    watch: Watch<B>,
}

impl<B: Object> Pair<B> {
    // Two callers and a watch.
    fn of<R: Wait>(rt: &R, shared: &Shared<B>) -> Option<Self> {
        let caller = caller_of(rt, shared)?;
        match caller_of(rt, shared) {
            Some(other) => Some(Pair {
                caller,
                other,
                watch: shared.watch(rt),
            }),
            None => {
                caller.forfeit();
                None
            }
        }
    }

    // The watch and the other caller are told of what the caller has seen.
    fn tell(&mut self, shared: &Shared<B>) {
        let receipt = self.caller.receipt(shared);
        self.watch.learn(shared.monitor(), receipt);
        let receipt = self.caller.receipt(shared);
        self.other.learn(shared, receipt);
    }

    // Both callers.
    fn into_callers(self, alloc: Global) -> Vec<Caller<B>> {
        let Pair {
            caller,
            other,
            watch: _,
        } = self;
        let mut callers = Vec::new(alloc);
        put_in(&mut callers, caller);
        put_in(&mut callers, other);
        callers
    }
}

// Whether a freeze is given. It is not given back.
fn is_freeze(given: Option<Success>) -> bool {
    match given {
        Some(Success::Freeze(token)) => {
            token.forfeit();
            true
        }
        Some(other) => {
            other.forfeit();
            false
        }
        None => false,
    }
}

// Freezes the queue for a guest, by a call.
fn freezes<B: Object, R: Wait>(rt: &R, shared: &Shared<B>, caller: &mut Caller<B>) -> bool {
    let event = Event::GuestFreeze {
        place: Place::Device(QUEUE),
        guest: 7,
    };
    is_freeze(given(rt, shared, caller, event))
}

// A clock reading at which nothing is due, held up in its section.
fn read_clock<B: Object, R: Wait>(rt: &R, shared: &Shared<B>, held: &Held, caller: &mut Caller<B>) {
    let reply = shared.call_held(rt, caller, Event::Clock { reading: 1 }, held);
    reply.forfeit();
}

// The sums, as they are read so.
fn sums_by<B: Object, R: Wait>(
    rt: &R,
    shared: &Shared<B>,
    reading: Reading,
    watch: &mut Watch<B>,
) -> Totals {
    match reading {
        Reading::Beside => shared.monitor().read(rt, watch),
        Reading::UnderLock => {
            let mut locked = shared.watch(rt);
            shared.monitor().read(rt, &mut locked)
        }
    }
}

// Reads the sums while the other is in its section.
fn read_meanwhile<B: Object, R: Wait>(
    rt: &R,
    shared: &Shared<B>,
    held: &Held,
    reading: Reading,
    watch: &mut Watch<B>,
) -> Option<Totals> {
    if !comes(&held.inside) {
        return None;
    }
    let sums = sums_by(rt, shared, reading, watch);
    held.read.store(true, Ordering::SeqCst);
    Some(sums)
}

// One thread calls, the other reads.
fn both<B: Object + Send + Sync, R: Threads + Wait + Sync>(
    rt: &R,
    shared: &Shared<B>,
    held: &Held,
    reading: Reading,
    pair: &mut Pair<B>,
) -> Option<Totals> {
    let (caller, watch) = (&mut pair.caller, &mut pair.watch);
    let ((), seen) = join_mut(
        rt,
        &mut || read_clock(rt, shared, held, caller),
        &mut || read_meanwhile(rt, shared, held, reading, watch),
    );
    seen
}

// Whether the sums were read while the call was in its section: the freeze before it is told, and the clock is not. A reading that takes
// the lock waits for the call to end.
fn is_as_read(reading: Reading, seen: Option<Totals>, missed: bool) -> bool {
    match reading {
        Reading::Beside => match seen {
            Some(seen) => !missed && seen.history == 2 && seen.frozen == 1,
            None => false,
        },
        Reading::UnderLock => missed,
    }
}

/// Whether one who reads so while another's call is held up in its section sees what he ought to.
pub fn reads_beside<B: Object + Send + Sync, R: Threads + Wait + Sync>(
    rt: &R,
    alloc: Global,
    shared: Shared<B>,
    reading: Reading,
) -> Option<bool> {
    let mut pair = Pair::of(rt, &shared)?;
    let frozen = freezes(rt, &shared, &mut pair.caller);
    pair.tell(&shared);
    let held = Held::new();
    let seen = both(rt, &shared, &held, reading, &mut pair);
    let totals = closed(rt, shared, pair.into_callers(alloc))?;
    Some(frozen && is_as_read(reading, seen, held.is_missed()) && totals.history == 2)
}
