// The checks of an engine that is shared, each with the engine that it begins with.

ghost use Rattle.std.specs.Prelude.{◌≡◌};

use crate::at_once::drives_at_once;
use crate::engines::{MANIFEST, engine_of, engine_with};
use crate::recoveries::{CCBS, shows_ten_thousand_recoveries};
use crate::refusals::{PLAIN_MANIFEST, TRACING_MANIFEST, is_plainly_told, is_traced, parks_none};
use crate::services::Service;
use crate::serving::{meet, serves_each_kind};
use crate::settling::{gives_back_a_run, parks_a_run};
use crate::sharing::{ends_with_all_callers_alone, gives_out_64_callers};
use crate::watching::{Reading, reads_beside, shows_two_runs};
use engine_core::Engine;
use engine_lock::{Object, Opened};
use std::alloc::Global;
use std::marker::Brand;
use std::sync::Wait;
use std::thread::Threads;

/// A check of an engine that is shared.
#[derive(Clone, Copy)]
pub enum OfEngine {
    Recoveries,
    AtOnce,
    Served,
    Traced,
    ParksNone,
    TwoRuns,
    SixteenRuns,
    OneThread,
    Nobody,
    EachKindByOne,
    EachKindByFour,
    Parked,
    OfAnother,
    AllCallers,
    CallerMissing,
    HeldUp,
    ReadBeside,
    ReadUnderLock,
}

// The engine with which a check begins.
fn engine_for(alloc: Global, check: OfEngine) -> Option<Engine> {
    match check {
        OfEngine::SixteenRuns | OfEngine::Recoveries | OfEngine::AtOnce => {
            engine_with(alloc, CCBS, 0)
        }
        OfEngine::TwoRuns | OfEngine::OneThread | OfEngine::Nobody | OfEngine::HeldUp => {
            engine_with(alloc, 2, 0)
        }
        OfEngine::Parked | OfEngine::OfAnother | OfEngine::AllCallers => engine_with(alloc, 1, 0),
        OfEngine::EachKindByOne | OfEngine::EachKindByFour => engine_with(alloc, 3, 1),
        OfEngine::Served => engine_of(alloc, PLAIN_MANIFEST),
        OfEngine::Traced | OfEngine::ParksNone => engine_of(alloc, TRACING_MANIFEST),
        OfEngine::CallerMissing | OfEngine::ReadBeside | OfEngine::ReadUnderLock => {
            engine_of(alloc, MANIFEST)
        }
    }
}

// Whether a check holds of this engine; nothing if it came to no end.
fn holds_of<B: Object + Send + Sync, R: Threads + Wait + Sync>(
    rt: &R,
    alloc: Global,
    opened: Opened,
    check: OfEngine,
) -> Option<bool>
    requires setup { opened.engine.setup ≡ B.setup }
    requires begun { opened.engine.history ≡ B.begun }
    requires name { (opened.calls.name ≡ B.name) × (opened.calls.parts ≡ B.parts) }
    requires table { opened.monitor ≡ B.table }
{
    let shared = opened.named::<B>();
    match check {
        OfEngine::Recoveries => shows_ten_thousand_recoveries(rt, alloc, shared),
        OfEngine::AtOnce => drives_at_once(rt, alloc, shared),
        OfEngine::Served => is_plainly_told(rt, alloc, shared),
        OfEngine::Traced => is_traced(rt, alloc, shared),
        OfEngine::ParksNone => parks_none(rt, alloc, shared),
        OfEngine::TwoRuns => meet(rt, alloc, shared, Service::Workers, 2),
        OfEngine::SixteenRuns => meet(rt, alloc, shared, Service::Workers, 16),
        OfEngine::OneThread => meet(rt, alloc, shared, Service::OneThread, 2),
        OfEngine::Nobody => meet(rt, alloc, shared, Service::Nobody, 2),
        OfEngine::EachKindByOne => serves_each_kind(rt, alloc, shared, 1),
        OfEngine::EachKindByFour => serves_each_kind(rt, alloc, shared, 4),
        OfEngine::Parked => parks_a_run(rt, alloc, shared),
        OfEngine::OfAnother => gives_back_a_run(rt, alloc, shared),
        OfEngine::AllCallers => gives_out_64_callers(rt, alloc, shared),
        OfEngine::CallerMissing => ends_with_all_callers_alone(rt, alloc, shared),
        OfEngine::HeldUp => shows_two_runs(rt, alloc, shared),
        OfEngine::ReadBeside => reads_beside(rt, alloc, shared, Reading::Beside),
        OfEngine::ReadUnderLock => reads_beside(rt, alloc, shared, Reading::UnderLock),
    }
}

// That engine, to be shared, of which no record was handed on. If memory is refused it comes back, and the same call succeeds the
// second time.
fn opened(alloc: Global, engine: Engine) -> Option<Opened> {
    if engine.taken() != 0 {
        return None;
    }
    match Opened::new(alloc, engine) {
        Ok(opened) => Some(opened),
        Err((_, engine)) => Opened::new(alloc, engine).ok(),
    }
}

/// Whether a check holds; nothing if it came to no end.
pub fn holds_of_engine<R: Threads + Wait + Sync>(
    rt: &R,
    alloc: Global,
    check: OfEngine,
) -> Option<bool> {
    let opened = opened(alloc, engine_for(alloc, check)?)?;
    holds_of::<Brand, R>(rt, alloc, opened, check)
}
