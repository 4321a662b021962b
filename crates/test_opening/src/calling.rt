// The calls of a host as they are, each with what it answers: their clauses stay here, so that the checks are proved without them.

use ccb::{CamStatus, CcbId, Completion, Place, QueueId};
use host_embedding::{CallResult, Fate, HostedEngine, Numbering, PutLines, RunHandle};
use host_opening::{ManifestFault, OpenFault, RecoverFault, open, put_recover_fault, recover};
use std::alloc::Global;

/// An engine of a manifest's text.
pub fn opened(alloc: Global, manifest: &[u8]) -> Result<Box<HostedEngine>, OpenFault> {
    open(alloc, manifest)
}

/// An engine of a manifest's text that stands where the text of a trace led.
pub fn recovered(
    alloc: Global,
    manifest: &[u8],
    text: &[u8],
) -> Result<Box<HostedEngine>, RecoverFault> {
    recover(alloc, manifest, text)
}

/// The next run that was out.
pub fn take_run(engine: &mut HostedEngine) -> Option<Box<RunHandle>> {
    engine.take_run()
}

/// How many bytes of a fault's text are in the place.
pub fn fault_text(alloc: Global, fault: &RecoverFault, place: &mut [u8]) -> usize {
    put_recover_fault(alloc, fault, place)
}

pub fn totals(engine: &HostedEngine) -> (u64, u32, u32, u32) {
    let totals = engine.engine.totals();
    (totals.history, totals.frozen, totals.active, totals.runs)
}

pub fn submit(engine: &mut HostedEngine, queue: u32, retries: u32) -> (CallResult, u32) {
    let mut ccb = 0;
    let result = engine.submit(queue, 0, retries, 0, &mut ccb);
    (result, ccb)
}

pub fn dispatch(engine: &mut HostedEngine, queue: u32) -> (CallResult, u32) {
    let (mut ccb, mut advice) = (0, 0);
    let result = engine.dispatch(queue, &mut ccb, &mut advice);
    (result, ccb)
}

pub fn clock(engine: &mut HostedEngine, reading: u64) -> CallResult {
    let mut removed = 0;
    engine.clock(reading, &mut removed)
}

/// The run that starts, if one does. A completion that no device reports is no completion.
pub fn complete(
    alloc: Global,
    engine: &mut HostedEngine,
    ccb: u32,
    status: CamStatus,
) -> Result<Option<Box<RunHandle>>, CallResult> {
    match Completion::new(CcbId(ccb), status, 0, &[]) {
        Some(completion) => engine.complete(alloc, completion),
        None => Err(CallResult::NoCompletion),
    }
}

pub fn freeze_queue(engine: &mut HostedEngine, queue: u32, guest: u32) -> (CallResult, u32) {
    let mut freeze = 0;
    let result = engine.guest_freeze(Place::Device(QueueId(queue)), guest, &mut freeze);
    (result, freeze)
}

pub fn freeze_controller(
    engine: &mut HostedEngine,
    controller: u32,
    guest: u32,
) -> (CallResult, u32) {
    let mut freeze = 0;
    let result = engine.guest_freeze(Place::Controller(controller), guest, &mut freeze);
    (result, freeze)
}

pub fn release(engine: &mut HostedEngine, freeze: u32) -> (CallResult, u32) {
    let mut left = 0;
    let result = engine.guest_release(freeze, &mut left);
    (result, left)
}

pub fn stretch(run: &mut RunHandle) -> CallResult {
    run.stretch()
}

/// What is answered, and R0 if the run ended.
pub fn advance(engine: &mut HostedEngine, run: &mut RunHandle) -> (CallResult, Option<u64>) {
    let (mut r0, mut ended, mut fate) = (0, false, Fate::Kept);
    let result = engine.advance(run, &mut r0, &mut ended, &mut fate);
    (result, if ended { Some(r0) } else { None })
}

/// The same of all stops that the run comes to.
pub fn drive(engine: &mut HostedEngine, run: &mut RunHandle) -> (CallResult, Option<u64>) {
    let (mut r0, mut ended, mut fate) = (0, false, Fate::Kept);
    let result = engine.drive(run, &mut r0, &mut ended, &mut fate);
    (result, if ended { Some(r0) } else { None })
}

pub fn park(engine: &mut HostedEngine, run: &mut RunHandle) -> CallResult {
    engine.park(run)
}

pub fn resume(
    alloc: Global,
    engine: &mut HostedEngine,
    run: u32,
) -> Result<Box<RunHandle>, CallResult> {
    engine.resume(alloc, run)
}

pub fn live_runs(engine: &HostedEngine) -> u32 {
    engine.engine.totals().runs
}

/// Lines of the trace in a place, from that record on.
pub fn lines(engine: &HostedEngine, from: u64, place: &mut [u8]) -> (CallResult, PutLines) {
    let mut put = PutLines {
        written: 0,
        next: 0,
    };
    let result = engine.engine.put_lines(from, place, &mut put);
    (result, put)
}

/// The lines that are taken into a place.
pub fn take(engine: &mut HostedEngine, place: &mut [u8]) -> (CallResult, PutLines) {
    let mut put = PutLines {
        written: 0,
        next: 0,
    };
    let result = engine.engine.take_lines(place, &mut put);
    (result, put)
}

/// An engine of another manifest's text follows.
pub fn succeed(
    alloc: Global,
    engine: &mut HostedEngine,
    manifest: &[u8],
    numbering: Numbering,
) -> Result<CallResult, ManifestFault> {
    host_opening::succeed(alloc, engine, manifest, numbering)
}

/// An engine of the same manifest follows.
pub fn renew(alloc: Global, engine: &mut HostedEngine, numbering: Numbering) -> CallResult {
    engine.engine.renew(alloc, numbering)
}

/// Lines of what was taken over in a place, from that one on.
pub fn carried(engine: &HostedEngine, from: u64, place: &mut [u8]) -> (CallResult, PutLines) {
    let mut put = PutLines {
        written: 0,
        next: 0,
    };
    let result = engine.engine.put_carried(from, place, &mut put);
    (result, put)
}

/// How many live CCBs from that number on are in the places.
pub fn ccbs(engine: &HostedEngine, from: u32, numbers: &mut [u32], states: &mut [u32]) -> usize {
    engine.engine.list_ccbs(from, numbers, states)
}

/// The last line in a place.
pub fn end(engine: &HostedEngine, place: &mut [u8]) -> (CallResult, PutLines) {
    let mut put = PutLines {
        written: 0,
        next: 0,
    };
    let result = engine.engine.put_end(place, &mut put);
    (result, put)
}

/// The text of what is counted, and how long it is.
pub fn metrics(alloc: Global, engine: &HostedEngine, place: &mut [u8]) -> (CallResult, usize) {
    let mut count = 0;
    let result = engine.put_metrics(alloc, place, &mut count);
    (result, count)
}
