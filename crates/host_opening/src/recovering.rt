// An engine of a manifest's text that stands where the text of a trace led. It relies on `trace_front` for that text, on `replay` for the
// verdict on its records, and on `host_embedding` for an engine that is led there.

ghost use Rattle.std.specs.Prelude.{◌≡◌, ◌≤◌, ◌<◌, IfOk, IsTrue, length};
ghost use Rattle.whole_trace.specs.Continued.{items_of};
ghost use Rattle.host_opening.specs.Opened.{none_counted};
ghost use Rattle.host_opening.specs.Recovered.{Follows, IsAtEnd, IsJudgedSo, IsReadFront, Judges, Recovers, RecoversBy, StandsBy, StandsSo};

use crate::opening::{OpenFault, config_of, metrics_of, put_fault};
use base::OrMemory;
use engine_config::Config;
use host_embedding::{HostedEngine, put_front};
use host_metrics::Metrics;
use manifest::ManifestFault;
use replay::{ReplayError, ReplayFault, replay, replay_continued};
use std::alloc::{AllocError, Global};
use trace::TraceFault;
use trace_front::{TraceFront, read_front};
use whole_trace::WholeTrace;
use world_calls::Silent;

/// Why no engine was recovered.
#[derive(Debug, Drop)]
pub enum RecoverFault {
    OutOfMemory,
    /// The manifest is not UTF-8; or it is lawful, and the trace is not UTF-8.
    NotUtf8,
    Manifest(ManifestFault),
    /// X1 or X2: a line of the trace is not of the form.
    Form(TraceFault),
    /// X3 or X4: a line of the trace does not follow.
    Replay(ReplayFault),
}

/// Opens an engine of a manifest's text, and leads it to where the text of a trace leads: what that recorded is the engine's history, all
/// of which is handed on, and the runs that are out then can be taken. None of that is counted. The last line of the trace may be missing, and what stands after
/// the last line feed is ignored then. A fault of the manifest comes before any of the trace, and of the trace's faults the first is
/// returned, in the order of a replay: X1, X2, X3 with the first line, X4, X3.
#[tactic(auto, using(crate::proofs::Recoveries::means, crate::proofs::Recoveries::no_manifest))]
pub fn recover(
    alloc: Global,
    manifest: &[u8],
    text: &[u8],
) -> Result<Box<HostedEngine>, RecoverFault>
    ensures { Recovers manifest.now text.now result }
{
    match config_of(alloc, manifest) {
        Ok(config) => recover_counted(alloc, config, manifest, text),
        Err(OpenFault::OutOfMemory) => Err(RecoverFault::OutOfMemory),
        Err(OpenFault::NotUtf8) => Err(RecoverFault::NotUtf8),
        Err(OpenFault::Manifest(fault)) => Err(RecoverFault::Manifest(fault)),
    }
}

// The same of a configuration, which that manifest means.
fn recover_counted(
    alloc: Global,
    config: Config,
    manifest: &[u8],
    text: &[u8],
) -> Result<Box<HostedEngine>, RecoverFault>
    ensures { RecoversBy config text.now result }
{
    match metrics_of(alloc, manifest) {
        Ok(metrics) => recover_by(alloc, config, metrics, text),
        Err(AllocError) => Err(RecoverFault::OutOfMemory),
    }
}

// The same with these counters.
#[tactic(auto, using(crate::proofs::Recoveries::stands, crate::proofs::Recoveries::unfollowed, crate::proofs::Recoveries::unread))]
fn recover_by(
    alloc: Global,
    config: Config,
    metrics: Metrics,
    text: &[u8],
) -> Result<Box<HostedEngine>, RecoverFault>
    requires { metrics ≡ none_counted }
    ensures { RecoversBy config text.now result }
{
    match read_text(alloc, text) {
        Ok(front) => match judge(alloc, &config, &front) {
            Ok(()) => stand(alloc, config, metrics, front),
            Err(OrMemory::OutOfMemory) => Err(RecoverFault::OutOfMemory),
            Err(OrMemory::Fault(fault)) => Err(RecoverFault::Replay(fault)),
        },
        Err(fault) => Err(fault),
    }
}

// Reads the text of the trace, as far as it was written.
fn read_text(alloc: Global, text: &[u8]) -> Result<TraceFront, RecoverFault>
    ensures { IsReadFront text.now result }
{
    let Ok(text) = str::from_utf8(text) else {
        return Err(RecoverFault::NotUtf8);
    };
    match read_front(alloc, text) {
        Ok(front) => Ok(front),
        Err(OrMemory::OutOfMemory) => Err(RecoverFault::OutOfMemory),
        Err(OrMemory::Fault(fault)) => Err(RecoverFault::Form(fault)),
    }
}

// Whether the lines of the trace follow, each from those before it. If the last line is missing, its sums are not judged.
#[tactic(auto, using(crate::proofs::Verdicts::followed, crate::proofs::Verdicts::judges))]
fn judge(alloc: Global, config: &Config, front: &TraceFront) -> Result<(), ReplayError>
    ensures { Judges config.now front.now result }
{
    match follow(alloc, config, &front.whole) {
        Ok(()) => Ok(()),
        Err(OrMemory::OutOfMemory) => Err(OrMemory::OutOfMemory),
        Err(OrMemory::Fault(fault)) => judged(front, fault),
    }
}

// The fault, unless it is that of a last line that is missing.
#[tactic(auto, using(crate::proofs::Verdicts::judged_ended, crate::proofs::Verdicts::judged_before))]
fn judged(front: &TraceFront, fault: ReplayFault) -> Result<(), ReplayError>
    ensures { IsJudgedSo front.now fault result }
{
    if !front.is_ended && is_at_end(fault, front.whole.trace.records.len()) {
        Ok(())
    } else {
        Err(OrMemory::Fault(fault))
    }
}

// Whether the fault is that of the line after so many records.
fn is_at_end(fault: ReplayFault, count: usize) -> bool
    ensures { IsAtEnd result fault count }
{
    match fault {
        ReplayFault::Header => false,
        ReplayFault::Carried(_) => false,
        ReplayFault::Behind { records, .. } => count <= records,
    }
}

// The verdict of a replay, from the opening of an engine or from what the carried lines say.
fn follow(alloc: Global, config: &Config, whole: &WholeTrace) -> Result<(), ReplayError>
    ensures { Follows config.now (items_of whole.now.carried) whole.now.trace result }
{
    match &whole.carried {
        Some(lines) => { replay_continued(alloc, config, lines.as_slice(), &whole.trace, &Silent) }
        None => replay(alloc, config, &whole.trace, &Silent),
    }
}

// The engine that stands where the records lead, with these counters, on the heap.
#[tactic(auto, using(crate::proofs::Recoveries::counted_by))]
fn stand(
    alloc: Global,
    config: Config,
    metrics: Metrics,
    front: TraceFront,
) -> Result<Box<HostedEngine>, RecoverFault>
    requires { metrics ≡ none_counted }
    ensures { StandsBy config front result }
{
    let TraceFront { whole, is_ended: _ } = front;
    match led(alloc, config, whole) {
        Ok(hosted) => match Box::new(alloc, hosted.counted_by(metrics)) {
            Ok(handle) => Ok(handle),
            Err(_) => Err(RecoverFault::OutOfMemory),
        },
        Err(AllocError) => Err(RecoverFault::OutOfMemory),
    }
}

// The engine that stands where the records lead.
fn led(alloc: Global, config: Config, whole: WholeTrace) -> Result<HostedEngine, AllocError>
    ensures { IfOk result (λ it. StandsSo config (items_of whole.carried) whole.trace.records.items it) }
{
    let WholeTrace { carried, trace } = whole;
    match carried {
        Some(lines) => { HostedEngine::recover_continued(alloc, config, lines, &trace.records) }
        None => HostedEngine::recover(alloc, config, &trace.records),
    }
}

/// Puts the front of a fault's text into a place, as much as finds room: how many bytes that are. None are put for a fault that has no text,
/// or where memory is refused.
pub fn put_recover_fault(alloc: Global, fault: &RecoverFault, place: &mut [u8]) -> usize
    ensures { result ≤ length place.new }
{
    match fault {
        RecoverFault::OutOfMemory => 0,
        RecoverFault::NotUtf8 => 0,
        RecoverFault::Manifest(its) => put_fault(alloc, its, place),
        RecoverFault::Form(its) => put_form(alloc, *its, place),
        RecoverFault::Replay(its) => put_replay(alloc, *its, place),
    }
}

fn put_form(alloc: Global, fault: TraceFault, place: &mut [u8]) -> usize
    ensures { result ≤ length place.new }
{
    match format!(in alloc; "{fault}") {
        Ok(text) => put_front(text.as_bytes(), place),
        Err(_) => 0,
    }
}

fn put_replay(alloc: Global, fault: ReplayFault, place: &mut [u8]) -> usize
    ensures { result ≤ length place.new }
{
    match format!(in alloc; "{fault}") {
        Ok(text) => put_front(text.as_bytes(), place),
        Err(_) => 0,
    }
}
