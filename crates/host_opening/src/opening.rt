// An engine of a manifest's text, and the text of a fault in it. It relies on `manifest` for both, and on `host_metrics` for counters.

ghost use Rattle.std.specs.Prelude.{◌≡◌, ◌≤◌, IfOk, length};
ghost use Rattle.host_embedding.specs.Counting.{is_same_beside};
ghost use Rattle.host_opening.specs.Opened.{IsRead, Opens, Succeeds, none_counted};

use base::OrMemory;
use engine_config::Config;
use engine_core::Engine;
use host_embedding::{CallResult, EngineHandle, HostedEngine, Numbering, put_front};
use host_metrics::Metrics;
use manifest::{ManifestFault, read};
use std::alloc::{AllocError, Global};

/// Why no engine was opened.
#[derive(Debug, Drop)]
pub enum OpenFault {
    OutOfMemory,
    /// The manifest is not UTF-8.
    NotUtf8,
    Manifest(ManifestFault),
}

/// Opens an engine of a manifest's text, with an empty history. Nothing is counted yet.
pub fn open(alloc: Global, text: &[u8]) -> Result<Box<HostedEngine>, OpenFault>
    ensures { Opens text.now result }
{
    let config = config_of(alloc, text)?;
    let engine = match Engine::open(alloc, config) {
        Ok(engine) => engine,
        Err(_) => return Err(OpenFault::OutOfMemory),
    };
    let Ok(metrics) = metrics_of(alloc, text) else {
        return Err(OpenFault::OutOfMemory);
    };
    let hosted = HostedEngine::new(alloc, EngineHandle::new(alloc, engine), metrics);
    match Box::new(alloc, hosted) {
        Ok(handle) => Ok(handle),
        Err(_) => Err(OpenFault::OutOfMemory),
    }
}

/// Counters of which each is 0, with the names of the programs of a manifest's text that was accepted.
pub(crate) fn metrics_of(alloc: Global, text: &[u8]) -> Result<Metrics, AllocError>
    ensures { IfOk result (λ metrics. metrics ≡ none_counted) }
{
    match none_yet(alloc) {
        Ok(metrics) => named(alloc, metrics, text),
        Err(AllocError) => Err(AllocError),
    }
}

// Counters of which each is 0.
fn none_yet(alloc: Global) -> Result<Metrics, AllocError>
    ensures { IfOk result (λ metrics. metrics ≡ none_counted) }
{
    Metrics::new(alloc)
}

// The same counters with the names of the programs of a manifest's text.
fn named(alloc: Global, metrics: Metrics, text: &[u8]) -> Result<Metrics, AllocError>
    ensures { IfOk result (λ named. named ≡ metrics) }
{
    let mut metrics = metrics;
    match metrics.name_programs(alloc, text) {
        Ok(()) => Ok(metrics),
        Err(AllocError) => Err(AllocError),
    }
}

/// Ends an engine, and begins another one of this manifest's text that takes over what it leaves. If a run is live the text is not read.
/// A fault of the text comes before what the engine itself is not followed for. What was counted stays.
pub fn succeed(
    alloc: Global,
    hosted: &mut HostedEngine,
    text: &[u8],
    numbering: Numbering,
) -> Result<CallResult, ManifestFault>
    ensures followed { Succeeds numbering text.now result hosted.old.engine hosted.new.engine }
    ensures beside { is_same_beside hosted.old hosted.new }
{
    if !hosted.engine.has_no_run() {
        return Ok(CallResult::RunsLive);
    }
    match config_of(alloc, text) {
        Ok(config) => Ok(hosted.succeed(alloc, config, text, numbering)),
        Err(OpenFault::OutOfMemory) => Ok(CallResult::OutOfMemory),
        Err(OpenFault::NotUtf8) => Ok(CallResult::NotUtf8),
        Err(OpenFault::Manifest(fault)) => Err(fault),
    }
}

/// The configuration that a manifest's text says.
pub(crate) fn config_of(alloc: Global, text: &[u8]) -> Result<Config, OpenFault>
    ensures { IsRead text.now result }
{
    let Ok(text) = str::from_utf8(text) else {
        return Err(OpenFault::NotUtf8);
    };
    match read(alloc, text) {
        Ok(manifest) => Ok(manifest.config),
        Err(OrMemory::OutOfMemory) => Err(OpenFault::OutOfMemory),
        Err(OrMemory::Fault(fault)) => Err(OpenFault::Manifest(fault)),
    }
}

/// Puts the front of a fault's text into a place, as much as finds room: how many bytes that are. None are put where memory is
/// refused.
pub fn put_fault(alloc: Global, fault: &ManifestFault, place: &mut [u8]) -> usize
    ensures { result ≤ length place.new }
{
    match format!(in alloc; "{fault}") {
        Ok(text) => put_front(text.as_bytes(), place),
        Err(_) => 0,
    }
}
