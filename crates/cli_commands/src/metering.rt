// Where what is counted of live engines goes. It relies on `host_metrics` for counters and their text, and on `host_live` for when they are
// reported.

ghost use Rattle.std.specs.Prelude.{◌≡◌};

use crate::fault::Fault;
use engine_core::NumberedEngine;
use host_live::Moment;
use host_metrics::{Metrics, print};
use std::alloc::{AllocError, Global};
use std::io::Write;

/// Why what is counted was not written.
#[derive(Clone, Copy, Debug, PartialEq, Eq)]
pub enum MetricsUnwritten {
    /// It cannot be written, and the time before it could, or there was none.
    Now,
    /// It still cannot be.
    Still,
}

/// The file in which what is counted stands, and the counters between an engine and the one that follows it. Contracts see these counters.
pub trait MetricsFile {
    ghost use Rattle.std.specs.Prelude.{◌≡◌};
    ghost use Rattle.host_metrics.specs.Counted.{MetricsState};

    ghost counts: { Self → MetricsState };

    /// Takes the counters that go on from the engine before. If no file is asked for, they count nothing.
    fn take_metrics(&mut self, alloc: Global) -> Metrics
        ensures { result ≡ counts self.old };

    /// Keeps the counters for the engine that follows.
    fn keep_metrics(&mut self, metrics: Metrics)
        ensures { counts self.new ≡ metrics };

    /// Whether what is counted is to be written at that moment.
    fn is_due(&mut self, when: Moment) -> bool
        ensures { counts self.new ≡ counts self.old };

    /// Writes that text in the place of the file; none if memory was refused for it, and then nothing is written.
    fn write_metrics(&mut self, text: Option<&str>) -> Result<(), MetricsUnwritten>
        ensures { counts self.new ≡ counts self.old };

    /// The path of the file.
    fn metrics_path(&self) -> &str;
}

/// Writes what is counted of an engine, if it is time to. That it cannot be written is reported, unless it was reported the time before: the
/// engine goes on, and it is written the next time.
pub(crate) fn write_counted<M: MetricsFile, E: Write>(
    alloc: Global,
    file: &mut M,
    when: Moment,
    metrics: &Metrics,
    engine: &NumberedEngine<'_>,
    err: &mut E,
) {
    if !file.is_due(when) {
        return;
    }
    let controllers = engine.config().controllers();
    let text = print(
        alloc,
        metrics,
        controllers,
        engine.transport(),
        engine.runs(),
    );
    let written = match &text {
        Ok(text) => file.write_metrics(Some(text.as_str())),
        Err(AllocError) => file.write_metrics(None),
    };
    if let Err(MetricsUnwritten::Now) = written {
        let _ = Fault::File(file.metrics_path()).report(err);
    }
}

/// Takes the counters that go on, and names their programs by the bytes of the manifest in force.
pub(crate) fn taken_metrics<M: MetricsFile, E: Write>(
    alloc: Global,
    file: &mut M,
    manifest: &[u8],
    err: &mut E,
) -> Metrics
    ensures { result ≡ M.counts file.old }
{
    let mut metrics = file.take_metrics(alloc);
    if metrics.is_on() && metrics.name_programs(alloc, manifest).is_err() {
        let _ = Fault::OutOfMemory.report(err);
    }
    metrics
}
