// An engine as its host holds it, with the runs that a recovery left to be taken, and with what is counted. It relies on `engine_handle`,
// `run_handle`, and `host_metrics` for counters.

ghost use Rattle.std.specs.Prelude.{◌≡◌, []};
ghost use Rattle.host_embedding.specs.Recovering.{TakesRun};

use crate::engine_handle::EngineHandle;
use crate::run_handle::RunHandle;
use host_metrics::Metrics;
use std::alloc::Global;

/// An engine, the runs of it that were out when it was recovered and that its host has not taken yet, by rising number, and what is counted
/// of the records that its host's calls make. Where it is dropped these runs are forfeited.
#[derive(Drop)]
pub struct HostedEngine {
    pub engine: EngineHandle,
    pub left: Vec<Box<RunHandle>>,
    pub metrics: Metrics,
}

impl HostedEngine {
    /// The engine, without a run to be taken, with these counters.
    pub fn new(alloc: Global, engine: EngineHandle, metrics: Metrics) -> Self
        ensures engine { result.engine ≡ engine }
        ensures left { result.left.items ≡ [] }
        ensures metrics { result.metrics ≡ metrics }
    {
        HostedEngine {
            engine,
            left: Vec::new(alloc),
            metrics,
        }
    }

    /// The same with these counters in the place of its own.
    pub fn counted_by(self, metrics: Metrics) -> Self
        ensures { result ≡ record self { metrics = metrics } }
    {
        let HostedEngine {
            engine,
            left,
            metrics: _,
        } = self;
        HostedEngine {
            engine,
            left,
            metrics,
        }
    }

    /// Takes the first of the runs that were out when the engine was recovered; `None` exactly if none of them is left. It takes no
    /// memory, and asks the engine nothing.
    pub fn take_run(&mut self) -> Option<Box<RunHandle>>
        ensures { TakesRun self.old result self.new }
    {
        if self.left.is_empty() {
            None
        } else {
            Some(self.left.remove(0))
        }
    }
}
