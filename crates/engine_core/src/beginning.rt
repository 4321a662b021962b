// An engine that begins with the world that another one left, and the parts that such a world is read from. It relies on `engine_transport`
// and `engine_runs` for these, and on `engine_taken_over` for what is kept of the beginning.

ghost use Rattle.std.specs.Prelude.{◌≡◌, [], IfErr, IfOk};
ghost use Rattle.world.specs.Beginning.{IsBeginning};
ghost use Rattle.engine_core.specs.EngineState.{IsRun};
ghost use Rattle.engine_core.specs.Settings.{begun_with, setup_over};

use crate::engine::Engine;
use crate::parts::Parts;
use engine_config::Config;
use engine_history::EngineHistory;
use engine_runs::Runs;
use engine_taken_over::TakenOver;
use engine_transport::Transport;
use std::alloc::{AllocError, Global};

impl Engine {
    /// An engine that begins with these parts, in which no run is live, and with an empty history. It takes room for its history alone:
    /// the parts have theirs. If memory is refused the configuration comes back.
    #[tactic(auto, using(crate::proofs::Begun::keeps_begun, crate::proofs::Begun::seen_begun, crate::proofs::Begun::room_begun))]
    pub fn begin(
        alloc: Global,
        config: Config,
        transport: Transport,
        runs: Runs,
    ) -> Result<Self, (AllocError, Config)>
        requires beginning { IsBeginning config (record { transport = transport; runs = runs.runs; ended = [] }) }
        requires none_held { runs.tokens ≡ [] }
        ensures begun { IfOk result (λ engine. engine ≡ begun_with config (record { transport = transport; runs = runs.runs; ended = [] })) }
        ensures back { IfErr result (λ fault. fault.1 ≡ config) }
    {
        // It is called for what it says of the configuration.
        let _ = config.queues();
        match EngineHistory::with_room(alloc) {
            Ok(history) => {
                let over = TakenOver::of(&transport, &runs);
                Ok(Engine {
                    config,
                    over,
                    parts: Parts { transport, runs },
                    history,
                })
            }
            Err(fault) => Err((fault, config)),
        }
    }

    /// What it was opened with.
    pub fn config(&self) -> &Config
        ensures { setup_over result.now self.now.setup.carried ≡ self.now.setup }
    {
        &self.config
    }

    /// Its CCBs, queues, freezes and clock.
    pub fn transport(&self) -> &Transport
        ensures value { result.now ≡ self.now.world.transport }
        ensures run { IsRun self.now }
    {
        &self.parts.transport
    }

    /// Its runs and tables.
    pub fn runs(&self) -> &Runs
        ensures value { result.now.runs ≡ self.now.world.runs }
        ensures run { IsRun self.now }
    {
        &self.parts.runs
    }
}
