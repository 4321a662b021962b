// An engine that follows another one in its host's handle. It relies on `engine_carried` for what the old one leaves, and on
// `engine_succession` for an engine that begins with it.

ghost use Rattle.std.specs.Prelude.{◌≡◌, ◌↔◌, [], IfOk, IsTrue};
ghost use Rattle.engine_carried.specs.TakenOver.{taken_over};
ghost use Rattle.engine_core.specs.Settings.{begun_with};
ghost use Rattle.engine_succession.specs.Succession.{MayBeFollowed};
ghost use Rattle.host_embedding.specs.Counting.{is_same_beside};
ghost use Rattle.host_embedding.specs.Succession.{IsRenewed, IsSucceeded, configuration};

use crate::call_result::CallResult;
use crate::config_again::config_again;
use crate::engine_handle::EngineHandle;
use crate::hosted_engine::HostedEngine;
use engine_carried::{Numbering, carried_lines, fits};
use engine_config::Config;
use engine_core::Engine;
use engine_succession::{BeginFault, begin};
use std::alloc::{AllocError, Global};

impl EngineHandle {
    /// Returns whether no run is live, so that another engine may follow this one.
    pub fn has_no_run(&self) -> bool
        ensures { IsTrue result ↔ (self.now.world.runs.list ≡ []) }
    {
        self.engine.runs().len() == 0
    }

    // Ends the engine, and begins another one of this configuration that takes over its live CCBs, freezes, openings, words and clock.
    // The handle has the tokens of the guests' freezes, under the numbers that they have now. Records that were not taken, and the sums
    // of the old engine, are gone. A refusal leaves the engine as it was.
    fn succeed(&mut self, alloc: Global, config: Config, numbering: Numbering) -> CallResult
        ensures { IsSucceeded result numbering self.old config self.new }
    {
        if !self.has_no_run() {
            return CallResult::RunsLive;
        }
        if !fits(&self.engine, &config) {
            return CallResult::DoesNotFit;
        }
        match successor(alloc, &self.engine, config, numbering) {
            Ok(next) => {
                *self = next;
                CallResult::Done
            }
            Err(AllocError) => CallResult::OutOfMemory,
        }
    }

    /// Ends the engine, and begins another one of the configuration in force that takes over its live CCBs, freezes, openings, words and
    /// clock. The handle has the tokens of the guests' freezes, under the numbers that they have now. Records that were not taken, and the
    /// sums of the old engine, are gone. A refusal leaves the engine as it was.
    pub fn renew(&mut self, alloc: Global, numbering: Numbering) -> CallResult
        ensures { IsRenewed result numbering self.old self.new }
    {
        if !self.has_no_run() {
            return CallResult::RunsLive;
        }
        let config = self.engine.config();
        // It is called for what it says of the configuration.
        let _ = config.queues();
        match config_again(alloc, config) {
            Ok(config) => self.succeed(alloc, config, numbering),
            Err(AllocError) => CallResult::OutOfMemory,
        }
    }
}

impl HostedEngine {
    /// Ends the engine, and begins another one of this configuration, which that text of a manifest means, as `EngineHandle::renew`. What
    /// was counted stays, and programs have the names of the text from then on.
    pub fn succeed(
        &mut self,
        alloc: Global,
        config: Config,
        text: &[u8],
        numbering: Numbering,
    ) -> CallResult
        ensures followed { IsSucceeded result numbering self.old.engine config self.new.engine }
        ensures beside { is_same_beside self.old self.new }
    {
        if !self.engine.has_no_run() {
            return CallResult::RunsLive;
        }
        if !fits(&self.engine.engine, &config) {
            return CallResult::DoesNotFit;
        }
        let Ok(next) = successor(alloc, &self.engine.engine, config, numbering) else {
            return CallResult::OutOfMemory;
        };
        match self.metrics.name_programs(alloc, text) {
            Ok(()) => {
                self.engine = next;
                CallResult::Done
            }
            Err(AllocError) => CallResult::OutOfMemory,
        }
    }
}

// The handle of an engine of this configuration that begins with what that engine leaves.
#[tactic(auto, using(crate::proofs::Recovered::its_fates))]
fn successor(
    alloc: Global,
    engine: &Engine,
    config: Config,
    numbering: Numbering,
) -> Result<EngineHandle, AllocError>
    requires { MayBeFollowed engine.now config }
    ensures { IfOk result (λ next. next ≡ begun_with config (taken_over numbering engine.now.setup config engine.now.world)) }
{
    // They are called for what they say of the configuration, and of the engines.
    let _ = config.queues();
    let _ = engine.records();
    let Ok(lines) = carried_lines(alloc, engine, &config, numbering) else {
        return Err(AllocError);
    };
    match begin(alloc, config, &lines) {
        Ok((next, tokens)) => {
            let _ = next.records();
            Ok(EngineHandle {
                engine: next,
                tokens,
                is_continued: true,
                lines,
                fates: Vec::new(alloc),
            })
        }
        Err((BeginFault::OutOfMemory, _)) => Err(AllocError),
        Err((BeginFault::DoesNotFit(_), _)) => unreachable!(),
    }
}
