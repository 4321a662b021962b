// An engine is led to where the records of a trace lead: each is made once more, and handed on. It relies on `remaking` for the calls, on
// `likeness` for whether a record is the one that was made, and on `engine_succession` for an engine that begins with lines.

ghost use Rattle.std.specs.Prelude.{◌≡◌, ◌+◌, ◌<◌, [], IfOk, IsTrue, OnOk, length};
ghost use Rattle.engine_core.specs.EngineState.{Records};
ghost use Rattle.world_calls.specs.declared.record.Record.TheVariants.{Advance, Called};
ghost use Rattle.host_embedding.specs.Recovering.{BeginsSo, Follows, FollowsAll, IsChecked, StandsAfter, StandsOver};

use crate::engine_handle::EngineHandle;
use crate::hosted_engine::HostedEngine;
use crate::remaking::{advance, make};
use base_chunked_list::ChunkedList;
use engine_config::Config;
use engine_core::Engine;
use engine_succession::begin;
use host_metrics::Metrics;
use std::alloc::{AllocError, Global};
use world_calls::{Call, CallAnswer, CarriedLine, Record, StoppedAt};

impl HostedEngine {
    /// An engine of this configuration to which just these records led, all of which are handed on, and the runs that are out then. None of
    /// the records is counted. That the records lead there is to be known before, by a replay: if they do not, the answer is as if memory
    /// were refused.
    pub fn recover(
        alloc: Global,
        config: Config,
        records: &ChunkedList<Record>,
    ) -> Result<Self, AllocError>
        ensures { IfOk result (λ it. StandsAfter config records.now.items it) }
    {
        match Engine::open(alloc, config) {
            Ok(engine) => HostedEngine::led(alloc, EngineHandle::new(alloc, engine), records),
            Err((AllocError, _)) => Err(AllocError),
        }
    }

    /// The same of an engine that begins with these lines.
    #[tactic(auto, using(crate::proofs::Recovered::stands_over))]
    pub fn recover_continued(
        alloc: Global,
        config: Config,
        lines: Vec<CarriedLine>,
        records: &ChunkedList<Record>,
    ) -> Result<Self, AllocError>
        ensures { IfOk result (λ it. StandsOver config lines.items records.now.items it) }
    {
        match begun(alloc, config, lines) {
            Ok(engine) => HostedEngine::led(alloc, engine, records),
            Err(AllocError) => Err(AllocError),
        }
    }

    // The engine after these records, and the runs that are out then.
    #[tactic(auto, using(crate::proofs::Recovered::stands))]
    fn led(
        alloc: Global,
        engine: EngineHandle,
        records: &ChunkedList<Record>,
    ) -> Result<Self, AllocError>
        requires history { engine.history ≡ [] }
        requires taken { engine.taken ≡ 0 }
        ensures { IfOk result (λ it. StandsAfter engine.setup records.now.items it) }
    {
        let mut hosted = HostedEngine::new(alloc, engine, Metrics::none(alloc));
        match hosted.follow_all(alloc, records) {
            Ok(()) => hosted.checked(),
            Err(AllocError) => Err(AllocError),
        }
    }

    // The same, if the runs that are kept are those that are out.
    fn checked(self) -> Result<Self, AllocError>
        ensures { IfOk result (λ it. (it ≡ self) × IsChecked self) }
    {
        if self.engine.has_out(&self.left) {
            Ok(self)
        } else {
            Err(AllocError)
        }
    }

    // Makes all records once more, one after the other, and hands each on.
    #[tactic(auto, using(crate::proofs::Recovered::follows_none, crate::proofs::Recovered::follows_more))]
    fn follow_all(&mut self, alloc: Global, records: &ChunkedList<Record>) -> Result<(), AllocError>
        requires { self.old.engine.taken ≡ length self.old.engine.history }
        ensures { OnOk result (FollowsAll self.old.engine records.now.items self.new.engine) }
    {
        for told in records.iter() {
            self.follow(alloc, told)?;
        }
        Ok(())
    }

    // Makes the record once more, and hands it on.
    #[tactic(auto, using(crate::proofs::Remade::handed_on, crate::proofs::Remade::has_one))]
    fn follow(&mut self, alloc: Global, told: &Record) -> Result<(), AllocError>
        requires { self.old.engine.taken ≡ length self.old.engine.history }
        ensures { OnOk result (Follows self.old.engine told.now self.new.engine) }
    {
        if !self.makes(alloc, told) {
            return Err(AllocError);
        }
        self.engine.hand_on_last();
        Ok(())
    }

    // Does what a record says, and returns whether just that is recorded.
    fn makes(&mut self, alloc: Global, told: &Record) -> bool
        requires { self.old.engine.taken ≡ length self.old.engine.history }
        ensures { IsTrue result → Records self.old.engine self.new.engine told.now }
    {
        match told {
            Record::Called { answer, call } => self.calls(alloc, *answer, call),
            Record::Advance {
                run,
                instructions,
                stop,
                r0,
            } => self.advances(*run, *instructions, stop, *r0),
        }
    }

    #[tactic(auto, using(crate::proofs::Remade::just_called))]
    fn calls(&mut self, alloc: Global, answer: CallAnswer, call: &Call) -> bool
        requires { self.old.engine.taken ≡ length self.old.engine.history }
        ensures { IsTrue result → Records self.old.engine self.new.engine (Called answer call.now) }
    {
        make(&mut self.engine, &mut self.left, alloc, call);
        self.engine.has_answered(answer)
    }

    #[tactic(auto, using(crate::proofs::Remade::just_grown))]
    fn advances(&mut self, run: u32, instructions: u32, stop: &StoppedAt, r0: u64) -> bool
        requires { self.old.engine.taken ≡ length self.old.engine.history }
        ensures { IsTrue result → Records self.old.engine self.new.engine (Advance run instructions stop.now r0) }
    {
        advance(&mut self.engine, &mut self.left, run);
        self.engine.has_advanced(run, instructions, stop, r0)
    }
}

impl EngineHandle {
    // Hands the next record on.
    pub(crate) fn hand_on_last(&mut self)
        requires { self.old.taken < length self.old.history }
        ensures { self.new ≡ record self.old { taken = self.old.taken + 1 } }
    {
        self.engine.hand_on(1);
        self.lines.clear();
        self.lines.shrink_to_fit();
    }
}

// An engine that begins with these lines, with the tokens of guests' freezes. Lines with which none begins are answered as if memory were
// refused.
#[tactic(auto, using(crate::proofs::Recovered::begins_so, crate::proofs::Recovered::its_guests, crate::proofs::Recovered::its_lines, crate::proofs::Recovered::its_fates))]
fn begun(alloc: Global, config: Config, lines: Vec<CarriedLine>) -> Result<EngineHandle, AllocError>
    ensures { IfOk result (BeginsSo config lines.items) }
{
    match begin(alloc, config, &lines) {
        Ok((engine, tokens)) => {
            // It is called for what it says of the engine.
            let _ = engine.records();
            Ok(EngineHandle {
                engine,
                tokens,
                is_continued: true,
                lines,
                fates: Vec::new(alloc),
            })
        }
        Err((_, _)) => Err(AllocError),
    }
}
