// An engine with the records that led to it, from its opening. It relies on `engine_core` for each step.

ghost use Rattle.std.specs.Prelude.{◌≡◌, [], true, IfOk, OnErr};
ghost use Rattle.trace.specs.HasText.{AllHaveText};
ghost use Rattle.host_trial.specs.Recording.{Asks};
ghost use Rattle.host_trial.specs.Tried.{IsTrial};
ghost use Rattle.host_trial.specs.declared.ending.Ending.TheVariants.{Finished};

use crate::ending::{Ending, ending_of};
use base_chunked_list::ChunkedList;
use engine_config::Config;
use engine_core::NumberedEngine;
use std::alloc::{AllocError, Global};
use std::marker::Model;
use trace_of_history::laws::each_record_has_text;
use world_calls::{Call, CallAnswer, Record, Trace, Version};

/// How many records there is room for beside the next one.
const ROOM: usize = 1;

/// A run has fewer stops: it executes at most 65,536 instructions.
const MORE_STOPS: u32 = 65_537;

/// An engine, and the records that led to it. Contracts see the two; that the records lead to the engine, from its opening, is always so.
#[derive(Drop)]
pub struct Recorded<'a> {
    engine: NumberedEngine<'a>,
    records: ChunkedList<Record>,
}

impl<'a> Model for Recorded<'a> {
    ghost use Rattle.engine_core.specs.ByNumber.{IsBehind};
    ghost use Rattle.host_trial.specs.Recording.{Recording};

    ghost Value = { Recording };

    ghost view = { λ r. record { engine = r.engine; records = r.records.items } };

    ghost invariant = { λ r. IsBehind r.records.items r.engine };
}

impl<'a> Recorded<'a> {
    /// An engine of that configuration, which nothing led to.
    pub fn open(alloc: Global, config: &'a Config) -> Result<Self, AllocError>
        ensures setup { IfOk result (λ it. it.engine.setup ≡ config.now) }
        ensures none { IfOk result (λ it. it.records ≡ []) }
    {
        let records = ChunkedList::with_room(alloc)?;
        let engine = NumberedEngine::open(alloc, config)?;
        Ok(Recorded { engine, records })
    }

    /// The engine.
    pub fn engine(&self) -> &NumberedEngine<'a>
        ensures { result.now ≡ self.now.engine }
    {
        &self.engine
    }

    /// The records.
    pub fn records(&self) -> &ChunkedList<Record>
        ensures { result.now.items ≡ self.now.records }
    {
        &self.records
    }

    /// Asks the engine for a call, and keeps the record of it: what it answered, and nothing if the call is no event.
    pub fn call(&mut self, call: Call) -> Result<Option<CallAnswer>, AllocError>
        ensures asked { IfOk result (λ answer. Asks self.old call answer self.new) }
        ensures setup { self.new.engine.setup ≡ self.old.engine.setup }
        ensures refused { OnErr result (self.new ≡ self.old) }
    {
        self.records.reserve(ROOM)?;
        match self.engine.call(&call)? {
            Some(answer) => {
                self.records.push_reserved(Record::Called { answer, call });
                Ok(Some(answer))
            }
            None => Ok(None),
        }
    }

    /// Lets a run go on to its end.
    pub fn drive(&mut self, run: u32) -> Result<(), AllocError>
        ensures { self.new.engine.setup ≡ self.old.engine.setup }
    {
        for _stop in 0..MORE_STOPS {
            let ended = self.advance(run)?;
            if ended {
                return Ok(());
            }
        }
        Ok(())
    }

    // Lets a run go on to its next stop, and returns whether it was at its end.
    fn advance(&mut self, run: u32) -> Result<bool, AllocError>
        ensures { self.new.engine.setup ≡ self.old.engine.setup }
    {
        self.records.reserve(ROOM)?;
        match self.engine.advance(run)? {
            Some(told) => {
                self.records.push_reserved(told);
                Ok(false)
            }
            None => Ok(true),
        }
    }

    /// The records as a trace, and how it ends. They are all that there was to be, or not.
    pub fn into_trial(self, is_whole: bool) -> (Trace, Ending)
        ensures tried { IsTrial self.entry.engine.setup result.0 result.1 }
        ensures spelled { AllHaveText result.0.version result.0.records.items }
        ensures records { result.0.records.items ≡ self.entry.records }
        ensures whole { result.1 ≡ Finished → is_whole ≡ true }
    {
        // These are called for what they say of all engines.
        each_record_has_text();
        let _ = self.engine.transport();
        let ending = ending_of(&self.engine, is_whole);
        let totals = self.engine.totals(self.records.len() as u64);
        let version = Version::of(self.engine.config().helpers());
        let Recorded { engine: _, records } = self;
        let trace = Trace {
            version,
            records,
            totals,
        };
        (trace, ending)
    }
}
