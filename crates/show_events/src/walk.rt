// The walk along a trace: an engine is led through its records, and each record is told as events. It relies on `engine_core` for the
// world, on `engine_succession` for one that begins with carried lines, and on `called`, `advanced` and `timers` for what a record tells.

use crate::event::{Event, Subject, Values};
use crate::happening::Happening;
use crate::shown::Shown;
use crate::times::{FreezeTimes, RunTimes, Times};
use ccb::Place;
use engine_config::Config;
use engine_core::NumberedEngine;
use engine_succession::{BeginFault, begin_numbered};
use freeze_ledger::Holder;
use std::alloc::{AllocError, Global};
use std::collections::BTreeMap;
use std::io;
use std::io::ErrorKind;
use world_calls::{CarriedLine, Record};

/// The world after some records of a trace, with what only time tells.
#[derive(Drop)]
pub struct Walk<'a> {
    pub(crate) config: &'a Config,
    pub(crate) engine: NumberedEngine<'a>,
    pub(crate) times: Times,
    // those freezes whose timers came with the last clock reading
    pub(crate) came: Vec<u32>,
}

impl<'a> Walk<'a> {
    /// The world before the first record of a trace of this configuration: of a continued one, with what its lines carry over, which is
    /// there since the carried clock reading. None if no engine of the configuration begins with these lines.
    pub fn open(
        alloc: Global,
        config: &'a Config,
        carried: Option<&[CarriedLine]>,
    ) -> Result<Option<Self>, AllocError> {
        let Some(lines) = carried else {
            let engine = NumberedEngine::open(alloc, config)?;
            return Ok(Some(Walk::along(alloc, config, engine)));
        };
        match begin_numbered(alloc, config, lines) {
            Ok(engine) => {
                let mut walk = Walk::along(alloc, config, engine);
                walk.carry(lines)?;
                Ok(Some(walk))
            }
            Err(BeginFault::DoesNotFit(_)) => Ok(None),
            Err(BeginFault::OutOfMemory) => Err(AllocError),
        }
    }

    /// The same of a trace that is shown. An error of the kind `InvalidInput` if no engine begins so, which no trace has that a replay accepts.
    pub fn of(alloc: Global, config: &'a Config, shown: Shown<'_>) -> io::Result<Self> {
        match Walk::open(alloc, config, shown.carried)? {
            Some(walk) => Ok(walk),
            None => Err(io::Error::from(ErrorKind::InvalidInput)),
        }
    }

    // The walk of an engine that has come to no record.
    fn along(alloc: Global, config: &'a Config, engine: NumberedEngine<'a>) -> Self {
        Walk {
            config,
            engine,
            times: Times::new(alloc),
            came: Vec::new(alloc),
        }
    }

    // Takes what was carried over.
    fn carry(&mut self, lines: &[CarriedLine]) -> Result<(), AllocError> {
        let clock = self.engine.clock();
        for line in lines {
            self.times.carry(line, clock)?;
        }
        Ok(())
    }

    /// Goes on by one record, which has to follow as a replay says, and puts what it tells after the events: one event a
    /// record, but for a clock reading, which tells one for each timer that came. A record that does not follow tells what it says
    /// of itself.
    pub fn step(&mut self, record: &Record, events: &mut Vec<Event>) -> Result<(), AllocError> {
        match record {
            Record::Called { answer, call } => self.called(*answer, call, events),
            Record::Advance {
                run,
                instructions,
                stop,
                r0,
            } => self.advanced(*run, *instructions, stop, *r0, events),
        }
    }

    /// The engine after the records.
    pub fn engine(&self) -> &NumberedEngine<'a> {
        &self.engine
    }

    /// What the clock read last, in milliseconds.
    pub fn clock(&self) -> u64 {
        self.engine.clock()
    }

    /// How often a place is frozen.
    pub fn frozen(&self, place: Place) -> u32 {
        let mut count = 0u32;
        if let Some(holders) = self.engine.holders(place) {
            for _ in holders {
                count = count.saturating_add(1);
            }
        }
        count
    }

    /// Who holds a freeze of a place, if it is there.
    pub fn holder(&self, place: Place, freeze: u32) -> Option<Holder> {
        for (number, holder) in self.engine.holders(place)? {
            if number == freeze {
                return Some(holder);
            }
        }
        None
    }

    /// The live CCBs, by their numbers, and since when each is where it is.
    pub fn ccbs(&self) -> &BTreeMap<u32, u64> {
        &self.times.ccbs
    }

    /// The freezes that are there, by their numbers.
    pub fn freezes(&self) -> &BTreeMap<u32, FreezeTimes> {
        &self.times.freezes
    }

    /// The live runs, by their numbers.
    pub fn runs(&self) -> &BTreeMap<u32, RunTimes> {
        &self.times.runs
    }

    // One event more, at what the clock reads.
    pub(crate) fn tell(
        &self,
        subject: Subject,
        happening: Happening,
        values: Values,
        events: &mut Vec<Event>,
    ) -> Result<(), AllocError> {
        events.push(Event {
            clock: self.engine.clock(),
            subject,
            happening,
            values,
        })?;
        Ok(())
    }
}
