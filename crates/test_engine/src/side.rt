// An engine, what it gave, and how far its history is told. It relies on `asking` for how it is asked, on `host_handles` for what it gave, and on
// `trace` for lines.

use crate::asking::{Asked, Driving, Manner};
use base::OrMemory;
use engine_core::{Config, Engine};
use host_handles::{HeldHandles, Unanswered};
use std::alloc::{AllocError, Global};
use trace::{print_entry, print_totals};
use trace_lines::Text;
use world_calls::{Call, CallAnswer, Record, Totals};

/// An engine, and what it gave.
pub struct Side {
    pub asked: Asked,
    pub hands: HeldHandles,
    // of how many records the lines were told
    told: usize,
}

// The configuration of a manifest's text; none if the text is faulty.
fn config_once(alloc: Global, manifest: &str) -> Result<Option<Config>, AllocError> {
    match manifest::read(alloc, manifest) {
        Ok(manifest) => Ok(Some(manifest.config)),
        Err(OrMemory::OutOfMemory) => Err(AllocError),
        Err(OrMemory::Fault(_)) => Ok(None),
    }
}

// The same. If memory is refused, the same call succeeds the second time.
fn config(alloc: Global, manifest: &str) -> Result<Option<Config>, AllocError> {
    match config_once(alloc, manifest) {
        Err(AllocError) => config_once(alloc, manifest),
        config => config,
    }
}

fn open_once(alloc: Global, config: Config) -> Result<Engine, (AllocError, Config)> {
    Engine::open(alloc, config)
}

/// An engine of a manifest's text; none if the text is faulty. If memory is refused the configuration comes back, and the same call
/// succeeds the second time.
pub fn engine_of(alloc: Global, manifest: &str) -> Result<Option<Engine>, AllocError> {
    let Some(config) = config(alloc, manifest)? else {
        return Ok(None);
    };
    match open_once(alloc, config) {
        Ok(engine) => Ok(Some(engine)),
        Err((_, config)) => match open_once(alloc, config) {
            Ok(engine) => Ok(Some(engine)),
            Err((fault, _)) => Err(fault),
        },
    }
}

/// Puts bytes after the others. If memory is refused, the same call succeeds the second time.
pub fn put(out: &mut Vec<u8>, bytes: &[u8]) -> Result<(), AllocError> {
    if out.extend_from_slice(bytes).is_err() {
        out.extend_from_slice(bytes)?;
    }
    Ok(())
}

// Puts the line of a record, if it has one.
fn put_record(out: &mut Vec<u8>, record: &Record) -> Result<(), AllocError> {
    let mut text = Text::none();
    if print_entry(record, &mut text).is_ok() {
        put(out, text.as_slice())?;
    }
    put(out, b"\n")
}

/// Puts the line of the sums.
pub fn put_totals(out: &mut Vec<u8>, totals: Totals) -> Result<(), AllocError> {
    let mut text = Text::none();
    print_totals(totals, &mut text);
    put(out, text.as_slice())
}

// More stops than the programs of the cases have.
const MOST_STOPS: usize = 1000;

impl Side {
    /// An engine of which nothing was asked.
    pub fn of(alloc: Global, engine: Engine, manner: Manner) -> Self {
        Side {
            asked: Asked { engine, manner },
            hands: HeldHandles::empty(alloc),
            told: 0,
        }
    }

    /// The engine's sums.
    pub fn totals(&self) -> Totals {
        self.asked.engine.totals()
    }

    /// Makes a call of the engine, and keeps what it gives or what comes back.
    pub fn call(&mut self, call: &Call) -> Result<CallAnswer, Unanswered> {
        self.hands.call(&mut self.asked, call)
    }

    /// Lets the run of that number go on to its next stop.
    pub fn step(&mut self, run: u32) -> Result<(), Unanswered> {
        self.hands.advance(&mut self.asked, run)
    }

    /// Lets the run of that number go on up to its exit: by the one call for that, or stop by stop.
    pub fn drive(&mut self, run: u32) -> Result<(), Unanswered> {
        if self.asked.manner == Manner::Methods {
            let mut driving = Driving {
                engine: &mut self.asked.engine,
            };
            return self.hands.advance(&mut driving, run);
        }
        self.step(run)?;
        for _ in 0..MOST_STOPS {
            match self.step(run) {
                Ok(()) => {}
                Err(Unanswered::NotHeld) => return Ok(()),
                Err(fault) => return Err(fault),
            }
        }
        Err(Unanswered::NotHeld)
    }

    /// Puts the lines of the records that are not told yet.
    pub fn tell_news(&mut self, out: &mut Vec<u8>) -> Result<(), AllocError> {
        let records = self.asked.engine.records();
        for number in self.told..records.len() {
            put_record(out, &records[number])?;
        }
        self.told = records.len();
        Ok(())
    }

    /// Spends what was given, and shuts the engine: its sums.
    pub fn end(self) -> Totals {
        let Side {
            asked,
            hands: _,
            told: _,
        } = self;
        let Asked { engine, manner: _ } = asked;
        engine.shut().totals
    }
}
