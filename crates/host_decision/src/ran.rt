// A run of a queue's policy, from lines to its end. It relies on `engine_succession` for the engine, which makes each record.

ghost use Rattle.std.specs.Prelude.{◌≡◌, ◌+◌, ◌<◌, ◌^◌, ◌++◌, ◌∷◌, [], All, IfErr, IfOk, MatchBool, OnOk, length, sum_by};
ghost use Rattle.world.specs.Lawful.{IsLawful};
ghost use Rattle.engine_core.specs.ByNumber.{IsAdvanceOf, IsBehind, RecordFollows};
ghost use Rattle.host_decision.specs.Ran.{AreOfRun, IsAtEnd, IsLedTo, IsUndecided, failed, instructions_of};
ghost use Rattle.host_decision.specs.Steps.{CannotFail, HasFailed, IsFresh, IsUnbegun, Keeps, RanOn, StepsOn, started_by, started_in};

use crate::undecided::{DecisionError, Undecided};
use base::OrMemory;
use ccb::Completion;
use engine_config::Config;
use engine_core::NumberedEngine;
use engine_core::laws::headline;
use engine_succession::{BeginFault, begin_numbered};
use std::alloc::{AllocError, Global};
use world_calls::{Call, CallAnswer, CarriedLine, CompletionRecord, Record};

/// A run has fewer stops: it executes at most 65,536 instructions.
const MORE_STOPS: u32 = 65_537;

/// An engine after a run, with the records that led to it: that of the failure, and those of the run's advances.
#[derive(Drop)]
pub struct Ran<'a> {
    pub engine: NumberedEngine<'a>,
    pub records: Vec<Record>,
    /// The number of the run.
    pub run: u32,
    /// The number of the freeze that was taken for the failure; 0 if none was.
    pub freeze: u32,
    /// How many instructions the run executed.
    pub instructions: u64,
}

/// Lets an engine of the configuration begin with these lines, reports the completion to it, and lets the run that starts go on to its end.
/// It is `Err` if no engine begins with them, if no run starts, or for want of memory.
pub fn run_from<'a>(
    alloc: Global,
    config: &'a Config,
    lines: &[CarriedLine],
    completion: &Completion,
) -> Result<Ran<'a>, DecisionError>
    ensures undecided { IfErr result (IsUndecided config.now lines.now completion.now) }
    ensures led { IfOk result (λ ran. IsLedTo config.now lines.now ran.records.items ran.engine) }
    ensures records { IfOk result (λ ran. AreOfRun completion.now ran.run ran.freeze ran.records.items) }
    ensures ended { IfOk result (λ ran. IsAtEnd ran.engine ran.run) }
    ensures instructions { IfOk result (λ ran. ran.instructions ≡ sum_by instructions_of ran.records.items) }
{
    // These are called for what they say of the configuration, and of all engines.
    let _ = config.queues();
    headline();
    let mut ran = begun(alloc, config, lines)?;
    ran.fail(completion)?;
    let ended = ran.go_on()?;
    if ended {
        return Ok(ran);
    }
    unreachable!()
}

// An engine with these lines, to which no record led.
fn begun<'a>(
    alloc: Global,
    config: &'a Config,
    lines: &[CarriedLine],
) -> Result<Ran<'a>, DecisionError>
    ensures fresh { IfOk result (IsFresh config.now lines.now) }
    ensures refused { IfErr result (IsUnbegun config.now lines.now) }
{
    // It is called for what it says of the configuration.
    let _ = config.queues();
    match begin_numbered(alloc, config, lines) {
        Ok(engine) => Ok(Ran {
            engine,
            records: Vec::new(alloc),
            run: 0,
            freeze: 0,
            instructions: 0,
        }),
        Err(BeginFault::DoesNotFit(_place)) => Err(OrMemory::Fault(Undecided::Lines)),
        Err(BeginFault::OutOfMemory) => Err(OrMemory::OutOfMemory),
    }
}

impl Ran<'_> {
    // Reports the completion, for which a run starts.
    fn fail(&mut self, completion: &Completion) -> Result<(), DecisionError>
        ensures failed { OnOk result (HasFailed self.old completion.now self.new) }
        ensures refused { IfErr result (CannotFail self.old.engine completion.now) }
    {
        let alloc = *self.records.allocator();
        let completion = CompletionRecord::new(alloc, completion)?;
        let call = Call::Complete { completion };
        let answer = self.engine.call(&call)?;
        match started_in(answer) {
            Some((run, freeze)) => {
                let answer = CallAnswer::Started { run, freeze };
                self.keep(Record::Called { answer, call })?;
                self.run = run;
                self.freeze = freeze;
                Ok(())
            }
            None => Err(OrMemory::Fault(Undecided::Status)),
        }
    }

    // One record more.
    fn keep(&mut self, told: Record) -> Result<(), AllocError>
        ensures { OnOk result (Keeps self.old told self.new) }
    {
        self.records.push(told)?;
        Ok(())
    }

    // Lets the run go on from stop to stop, and returns whether it came to its end.
    fn go_on(&mut self) -> Result<bool, AllocError>
        requires { self.old.instructions ≡ 0 }
        ensures { IfOk result (λ ended. RanOn ended self.old self.new) }
    {
        for _stop in 0..MORE_STOPS {
            let ended = self.step()?;
            if ended {
                return Ok(true);
            }
        }
        Ok(false)
    }

    // Lets the run go on to its next stop, and returns whether it was at its end.
    fn step(&mut self) -> Result<bool, AllocError>
        requires { self.old.instructions < 2 ^ 63 }
        ensures { IfOk result (λ ended. StepsOn ended self.old self.new) }
    {
        match self.engine.advance(self.run)? {
            Some(told) => {
                self.instructions += instructions_of(&told);
                self.keep(told)?;
                Ok(false)
            }
            None => Ok(true),
        }
    }
}

// The run that started, with its freeze, if one did.
fn started_in(answer: Option<CallAnswer>) -> Option<(u32, u32)>
    ensures { result ≡ started_in answer }
{
    match answer {
        Some(answer) => started_by(answer),
        None => None,
    }
}

fn started_by(answer: CallAnswer) -> Option<(u32, u32)>
    ensures { result ≡ started_by answer }
{
    match answer {
        CallAnswer::Started { run, freeze } => Some((run, freeze)),
        _ => None,
    }
}

// How many instructions a record is of.
fn instructions_of(told: &Record) -> u64
    ensures value { result ≡ instructions_of told.now }
    ensures bound { result < 2 ^ 32 }
{
    match told {
        Record::Advance { instructions, .. } => u64::from(*instructions),
        Record::Called { .. } => 0,
    }
}
