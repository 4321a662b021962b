// An engine that keeps no history and begins with lines, which come one at a time and are not kept. It relies on `engine_beginning` for what
// each line makes of an engine, and on `engine_core` for the engine.

ghost use Rattle.std.specs.Prelude.{◌≡◌, ◌<◌, ◌++◌, [], IfNone, IfOk, IfSome, List, OnErr, length, vec_capacity};
ghost use Rattle.world.specs.World.{Setup};
ghost use Rattle.world_calls.specs.declared.carried_line.CarriedLine.{CarriedLine as Line};
ghost use Rattle.engine_succession.specs.FromLines.{BeginsNumbered, IsRefused};
ghost use Rattle.engine_succession.specs.Stepwise.{HasBegun, TakesLine};
ghost use Rattle.engine_succession.specs.Taking.{listed};
ghost use Rattle.engine_succession.specs.declared.beginning.BeginFault.TheVariants.{DoesNotFit as RefusedAt};

use crate::beginning::opened;
use engine_beginning::{Beginning, DoesNotFit};
use engine_config::Config;
use engine_core::{GuestToken, NumberedEngine};
use freeze_ledger::FreezeToken;
use std::alloc::{AllocError, Global};
use std::marker::Model;
use world_calls::CarriedLine;

/// An engine of a configuration that begins with lines, as far as these were taken. Its memory does not grow with the lines, but for a token
/// for each guest's freeze among them.
#[derive(Drop)]
pub struct StepwiseBeginning<'a> {
    config: &'a Config,
    beginning: Beginning<'a>,
    guests: Vec<GuestToken>,
}

impl<'a> Model for StepwiseBeginning<'a> {
    ghost use Rattle.engine_succession.specs.Stepwise.{StepwiseState};

    ghost Value = { StepwiseState };

    ghost use Rattle.std.specs.Prelude.{◌≡◌};
    ghost use Rattle.engine_core.specs.ByNumber.{guests_of};

    ghost view = { λ s. record { begun = s.beginning; guests = s.guests.items } };

    ghost invariant = { λ s. (s.beginning.setup ≡ s.config.now) × (s.guests.items ≡ guests_of s.beginning.transport.freezes) };
}

impl<'a> StepwiseBeginning<'a> {
    /// No line was taken yet.
    pub fn new(alloc: Global, config: &'a Config) -> Result<Self, AllocError>
        ensures { IfOk result (HasBegun config.now []) }
    {
        let (transport, runs) = opened(alloc, config)?;
        Ok(StepwiseBeginning {
            config,
            beginning: Beginning::new(config, transport, runs),
            guests: Vec::new(alloc),
        })
    }

    /// Takes the next line, and returns whether it did: if not, it is the first one at fault, since some engine of the configuration begins
    /// with the lines before it, and none with this one after them, whatever comes after it. Where memory is refused nothing changes.
    pub fn take(&mut self, line: &CarriedLine) -> Result<bool, AllocError>
        ensures takes { IfOk result (λ fits. TakesLine self.old line.now fits self.new) }
        ensures refused { OnErr result (self.new ≡ self.old) }
    {
        self.guests.reserve(1)?;
        match self.beginning.take(line) {
            Ok(token) => {
                keep_token(&mut self.guests, token);
                Ok(true)
            }
            Err(DoesNotFit) => Ok(false),
        }
    }

    /// The engine that begins with just the lines that were taken; `None` exactly if they are too few.
    pub fn finish(self) -> Option<NumberedEngine<'a>>
        ensures begins { IfSome result (λ engine. (setup : Setup) (lines : List Line) → HasBegun setup lines self.entry → BeginsNumbered setup lines engine) }
        ensures few { IfNone result ((setup : Setup) (lines : List Line) → HasBegun setup lines self.entry → IsRefused setup lines (RefusedAt (length lines))) }
    {
        let StepwiseBeginning {
            config,
            beginning,
            guests,
        } = self;
        match beginning.finish() {
            Some((transport, runs)) => {
                Some(NumberedEngine::begin(config, transport, runs, guests))
            }
            None => None,
        }
    }
}

// One token more, if there is one. There is room for it.
fn keep_token(guests: &mut Vec<GuestToken>, token: Option<FreezeToken>)
    requires { length guests.old.items < vec_capacity guests.old }
    ensures { guests.new.items ≡ guests.old.items ++ listed token }
{
    if let Some(token) = token {
        guests.push_reserved(GuestToken::new(token));
    }
}
