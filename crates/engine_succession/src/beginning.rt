// An engine that begins with lines. It relies on `engine_beginning` for what each line makes of an engine, and for the first one that none
// could have.

ghost use Rattle.std.specs.Prelude.{◌≡◌, ◌++◌, [], IfErr, IfOk, OnErr, OnOk};
ghost use Rattle.engine_runs.specs.RunsState.{no_runs};
ghost use Rattle.world.specs.Lawful.{IsLawful};
ghost use Rattle.world.specs.World.{opening};
ghost use Rattle.engine_beginning.specs.Begun.{begun};
ghost use Rattle.engine_succession.specs.FromLines.{BeginsNumbered, BeginsWith, IsRefused};
ghost use Rattle.engine_succession.specs.Taking.{AreTaken, IsEntered, StopsFor, listed};

use engine_beginning::{Beginning, DoesNotFit};
use engine_config::Config;
use engine_core::{Engine, GuestToken, NumberedEngine};
use engine_runs::Runs;
use engine_transport::Transport;
use freeze_ledger::FreezeToken;
use std::alloc::{AllocError, Global};
use world_calls::CarriedLine;

/// Why no engine began.
#[derive(Clone, Copy, Debug, PartialEq, Eq)]
pub enum BeginFault {
    /// The line at this place, from 0, is the first one at fault: some engine of the configuration begins with the lines before it, followed
    /// by others, and none with this one after them. After the last line the place is their number: the lines are too few.
    DoesNotFit(usize),
    /// Memory was refused.
    OutOfMemory,
}

/// An engine that begins with these lines, and a token for each guest's freeze in them, in the order of their numbers. Refused with the
/// place of the first line at fault. Every fault hands the configuration back.
pub fn begin(
    alloc: Global,
    config: Config,
    lines: &[CarriedLine],
) -> Result<(Engine, Vec<GuestToken>), (BeginFault, Config)>
    ensures begun { IfOk result (λ it. BeginsWith config lines.now it.0 it.1.items) }
    ensures refused { IfErr result (λ fault. IsRefused config lines.now fault.0) }
    ensures back { IfErr result (λ fault. fault.1 ≡ config) }
{
    match entered(alloc, &config, lines) {
        Ok((transport, runs, guests)) => match Engine::begin(alloc, config, transport, runs) {
            Ok(engine) => Ok((engine, guests)),
            Err((AllocError, config)) => Err((BeginFault::OutOfMemory, config)),
        },
        Err(fault) => Err((fault, config)),
    }
}

/// The same of an engine that keeps no history, and has the tokens itself.
pub fn begin_numbered<'a>(
    alloc: Global,
    config: &'a Config,
    lines: &[CarriedLine],
) -> Result<NumberedEngine<'a>, BeginFault>
    ensures begun { IfOk result (λ engine. BeginsNumbered config.now lines.now engine) }
    ensures refused { IfErr result (IsRefused config.now lines.now) }
{
    match entered(alloc, config, lines) {
        Ok((transport, runs, guests)) => Ok(NumberedEngine::begin(config, transport, runs, guests)),
        Err(fault) => Err(fault),
    }
}

// What such an engine begins with.
fn entered(
    alloc: Global,
    config: &Config,
    lines: &[CarriedLine],
) -> Result<(Transport, Runs, Vec<GuestToken>), BeginFault>
    ensures entered { IfOk result (λ it. IsEntered config.now lines.now it.0 it.1 it.2.items) }
    ensures refused { IfErr result (IsRefused config.now lines.now) }
    ensures lawful { IsLawful config.now }
{
    let Ok((transport, runs)) = opened(alloc, config) else {
        return Err(BeginFault::OutOfMemory);
    };
    let mut beginning = Beginning::new(config, transport, runs);
    let mut guests = Vec::new(alloc);
    match take_all(&mut beginning, &mut guests, lines) {
        Ok(()) => match beginning.finish() {
            Some((transport, runs)) => Ok((transport, runs, guests)),
            None => Err(BeginFault::DoesNotFit(lines.len())),
        },
        Err(fault) => Err(fault),
    }
}

/// The queues and tables of the configuration, with no CCB, no freeze and no run.
pub(crate) fn opened(alloc: Global, config: &Config) -> Result<(Transport, Runs), AllocError>
    ensures transport { IfOk result (λ parts. parts.0 ≡ (opening config.now).transport) }
    ensures runs { IfOk result (λ parts. parts.1 ≡ no_runs config.now.limits.table_lengths) }
    ensures lawful { IsLawful config.now }
{
    let mut openings = Vec::with_capacity(alloc, config.queues() as usize)?;
    for queue in 0..config.queues() {
        openings.push(config.openings(queue))?;
    }
    let transport = Transport::with_room(alloc, &openings)?;
    let runs = Runs::with_room(alloc, config.table_lengths())?;
    Ok((transport, runs))
}

// Takes all lines, one after the other, and keeps the tokens of guests.
fn take_all(
    beginning: &mut Beginning<'_>,
    guests: &mut Vec<GuestToken>,
    lines: &[CarriedLine],
) -> Result<(), BeginFault>
    ensures taken { OnOk result (AreTaken beginning.old lines.now guests.old.items beginning.new guests.new.items) }
    ensures stopped { IfErr result (StopsFor beginning.old lines.now) }
{
    let mut place = 0usize;
    for line in lines {
        match beginning.take(line) {
            Ok(token) => match keep(guests, token) {
                Ok(()) => place += 1,
                Err(AllocError) => return Err(BeginFault::OutOfMemory),
            },
            Err(DoesNotFit) => return Err(BeginFault::DoesNotFit(place)),
        }
    }
    Ok(())
}

// One token more, if there is one.
fn keep(guests: &mut Vec<GuestToken>, token: Option<FreezeToken>) -> Result<(), AllocError>
    ensures { OnOk result (guests.new.items ≡ guests.old.items ++ listed token) }
{
    match token {
        Some(token) => Ok(guests.push(GuestToken::new(token))?),
        None => Ok(()),
    }
}
