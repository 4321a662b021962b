// An engine that keeps no history and follows another such engine. It relies on `engine_carried` for what the old one leaves, and on
// `beginning` for an engine that begins with it.

ghost use Rattle.std.specs.Prelude.{IfErr, IfOk};
ghost use Rattle.engine_succession.specs.Numbered.{FollowsNumbered, IsNotFollowedNumbered};

use crate::beginning::{BeginFault, begin_numbered};
use crate::succession::SuccessionFault;
use engine_carried::{Numbering, carried_lines_numbered, fits_numbered};
use engine_core::{Config, NumberedEngine};
use std::alloc::Global;
use world_calls::CarriedLine;

/// Returns an engine of this configuration that takes over what the old one leaves, as `succeed` does, and the lines of that, with which
/// its trace begins. The old engine stays as it is: the caller ends it, or goes on with it and drops the new one.
pub fn succeed_numbered<'a>(
    alloc: Global,
    engine: &NumberedEngine<'_>,
    config: &'a Config,
    numbering: Numbering,
) -> Result<(NumberedEngine<'a>, Vec<CarriedLine>), SuccessionFault>
    ensures follows { IfOk result (λ it. FollowsNumbered numbering engine.now config.now it.0 it.1.items) }
    ensures refused { IfErr result (IsNotFollowedNumbered engine.now config.now) }
{
    // It is called for what it says of the configuration.
    let _ = config.queues();
    if engine.runs().len() > 0 {
        return Err(SuccessionFault::RunLive);
    }
    if !fits_numbered(engine, config) {
        return Err(SuccessionFault::DoesNotFit);
    }
    let Ok(lines) = carried_lines_numbered(alloc, engine, config, numbering) else {
        return Err(SuccessionFault::OutOfMemory);
    };
    match begin_numbered(alloc, config, &lines) {
        Ok(new) => Ok((new, lines)),
        Err(BeginFault::OutOfMemory) => Err(SuccessionFault::OutOfMemory),
        Err(BeginFault::DoesNotFit(_)) => unreachable!(),
    }
}
