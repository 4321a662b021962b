// An engine that follows another one. It relies on `engine_carried` for what the old one leaves, and on `beginning` for an engine that
// begins with it.

ghost use Rattle.std.specs.Prelude.{◌≡◌, IfErr, IfOk};
ghost use Rattle.engine_succession.specs.Succession.{Follows, IsNotFollowed};

use crate::beginning::{BeginFault, begin};
use engine_carried::{Numbering, carried_lines, fits};
use engine_config::Config;
use engine_core::{Engine, GuestToken};
use std::alloc::Global;
use world_calls::{CarriedLine, Trace};

/// Why an engine was not followed by another one: the first of these that holds.
#[derive(Clone, Copy, Debug, PartialEq, Eq)]
pub enum SuccessionFault {
    /// A run of it is live.
    RunLive,
    /// A live CCB is of a queue, or a freeze is of a queue or a controller, that the new configuration does not have; or a live CCB has
    /// a class or an advice, and the CCBs of the new configuration have none.
    DoesNotFit,
    /// Memory was refused.
    OutOfMemory,
}

/// An engine that follows another one, before its first call.
pub struct Successor {
    pub engine: Engine,
    /// A token for each guest's freeze, in the order of the freezes' numbers. The tokens of the engine before are worth nothing here.
    pub guests: Vec<GuestToken>,
    /// The lines of what was taken over, with which its trace begins.
    pub lines: Vec<CarriedLine>,
}

/// Ends an engine, and begins another one of this configuration that takes over its live CCBs, freezes, openings, words and clock. A
/// queue keeps its openings if both configurations give it the same number, and a table its words if both give it the same length and the
/// same first words; else it begins with those of the new configuration.
/// The trace has the records of the old engine that were not handed on, and its sums. A refusal leaves the old engine as it was, and
/// hands it back with the configuration.
pub fn succeed(
    alloc: Global,
    engine: Engine,
    config: Config,
    numbering: Numbering,
) -> Result<(Successor, Trace), (SuccessionFault, Engine, Config)>
    ensures follows { IfOk result (λ it. Follows numbering engine config it.0.engine it.0.guests.items it.0.lines.items it.1) }
    ensures refused { IfErr result (λ fault. IsNotFollowed engine config fault.0) }
    ensures back { IfErr result (λ fault. (fault.1 ≡ engine) × (fault.2 ≡ config)) }
{
    // It is called for what it says of the configuration.
    let _ = config.queues();
    if engine.runs().len() > 0 {
        return Err((SuccessionFault::RunLive, engine, config));
    }
    if !fits(&engine, &config) {
        return Err((SuccessionFault::DoesNotFit, engine, config));
    }
    let Ok(lines) = carried_lines(alloc, &engine, &config, numbering) else {
        return Err((SuccessionFault::OutOfMemory, engine, config));
    };
    match begin(alloc, config, &lines) {
        Ok((new, guests)) => {
            let ended = engine.shut();
            Ok((
                Successor {
                    engine: new,
                    guests,
                    lines,
                },
                ended,
            ))
        }
        Err((BeginFault::OutOfMemory, config)) => Err((
            SuccessionFault::OutOfMemory,
            engine,
            config,
        )),
        Err((BeginFault::DoesNotFit(_), _)) => unreachable!(),
    }
}
