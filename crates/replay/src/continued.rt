// The replay of a continued trace. It relies on `engine_succession` for an engine that begins with the carried lines, and on `replaying` for
// the records.

ghost use Rattle.std.specs.Prelude.{};
ghost use Rattle.replay.specs.Continued.{ReplaysContinued};

use crate::fault::{ReplayError, ReplayFault};
use crate::likeness::is_same_version;
use crate::replaying::replay_on;
use base::OrMemory;
use engine_core::Config;
use engine_succession::{BeginFault, begin_numbered};
use std::alloc::Global;
use world_calls::{CarriedLine, Notices, Trace, Version};

/// Whether the trace, with these carried lines, is a history of an engine of this configuration that took over what the lines say. So an
/// engine of the configuration begins with just these lines, and the trace is of the version of its histories; each record is what the
/// engine answers when it is asked the same; and the last line has the sums after all of them. Else it returns the first fault of these:
/// X3 with the header, X4 with the first carried line with which no engine of the configuration begins, or X3 with the first line that
/// does not follow. It tells how far it is, as `replay` does.
pub fn replay_continued<N: Notices>(
    alloc: Global,
    config: &Config,
    carried: &[CarriedLine],
    trace: &Trace,
    notices: &N,
) -> Result<(), ReplayError>
    ensures { ReplaysContinued config.now carried.now trace.now result }
{
    if !is_same_version(trace.version, Version::of(config.helpers())) {
        return Err(OrMemory::Fault(ReplayFault::Header));
    }
    match begin_numbered(alloc, config, carried) {
        Ok(mut engine) => replay_on(&mut engine, carried.len(), trace, notices),
        Err(BeginFault::DoesNotFit(place)) => Err(OrMemory::Fault(ReplayFault::Carried(place))),
        Err(BeginFault::OutOfMemory) => Err(OrMemory::OutOfMemory),
    }
}
