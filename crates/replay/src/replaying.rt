// The replay of a whole trace, record by record, and of its last line. It relies on `following` for whether a record follows.

ghost use Rattle.std.specs.Prelude.{◌≡◌, [], IfOk};
ghost use Rattle.engine_core.specs.ByNumber.{IsBehind};
ghost use Rattle.replay.specs.Replaying.{Replays, RecordsLead};
ghost use Rattle.world.specs.World.{version_of};

use crate::fault::{ReplayError, ReplayFault};
use crate::following::follows;
use crate::likeness::{is_same_totals, is_same_version};
use base::OrMemory;
use base_chunked_list::ChunkedList;
use engine_core::{Config, NumberedEngine};
use std::alloc::{AllocError, Global};
use world_calls::{Notice, Notices, Record, Trace, Version};

/// After how many records it is asked again whether it is to be told how far a replay is.
const OFTEN: usize = 4096;

/// Whether the trace is a history of an engine of this configuration, with its sums: it is of the version of such histories, each
/// record is what the engine tells when it is asked the same, an advance that of the run's next stop, and the last line has the sums
/// after them all. Else X3 with the first line that does not follow, the header's where the version is another. Of the trace's lines it takes no memory but for bytes that a line tells. How far it is, is told where
/// that is wanted.
pub fn replay<N: Notices>(
    alloc: Global,
    config: &Config,
    trace: &Trace,
    notices: &N,
) -> Result<(), ReplayError>
    ensures { Replays config.now 0 trace.now result }
{
    if !is_same_version(trace.version, Version::of(config.helpers())) {
        return Err(OrMemory::Fault(ReplayFault::Header));
    }
    let mut engine = NumberedEngine::open(alloc, config)?;
    replay_on(&mut engine, 0, trace, notices)
}

/// The same on an engine to which nothing has led yet. The trace has so many carried lines, by which a fault counts.
pub(crate) fn replay_on<N: Notices>(
    engine: &mut NumberedEngine<'_>,
    carried: usize,
    trace: &Trace,
    notices: &N,
) -> Result<(), ReplayError>
    requires nothing { IsBehind [] engine.old }
    requires version { trace.now.version ≡ version_of engine.old.setup }
    ensures { Replays engine.old.setup carried trace.now result }
{
    let followed = followed(engine, &trace.records, notices)?;
    if followed == trace.records.len()
        && is_same_totals(engine.totals(followed as u64), trace.totals)
    {
        Ok(())
    } else {
        Err(OrMemory::Fault(ReplayFault::Behind {
            carried,
            records: followed,
        }))
    }
}

// How many records follow from the opening, one after the other, before the first that does not.
fn followed<N: Notices>(
    engine: &mut NumberedEngine<'_>,
    records: &ChunkedList<Record>,
    notices: &N,
) -> Result<usize, AllocError>
    requires { IsBehind [] engine.old }
    ensures { IfOk result (λ count. RecordsLead engine.old.setup records.now.items count engine.new) }
{
    let all = records.len();
    let mut count = 0usize;
    for record in records.iter() {
        if !follows(engine, record)? {
            return Ok(count);
        }
        count += 1;
        tell(notices, count, all);
    }
    Ok(count)
}

// Tells how many records were replayed, of so many: whether that is wanted is asked now and then.
fn tell<N: Notices>(notices: &N, count: usize, all: usize) {
    if count.is_multiple_of(OFTEN) && notices.is_wanted() {
        notices.tell(Notice::Replayed(count as u64, all as u64));
    }
}
