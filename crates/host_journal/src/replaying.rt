// A segment of a folder, replayed. It relies on `host_recovery`, and on `text` for whether a segment that is faulty is text.

ghost use Rattle.std.specs.Prelude.{◌≡◌, IfErr, MatchOption, OnOk};
ghost use Rattle.base.specs.declared.or_memory.OrMemory.TheVariants.{Fault};
ghost use Rattle.host_recovery.specs.Recovering.{Answers};
ghost use Rattle.host_journal.specs.Disks.{IsQuiet};
ghost use Rattle.host_journal.specs.Starts.{HasCause, IsReplay, IsToldOf, ReadsSince, Replays};
ghost use Rattle.host_journal.specs.declared.fault.JournalFault.TheVariants.{File};
ghost use Rattle.host_journal.specs.declared.fault.JournalFile.TheVariants.{Segment};

use crate::disk::Disk;
use crate::fault::{JournalError, JournalFault, JournalFile, of_file};
use crate::source::{Lending, Lent, OpenSegment, Reader};
use crate::text::is_text;
use base::OrMemory;
use engine_config::Config;
use host_recovery::{ReadFailed, Recovered, RecoveryError, RecoveryFault, recover};
use std::alloc::Global;
use std::marker::{Brand, PhantomData};

/// The engine to which the records of the segment of that number lead. What is told of a segment that is not UTF-8 is that, before any
/// other fault of it.
pub(crate) fn replayed<'a, D: Disk>(
    alloc: Global,
    disk: &mut D,
    number: u64,
    config: &'a Config,
) -> Result<Recovered<'a>, JournalError>
    ensures replays { Replays config.now number ((D.held disk.old).segments number) result }
    ensures held { D.held disk.new ≡ D.held disk.old }
    ensures steps { IsReplay number (D.steps disk.old) result (D.steps disk.new) }
    ensures which { OnOk result (D.segment disk.new ≡ number) }
    ensures cause { IfErr result (HasCause number ((D.held disk.old).segments number) (D.steps disk.old) (D.steps disk.new)) }
{
    match disk.open_segment(number) {
        Ok(()) => {}
        Err(fault) => return Err(of_file(fault, JournalFile::Segment(number))),
    }
    match read_open(alloc, disk, config) {
        Ok(recovered) => Ok(recovered),
        Err(OrMemory::OutOfMemory) => Err(OrMemory::OutOfMemory),
        Err(OrMemory::Fault(RecoveryFault::Unread)) => Err(unread(number)),
        Err(OrMemory::Fault(RecoveryFault::TooLong)) => Err(unread(number)),
        Err(OrMemory::Fault(RecoveryFault::Form(form))) => {
            Err(OrMemory::Fault(fault_of(disk, number, RecoveryFault::Form(form))))
        }
        Err(OrMemory::Fault(RecoveryFault::Unfollowed(at))) => {
            Err(OrMemory::Fault(fault_of(disk, number, RecoveryFault::Unfollowed(at))))
        }
    }
}

// Recovers an engine from what comes of this reader, which comes back.
fn read_lent<'a, M: Reader, L: Lent>(
    alloc: Global,
    reader: M,
    config: &'a Config,
) -> (M, Result<Recovered<'a>, RecoveryError>)
    requires name { M.name reader ≡ L.name }
    requires held { M.held reader ≡ L.held }
    requires segment { M.segment reader ≡ L.segment }
    requires steps { M.steps reader ≡ L.steps }
    ensures recovers { Answers config.now (M.remaining reader) result.1 }
    ensures name { M.name result.0 ≡ L.name }
    ensures held { M.held result.0 ≡ L.held }
    ensures segment { M.segment result.0 ≡ L.segment }
    ensures steps { ReadsSince L.segment L.steps result.1 (M.steps result.0) }
{
    let mut segment: OpenSegment<M, L> = OpenSegment {
        reader,
        failed: 0,
        of: PhantomData,
    };
    let result = recover(alloc, config, &mut segment);
    let OpenSegment {
        reader,
        failed: _,
        of: _,
    } = segment;
    (reader, result)
}

// Recovers an engine from the open segment. The folder comes back.
fn read_lending<'a, 'd, D: Disk>(
    alloc: Global,
    disk: &'d mut D,
    config: &'a Config,
    came: &mut Option<Result<Recovered<'a>, RecoveryError>>,
) -> Lending<'d, D>
    ensures recovers { MatchOption came.new ⊥ (Answers config.now (D.remaining disk.old)) }
    ensures same { result.disk.ghost_name ≡ disk.entry.ghost_name }
    ensures held { D.held result.disk.now ≡ D.held disk.old }
    ensures which { D.segment result.disk.now ≡ D.segment disk.old }
    ensures steps { MatchOption came.new ⊥ (λ came. ReadsSince (D.segment disk.old) (D.steps disk.old) came (D.steps result.disk.now)) }
{
    let (lending, result) = read_lent::<Lending<'d, D>, Brand>(alloc, Lending { disk }, config);
    *came = Some(result);
    lending
}

// Recovers an engine from the open segment.
fn read_open<'a, D: Disk>(
    alloc: Global,
    disk: &mut D,
    config: &'a Config,
) -> Result<Recovered<'a>, RecoveryError>
    ensures recovers { Answers config.now (D.remaining disk.old) result }
    ensures held { D.held disk.new ≡ D.held disk.old }
    ensures which { D.segment disk.new ≡ D.segment disk.old }
    ensures steps { ReadsSince (D.segment disk.old) (D.steps disk.old) result (D.steps disk.new) }
{
    let mut came = None;
    let lending = read_lending(alloc, disk, config, &mut came);
    lending.end();
    match came {
        Some(result) => result,
        None => Err(OrMemory::OutOfMemory),
    }
}

// The segment of that number cannot be read.
fn unread(number: u64) -> JournalError
    ensures { result ≡ Fault (File (Segment number)) }
{
    OrMemory::Fault(JournalFault::File(JournalFile::Segment(number)))
}

// What is told of a segment that was not recovered for that fault: it, if the segment is text; else that it is not.
fn fault_of<D: Disk>(disk: &mut D, number: u64, fault: RecoveryFault) -> JournalFault
    ensures told { IsToldOf number ((D.held disk.old).segments number) fault (D.steps disk.old) (D.steps disk.new) result }
    ensures held { D.held disk.new ≡ D.held disk.old }
    ensures quiet { IsQuiet (D.steps disk.old) (D.steps disk.new) }
{
    match disk.open_segment(number) {
        Ok(()) => {}
        Err(_) => return JournalFault::File(JournalFile::Segment(number)),
    }
    match is_text(disk) {
        Ok(true) => JournalFault::Segment(number, fault),
        Ok(false) | Err(ReadFailed) => JournalFault::File(JournalFile::Segment(number)),
    }
}
