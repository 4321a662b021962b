// An engine of a journal that is served: what it prints is appended to the segment before it goes out. It relies on `host_live` for what lines
// ask, and on `journaled` for what goes out.

ghost use Rattle.std.specs.Prelude.{◌≡◌, ℕ, List, Option, Err, IfErr, IfOk, IsOk, IsTrue, OnOk, Ok, false, length, true};
ghost use Rattle.base.specs.declared.or_memory.OrMemory.TheVariants.{Fault};
ghost use Rattle.world_calls.specs.declared.record.Record.{Record as TheRecord};
ghost use Rattle.engine_core.specs.ByNumber.{IsBehind};
ghost use Rattle.host_live.specs.Growth.{StandsBehind};
ghost use Rattle.host_live.specs.Metering.{CountsTo, MayCount};
ghost use Rattle.host_live.specs.Telling.{Continues};
ghost use Rattle.host_live.specs.Turns.{IsAt, IsSomewhere, Point};
ghost use Rattle.host_live.specs.declared.reports.Moment.TheVariants.{End as AtLast};
ghost use Rattle.host_live.specs.declared.serving.LiveFault.TheVariants.{Unread as InputUnread};
ghost use Rattle.host_journal.specs.Disks.{AllDone, Step, kept_so_far};
ghost use Rattle.host_journal.specs.Journals.{HasLost, MayStop, ServesInOrder, is_of_write};
ghost use Rattle.host_live.specs.LinesCome.{EndsALine};
ghost use Rattle.host_journal.specs.Made.{IsUnbegun, first_line, made_of};
ghost use Rattle.host_journal.specs.declared.fault.JournalFault.TheVariants.{Unread};

use crate::beginning::Begun;
use crate::disk::Disk;
use crate::fault::{JournalError, JournalFault, JournalFile};
use crate::journaled::{Journaled, ROOM};
use crate::lost::Lost;
use crate::making::first_text;
use crate::order::Order;
use base::OrMemory;
use engine_core::NumberedEngine;
use host_live::{Input, Lines, LiveFault, Manner, Moment, Reports};
use host_metrics::Metrics;
use std::alloc::Global;
use std::marker::Brand;
use trace::WriteFailed;

/// Serves an engine of this journal to which a history of so many records led, whose segment is open, until the input ends or another
/// engine is to follow this one; it returns whether one is. The lines of what a line of the input leads to are appended to the segment before
/// they go out, and with `is_synced` they are synced before. If the segment was just made, its text goes out first, and then the answer that is
/// owed. Each record is counted, and what was counted is reported when nothing more is served. At the end the last line of the trace is made; but a trace that is kept gets none while a run is live: then
/// the next start recovers the engine. Once the segment or standard output cannot be written, nothing goes out any more, and the fault says
/// which it was.
pub fn serve<D: Disk, I: Input, N: Reports>(
    alloc: Global,
    disk: D,
    begun: &Begun<'_>,
    engine: NumberedEngine<'_>,
    count: u64,
    manner: Manner,
    is_synced: bool,
    owed: Option<usize>,
    metrics: &mut Metrics,
    input: &mut I,
    lines: &mut Lines,
    reports: &mut N,
) -> (D, Result<bool, JournalError>)
    requires behind { StandsBehind count engine }
    requires segment { D.segment disk ≡ begun.now.number }
    requires begun { IsTrue lines.old.is_ended → IsTrue (I.has_ended input.old) }
    requires stands { IsSomewhere (I.came input.old) lines.old }
    requires counts { MayCount N.may_count engine metrics.old }
    // No byte goes out that is not in the segment, synced if that is asked for, but for answers between lines; at the end all is out. What
    // was appended is that of what the lines that came asked for, one by one, and each was answered so. The records of all that are counted,
    // each once and no others, over what was counted before; and what they come to was reported at last, as it is handed back, at the end and
    // where it stopped.
    ensures order { (point : Point) → IsAt point (I.came input.old) lines.old → ServesInOrder engine.entry count manner N.may_refuse owed point (I.came input.new) lines.new (N.has_decided reports.new) (CountsTo engine.entry metrics.old (N.has_counted reports.new AtLast) metrics.new) is_synced (first_line begun.now) (D.steps disk) (D.steps result.0) result.1 }
    // What was appended continues the history that led to the engine.
    ensures told { (records : List TheRecord) → IsBehind records engine.entry → count ≡ length records → Continues engine.entry.setup manner records (kept_so_far (D.steps disk)) result.1 (kept_so_far (D.steps result.0)) }
    ensures unread { result.1 ≡ Err (Fault Unread) → IsTrue (I.has_failed input.new) }
    ensures still { OnOk result.1 (I.has_failed input.new ≡ I.has_failed input.old) }
    ensures ended { manner.is_told ≡ false → result.1 ≡ Ok false → IsTrue (I.has_ended input.new) }
    ensures going { IsTrue lines.new.is_ended → IsTrue (I.has_ended input.new) }
    ensures stands { result.1 ≡ Ok true → IsSomewhere (I.came input.new) lines.new }
    // A write that failed is told as itself, and nothing is written after it.
    ensures fault { IfErr result.1 (MayStop begun.now.number (D.steps disk) (D.steps result.0)) }
{
    match first_waiting(alloc, begun) {
        Ok(pending) => serve_ordered::<Brand, D, I, N>(
            alloc, disk, pending, begun, engine, count, manner, is_synced, owed, metrics, input,
            lines, reports,
        ),
        Err(error) => {
            reports.counted(Moment::End, metrics, &engine);
            (disk, Err(error))
        }
    }
}

// What waits to go out at first: the text of a segment that the start made, or nothing.
fn first_waiting(alloc: Global, begun: &Begun<'_>) -> Result<Vec<u8>, JournalError>
    ensures first { IfOk result (λ pending. pending.items ≡ first_line begun.now) }
    ensures line { EndsALine (first_line begun.now) }
    ensures refused { IfErr result (IsUnbegun begun.now) }
{
    match begun.manifest {
        Some(_) => text_waiting(alloc, begun),
        None => Ok(Vec::with_capacity(alloc, ROOM)?),
    }
}

// The text with which a segment begins.
fn text_waiting(alloc: Global, begun: &Begun<'_>) -> Result<Vec<u8>, JournalError>
    ensures first { IfOk result (λ pending. pending.items ≡ made_of begun.now) }
    ensures refused { IfErr result (IsUnbegun begun.now) }
{
    match first_text(alloc, begun) {
        Ok(first) => {
            let mut pending = Vec::with_capacity(alloc, ROOM)?;
            pending.extend_from_slice(first.as_slice())?;
            Ok(pending)
        }
        Err(error) => Err(error),
    }
}

// Serves the engine in this order of writes.
fn serve_ordered<O: Order, D: Disk, I: Input, N: Reports>(
    alloc: Global,
    disk: D,
    pending: Vec<u8>,
    begun: &Begun<'_>,
    engine: NumberedEngine<'_>,
    count: u64,
    manner: Manner,
    is_synced: bool,
    owed: Option<usize>,
    metrics: &mut Metrics,
    input: &mut I,
    lines: &mut Lines,
    reports: &mut N,
) -> (D, Result<bool, JournalError>)
    requires before { O.before ≡ D.steps disk }
    requires segment { O.segment ≡ D.segment disk }
    requires number { O.segment ≡ begun.now.number }
    requires first { O.first ≡ pending.items }
    requires line { EndsALine O.first }
    requires synced { O.is_synced ≡ is_synced }
    requires behind { StandsBehind count engine }
    requires begun { IsTrue lines.old.is_ended → IsTrue (I.has_ended input.old) }
    requires stands { IsSomewhere (I.came input.old) lines.old }
    requires counts { MayCount N.may_count engine metrics.old }
    ensures order { (point : Point) → IsAt point (I.came input.old) lines.old → ServesInOrder engine.entry count manner N.may_refuse owed point (I.came input.new) lines.new (N.has_decided reports.new) (CountsTo engine.entry metrics.old (N.has_counted reports.new AtLast) metrics.new) O.is_synced O.first O.before (D.steps result.0) result.1 }
    ensures told { (records : List TheRecord) → IsBehind records engine.entry → count ≡ length records → Continues engine.entry.setup manner records (kept_so_far (D.steps disk)) result.1 (kept_so_far (D.steps result.0)) }
    ensures unread { result.1 ≡ Err (Fault Unread) → IsTrue (I.has_failed input.new) }
    ensures still { OnOk result.1 (I.has_failed input.new ≡ I.has_failed input.old) }
    ensures ended { manner.is_told ≡ false → result.1 ≡ Ok false → IsTrue (I.has_ended input.new) }
    ensures going { IsTrue lines.new.is_ended → IsTrue (I.has_ended input.new) }
    ensures stands { result.1 ≡ Ok true → IsSomewhere (I.came input.new) lines.new }
    ensures fault { IfErr result.1 (MayStop begun.now.number O.before (D.steps result.0)) }
{
    let mut out: Journaled<D, O> = Journaled::of(disk, pending, is_synced);
    let served = host_live::serve(
        alloc, engine, count, manner, owed, metrics, input, lines, &mut out, reports,
    );
    let flushed = out.flush();
    let (disk, lost) = out.into_parts();
    (disk, verdict(begun.number, served, flushed, lost))
}

// How it ended: which write failed, if one did, or else what the engine was stopped by.
fn verdict(
    number: u64,
    served: Result<bool, LiveFault>,
    flushed: Result<(), WriteFailed>,
    lost: Option<Lost>,
) -> Result<bool, JournalError>
    ensures done { IfOk result (λ is_followed. (served ≡ Ok is_followed) × IsOk flushed) }
    ensures unread { result ≡ Err (Fault Unread) → served ≡ Err InputUnread }
    ensures fault { (old new : Option (List Step)) → HasLost number old new lost → (is_of_write lost ≡ false → AllDone old new) → IfErr result (MayStop number old new) }
{
    match lost {
        Some(Lost::Segment) => Err(OrMemory::Fault(JournalFault::File(JournalFile::Segment(
            number,
        )))),
        Some(Lost::Output) => Err(OrMemory::Fault(JournalFault::Unwritten)),
        Some(Lost::OutOfMemory) => Err(OrMemory::OutOfMemory),
        Some(Lost::InternalError) => Err(OrMemory::Fault(JournalFault::InternalError)),
        None => unlost(served, flushed),
    }
}

// How it ended, if no write failed.
fn unlost(
    served: Result<bool, LiveFault>,
    flushed: Result<(), WriteFailed>,
) -> Result<bool, JournalError>
    ensures done { IfOk result (λ is_followed. (served ≡ Ok is_followed) × IsOk flushed) }
    ensures unread { result ≡ Err (Fault Unread) → served ≡ Err InputUnread }
    ensures fault { (number : ℕ) (old new : Option (List Step)) → AllDone old new → IfErr result (MayStop number old new) }
{
    match served {
        Ok(is_followed) => match flushed {
            Ok(()) => Ok(is_followed),
            Err(WriteFailed) => Err(OrMemory::Fault(JournalFault::InternalError)),
        },
        Err(LiveFault::OutOfMemory) => Err(OrMemory::OutOfMemory),
        Err(LiveFault::Unread) => Err(OrMemory::Fault(JournalFault::Unread)),
        Err(LiveFault::Unwritten | LiveFault::InternalError) => {
            Err(OrMemory::Fault(JournalFault::InternalError))
        }
    }
}
