// All segments of a journal, replayed one after the other, each of which has to begin with what the one before it left. It relies on
// `beginning` for which there are, on `replaying` for each, and on `left` for what one leaves.

ghost use Rattle.std.specs.Prelude.{◌≡◌, ◌≤◌, ◌<◌, ◌+◌, ◌-◌, ◌^◌, ℕ, Option, Some, IfErr, IfOk, OnOk, false, true};
ghost use Rattle.world.specs.World.{Setup};
ghost use Rattle.engine_core.specs.ByNumber.{NumberedState};
ghost use Rattle.host_journal.specs.Audits.{AreSound, FailsAt, FailsInSegment, FailsToAudit, IsAudited, IsConfiguredBy, IsJoined, IsLeftFor, IsReached, IsReplayed, counted, line_behind};
ghost use Rattle.host_journal.specs.Disks.{IsQuiet};
ghost use Rattle.base.specs.declared.or_memory.OrMemory.TheVariants.{Fault};
ghost use Rattle.host_journal.specs.declared.fault.JournalFault.TheVariants.{Segment};
ghost use Rattle.host_recovery.specs.declared.fault.RecoveryFault.TheVariants.{Form};
ghost use Rattle.trace.specs.declared.fault.TraceFault.TheVariants.{Line};

use crate::beginning::list_folder;
use crate::disk::Disk;
use crate::fault::{JournalError, JournalFault, JournalFile, of_file};
use crate::left::{Left, begins_with, left_by};
use crate::listing::Listing;
use crate::manifests::own;
use crate::replaying::replayed;
use base::OrMemory;
use engine_config::Config;
use host_recovery::{Recovered, RecoveryFault};
use std::alloc::Global;
use trace::TraceFault;

/// What a journal has.
#[derive(Clone, Copy, Debug, PartialEq, Eq)]
pub struct Audited {
    pub segments: u64,
    pub records: u64,
    /// Whether the newest segment has no last line.
    pub is_open: bool,
}

/// How far an audit came: the configuration of the next segment, what that may begin with, if a segment stands before it, and how many
/// records stand in those before it.
#[derive(Drop)]
struct Reached {
    config: Config,
    left: Option<Left>,
    records: u64,
}

/// Replays every segment over its manifest, by rising number, up to the first fault. Each but the first one has to begin with what the one
/// before it left. No lock is taken, and nothing is changed. A line of the newest segment that is not whole is passed over.
pub fn audit<D: Disk>(alloc: Global, disk: &mut D) -> Result<Audited, JournalError>
    // Each segment is one over its manifest, and begins with what the one before it left; and what is counted are their records.
    ensures audited { IfOk result (IsAudited (D.held disk.old)) }
    // J1 exactly if the names are not those of a journal; and each other refusal for its cause, which is the first one.
    ensures refused { IfErr result (FailsToAudit (D.held disk.old) (D.steps disk.old) (D.steps disk.new)) }
    ensures quiet { IsQuiet (D.steps disk.old) (D.steps disk.new) }
{
    match list_folder(alloc, disk) {
        Ok(Listing::Foreign) => Err(OrMemory::Fault(JournalFault::Foreign)),
        Ok(Listing::Empty) => Ok(Audited {
            segments: 0,
            records: 0,
            is_open: false,
        }),
        Ok(Listing::Segments { first, last }) => audit_all(alloc, disk, first, last),
        Err(error) => Err(error),
    }
}

// Replays the segments from that number to that one.
fn audit_all<D: Disk>(
    alloc: Global,
    disk: &mut D,
    first: u64,
    last: u64,
) -> Result<Audited, JournalError>
    requires { first ≤ last }
    ensures sound { IfOk result (AreSound (D.held disk.old) first last) }
    ensures refused { IfErr result (FailsAt (D.held disk.old) first last (D.steps disk.old) (D.steps disk.new)) }
    ensures quiet { IsQuiet (D.steps disk.old) (D.steps disk.new) }
{
    match configured(alloc, disk, first) {
        Ok(config) => {
            let start = Reached {
                config,
                left: None,
                records: 0,
            };
            audit_from(alloc, disk, start, first, last)
        }
        Err(error) => Err(error),
    }
}

// Replays them, where the audit came to the first one.
fn audit_from<D: Disk>(
    alloc: Global,
    disk: &mut D,
    start: Reached,
    first: u64,
    last: u64,
) -> Result<Audited, JournalError>
    requires some { first ≤ last }
    requires reached { IsReached (D.held disk.old) first first start }
    ensures sound { IfOk result (AreSound (D.held disk.old) first last) }
    ensures refused { IfErr result (FailsAt (D.held disk.old) first last (D.steps disk.old) (D.steps disk.new)) }
    ensures quiet { IsQuiet (D.steps disk.old) (D.steps disk.new) }
{
    match audit_before(alloc, disk, start, first, last) {
        Ok(reached) => audit_newest(alloc, disk, &reached, first, last),
        Err(error) => Err(error),
    }
}

// Replays the segments from that number to the one before that one.
fn audit_before<D: Disk>(
    alloc: Global,
    disk: &mut D,
    start: Reached,
    first: u64,
    last: u64,
) -> Result<Reached, JournalError>
    requires some { first ≤ last }
    requires reached { IsReached (D.held disk.old) first first start }
    ensures reached { IfOk result (IsReached (D.held disk.old) first last) }
    ensures refused { IfErr result (FailsAt (D.held disk.old) first last (D.steps disk.old) (D.steps disk.new)) }
    ensures held { D.held disk.new ≡ D.held disk.old }
    ensures quiet { IsQuiet (D.steps disk.old) (D.steps disk.new) }
{
    let mut reached = start;
    for number in first..last {
        match pass(alloc, disk, &reached, number, last) {
            Ok(next) => reached = next,
            Err(error) => return Err(error),
        }
    }
    Ok(reached)
}

// Replays the newest segment.
fn audit_newest<D: Disk>(
    alloc: Global,
    disk: &mut D,
    reached: &Reached,
    first: u64,
    last: u64,
) -> Result<Audited, JournalError>
    requires some { first ≤ last }
    requires reached { IsReached (D.held disk.old) first last reached.now }
    ensures sound { IfOk result (AreSound (D.held disk.old) first last) }
    ensures refused { IfErr result (FailsAt (D.held disk.old) first last (D.steps disk.old) (D.steps disk.new)) }
    ensures quiet { IsQuiet (D.steps disk.old) (D.steps disk.new) }
{
    match audit_segment(alloc, disk, reached, last, last) {
        Ok(its) => Ok(Audited {
            segments: (last - first).saturating_add(1),
            records: reached.records.saturating_add(its.records),
            is_open: !its.is_ended,
        }),
        Err(error) => Err(error),
    }
}

// Replays the segment of that number, after which others stand up to that one, and comes to the next one.
fn pass<D: Disk>(
    alloc: Global,
    disk: &mut D,
    reached: &Reached,
    number: u64,
    last: u64,
) -> Result<Reached, JournalError>
    requires below { number < last }
    ensures reached { (first : ℕ) → IsReached (D.held disk.old) first number reached.now → IfOk result (IsReached (D.held disk.old) first (number + 1)) }
    ensures refused { (first : ℕ) → IsReached (D.held disk.old) first number reached.now → IfErr result (FailsAt (D.held disk.old) first last (D.steps disk.old) (D.steps disk.new)) }
    ensures held { D.held disk.new ≡ D.held disk.old }
    ensures quiet { IsQuiet (D.steps disk.old) (D.steps disk.new) }
{
    match audit_segment(alloc, disk, reached, number, last) {
        Ok(its) => come_to_next(alloc, disk, reached.records, number, &its),
        Err(error) => Err(error),
    }
}

// Comes to the segment after the one of that number, before which so many records stand.
fn come_to_next<D: Disk>(
    alloc: Global,
    disk: &mut D,
    records: u64,
    number: u64,
    its: &Recovered<'_>,
) -> Result<Reached, JournalError>
    requires room { number < 2 ^ 64 - 1 }
    ensures configured { IfOk result (λ next. IsConfiguredBy (D.held disk.old) (number + 1) next.config) }
    ensures left { IfOk result (λ next. IsLeftFor (Some its.now.engine) next.config next.left) }
    ensures records { IfOk result (λ next. next.records ≡ counted (records + its.now.records)) }
    ensures refused { (last : ℕ) → IfErr result (FailsInSegment (D.held disk.old) (number + 1) last (Some its.now.engine) (D.steps disk.old) (D.steps disk.new)) }
    ensures held { D.held disk.new ≡ D.held disk.old }
    ensures quiet { IsQuiet (D.steps disk.old) (D.steps disk.new) }
{
    match configured(alloc, disk, number + 1) {
        Ok(config) => match left_by(alloc, &its.engine, &config) {
            Ok(left) => Ok(Reached {
                config,
                left: Some(left),
                records: records.saturating_add(its.records),
            }),
            Err(error) => Err(error),
        },
        Err(error) => Err(error),
    }
}

// Returns the configuration of the segment of that number.
fn configured<D: Disk>(alloc: Global, disk: &mut D, number: u64) -> Result<Config, JournalError>
    ensures configured { IfOk result (IsConfiguredBy (D.held disk.old) number) }
    ensures refused { (last : ℕ) (before : Option NumberedState) → IfErr result (FailsInSegment (D.held disk.old) number last before (D.steps disk.old) (D.steps disk.new)) }
    ensures held { D.held disk.new ≡ D.held disk.old }
    ensures quiet { IsQuiet (D.steps disk.old) (D.steps disk.new) }
{
    match disk.read_manifest(alloc, number) {
        Ok(bytes) => own(alloc, number, bytes.as_slice()),
        Err(fault) => Err(of_file(fault, JournalFile::Manifest(number))),
    }
}

// Replays the segment of that number, to which the audit came, of those up to that one.
fn audit_segment<'a, D: Disk>(
    alloc: Global,
    disk: &mut D,
    reached: &'a Reached,
    number: u64,
    last: u64,
) -> Result<Recovered<'a>, JournalError>
    ensures segment { IsConfiguredBy (D.held disk.old) number reached.now.config → IfOk result (IsReplayed (D.held disk.old) number reached.now.config) }
    ensures ended { IfOk result (λ its. number < last → its.is_ended ≡ true) }
    ensures joined { (before : Option NumberedState) → IsLeftFor before reached.now.config reached.now.left → IfOk result (IsJoined (D.held disk.old) number before reached.now.config) }
    ensures refused { (before : Option NumberedState) → IsConfiguredBy (D.held disk.old) number reached.now.config → IsLeftFor before reached.now.config reached.now.left
        → IfErr result (FailsInSegment (D.held disk.old) number last before (D.steps disk.old) (D.steps disk.new)) }
    ensures held { D.held disk.new ≡ D.held disk.old }
    ensures quiet { IsQuiet (D.steps disk.old) (D.steps disk.new) }
{
    match replayed(alloc, disk, number, &reached.config) {
        Ok(its) => whole(disk, number, last, its, &reached.left),
        Err(error) => Err(error),
    }
}

// The segment of that number, of those up to that one, if it has its last line where others stand after it, and begins with what the one
// before it left.
fn whole<'a, D: Disk>(
    disk: &mut D,
    number: u64,
    last: u64,
    its: Recovered<'a>,
    left: &Option<Left>,
) -> Result<Recovered<'a>, JournalError>
    ensures same { IfOk result (λ it. it ≡ its.entry) }
    ensures ended { OnOk result (number < last → its.entry.is_ended ≡ true) }
    ensures joined { (before : Option NumberedState) (config : Setup) → IsLeftFor before config left.now → IfOk result (IsJoined (D.held disk.old) number before config) }
    ensures refused { (before : Option NumberedState) (config : Setup) → IsLeftFor before config left.now → IsReplayed (D.held disk.old) number config its.entry
        → IfErr result (FailsInSegment (D.held disk.old) number last before (D.steps disk.old) (D.steps disk.new)) }
    ensures held { D.held disk.new ≡ D.held disk.old }
    ensures quiet { IsQuiet (D.steps disk.old) (D.steps disk.new) }
{
    if is_unended(number, last, &its) {
        return Err(unended(number, its.carried.saturating_add(its.records)));
    }
    joined(disk, number, its, left)
}

// Whether a segment lacks its last line, and others stand after it.
fn is_unended(number: u64, last: u64, its: &Recovered<'_>) -> bool
    ensures unended { result ≡ true → (number < last) × (its.now.is_ended ≡ false) }
    ensures other { result ≡ false → number < last → its.now.is_ended ≡ true }
{
    number < last && !its.is_ended
}

// The segment of that number, if it begins with what the one before it left.
fn joined<'a, D: Disk>(
    disk: &mut D,
    number: u64,
    its: Recovered<'a>,
    left: &Option<Left>,
) -> Result<Recovered<'a>, JournalError>
    ensures same { IfOk result (λ it. it ≡ its.entry) }
    ensures joined { (before : Option NumberedState) (config : Setup) → IsLeftFor before config left.now → IfOk result (IsJoined (D.held disk.old) number before config) }
    ensures refused { (before : Option NumberedState) (config : Setup) (last : ℕ) → IsLeftFor before config left.now → IsReplayed (D.held disk.old) number config its.entry → (number < last → its.entry.is_ended ≡ true)
        → IfErr result (FailsInSegment (D.held disk.old) number last before (D.steps disk.old) (D.steps disk.new)) }
    ensures held { D.held disk.new ≡ D.held disk.old }
    ensures quiet { IsQuiet (D.steps disk.old) (D.steps disk.new) }
{
    match left {
        Some(left) => match begins_with(disk, number, its.carried, left) {
            Ok(true) => Ok(its),
            // X5.
            Ok(false) => Err(OrMemory::Fault(JournalFault::NotContinued(number))),
            Err(error) => Err(error),
        },
        None => Ok(its),
    }
}

// X2 of a segment that has so many lines after its first one, and not its last line: the line in whose place that would stand.
fn unended(number: u64, lines: u64) -> JournalError
    ensures { result ≡ Fault (Segment number (Form (Line (line_behind lines)))) }
{
    let line = (lines as usize).saturating_add(2);
    OrMemory::Fault(JournalFault::Segment(number, RecoveryFault::Form(TraceFault::Line(line))))
}
