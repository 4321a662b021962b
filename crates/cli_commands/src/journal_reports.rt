// What is reported of a journal: what a start found, and why it is refused or its engine stopped, as a line for the user and as a status. It relies on `host_journal` for faults, and on `fault`
// for how files are named.

ghost use Rattle.std.specs.Prelude.{◌≡◌, ◌⊎◌};
ghost use Rattle.host_journal.specs.declared.fault.JournalFault.TheVariants.{Segment};
ghost use Rattle.cli_commands.specs.Journaling.{IsStatus, IsStatusOf};

use crate::fault::Fault;
use crate::serving::INPUT;
use base::OrMemory;
use engine_core::NumberedEngine;
use host_journal::{JournalError, JournalFault, JournalFile};
use host_recovery::{Recovered, RecoveryFault};
use std::alloc::{AllocError, Global};
use std::io::Write;
use world_calls::Notice;

/// Where the files of a journal are: its folder, and the manifest that is given.
#[derive(Clone, Copy)]
pub(crate) struct Place<'a> {
    pub(crate) alloc: Global,
    pub(crate) folder: &'a str,
    pub(crate) path: &'a str,
}

/// Reports why a journal was refused, or its engine stopped, and returns the status.
pub(crate) fn report<E: Write>(place: Place<'_>, fault: JournalError, err: &mut E) -> u8
    ensures { IsStatus fault result }
{
    match fault {
        OrMemory::OutOfMemory => Fault::OutOfMemory.report(err),
        OrMemory::Fault(fault) => report_fault(&fault, place, err),
    }
}

// The same of a fault.
fn report_fault<E: Write>(fault: &JournalFault, place: Place<'_>, err: &mut E) -> u8
    ensures { IsStatusOf fault.now result }
{
    match fault {
        JournalFault::Foreign => refuse("J1", err),
        JournalFault::OtherManifest => refuse("J2", err),
        JournalFault::InUse => refuse("J3", err),
        JournalFault::File(file) => report_file(*file, place, err),
        JournalFault::Unreadable => Fault::File(place.path).report(err),
        JournalFault::Given(fault) => tell(writeln!(err, "camr: {fault}").is_ok()),
        JournalFault::Manifest(number, fault) => {
            tell(writeln!(err, "camr: {number:06}.toml {fault}").is_ok())
        }
        JournalFault::Segment(number, fault) => { report_segment(*number, fault, place, err) }
        JournalFault::RunLive => refuse("N3", err),
        JournalFault::DoesNotFit => refuse("N4", err),
        JournalFault::NotContinued(number) => {
            tell(writeln!(err, "camr: {number:06}.trace X5").is_ok())
        }
        JournalFault::Unread => Fault::File(INPUT).report(err),
        JournalFault::Unwritten => 2,
        JournalFault::InternalError => Fault::InternalError.report(err),
    }
}

// A refusal that has no place.
fn refuse<E: Write>(code: &str, err: &mut E) -> u8
    ensures { (result ≡ 1) ⊎ (result ≡ 2) }
{
    tell(writeln!(err, "camr: {code}").is_ok())
}

// The status of a refusal, which could be reported or not.
fn tell(is_told: bool) -> u8
    ensures { (result ≡ 1) ⊎ (result ≡ 2) }
{
    if is_told { 1 } else { 2 }
}

// Reports what is wrong with a segment.
fn report_segment<E: Write>(number: u64, fault: &RecoveryFault, place: Place<'_>, err: &mut E) -> u8
    ensures { IsStatusOf (Segment number fault.now) result }
{
    match fault {
        RecoveryFault::Form(fault) => tell(writeln!(
            err,
            "camr: {number:06}.trace {fault}"
        ).is_ok()),
        RecoveryFault::Unfollowed(fault) => {
            tell(writeln!(err, "camr: {number:06}.trace {fault}").is_ok())
        }
        RecoveryFault::Unread | RecoveryFault::TooLong => {
            report_file(JournalFile::Segment(number), place, err)
        }
    }
}

// Reports which file cannot be read or written, or is not UTF-8.
fn report_file<E: Write>(file: JournalFile, place: Place<'_>, err: &mut E) -> u8
    ensures { result ≡ 2 }
{
    match path_of(place.alloc, file, place.folder) {
        Ok(path) => Fault::File(path.as_str()).report(err),
        Err(AllocError) => Fault::OutOfMemory.report(err),
    }
}

// The path of a file.
fn path_of(alloc: Global, file: JournalFile, folder: &str) -> Result<String, AllocError> {
    match file {
        JournalFile::Folder => String::from_str(alloc, folder),
        JournalFile::Lock => format!(in alloc; "{folder}/lock"),
        JournalFile::Manifest(number) => format!(in alloc; "{folder}/{number:06}.toml"),
        JournalFile::Segment(number) => format!(in alloc; "{folder}/{number:06}.trace"),
    }
}

/// Reports what was recovered.
pub(crate) fn report_recovered<E: Write>(recovered: &Recovered<'_>, err: &mut E) {
    let totals = recovered.engine.totals(recovered.records);
    let _ = writeln!(err, "camr: recovered {}", Notice::Sums(totals));
}

/// Reports what was carried over.
pub(crate) fn report_carried<E: Write>(recovered: &Recovered<'_>, err: &mut E) {
    let freezes = recovered.engine.totals(0).frozen;
    let ccbs = count_ccbs(&recovered.engine);
    let _ = writeln!(err, "camr: carried over {freezes} freezes, {ccbs} CCBs");
}

// How many CCBs are live.
fn count_ccbs(engine: &NumberedEngine<'_>) -> usize {
    for place in 0..usize::MAX {
        if engine.ccb_at(place).is_none() {
            return place;
        }
    }
    usize::MAX
}
