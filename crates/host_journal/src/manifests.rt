// What is read of manifests. It relies on `manifest` for what they say.

ghost use Rattle.std.specs.Prelude.{IfErr, IfOk};
ghost use Rattle.host_journal.specs.Journals.{IsConfigured};
ghost use Rattle.host_journal.specs.Starts.{IsGivenFault, IsOwnFault};

use crate::fault::{JournalError, JournalFault, JournalFile};
use base::OrMemory;
use engine_config::Config;
use std::alloc::Global;

/// The configuration that these bytes say, which are the manifest that is given.
pub(crate) fn given(alloc: Global, bytes: &[u8]) -> Result<Config, JournalError>
    ensures read { IfOk result (IsConfigured bytes.now) }
    ensures fault { IfErr result (IsGivenFault bytes.now) }
{
    let text = match str::from_utf8(bytes) {
        Ok(text) => text,
        Err(_) => return Err(OrMemory::Fault(JournalFault::Unreadable)),
    };
    match manifest::read(alloc, text) {
        Ok(manifest) => Ok(manifest.config),
        Err(OrMemory::OutOfMemory) => Err(OrMemory::OutOfMemory),
        Err(OrMemory::Fault(fault)) => Err(OrMemory::Fault(JournalFault::Given(fault))),
    }
}

/// The configuration that these bytes say, which are the manifest of the segment of that number.
pub(crate) fn own(alloc: Global, number: u64, bytes: &[u8]) -> Result<Config, JournalError>
    ensures read { IfOk result (IsConfigured bytes.now) }
    ensures fault { IfErr result (IsOwnFault number bytes.now) }
{
    let text = match str::from_utf8(bytes) {
        Ok(text) => text,
        Err(_) => return Err(OrMemory::Fault(JournalFault::File(JournalFile::Manifest(number)))),
    };
    match manifest::read(alloc, text) {
        Ok(manifest) => Ok(manifest.config),
        Err(OrMemory::OutOfMemory) => Err(OrMemory::OutOfMemory),
        Err(OrMemory::Fault(fault)) => Err(OrMemory::Fault(JournalFault::Manifest(number, fault))),
    }
}
