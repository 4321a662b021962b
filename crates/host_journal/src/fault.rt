// Why a journal was refused, or an engine of it stopped. It relies on the faults of the parts.

ghost use Rattle.std.specs.Prelude.{◌≡◌};
ghost use Rattle.host_journal.specs.Faults.{file_error};

use crate::disk::DiskFault;
use base::OrMemory;
use host_recovery::RecoveryFault;
use manifest::ManifestFault;

/// What cannot be read or written, or is to be text and is not UTF-8.
#[derive(Clone, Copy, Debug, PartialEq, Eq)]
pub enum JournalFile {
    /// The folder.
    Folder,
    Lock,
    Manifest(u64),
    Segment(u64),
}

/// Why a journal was refused, or an engine of it stopped.
#[derive(Debug, Drop)]
pub enum JournalFault {
    /// J1: the folder holds something else, or not all of a journal; or it holds no segment, and no manifest is given.
    Foreign,
    /// J2: the manifest that is given is not that of the segment.
    OtherManifest,
    /// J3: another engine has the journal.
    InUse,
    /// The file cannot be read or written, or is to be text and is not UTF-8.
    File(JournalFile),
    /// The manifest that is given is to be text and is not UTF-8.
    Unreadable,
    /// The manifest that is given is faulty.
    Given(ManifestFault),
    /// The manifest of that number is.
    Manifest(u64, ManifestFault),
    /// X1, X2, X3 or X4: the segment of that number is faulty.
    Segment(u64, RecoveryFault),
    /// N3: a run of the engine is live that another one was to follow.
    RunLive,
    /// N4: the configuration does not have all queues and controllers of what is left.
    DoesNotFit,
    /// X5: the segment of that number does not go on from the one before it.
    NotContinued(u64),
    /// What the engine is asked cannot be read.
    Unread,
    /// Standard output cannot be written.
    Unwritten,
    /// What cannot be.
    InternalError,
}

/// Why: memory was refused, or that fault.
pub type JournalError = OrMemory<JournalFault>;

/// The fault of a file.
pub(crate) fn of_file(fault: DiskFault, file: JournalFile) -> JournalError
    ensures { result ≡ file_error fault file }
{
    match fault {
        DiskFault::OutOfMemory => OrMemory::OutOfMemory,
        DiskFault::Missing | DiskFault::Failed => OrMemory::Fault(JournalFault::File(file)),
    }
}
