// The folder of a journal, and standard output beside it. It relies on `trace` for writes that failed, and on `host_recovery` for reads that
// did.

ghost use Rattle.std.specs.Prelude.{◌≡◌, ◌≤◌, ◌<◌, ℕ, List, Option, IfOk, OnOk, length, map, string_bytes};
ghost use Rattle.host_journal.specs.Disks.{AreNames, CutTo, Does, Failed, FolderMade, Gives, Held, HoldsNothing, IsText, Kept, Locks, ManifestMade, NotOut, Opened, Out, Reads, ReadsBytes, SegmentMade, Step, Syncs, TakesSome};
ghost use Rattle.host_journal.specs.declared.disk.DiskFault.TheVariants.{Failed as NotDone};
ghost use Rattle.host_journal.specs.declared.fault.JournalFile.TheVariants.{Folder, Manifest, Segment};

use host_recovery::ReadFailed;
use std::alloc::Global;
use trace::WriteFailed;

/// Why something was not done.
#[derive(Clone, Copy, Debug, PartialEq, Eq)]
pub enum DiskFault {
    /// There is no such folder or file.
    Missing,
    /// It cannot be read or written.
    Failed,
    OutOfMemory,
}

/// A folder of segments, of which one is open at a time, and standard output: one value, so that contracts see in which order both are
/// written. Contracts see the steps that were taken, what the folder holds, which segment is open, and what it gives from here on, where these are
/// known (a test's are, those of the machine's file system are not): that a call does what its step says, and nothing else, is trusted of
/// the folder. A call that fails takes a step that says which file it was about. The names are those of all but the lock's file.
pub trait Disk {
    ghost steps: { Self → Option (List Step) };

    ghost held: { Self → Held };

    ghost segment: { Self → ℕ };

    ghost remaining: { Self → Option (List ℕ) };

    /// The names in the folder, but for that of the lock's file. `Missing` if there is no such folder.
    fn names(&mut self, alloc: Global) -> Result<Vec<String>, DiskFault>
        ensures names { IfOk result (λ names. AreNames (held self.old) (map string_bytes names.items)) }
        ensures held { held self.new ≡ held self.old }
        ensures steps { Reads Folder (steps self.old) result (steps self.new) };

    /// Takes the lock, and makes its file if it is not there; no, if another engine has it. `Missing` if there is no such folder.
    fn lock(&mut self) -> Result<bool, DiskFault>
        ensures steps { Locks (steps self.old) result (steps self.new) }
        ensures held { held self.new ≡ held self.old }
        ensures missing { result ≡ Err DiskFault.Missing → HoldsNothing (held self.new) };

    /// Makes the folder.
    fn make(&mut self) -> Result<(), DiskFault>
        ensures steps { Does Folder (steps self.old) result FolderMade (steps self.new) }
        ensures held { held self.new ≡ held self.old };

    /// The bytes of the manifest of that number.
    fn read_manifest(&mut self, alloc: Global, number: u64) -> Result<Vec<u8>, DiskFault>
        ensures bytes { IfOk result (λ bytes. IsText ((held self.old).manifests number) bytes.items) }
        ensures held { held self.new ≡ held self.old }
        ensures steps { Reads (Manifest number) (steps self.old) result (steps self.new) };

    /// Opens the segment of that number, which is read from its front.
    fn open_segment(&mut self, number: u64) -> Result<(), DiskFault>
        ensures bytes { OnOk result (remaining self.new ≡ (held self.old).segments number) }
        ensures held { held self.new ≡ held self.old }
        ensures which { OnOk result (segment self.new ≡ number) }
        ensures steps { Does (Segment number) (steps self.old) result (Opened number) (steps self.new) };

    /// Puts the next bytes of the open segment at the front of the piece, and returns how many: 0 only at its end. If it fails it gives none.
    fn read(&mut self, piece: &mut [u8]) -> Result<usize, ReadFailed>
        requires { 0 < length piece.old }
        ensures gives { Gives (remaining self.old) result piece.new (remaining self.new) }
        ensures held { held self.new ≡ held self.old }
        ensures which { segment self.new ≡ segment self.old }
        ensures steps { ReadsBytes (segment self.old) (steps self.old) result (steps self.new) };

    /// Cuts the open segment to so many bytes from its front. It is appended to from now on.
    fn cut(&mut self, length: u64) -> Result<(), DiskFault>
        ensures which { segment self.new ≡ segment self.old }
        ensures steps { Does (Segment (segment self.old)) (steps self.old) result (CutTo length) (steps self.new) };

    /// Makes the manifest of that number, of these bytes, or writes it anew. It outlasts a stop of the machine.
    fn make_manifest(&mut self, number: u64, bytes: &[u8]) -> Result<(), DiskFault>
        ensures { Does (Manifest number) (steps self.old) result (ManifestMade number bytes.now) (steps self.new) };

    /// Makes a segment of these bytes: it is written whole under a name that ends in `.new`, and then renamed. It is the open one, and is
    /// appended to. It outlasts a stop of the machine.
    fn make_segment(&mut self, number: u64, bytes: &[u8]) -> Result<(), DiskFault>
        ensures which { OnOk result (segment self.new ≡ number) }
        ensures steps { Does (Segment number) (steps self.old) result (SegmentMade number bytes.now) (steps self.new) };

    /// Appends some of the bytes, from the front, one at least, to the open segment, and returns how many.
    fn keep(&mut self, bytes: &[u8]) -> Result<usize, WriteFailed>
        requires { 1 ≤ length bytes.now }
        ensures which { segment self.new ≡ segment self.old }
        ensures steps { TakesSome (steps self.old) bytes.now result Kept (Failed (Segment (segment self.old)) NotDone) (steps self.new) };

    /// Waits until the open segment would outlast a stop of the machine.
    fn sync(&mut self) -> Result<(), WriteFailed>
        ensures which { segment self.new ≡ segment self.old }
        ensures steps { Syncs (segment self.old) (steps self.old) result (steps self.new) };

    /// Puts some of the bytes, from the front, one at least, on standard output, and returns how many.
    fn put(&mut self, bytes: &[u8]) -> Result<usize, WriteFailed>
        requires { 1 ≤ length bytes.now }
        ensures which { segment self.new ≡ segment self.old }
        ensures steps { TakesSome (steps self.old) bytes.now result Out NotOut (steps self.new) };
}
