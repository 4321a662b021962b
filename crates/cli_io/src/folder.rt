// The folder that a file is written in, as those see it who write the file whole. It relies on nothing.

use std::io;

/// Who may do what with a file.
#[derive(Clone, Copy, Debug, PartialEq, Eq)]
pub struct Rights {
    /// The lower bits are the permissions.
    pub mode: u32,
    pub uid: u32,
    pub gid: u32,
}

/// What stands under a name.
#[derive(Clone, Copy, Debug, PartialEq, Eq)]
pub enum Look {
    Nothing,
    /// A regular file, which may be written.
    File(Rights),
    /// What is written in its place: a pipe, a device, or a file that a process has open.
    Stream,
}

/// A folder, in which one file at a time is open. Contracts see the steps that were taken, where these are known (a test's are, those of
/// the machine's file system are not): that a call does what its step says, and nothing else, is trusted of the file system, and of `Disk`,
/// which asks it. A call that fails takes no step. Others may change the folder between two steps.
pub trait Folder {
    ghost use Rattle.std.specs.Prelude.{◌≤◌, List, MatchResult, Option, length, string_bytes, take};
    ghost use Rattle.cli_io.specs.Folders.{Adds, Drawn, Dressed, Led, Looked, Made, Moved, Opened, Put, Removed, Settled, Stays, Step, Synced};

    ghost steps: { Self → Option (List Step) };

    /// Where a path leads, once all links are followed: nothing has to stand there. It fails where links lead in a circle.
    fn lead(&mut self, path: &str) -> io::Result<String>
        ensures { MatchResult result (λ out. Adds (steps self.old) (Led path.now (string_bytes out)) (steps self.new)) (λ _. Stays (steps self.old) (steps self.new)) };

    /// What stands there. It fails where that is a folder, or a file that may not be written, and changes nothing.
    fn look(&mut self, path: &str) -> io::Result<Look>
        ensures { MatchResult result (λ look. Adds (steps self.old) (Looked path.now look) (steps self.new)) (λ _. Stays (steps self.old) (steps self.new)) };

    /// A number that nobody can guess.
    fn chance(&mut self) -> io::Result<u64>
        ensures { MatchResult result (λ number. Adds (steps self.old) (Drawn number) (steps self.new)) (λ _. Stays (steps self.old) (steps self.new)) };

    /// Makes an empty file with that mode, from which the system takes its mask, and opens it. It follows no link, and fails with
    /// `AlreadyExists` where anything stands under that name.
    fn create_new(&mut self, path: &str, mode: u32) -> io::Result<()>
        ensures { MatchResult result (λ _. Adds (steps self.old) (Made path.now mode) (steps self.new)) (λ _. Stays (steps self.old) (steps self.new)) };

    /// Opens what stands there, and does not truncate it. It fails where that is a regular file, unless a process has it open.
    fn open_stream(&mut self, path: &str) -> io::Result<()>
        ensures { MatchResult result (λ _. Adds (steps self.old) (Opened path.now) (steps self.new)) (λ _. Stays (steps self.old) (steps self.new)) };

    /// Writes some of the bytes to what is open, from the front, and tells how many.
    fn write(&mut self, bytes: &[u8]) -> io::Result<usize>
        ensures { MatchResult result (λ count. (count ≤ length bytes.now) × Adds (steps self.old) (Put (take count bytes.now)) (steps self.new)) (λ _. Stays (steps self.old) (steps self.new)) };

    /// Gives the file that is open these rights: the mode, and the owner and the group if they can be given; if they cannot, the mode lets
    /// nobody do more than before.
    fn dress(&mut self, rights: Rights) -> io::Result<()>
        ensures { MatchResult result (λ _. Adds (steps self.old) (Dressed rights) (steps self.new)) (λ _. Stays (steps self.old) (steps self.new)) };

    /// Waits until the file that is open would outlast a stop of the machine.
    fn sync(&mut self) -> io::Result<()>
        ensures { MatchResult result (λ _. Adds (steps self.old) Synced (steps self.new)) (λ _. Stays (steps self.old) (steps self.new)) };

    /// Puts the file that is open, which stands under the first name, in the place of the second, in one step, and closes it.
    fn rename(&mut self, from: &str, to: &str) -> io::Result<()>
        ensures { MatchResult result (λ _. Adds (steps self.old) (Moved from.now to.now) (steps self.new)) (λ _. Stays (steps self.old) (steps self.new)) };

    /// Removes the file that is open, if it stands under that name and can be removed, and closes it.
    fn remove(&mut self, path: &str)
        ensures { Adds (steps self.old) (Removed path.now) (steps self.new) };

    /// Waits until the name of what stands there would outlast a stop of the machine, where the file system can do that.
    fn settle(&mut self, path: &str)
        ensures { Adds (steps self.old) (Settled path.now) (steps self.new) };
}
