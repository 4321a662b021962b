// Where the bytes of a segment come from. It relies on nothing.

ghost use Rattle.std.specs.Prelude.{ℕ, ◌<◌, List, Option, length};
ghost use Rattle.host_recovery.specs.Sources.{Gives};

/// A read failed.
#[derive(Clone, Copy, Debug, PartialEq, Eq)]
pub struct ReadFailed;

/// Bytes that come piece by piece. Contracts see the bytes that it gives from here on, if these are known (a list's are, a file's are
/// not), and how many reads failed, which is counted up to 2^64 - 1 at least.
pub trait Source {
    ghost remaining: { Self → Option (List ℕ) };

    ghost failures: { Self → ℕ };

    /// Puts the next bytes at the front of the piece, and returns how many: 0 only at the end. If it fails it gives none.
    fn read(&mut self, piece: &mut [u8]) -> Result<usize, ReadFailed>
        requires { 0 < length piece.old }
        ensures { Gives (remaining self.old) (failures self.old) result piece.new (remaining self.new) (failures self.new) };
}
