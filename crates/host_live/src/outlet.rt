// Where the trace of a live engine goes, and who is told what became of lines. It relies on `trace` for what a write is, and on `reports` for
// why a line is not carried out.

ghost use Rattle.std.specs.Prelude.{◌≡◌, ◌≤◌, ℕ, List, Option, length};
ghost use Rattle.trace.specs.Growing.{FailsBySink};
ghost use Rattle.trace.specs.Sinks.{Takes};

use crate::reports::LineFault;
use trace::WriteFailed;

/// Where the trace of a live engine goes. It may hold back what it took until it is told that nothing more comes for now. Contracts see of it
/// what they see of a `Sink`: the bytes that it took so far, where these are known, how many writes failed, and which outlet it is. They also
/// see the answers so far, where these are known. How it passes them on is its own affair: they are none of its bytes.
pub trait Outlet {
    ghost use Rattle.host_live.specs.Answering.{Answer, Answers};

    ghost bytes: { Self → Option (List ℕ) };

    ghost failures: { Self → ℕ };

    ghost origin: { Self → ℕ };

    ghost answers: { Self → Option (List Answer) };

    /// Takes some of these bytes from the front, one at least, and answers how many; or fails, and takes none.
    fn take(&mut self, text: &[u8]) -> Result<usize, WriteFailed>
        requires { 1 ≤ length text.now }
        ensures taken { Takes text.now (Self.bytes self.old) (Self.failures self.old) result (Self.bytes self.new) (Self.failures self.new) }
        ensures origin { Self.origin self.new ≡ Self.origin self.old }
        ensures answers { Self.answers self.new ≡ Self.answers self.old };

    /// The line of that number was carried out, and everything that it led to was taken; or that is why it was not carried out. The first line
    /// is 1.
    fn answered(&mut self, line: usize, fault: Option<LineFault>) -> Result<(), WriteFailed>
        ensures same { Self.bytes self.new ≡ Self.bytes self.old }
        ensures origin { Self.origin self.new ≡ Self.origin self.old }
        // The answer stands after all that was taken.
        ensures answers { Answers (Self.answers self.old) line fault (Self.bytes self.old) result (Self.answers self.new) }
        ensures failures { FailsBySink (Self.failures self.old) result (Self.failures self.new) };

    /// Nothing more comes for now: all that was taken and answered goes out.
    fn settle(&mut self) -> Result<(), WriteFailed>
        ensures same { Self.bytes self.new ≡ Self.bytes self.old }
        ensures origin { Self.origin self.new ≡ Self.origin self.old }
        ensures answers { Self.answers self.new ≡ Self.answers self.old }
        ensures failures { FailsBySink (Self.failures self.old) result (Self.failures self.new) };
}
