// What a text goes to: a sink takes bytes, or fails. It relies on nothing.

ghost use Rattle.std.specs.Prelude.{◌≡◌, ℕ, ◌≤◌, List, Option, length};
ghost use Rattle.trace.specs.Sinks.{HandsOn, Takes};

/// A write failed.
#[derive(Clone, Copy, Debug, PartialEq, Eq)]
pub struct WriteFailed;

/// Where bytes go. Contracts see the bytes that it was told so far, where these are known: a list's are, a terminal's are not. They see how
/// many writes failed, which is counted up to 2^64 - 1 at least, and which sink it is, which no write changes. A sink that has its writer
/// on loan is known by that loan, so that whoever lent the writer knows what was written on it.
pub trait Sink {
    ghost bytes: { Self → Option (List ℕ) };

    ghost failures: { Self → ℕ };

    ghost origin: { Self → ℕ };

    /// Takes some of these from the front, one at least, and answers how many; or fails, and takes none.
    fn write(&mut self, text: &[u8]) -> Result<usize, WriteFailed>
        requires { 1 ≤ length text.now }
        ensures taken { Takes text.now (bytes self.old) (failures self.old) result (bytes self.new) (failures self.new) }
        ensures same { origin self.new ≡ origin self.old };
}

/// Hands all of a text on. Where a write fails it answers how many bytes were taken before.
pub(crate) fn hand_on<S: Sink>(text: &[u8], out: &mut S) -> Result<(), usize>
    ensures handed { HandsOn text.now (S.bytes out.old) (S.failures out.old) result (S.bytes out.new) (S.failures out.new) }
    ensures same { S.origin out.new ≡ S.origin out.old }
{
    let mut taken = 0;
    while taken < text.len() {
        match out.write(&text[taken..]) {
            Ok(count) => taken += count,
            Err(WriteFailed) => return Err(taken),
        }
    }
    Ok(())
}
