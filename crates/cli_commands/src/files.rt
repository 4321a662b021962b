// What is read as text, and what becomes of what goes out. It relies on `fault`.

ghost use Rattle.std.specs.Prelude.{◌≡◌, ◌≢◌, ◌≤◌, IfOk, IsUtf8, MatchResult};
ghost use Rattle.std.specs.Io.KnownBytes.{Appends, Keeps};
ghost use Rattle.cli_commands.specs.Faults.{status_of};

use crate::fault::Fault;
use std::io;
use std::io::Write;

/// What is to go out went out, or a writer failed. That it failed for want of memory is told.
pub fn status<E: Write>(written: io::Result<()>, err: &mut E) -> u8
    ensures status { MatchResult written (λ _. result ≡ 0) (λ _. result ≡ 2) }
    ensures quiet { IfOk written (λ _. Keeps (E.contents err.old) (E.contents err.new)) }
{
    match written {
        Ok(()) => 0,
        Err(error) => unwritten(error, err),
    }
}

/// Writes these bytes, and answers the status.
pub(crate) fn write<W: Write, E: Write>(bytes: &[u8], out: &mut W, err: &mut E) -> u8
    ensures status { (result ≢ 1) × (result ≤ 2) }
    ensures written { result ≡ 0 → Appends (W.contents out.old) (W.contents out.new) bytes.now }
    ensures quiet { result ≡ 0 → Keeps (E.contents err.old) (E.contents err.new) }
{
    match out.write_all(bytes) {
        Ok(()) => 0,
        Err(error) => unwritten(error, err),
    }
}

/// The writer failed so.
pub fn unwritten<E: Write>(error: io::Error, err: &mut E) -> u8
    ensures { result ≡ 2 }
{
    if error.kind() == io::ErrorKind::OutOfMemory {
        Fault::OutOfMemory.report(err)
    } else {
        2
    }
}

/// A file, a path and its bytes, as text.
pub fn text<'a, 'b>(file: (&'a str, &'b [u8])) -> Result<&'b str, Fault<'a>>
    ensures { MatchResult result (λ t. (t.now ≡ file.entry.1.now) × IsUtf8 file.entry.1.now)
        (λ e. (status_of e ≡ 2) × ¬ (IsUtf8 file.entry.1.now)) }
{
    match str::from_utf8(file.1) {
        Ok(text) => Ok(text),
        Err(_) => Err(Fault::File(file.0)),
    }
}
