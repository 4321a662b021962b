// What is said of a manifest beside its verdict. It relies on `explain_manifest` for the text, and on `cli_commands` for what `check` prints.

ghost use Rattle.std.specs.Prelude.{◌≡◌, ◌≢◌, ◌≤◌, ◌++◌, IfErr, IfOk, IsErrAnd, IsUtf8, MatchResult};
ghost use Rattle.std.specs.Io.KnownBytes.{Appends, Keeps};
ghost use Rattle.cli_commands.specs.Faults.{status_of};
ghost use Rattle.cli_commands.specs.FaultText.{report_of};
ghost use Rattle.cli_commands.specs.Told.{IsManifest, IsManifestFault};
ghost use Rattle.manifest.specs.Meaning.{HasFault};
ghost use Rattle.cli_inspection.specs.Shown.{PutsFault};

use cli_commands::{Fault, print_verdicts, status, text, unwritten};
use explain_manifest::{Explanation, explain};
use manifest::Manifest;
use std::alloc::Global;
use std::io;
use std::io::Write;

/// Prints what `check` says of a manifest, a path and its bytes, be it accepted or refused, and after that why, and answers
/// the status: 0 if it is accepted, 1 if it is refused.
pub(crate) fn print_explanation<W: Write, E: Write>(
    alloc: Global,
    manifest: (&str, &[u8]),
    out: &mut W,
    err: &mut E,
) -> u8
    ensures status { result ≤ 2 }
    ensures no_text { ¬ (IsUtf8 manifest.entry.1.now) → result ≡ 2 }
    ensures done { result ≡ 0 → IsManifest manifest.entry.1.now }
    ensures refused { result ≡ 1 → PutsFault (IsManifestFault manifest.entry.1.now) (W.contents out.old) (W.contents out.new) }
    ensures quiet { result ≢ 2 → Keeps (E.contents err.old) (E.contents err.new) }
{
    match explained(alloc, manifest) {
        Ok(Explanation { verdict, text }) => match verdict {
            Ok(manifest) => status(print_accepted(&manifest, text.as_str(), out), err),
            Err(fault) => {
                let fault = Fault::Manifest(fault);
                refused(print_refused(&fault, text.as_str(), out), err)
            }
        },
        Err(fault) => fault.report(err),
    }
}

// What there is to say of a manifest, a path and its bytes.
fn explained<'a>(alloc: Global, file: (&'a str, &[u8])) -> Result<Explanation, Fault<'a>>
    ensures no_text { ¬ (IsUtf8 file.entry.1.now) → IsErrAnd result (λ e. status_of e ≡ 2) }
    ensures verdict { IfOk result (λ told. MatchResult told.verdict (λ _. IsManifest file.entry.1.now) (HasFault file.entry.1.now)) }
    ensures fault { IfErr result (λ e. status_of e ≡ 2) }
{
    let read = text(file)?;
    match explain(alloc, file.0, read) {
        Ok(told) => Ok(told),
        Err(_) => Err(Fault::OutOfMemory),
    }
}

/// What went out says that a file is refused, or a writer failed.
pub(crate) fn refused<E: Write>(written: io::Result<()>, err: &mut E) -> u8
    ensures status { MatchResult written (λ _. result ≡ 1) (λ _. result ≡ 2) }
    ensures quiet { IfOk written (λ _. Keeps (E.contents err.old) (E.contents err.new)) }
{
    match written {
        Ok(()) => 1,
        Err(error) => unwritten(error, err),
    }
}

fn print_accepted<W: Write>(manifest: &Manifest, text: &str, out: &mut W) -> io::Result<()> {
    print_verdicts(&manifest.programs, out)?;
    out.write_all(text.as_bytes())
}

/// Writes the fault's one line, and what there is to say beside it.
pub(crate) fn print_refused<W: Write>(fault: &Fault<'_>, text: &str, out: &mut W) -> io::Result<()>
    ensures { IfOk result (λ _. Appends (W.contents out.old) (W.contents out.new) (report_of fault.now ++ text.now)) }
{
    writeln!(out, "camr: {fault}")?;
    out.write_all(text.as_bytes())
}
