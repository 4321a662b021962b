// What is shown of a mistake in the words, or of a request for help. It relies on `clap` for the text.

ghost use Rattle.std.specs.Prelude.{◌≡◌, ◌≢◌, ◌⊎◌};
ghost use Rattle.clap.specs.Words.{kind_of};
ghost use Rattle.clap.specs.declared.error.kind.ErrorKind.TheVariants.{DisplayHelp, DisplayVersion};

use crate::fault::Fault;
use clap::error::ErrorKind;
use cli_line::UsageFault;
use std::io::Write;

/// Writes the text of a fault of the words, a mistake's on `err` and that of help on `out`, and answers the
/// status: 0 for help that is written, else 2.
pub fn report_usage<W: Write, E: Write>(fault: &UsageFault, out: &mut W, err: &mut E) -> u8
    ensures status { (result ≡ 0) ⊎ (result ≡ 2) }
    ensures mistake { kind_of fault.now ≢ DisplayHelp → kind_of fault.now ≢ DisplayVersion
        → result ≡ 2 }
{
    if fault.kind() == ErrorKind::OutOfMemory {
        return Fault::OutOfMemory.report(err);
    }
    if fault.use_stderr() {
        let _ = write!(err, "{fault}");
        return 2;
    }
    match write!(out, "{fault}") {
        Ok(()) => 0,
        Err(_) => 2,
    }
}
