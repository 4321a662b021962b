// What is reported beside a fault: of a word that is no file, and of a trace that is open. It relies on `explain_codes` for words that are
// spelled as codes are.

ghost use Rattle.std.specs.Prelude.{◌≡◌, ◌≤◌, ◌⊎◌};
ghost use Rattle.std.specs.Io.KnownBytes.{Appends};
ghost use Rattle.cli_commands.specs.FaultText.{report_of};
ghost use Rattle.cli_commands.specs.Faults.{status_of};

use crate::explaining::refused;
use cli_commands::{Fault, unwritten};
use cli_inspect_line::Plan;
use cli_text_page::Page;
use explain_codes::{is_spelled_as_code, put_unknown};
use std::alloc::Global;
use std::io;
use std::io::Write;

/// Reports why a file of a plan cannot be read, and answers the status. If it is that of a word which is spelled as a code is and is
/// none, a second line says so.
pub fn report_unread<E: Write>(alloc: Global, plan: &Plan, fault: &Fault<'_>, err: &mut E) -> u8
    ensures status { (result ≡ status_of fault.now) ⊎ (result ≡ 2) }
    ensures told { result ≡ 1 → Appends (E.contents err.old) (E.contents err.new) (report_of fault.now) }
{
    match (plan, fault) {
        (Plan::Explain(word), Fault::File(_)) if is_spelled_as_code(word.as_str()) => {
            match print_unknown(alloc, word.as_str(), fault, err) {
                Ok(()) => 2,
                Err(error) => unwritten(error, err),
            }
        }
        _ => fault.report(err),
    }
}

// Both lines go out at once, or neither.
fn print_unknown<E: Write>(
    alloc: Global,
    word: &str,
    fault: &Fault<'_>,
    err: &mut E,
) -> io::Result<()> {
    let mut page = Page::new(alloc);
    page.text("camr: ");
    page.shown(fault);
    page.text("\ncamr: ");
    put_unknown(&mut page, word);
    page.text("\n");
    page.write_to(err)
}

/// Reports the fault of a trace that is open, and answers the status. A second line says which of its lines does not follow, if it has
/// this fault once it is closed; if memory was refused then, that is reported alone.
pub(crate) fn report_unfollowed<E: Write>(
    alloc: Global,
    fault: &Fault<'_>,
    closed: &Fault<'_>,
    err: &mut E,
) -> u8
    ensures { (1 ≤ result) × (result ≤ 2) }
{
    match closed {
        Fault::OutOfMemory => closed.report(err),
        Fault::Replay(_) => {
            let written = print_unfollowed(alloc, fault, closed, err);
            refused(written, err)
        }
        _ => fault.report(err),
    }
}

// Both lines go out at once, or neither.
fn print_unfollowed<E: Write>(
    alloc: Global,
    fault: &Fault<'_>,
    closed: &Fault<'_>,
    err: &mut E,
) -> io::Result<()> {
    let mut page = Page::new(alloc);
    page.text("camr: ");
    page.shown(fault);
    page.text("\ncamr: the trace is open, and does not follow: ");
    page.shown(closed);
    page.text("\n");
    page.write_to(err)
}
