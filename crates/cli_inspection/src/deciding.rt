// What a queue's policy does with a failed command, over the bytes of a manifest. It relies on `show_decision` for what is decided, and on
// `cli_commands` for what is wrong with a manifest.

ghost use Rattle.std.specs.Prelude.{◌≡◌, ◌≢◌, ◌≤◌, IfErr, IfOk, IsErrAnd, IsUtf8, Ok, None};
ghost use Rattle.std.specs.Io.KnownBytes.{Keeps};
ghost use Rattle.cli_commands.specs.Faults.{status_of};
ghost use Rattle.cli_commands.specs.Told.{IsFaultyManifest, IsManifest};
ghost use Rattle.cli_inspection.specs.Configured.{IsConfigured};
ghost use Rattle.cli_inspection.specs.Shown.{IsDecided, IsPrinted};

use crate::tracing::named;
use base::OrMemory;
use cli_commands::{Fault, text, unwritten};
use cli_inspect_line::Extent;
use cli_text_page::Page;
use host_decision::Undecided;
use manifest::Manifest;
use show_decision::{decide, decide_all, put_undecided};
use show_question::Question;
use std::alloc::Global;
use std::io;
use std::io::Write;

/// Prints what a policy of a manifest, a path and its bytes, decides of what is asked, and answers the status: 1 if the manifest is refused,
/// and 2 if an engine of it cannot take what is asked.
pub(crate) fn print_decided<W: Write, E: Write>(
    alloc: Global,
    extent: Extent,
    question: &Question,
    manifest: (&str, &[u8]),
    out: &mut W,
    err: &mut E,
) -> u8
    ensures status { result ≤ 2 }
    ensures no_text { ¬ (IsUtf8 manifest.entry.1.now) → result ≡ 2 }
    ensures done { result ≡ 0 → IsManifest manifest.entry.1.now }
    ensures decided { result ≡ 0 → IsDecided extent question.now manifest.entry.1.now (W.contents out.old) (W.contents out.new) }
    ensures refused { result ≡ 1 → IsFaultyManifest manifest.entry.1.now }
    ensures nothing { result ≡ 1 → Keeps (W.contents out.old) (W.contents out.new) }
    ensures quiet { result ≡ 0 → Keeps (E.contents err.old) (E.contents err.new) }
{
    match read(alloc, manifest) {
        Ok(manifest) => {
            let decided = print(alloc, extent, question, &manifest, out);
            answer(alloc, decided, question, &manifest, err)
        }
        Err(fault) => fault.report(err),
    }
}

// The manifest of a file.
fn read<'a>(alloc: Global, file: (&'a str, &[u8])) -> Result<Manifest, Fault<'a>>
    ensures no_text { ¬ (IsUtf8 file.entry.1.now) → IsErrAnd result (λ e. status_of e ≡ 2) }
    ensures read { IfOk result (λ manifest. IsConfigured file.entry.1.now manifest.config) }
    ensures refused { IfErr result (λ e. status_of e ≡ 1 → IsFaultyManifest file.entry.1.now) }
{
    let text = text(file)?;
    match manifest::read(alloc, text) {
        Ok(manifest) => Ok(manifest),
        Err(OrMemory::Fault(fault)) => Err(Fault::Manifest(fault)),
        Err(OrMemory::OutOfMemory) => Err(Fault::OutOfMemory),
    }
}

// Writes what is decided; or what an engine cannot take is answered.
fn print<W: Write>(
    alloc: Global,
    extent: Extent,
    question: &Question,
    manifest: &Manifest,
    out: &mut W,
) -> io::Result<Option<Undecided>>
    ensures { IfOk result (IsPrinted extent manifest.now.config question.now (W.contents out.old) (W.contents out.new)) }
{
    let config = &manifest.config;
    match extent {
        Extent::One => {
            let named = named(alloc, &manifest.programs)?;
            decide(alloc, config, &named, question, out)
        }
        Extent::AllSense => decide_all(alloc, config, question, out),
    }
}

// The status of what was decided: done; or not, of which one line says why.
fn answer<E: Write>(
    alloc: Global,
    decided: io::Result<Option<Undecided>>,
    question: &Question,
    manifest: &Manifest,
    err: &mut E,
) -> u8
    ensures status { (result ≢ 1) × (result ≤ 2) }
    ensures done { result ≡ 0 → decided ≡ Ok None }
    ensures quiet { result ≡ 0 → Keeps (E.contents err.old) (E.contents err.new) }
{
    match decided {
        Ok(None) => 0,
        Ok(Some(undecided)) => {
            report(alloc, undecided, question, manifest, err);
            2
        }
        Err(error) => unwritten(error, err),
    }
}

// Writes the line that says why nothing is decided.
fn report<E: Write>(
    alloc: Global,
    undecided: Undecided,
    question: &Question,
    manifest: &Manifest,
    err: &mut E,
) {
    let mut page = Page::new(alloc);
    page.text("camr: ");
    put_undecided(undecided, &manifest.config, question, &mut page);
    let _ = page.write_to(err);
}
