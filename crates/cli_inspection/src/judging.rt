// What is said of a scenario or a trace over a manifest. It relies on `cli_commands` for the verdict, on `explain_lines` for what is said
// beside it, and on `explaining` for a manifest that is refused itself.

ghost use Rattle.std.specs.Prelude.{◌≡◌, ◌≢◌, ◌≤◌, ◌⊎◌, ◌++◌, ◌∷◌, [], ℕ, Contains, IfErr, IfOk, IsErrAnd, IsUtf8, MatchResult, Some, codes, false, length, slice_get, true};
ghost use Rattle.std.specs.Io.KnownBytes.{Appends, Keeps};
ghost use Rattle.cli_commands.specs.FaultText.{report_of};
ghost use Rattle.cli_inspect_line.specs.Files.{input_paths};
ghost use Rattle.cli_commands.specs.Faults.{status_of};
ghost use Rattle.cli_commands.specs.Told.{IsManifest, PutsOut};
ghost use Rattle.cli_commands.specs.declared.fault.Fault.TheVariants as faults;
ghost use Rattle.trace.specs.declared.fault.TraceFault.TheVariants.{Header};
ghost use Rattle.cli_inspection.specs.Shown.{BeginsTrace, IsAcceptedFile, IsFileFault, PutsFault};

use crate::explaining::{print_explanation, print_refused, refused};
use cli_commands::{Fault, replayed, run, status};
use cli_inspect_line::Plan;
use cli_text_page::Page;
use explain_lines::{
    is_trace, is_unended, lines_before, put_faulty_lines, put_no_trace, put_unended,
    put_unfollowed, put_unheld,
};
use manifest::Manifest;
use std::alloc::{AllocError, Global};
use std::io;
use std::io::Write;
use std::sync::Wait;
use std::thread::Threads;
use trace::TraceFault;
use world_calls::{Notices, Silent, Version};

/// Prints that a scenario or a trace is accepted over a manifest, or why it is refused, and answers the status. The plan has the two
/// files, whose bytes are the inputs.
pub(crate) fn print_judged<N: Notices + Sync, R: Threads + Wait + Sync, W: Write, E: Write>(
    rt: &R,
    alloc: Global,
    plan: &Plan,
    inputs: &[Vec<u8>],
    notices: &N,
    out: &mut W,
    err: &mut E,
) -> u8
    requires two { length (input_paths plan.now) ≡ 2 }
    requires inputs { length inputs.now ≡ 2 }
    ensures status { result ≤ 2 }
    ensures no_text { (input : _) → Contains inputs.now input → ¬ (IsUtf8 input.items) → result ≡ 2 }
    ensures manifest { result ≡ 0 → (first : _) → slice_get inputs.now 0 ≡ Some first → IsManifest first.items }
    ensures done { result ≡ 0 → (first second : _) → slice_get inputs.now 0 ≡ Some first → slice_get inputs.now 1 ≡ Some second → IsAcceptedFile first.items second.items }
    ensures rejected { result ≡ 1 → (first second : _) → slice_get inputs.now 0 ≡ Some first → slice_get inputs.now 1 ≡ Some second → PutsFault (IsFileFault first.items second.items) (W.contents out.old) (W.contents out.new) }
    ensures output { result ≡ 0 → PutsOut (λ output. output ≡ codes "accepted" ++ 10 ∷ []) (W.contents out.old) (W.contents out.new) }
    ensures quiet { result ≢ 2 → Keeps (E.contents err.old) (E.contents err.new) }
{
    let manifest = (plan.input(0), inputs[0].as_slice());
    let file = (plan.input(1), inputs[1].as_slice());
    print_over(rt, alloc, manifest, file, notices, out, err)
}

// The same of a manifest and the other file, each a path and its bytes.
fn print_over<N: Notices + Sync, R: Threads + Wait + Sync, W: Write, E: Write>(
    rt: &R,
    alloc: Global,
    manifest: (&str, &[u8]),
    file: (&str, &[u8]),
    notices: &N,
    out: &mut W,
    err: &mut E,
) -> u8
    ensures status { result ≤ 2 }
    ensures manifest { ¬ (IsUtf8 manifest.entry.1.now) → result ≡ 2 }
    ensures file { ¬ (IsUtf8 file.entry.1.now) → result ≡ 2 }
    ensures done { result ≡ 0 → IsAcceptedFile manifest.entry.1.now file.entry.1.now }
    ensures rejected { result ≡ 1 → PutsFault (IsFileFault manifest.entry.1.now file.entry.1.now) (W.contents out.old) (W.contents out.new) }
    ensures output { result ≡ 0 → PutsOut (λ output. output ≡ codes "accepted" ++ 10 ∷ []) (W.contents out.old) (W.contents out.new) }
    ensures quiet { result ≢ 2 → Keeps (E.contents err.old) (E.contents err.new) }
{
    match judged(rt, alloc, manifest, file, notices) {
        Ok(()) => status(out.write_all(b"accepted\n"), err),
        Err(fault) => print_fault(rt, alloc, manifest, file, &fault, out, err),
    }
}

// Why the other file is not accepted over the manifest: as a trace if it begins as one, else as a scenario. What looks like a trace for
// all that, and is no scenario, is told that it does not begin as one.
fn judged<'a, N: Notices + Sync, R: Threads + Wait + Sync>(
    rt: &R,
    alloc: Global,
    manifest: (&'a str, &[u8]),
    file: (&'a str, &[u8]),
    notices: &N,
) -> Result<(), Fault<'a>>
    ensures manifest { ¬ (IsUtf8 manifest.entry.1.now) → IsErrAnd result (λ e. status_of e ≡ 2) }
    ensures file { ¬ (IsUtf8 file.entry.1.now) → IsErrAnd result (λ e. status_of e ≡ 2) }
    ensures done { IfOk result (λ _. IsAcceptedFile manifest.entry.1.now file.entry.1.now) }
    ensures fault { IfErr result (λ e. status_of e ≡ 1 → IsFileFault manifest.entry.1.now file.entry.1.now e) }
{
    if begins_trace(file.1) {
        judged_as_trace(alloc, manifest, file, notices)
    } else {
        judged_as_scenario(rt, alloc, manifest, file, notices)
    }
}

// Whether it begins as the text of a trace does.
fn begins_trace(bytes: &[u8]) -> bool
    ensures begins { result ≡ true → BeginsTrace bytes.now }
    ensures begins_not { result ≡ false → BeginsTrace bytes.now → ⊥ }
{
    bytes.starts_with(b"camr-trace ")
}

// The same of a file that begins so.
fn judged_as_trace<'a, N: Notices>(
    alloc: Global,
    manifest: (&'a str, &[u8]),
    file: (&'a str, &[u8]),
    notices: &N,
) -> Result<(), Fault<'a>>
    requires { BeginsTrace file.1.now }
    ensures manifest { ¬ (IsUtf8 manifest.entry.1.now) → IsErrAnd result (λ e. status_of e ≡ 2) }
    ensures file { ¬ (IsUtf8 file.entry.1.now) → IsErrAnd result (λ e. status_of e ≡ 2) }
    ensures done { IfOk result (λ _. IsAcceptedFile manifest.entry.1.now file.entry.1.now) }
    ensures fault { IfErr result (λ e. status_of e ≡ 1 → IsFileFault manifest.entry.1.now file.entry.1.now e) }
{
    match replayed(alloc, manifest, file, notices) {
        Ok(_) => Ok(()),
        Err(fault) => Err(fault),
    }
}

// The same of any other file.
fn judged_as_scenario<'a, N: Notices + Sync, R: Threads + Wait + Sync>(
    rt: &R,
    alloc: Global,
    manifest: (&'a str, &[u8]),
    file: (&'a str, &[u8]),
    notices: &N,
) -> Result<(), Fault<'a>>
    requires { BeginsTrace file.1.now → ⊥ }
    ensures manifest { ¬ (IsUtf8 manifest.entry.1.now) → IsErrAnd result (λ e. status_of e ≡ 2) }
    ensures file { ¬ (IsUtf8 file.entry.1.now) → IsErrAnd result (λ e. status_of e ≡ 2) }
    ensures done { IfOk result (λ _. IsAcceptedFile manifest.entry.1.now file.entry.1.now) }
    ensures fault { IfErr result (λ e. status_of e ≡ 1 → IsFileFault manifest.entry.1.now file.entry.1.now e) }
{
    match run(rt, alloc, 1, manifest, file, notices) {
        Ok(_) => Ok(()),
        Err(fault) => Err(told(fault, file.1)),
    }
}

// What is told of a file that is no scenario: that it does not begin as a trace, if it looks like one, and else its fault.
fn told<'a>(fault: Fault<'a>, file: &[u8]) -> Fault<'a>
    ensures { (result ≡ fault.entry) ⊎ ((result ≡ faults.Trace Header) × ((line : ℕ) × (fault.entry ≡ faults.Line line))) }
{
    if is_of_line(&fault) && is_trace(file) {
        Fault::Trace(TraceFault::Header)
    } else {
        fault
    }
}

fn is_of_line(fault: &Fault<'_>) -> bool
    ensures { result ≡ true → (line : ℕ) × (fault.now ≡ faults.Line line) }
{
    matches!(fault, Fault::Line(_))
}

// Prints a fault, and of what is refused why, and answers the status. The fault is one of the two, if its status is 1.
fn print_fault<R: Threads + Wait + Sync, W: Write, E: Write>(
    rt: &R,
    alloc: Global,
    manifest: (&str, &[u8]),
    file: (&str, &[u8]),
    fault: &Fault<'_>,
    out: &mut W,
    err: &mut E,
) -> u8
    requires { status_of fault.now ≡ 1 → IsFileFault manifest.1.now file.1.now fault.now }
    ensures status { (1 ≤ result) × (result ≤ 2) }
    ensures fault { result ≡ 1 → status_of fault.now ≡ 1 }
    ensures refused { result ≡ 1 → PutsFault (IsFileFault manifest.entry.1.now file.entry.1.now) (W.contents out.old) (W.contents out.new) }
    ensures quiet { result ≢ 2 → Keeps (E.contents err.old) (E.contents err.new) }
{
    if fault.status() != 1 {
        return fault.report(err);
    }
    match fault {
        Fault::Manifest(_) => match print_explanation(alloc, manifest, out, err) {
            0 => Fault::InternalError.report(err),
            status => status,
        },
        _ => refused(print_report(rt, alloc, manifest, file, fault, out), err),
    }
}

// Writes the fault's one line, and what there is to say beside it, if no memory is refused for that.
fn print_report<R: Threads + Wait + Sync, W: Write>(
    rt: &R,
    alloc: Global,
    manifest: (&str, &[u8]),
    file: (&str, &[u8]),
    fault: &Fault<'_>,
    out: &mut W,
) -> io::Result<()>
    ensures { IfOk result (λ _. (rest : _) × Appends (W.contents out.old) (W.contents out.new) (report_of fault.now ++ rest)) }
{
    let mut page = Page::new(alloc);
    put_report(rt, alloc, manifest, file, fault, &mut page)?;
    let text = page.finish()?;
    print_refused(fault, text.as_str(), out)
}

fn put_report<R: Threads + Wait + Sync>(
    rt: &R,
    alloc: Global,
    manifest: (&str, &[u8]),
    file: (&str, &[u8]),
    fault: &Fault<'_>,
    page: &mut Page,
) -> Result<(), AllocError> {
    let path = file.0;
    let text = str::from_utf8(file.1).unwrap_or("");
    match fault {
        Fault::Line(number) => {
            let version = version_of(alloc, manifest)?;
            put_faulty_lines(alloc, version, path, text, *number, page)
        }
        Fault::NotHeld(number) => put_released(rt, alloc, manifest, (path, text), *number, page),
        Fault::Trace(fault) => put_formless(alloc, manifest, (path, text), *fault, page),
        Fault::Replay(fault) => {
            let manifest = config_of(alloc, manifest)?;
            put_unfollowed(alloc, path, text, &manifest.config, *fault, page)
        }
        _ => Ok(()),
    }
}

// Puts whose the freeze is that a line of a scenario gives back: the lines before it are run once more.
fn put_released<R: Threads + Wait + Sync>(
    rt: &R,
    alloc: Global,
    manifest: (&str, &[u8]),
    scenario: (&str, &str),
    number: usize,
    page: &mut Page,
) -> Result<(), AllocError> {
    let before = lines_before(scenario.1, number).as_bytes();
    match run(rt, alloc, 1, manifest, (scenario.0, before), &Silent) {
        Ok(trace) => put_unheld(alloc, scenario.0, scenario.1, number, &trace, page),
        Err(_) => Err(AllocError),
    }
}

// Puts what is against a text that is no trace; and if its last line is missing, what is against the others.
fn put_formless(
    alloc: Global,
    manifest: (&str, &[u8]),
    trace: (&str, &str),
    fault: TraceFault,
    page: &mut Page,
) -> Result<(), AllocError> {
    put_no_trace(alloc, trace.0, trace.1, fault, page)?;
    if !is_unended(trace.1, fault) {
        return Ok(());
    }
    let manifest = config_of(alloc, manifest)?;
    put_unended(alloc, trace.0, trace.1, &manifest.config, page)
}

// The version of the histories of a manifest's engines, which was accepted before.
fn version_of(alloc: Global, manifest: (&str, &[u8])) -> Result<Version, AllocError> {
    let manifest = config_of(alloc, manifest)?;
    Ok(Version::of(manifest.config.helpers()))
}

// A manifest, a path and its bytes, which was accepted before: only memory may be refused for it.
fn config_of(alloc: Global, manifest: (&str, &[u8])) -> Result<Manifest, AllocError> {
    let text = str::from_utf8(manifest.1).unwrap_or("");
    match manifest::read(alloc, text) {
        Ok(manifest) => Ok(manifest),
        Err(_) => Err(AllocError),
    }
}
