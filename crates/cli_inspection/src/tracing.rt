// What a trace shows that is accepted, or open. It relies on `cli_commands` for the verdict, and on `show_account`, `show_json`,
// `show_summary`, `show_picture` and `show_perfetto` for what is shown.

ghost use Rattle.std.specs.Prelude.{◌≡◌, ◌≢◌, ◌≤◌, Contains, IsSomeAnd, Some, IsUtf8, length, slice_get, string_bytes};
ghost use Rattle.std.specs.Io.KnownBytes.{Keeps};
ghost use Rattle.cli_inspect_line.specs.Files.{input_paths};
ghost use Rattle.cli_commands.specs.Faults.{status_of};
ghost use Rattle.cli_commands.specs.Told.{IsAcceptedTrace, IsManifest, IsRejectedTrace};
ghost use Rattle.cli_inspection.specs.Shown.{IsOpenTrace, IsWholeOrOpen};

use crate::closing::{ClosedTrace, carried_by, closed};
use crate::unread::report_unfollowed;
use cli_commands::{Fault, replayed, status};
use cli_inspect_line::{Drawing, Form, Plan};
use manifest::{Manifest, NamedProgram};
use show_account::account;
use show_events::{Ending, Filter, NamedAccepted, Shown};
use show_json::write_account;
use show_perfetto::write_trace_events;
use show_picture::draw;
use show_summary::{summarise, write_summary};
use std::alloc::{AllocError, Global};
use std::io;
use std::io::Write;
use whole_trace::WholeTrace;
use world_calls::Notices;

/// What is shown of a trace.
#[derive(Clone, Copy)]
pub(crate) enum Told {
    /// What happened, in that form: these events.
    Account(Form, Filter),
    /// Counts of what happened, in that form.
    Summary(Form),
    /// A drawing of what happened.
    Drawn(Drawing),
}

/// Prints that of a trace, if it is accepted over a manifest, or is open and would be, and answers the status. The plan has the two,
/// whose bytes are the inputs.
pub(crate) fn print_traced<N: Notices, W: Write, E: Write>(
    alloc: Global,
    told: Told,
    plan: &Plan,
    inputs: &[Vec<u8>],
    notices: &N,
    out: &mut W,
    err: &mut E,
) -> u8
    requires two { length (input_paths plan.now) ≡ 2 }
    requires inputs { length inputs.now ≡ 2 }
    ensures status { result ≤ 2 }
    ensures no_text { (input : _) → Contains inputs.now input → ¬ (IsUtf8 input.items) → result ≡ 2 }
    ensures manifest { result ≡ 0 → (first : _) → slice_get inputs.now 0 ≡ Some first → IsManifest first.items }
    ensures done { result ≡ 0 → (first second : _) → slice_get inputs.now 0 ≡ Some first → slice_get inputs.now 1 ≡ Some second → IsWholeOrOpen first.items second.items }
    ensures rejected { result ≡ 1 → (first second : _) → slice_get inputs.now 0 ≡ Some first → slice_get inputs.now 1 ≡ Some second → IsRejectedTrace first.items second.items }
    ensures nothing { result ≡ 1 → Keeps (W.contents out.old) (W.contents out.new) }
    ensures quiet { result ≡ 0 → Keeps (E.contents err.old) (E.contents err.new) }
{
    let manifest = (plan.input(0), inputs[0].as_slice());
    let trace = (plan.input(1), inputs[1].as_slice());
    print_over(alloc, told, manifest, trace, notices, out, err)
}

// The same of a manifest and a trace, each a path and its bytes.
fn print_over<N: Notices, W: Write, E: Write>(
    alloc: Global,
    told: Told,
    manifest: (&str, &[u8]),
    trace: (&str, &[u8]),
    notices: &N,
    out: &mut W,
    err: &mut E,
) -> u8
    ensures status { result ≤ 2 }
    ensures manifest { ¬ (IsUtf8 manifest.entry.1.now) → result ≡ 2 }
    ensures trace { ¬ (IsUtf8 trace.entry.1.now) → result ≡ 2 }
    ensures done { result ≡ 0 → IsWholeOrOpen manifest.entry.1.now trace.entry.1.now }
    ensures rejected { result ≡ 1 → IsRejectedTrace manifest.entry.1.now trace.entry.1.now }
    ensures nothing { result ≡ 1 → Keeps (W.contents out.old) (W.contents out.new) }
    ensures quiet { result ≡ 0 → Keeps (E.contents err.old) (E.contents err.new) }
{
    match replayed(alloc, manifest, trace, notices) {
        Ok((manifest, whole)) => {
            print_whole(alloc, told, &manifest, &whole, Ending::Whole, out, err)
        }
        Err(fault) => print_open(alloc, told, manifest, trace, &fault, notices, out, err),
    }
}

// The same of a trace that has this fault, if it is open; else reports the fault.
fn print_open<N: Notices, W: Write, E: Write>(
    alloc: Global,
    told: Told,
    manifest: (&str, &[u8]),
    trace: (&str, &[u8]),
    fault: &Fault<'_>,
    notices: &N,
    out: &mut W,
    err: &mut E,
) -> u8
    ensures status { result ≤ 2 }
    ensures reported { status_of fault.now ≡ 2 → result ≡ 2 }
    ensures done { result ≡ 0 → IsOpenTrace manifest.entry.1.now trace.entry.1.now }
    ensures refused { result ≡ 1 → status_of fault.now ≡ 1 }
    ensures nothing { result ≡ 1 → Keeps (W.contents out.old) (W.contents out.new) }
    ensures quiet { result ≡ 0 → Keeps (E.contents err.old) (E.contents err.new) }
{
    let Fault::Trace(_) = fault else {
        return fault.report(err);
    };
    match closed(alloc, manifest, trace) {
        Ok(closing) => print_closed(alloc, told, manifest, closing, fault, notices, out, err),
        Err(_) => Fault::OutOfMemory.report(err),
    }
}

// The same of an open trace that was closed, if it is accepted so; else reports the fault that it has, and which line does not follow.
fn print_closed<N: Notices, W: Write, E: Write>(
    alloc: Global,
    told: Told,
    manifest: (&str, &[u8]),
    closing: Option<ClosedTrace>,
    fault: &Fault<'_>,
    notices: &N,
    out: &mut W,
    err: &mut E,
) -> u8
    ensures status { result ≤ 2 }
    ensures done { result ≡ 0 → IsSomeAnd closing (λ it. IsAcceptedTrace manifest.entry.1.now (string_bytes it.text)) }
    ensures nothing { result ≡ 1 → Keeps (W.contents out.old) (W.contents out.new) }
    ensures quiet { result ≡ 0 → Keeps (E.contents err.old) (E.contents err.new) }
{
    let Some(closing) = closing else {
        return fault.report(err);
    };
    // the text is UTF-8, so that its path is in no fault
    let trace = ("", closing.text.as_bytes());
    match replayed(alloc, manifest, trace, notices) {
        Ok((manifest, whole)) => {
            print_whole(alloc, told, &manifest, &whole, closing.ending, out, err)
        }
        Err(other) => report_unfollowed(alloc, fault, &other, err),
    }
}

// Prints that of a trace which is accepted, or open, with that ending, and answers the status.
fn print_whole<W: Write, E: Write>(
    alloc: Global,
    told: Told,
    manifest: &Manifest,
    whole: &WholeTrace,
    ending: Ending,
    out: &mut W,
    err: &mut E,
) -> u8
    ensures status { (result ≢ 1) × (result ≤ 2) }
    ensures quiet { result ≡ 0 → Keeps (E.contents err.old) (E.contents err.new) }
{
    let shown = Shown {
        carried: carried_by(whole),
        trace: &whole.trace,
        ending,
    };
    status(print(alloc, told, manifest, shown, out), err)
}

// Writes that of a trace that is accepted, or of an open one.
fn print<W: Write>(
    alloc: Global,
    told: Told,
    manifest: &Manifest,
    shown: Shown<'_>,
    out: &mut W,
) -> io::Result<()> {
    let config = &manifest.config;
    let named = named(alloc, &manifest.programs)?;
    match told {
        Told::Account(Form::Words, filter) => {
            account(alloc, config, &named, shown, &filter, out)
        }
        Told::Account(Form::Json, filter) => {
            write_account(alloc, config, &named, shown, &filter, out)
        }
        Told::Summary(Form::Words) => summarise(alloc, config, &named, shown, out),
        Told::Summary(Form::Json) => write_summary(alloc, config, &named, shown, out),
        Told::Drawn(Drawing::Svg) => draw(alloc, config, &named, shown, out),
        Told::Drawn(Drawing::Perfetto) => write_trace_events(alloc, config, &named, shown, out),
    }
}

/// The programs with their names, as those want them that show records.
pub(crate) fn named(
    alloc: Global,
    programs: &[NamedProgram],
) -> Result<Vec<NamedAccepted<'_>>, AllocError> {
    let mut named = Vec::with_capacity(alloc, programs.len())?;
    for program in programs {
        named.push(NamedAccepted {
            name: program.name.as_str(),
            accepted: &program.accepted,
        })?;
    }
    Ok(named)
}
