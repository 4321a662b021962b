// The verdict on a trace. It relies on `whole_trace` for its text, and on `replay`.

ghost use Rattle.std.specs.Prelude.{◌≡◌, ◌≤◌, ◌++◌, ◌∷◌, [], IfErr, IfOk, IsErrAnd, IsUtf8, Some, codes, map};
ghost use Rattle.std.specs.Io.KnownBytes.{Keeps};
ghost use Rattle.manifest.specs.Meaning.{Means};
ghost use Rattle.manifest.specs.Seen.{named_seen};
ghost use Rattle.whole_trace.specs.Continued.{items_of};
ghost use Rattle.whole_trace.specs.WholeText.{whole_text};
ghost use Rattle.cli_commands.specs.Faults.{status_of};
ghost use Rattle.cli_commands.specs.Told.{FollowsWhole, IsAcceptedTrace, IsRejectedTrace, IsTraceFault, PutsOut};

use crate::fault::Fault;
use crate::files::{text, write};
use engine_config::Config;
use manifest::Manifest;
use replay::{ReplayError, replay, replay_continued};
use std::alloc::Global;
use std::io::Write;
use whole_trace::WholeTrace;
use world_calls::Notices;

/// Prints that a trace is accepted over a manifest, each a path and its bytes, if it is, and answers the status.
pub(crate) fn print_verdict<N: Notices, W: Write, E: Write>(
    alloc: Global,
    manifest: (&str, &[u8]),
    trace: (&str, &[u8]),
    notices: &N,
    out: &mut W,
    err: &mut E,
) -> u8
    ensures status { result ≤ 2 }
    ensures manifest { ¬ (IsUtf8 manifest.entry.1.now) → result ≡ 2 }
    ensures trace { ¬ (IsUtf8 trace.entry.1.now) → result ≡ 2 }
    ensures done { result ≡ 0 → IsAcceptedTrace manifest.entry.1.now trace.entry.1.now }
    ensures output { result ≡ 0 → PutsOut (λ output. output ≡ codes "accepted" ++ 10 ∷ []) (W.contents out.old) (W.contents out.new) }
    ensures rejected { result ≡ 1 → IsRejectedTrace manifest.entry.1.now trace.entry.1.now }
    ensures nothing { result ≡ 1 → Keeps (W.contents out.old) (W.contents out.new) }
    ensures quiet { result ≡ 0 → Keeps (E.contents err.old) (E.contents err.new) }
{
    match replayed(alloc, manifest, trace, notices) {
        Ok(_) => write(b"accepted\n", out, err),
        Err(fault) => fault.report(err),
    }
}

/// Returns a manifest and a trace, each read from a path and its bytes, if the trace is accepted over the manifest. Otherwise it returns
/// the fault: a file that is not UTF-8 comes first, then the manifest's fault, then that of the trace.
pub fn replayed<'a, N: Notices>(
    alloc: Global,
    manifest: (&'a str, &[u8]),
    trace: (&'a str, &[u8]),
    notices: &N,
) -> Result<(Manifest, WholeTrace), Fault<'a>>
    ensures manifest { ¬ (IsUtf8 manifest.entry.1.now) → IsErrAnd result (λ e. status_of e ≡ 2) }
    ensures trace { ¬ (IsUtf8 trace.entry.1.now) → IsErrAnd result (λ e. status_of e ≡ 2) }
    ensures done { IfOk result (λ _. IsAcceptedTrace manifest.entry.1.now trace.entry.1.now) }
    ensures same { IfOk result (λ r. Means manifest.entry.1.now r.0.config (map named_seen r.0.programs.items) × (whole_text (items_of r.1.carried) r.1.trace ≡ Some trace.entry.1.now)) }
    ensures fault { IfErr result (λ e. status_of e ≡ 1 → IsTraceFault manifest.entry.1.now trace.entry.1.now e) }
{
    let manifest = text(manifest)?;
    let trace = text(trace)?;
    let manifest = manifest::read(alloc, manifest)?;
    let whole = whole_trace::read(alloc, trace)?;
    follow(alloc, &manifest.config, &whole, notices)?;
    Ok((manifest, whole))
}

// Replays a trace, from the opening of an engine or from what its carried lines say.
fn follow<N: Notices>(
    alloc: Global,
    config: &Config,
    whole: &WholeTrace,
    notices: &N,
) -> Result<(), ReplayError>
    ensures { FollowsWhole config.now (items_of whole.now.carried) whole.now.trace result }
{
    match &whole.carried {
        Some(lines) => { replay_continued(alloc, config, lines.as_slice(), &whole.trace, notices) }
        None => replay(alloc, config, &whole.trace, notices),
    }
}
