// How the policies of a manifest do on devices, over the bytes of the two files. It relies on `trial_disks` for the devices, on `host_trial` for
// what happens, on `show_summary` for its counts, and on `cli_commands` for what is wrong with a manifest and for how a trace goes out.

ghost use Rattle.std.specs.Prelude.{◌≡◌, ◌≢◌, ◌≤◌, Contains, IfOk, IsErrAnd, IsUtf8, Some, length, slice_get};
ghost use Rattle.std.specs.Io.KnownBytes.{Keeps};
ghost use Rattle.trace.specs.HasText.{AllHaveText};
ghost use Rattle.host_trial.specs.declared.ending.Ending.TheVariants.{Finished};
ghost use Rattle.cli_commands.specs.Faults.{status_of};
ghost use Rattle.cli_commands.specs.Told.{IsManifest, IsPrinted};
ghost use Rattle.cli_inspect_line.specs.Files.{input_paths, kept_path};
ghost use Rattle.cli_inspection.specs.Trials.{IsKept, IsKeptAt, IsLeft, IsTrialOn, IsTriedBy, IsTriedOn, IsTriedOut, status_untold};

use crate::tracing::named;
use crate::untried::{Untold, report_ending, report_untold};
use base::OrMemory;
use cli_commands::{Fault, status, text, write_trace};
use cli_inspect_line::Plan;
use cli_line::is_stream;
use host_trial::{Ending, Trial};
use manifest::Manifest;
use show_events::{Ending as TraceEnding, Shown};
use show_summary::summarise;
use std::alloc::Global;
use std::io;
use std::io::Write;
use trial_disks::Disks;

/// Tries the policies of a manifest on devices, prints the counts, keeps the trace where it is asked for, and answers the status: 1 also if
/// CCBs are left. The plan has the two paths, whose bytes are the inputs.
pub(crate) fn print_tried<W: Write, K: Write, E: Write>(
    alloc: Global,
    plan: &Plan,
    inputs: &[Vec<u8>],
    out: &mut W,
    kept: &mut K,
    err: &mut E,
) -> u8
    requires two { length (input_paths plan.now) ≡ 2 }
    requires inputs { length inputs.now ≡ 2 }
    ensures status { result ≤ 2 }
    ensures no_text { (input : _) → Contains inputs.now input → ¬ (IsUtf8 input.items) → result ≡ 2 }
    ensures manifest { result ≡ 0 → (first : _) → slice_get inputs.now 0 ≡ Some first → IsManifest first.items }
    // Done only if a trial of the manifest on the devices is finished; and the trace of the trial is kept, also if it is not finished.
    ensures done { result ≡ 0 → (first second : _) → slice_get inputs.now 0 ≡ Some first → slice_get inputs.now 1 ≡ Some second → IsTriedOut (kept_path plan.now) first.items second.items (W.contents out.old) (W.contents out.new) (K.contents kept.old) (K.contents kept.new) }
    ensures left { result ≡ 1 → (first second : _) → slice_get inputs.now 0 ≡ Some first → slice_get inputs.now 1 ≡ Some second → IsLeft (kept_path plan.now) first.items second.items (W.contents out.old) (W.contents out.new) (K.contents kept.old) (K.contents kept.new) }
    ensures quiet { result ≡ 0 → Keeps (E.contents err.old) (E.contents err.new) }
{
    let manifest = (plan.input(0), inputs[0].as_slice());
    let disks = (plan.input(1), inputs[1].as_slice());
    print_over(alloc, plan, manifest, disks, out, kept, err)
}

// The same of a manifest and of devices, each a path and its bytes.
fn print_over<W: Write, K: Write, E: Write>(
    alloc: Global,
    plan: &Plan,
    manifest: (&str, &[u8]),
    disks: (&str, &[u8]),
    out: &mut W,
    kept: &mut K,
    err: &mut E,
) -> u8
    ensures status { result ≤ 2 }
    ensures manifest { ¬ (IsUtf8 manifest.entry.1.now) → result ≡ 2 }
    ensures disks { ¬ (IsUtf8 disks.entry.1.now) → result ≡ 2 }
    ensures done { result ≡ 0 → IsTriedOut (kept_path plan.now) manifest.entry.1.now disks.entry.1.now (W.contents out.old) (W.contents out.new) (K.contents kept.old) (K.contents kept.new) }
    ensures left { result ≡ 1 → IsLeft (kept_path plan.now) manifest.entry.1.now disks.entry.1.now (W.contents out.old) (W.contents out.new) (K.contents kept.old) (K.contents kept.new) }
    ensures quiet { result ≡ 0 → Keeps (E.contents err.old) (E.contents err.new) }
{
    match tried(alloc, plan.seed(), manifest, disks) {
        Ok((manifest, trial)) => print_trial(alloc, plan, &manifest, &trial, out, kept, err),
        Err(untold) => report_untold(alloc, &untold, err),
    }
}

// The trial of a manifest and of devices, each a path and its bytes.
fn tried<'a>(
    alloc: Global,
    seed: Option<u64>,
    manifest: (&'a str, &[u8]),
    disks: (&'a str, &[u8]),
) -> Result<(Manifest, Trial), Untold<'a>>
    ensures manifest { ¬ (IsUtf8 manifest.entry.1.now) → IsErrAnd result (λ e. status_untold e ≡ 2) }
    ensures disks { ¬ (IsUtf8 disks.entry.1.now) → IsErrAnd result (λ e. status_untold e ≡ 2) }
    ensures tried { IfOk result (λ it. IsTriedOn manifest.entry.1.now disks.entry.1.now it.1) }
    ensures spelled { IfOk result (λ it. AllHaveText it.1.trace.version it.1.trace.records.items) }
{
    match texts(manifest, disks) {
        Ok((manifest, disks)) => tried_on(alloc, seed, manifest, disks),
        Err(fault) => Err(Untold::Fault(fault)),
    }
}

// Both files as texts.
fn texts<'a, 'b>(
    manifest: (&'a str, &'b [u8]),
    disks: (&'a str, &'b [u8]),
) -> Result<(&'b str, &'b str), Fault<'a>>
    ensures manifest { ¬ (IsUtf8 manifest.entry.1.now) → IsErrAnd result (λ e. status_of e ≡ 2) }
    ensures disks { ¬ (IsUtf8 disks.entry.1.now) → IsErrAnd result (λ e. status_of e ≡ 2) }
    ensures same { IfOk result (λ its. its.0.now ≡ manifest.entry.1.now) }
    ensures same_disks { IfOk result (λ its. its.1.now ≡ disks.entry.1.now) }
{
    let manifest = text(manifest)?;
    let disks = text(disks)?;
    Ok((manifest, disks))
}

// The trial of a manifest and of devices, each as its text.
fn tried_on<'a>(
    alloc: Global,
    seed: Option<u64>,
    manifest: &str,
    disks: &str,
) -> Result<(Manifest, Trial), Untold<'a>>
    ensures tried { IfOk result (λ it. IsTriedOn manifest.now disks.now it.1) }
    ensures spelled { IfOk result (λ it. AllHaveText it.1.trace.version it.1.trace.records.items) }
{
    match manifest::read(alloc, manifest) {
        Ok(manifest) => match trial_of(alloc, seed, &manifest, disks) {
            Ok(trial) => Ok((manifest, trial)),
            Err(untold) => Err(untold),
        },
        Err(OrMemory::Fault(fault)) => Err(Untold::Fault(Fault::Manifest(fault))),
        Err(OrMemory::OutOfMemory) => Err(Untold::Fault(Fault::OutOfMemory)),
    }
}

// The trial of a manifest on the devices of a text.
fn trial_of<'a>(
    alloc: Global,
    seed: Option<u64>,
    manifest: &Manifest,
    text: &str,
) -> Result<Trial, Untold<'a>>
    ensures tried { IfOk result (IsTriedBy manifest.now.config text.now) }
    ensures spelled { IfOk result (λ it. AllHaveText it.trace.version it.trace.records.items) }
{
    match trial_disks::read(alloc, text) {
        Ok(disks) => match trial_on(alloc, seed, manifest, &disks) {
            Ok(trial) => Ok(trial),
            Err(untold) => Err(untold),
        },
        Err(OrMemory::Fault(fault)) => Err(Untold::Disks(fault)),
        Err(OrMemory::OutOfMemory) => Err(Untold::Fault(Fault::OutOfMemory)),
    }
}

// The trial of a manifest on these devices.
fn trial_on<'a>(
    alloc: Global,
    seed: Option<u64>,
    manifest: &Manifest,
    disks: &Disks,
) -> Result<Trial, Untold<'a>>
    ensures tried { IfOk result (IsTrialOn manifest.now.config disks.now) }
    ensures spelled { IfOk result (λ it. AllHaveText it.trace.version it.trace.records.items) }
{
    let seed = seed.unwrap_or(disks.seed);
    match host_trial::run(alloc, &manifest.config, disks, seed) {
        Ok(trial) => Ok(trial),
        Err(OrMemory::Fault(device)) => {
            let fault = disks.misplaced(alloc, device, manifest.config.queues());
            Err(Untold::Disks(fault))
        }
        Err(OrMemory::OutOfMemory) => Err(Untold::Fault(Fault::OutOfMemory)),
    }
}

// Prints the counts of a trial, or its trace; keeps the trace; and says how it ended.
fn print_trial<W: Write, K: Write, E: Write>(
    alloc: Global,
    plan: &Plan,
    manifest: &Manifest,
    trial: &Trial,
    out: &mut W,
    kept: &mut K,
    err: &mut E,
) -> u8
    requires { AllHaveText trial.now.trace.version trial.now.trace.records.items }
    ensures status { result ≤ 2 }
    ensures done { result ≡ 0 → trial.now.ending ≡ Finished }
    ensures unfinished { result ≡ 1 → trial.now.ending ≢ Finished }
    ensures kept { result ≡ 0 → IsKept (kept_path plan.now) trial.now.trace (W.contents out.old) (W.contents out.new) (K.contents kept.old) (K.contents kept.new) }
    ensures left { result ≡ 1 → IsKept (kept_path plan.now) trial.now.trace (W.contents out.old) (W.contents out.new) (K.contents kept.old) (K.contents kept.new) }
    ensures quiet { result ≡ 0 → Keeps (E.contents err.old) (E.contents err.new) }
{
    let printed = print(alloc, plan, manifest, trial, out, kept, err);
    if printed != 0 {
        return printed;
    }
    match trial.ending {
        Ending::Finished => 0,
        Ending::Stopped(_) => report_ending(alloc, trial, err),
    }
}

// Prints the counts of a trial, or its trace, and keeps the trace.
fn print<W: Write, K: Write, E: Write>(
    alloc: Global,
    plan: &Plan,
    manifest: &Manifest,
    trial: &Trial,
    out: &mut W,
    kept: &mut K,
    err: &mut E,
) -> u8
    requires { AllHaveText trial.now.trace.version trial.now.trace.records.items }
    ensures status { (result ≢ 1) × (result ≤ 2) }
    ensures kept { result ≡ 0 → IsKept (kept_path plan.now) trial.now.trace (W.contents out.old) (W.contents out.new) (K.contents kept.old) (K.contents kept.new) }
    ensures quiet { result ≡ 0 → Keeps (E.contents err.old) (E.contents err.new) }
{
    match plan.kept() {
        Some(path) => print_kept(alloc, path, manifest, trial, out, kept, err),
        None => print_summary(alloc, manifest, trial, out, err),
    }
}

// Prints the trace of a trial, if it is kept at a stream, and else its counts.
fn print_kept<W: Write, K: Write, E: Write>(
    alloc: Global,
    path: &str,
    manifest: &Manifest,
    trial: &Trial,
    out: &mut W,
    kept: &mut K,
    err: &mut E,
) -> u8
    requires { AllHaveText trial.now.trace.version trial.now.trace.records.items }
    ensures status { (result ≢ 1) × (result ≤ 2) }
    ensures kept { result ≡ 0 → IsKeptAt path.now trial.now.trace (W.contents out.old) (W.contents out.new) (K.contents kept.old) (K.contents kept.new) }
    ensures quiet { result ≡ 0 → Keeps (E.contents err.old) (E.contents err.new) }
{
    if is_stream(path) {
        write_trace(&trial.trace, out, err)
    } else {
        print_both(alloc, manifest, trial, out, kept, err)
    }
}

// Prints the counts of a trial, and keeps its trace. What is kept first is what can be refused without anything being out.
fn print_both<W: Write, K: Write, E: Write>(
    alloc: Global,
    manifest: &Manifest,
    trial: &Trial,
    out: &mut W,
    kept: &mut K,
    err: &mut E,
) -> u8
    requires { AllHaveText trial.now.trace.version trial.now.trace.records.items }
    ensures status { (result ≢ 1) × (result ≤ 2) }
    ensures kept { result ≡ 0 → IsPrinted trial.now.trace (K.contents kept.old) (K.contents kept.new) }
    ensures quiet { result ≡ 0 → Keeps (E.contents err.old) (E.contents err.new) }
{
    let kept = write_trace(&trial.trace, kept, err);
    if kept == 0 {
        print_summary(alloc, manifest, trial, out, err)
    } else {
        kept
    }
}

// Prints the counts of a trial.
fn print_summary<W: Write, E: Write>(
    alloc: Global,
    manifest: &Manifest,
    trial: &Trial,
    out: &mut W,
    err: &mut E,
) -> u8
    ensures status { (result ≢ 1) × (result ≤ 2) }
    ensures quiet { result ≡ 0 → Keeps (E.contents err.old) (E.contents err.new) }
{
    status(summary(alloc, manifest, trial, out), err)
}

fn summary<W: Write>(
    alloc: Global,
    manifest: &Manifest,
    trial: &Trial,
    out: &mut W,
) -> io::Result<()> {
    let named = named(alloc, &manifest.programs)?;
    let shown = Shown {
        carried: None,
        trace: &trial.trace,
        ending: TraceEnding::Whole,
    };
    summarise(alloc, &manifest.config, &named, shown, out)
}
