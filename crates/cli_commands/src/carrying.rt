// A plan, carried out over the bytes of its files. It relies on the crates that read programs, a manifest and a scenario, on
// `replaying` for the verdict on a trace, on `host_scenario`, and on `trace` and `verdicts` for what goes out.

ghost use Rattle.std.specs.Prelude.{◌≡◌, ◌≢◌, ◌≤◌, false, true, Contains, Some, IfOk, IfErr, IsErrAnd, IsUtf8, [], length, slice_get, string_bytes};
ghost use Rattle.std.specs.Io.KnownBytes.{Keeps};
ghost use Rattle.cli_line.specs.Files.{input_paths, reads_text};
ghost use Rattle.manifest.specs.Migration.{IsMigrated};
ghost use Rattle.trace.specs.HasText.{AllHaveText};
ghost use Rattle.scenario.specs.Said.{Say, lines_of};
ghost use Rattle.host_scenario.specs.Traces.{IsOfScenario};
ghost use Rattle.workers.specs.declared.serving.TheConstants.{MAX_WORKERS};
ghost use Rattle.cli_commands.specs.Faults.{status_of};
ghost use Rattle.cli_commands.specs.Told.{IsText, IsProgram, IsManifest, IsMigratable, needs_disk, IsFaultyText, IsFaultyProgram, IsFaultyManifest, IsFaultyMigration};
ghost use Rattle.cli_commands.specs.Refusals.{AreTold, refused_count};
ghost use Rattle.cli_commands.specs.Told.{IsAccepted, IsAsAsked, IsAssembled, IsDisassembled, IsFailed, IsFailedRun, IsFaulty, IsIdleUnder, IsOfManifest, IsOfScenarioText, IsOutput, IsPrinted, IsPutOut, IsRejected, IsRejectedScenario, IsScenario, IsScenarioFault, IsServing, IsTraceUnder, PutsOut, is_strict, version_named};

use crate::fault::Fault;
use crate::files::{text, unwritten, write};
use crate::handing::WriterSink;
use crate::refusals::report_refusals;
use crate::replaying::print_verdict;
use crate::verdicts;
use bpf_asm::{assemble, disassemble};
use bpf_decode::{decode, encode};
use cli_line::{LaterVersion, Plan};
use engine_core::Engine;
use manifest::{Manifest, NamedProgram};
use scenario::Scenario;
use std::alloc::Global;
use std::io;
use std::io::Write;
use std::sync::Wait;
use std::thread::Threads;
use workers::MAX_WORKERS;
use world_calls::{Notices, Trace, Version};

/// Carries a plan out over the bytes of its input files, in the order of the line, and answers the status:
/// 0 done; 1 refused; 2 for a file that is to be text and is not UTF-8, for want of memory, or where a writer fails. What is to
/// go out is written on `out`, and one line for a fault on `err`; if a file is refused, nothing goes out. If calls of a strict run are
/// refused, its trace goes out, one line on `err` says how many there are and where the first of them stands, and the status is 1. Where
/// `out` fails for want of memory that line is written too; some may be out then. How far a run or a replay is, is told where that is
/// wanted. The plans of a journal are not carried out here: `serve_journal` and `audit_journal` do that.
pub fn carry<N: Notices + Sync, R: Threads + Wait + Sync, W: Write, E: Write>(
    rt: &R,
    alloc: Global,
    plan: &Plan,
    inputs: &[Vec<u8>],
    notices: &N,
    out: &mut W,
    err: &mut E,
) -> u8
    requires { length inputs.now ≡ length (input_paths plan.now) }
    ensures status { result ≤ 2 }
    ensures no_text { reads_text plan.now ≡ true → (input : _) → Contains inputs.now input → ¬ (IsUtf8 input.items) → result ≡ 2 }
    // A plan of a journal is not carried out here.
    ensures no_disk { needs_disk plan.now ≡ true → result ≡ 2 }
    // Done only where the first file is what the plan asks for.
    ensures done { result ≡ 0 → (input : _) → slice_get inputs.now 0 ≡ Some input → IsAsAsked plan.now input.items }
    // A run is done only where the second file is a scenario; a replay, only where it is the trace of a history of an engine of the
    // first.
    ensures accepted { result ≡ 0 → (first second : _) → slice_get inputs.now 0 ≡ Some first → slice_get inputs.now 1 ≡ Some second → IsAccepted plan.now first.items second.items }
    // What is done has put out what the plan makes of the first file, and no more.
    ensures output { result ≡ 0 → (input : _) → slice_get inputs.now 0 ≡ Some input → IsOutput plan.now input.items (W.contents out.old) (W.contents out.new) }
    // What a run that is done has put out is the trace of the second file's calls on an engine of the first, with its sums.
    ensures out { result ≡ 0 → (first second : _) → slice_get inputs.now 0 ≡ Some first → slice_get inputs.now 1 ≡ Some second → IsPutOut plan.now first.items second.items (W.contents out.old) (W.contents out.new) }
    // Refused only where it has a fault, or a scenario or a trace after it has one.
    ensures refused { result ≡ 1 → (input : _) → slice_get inputs.now 0 ≡ Some input → IsFaulty plan.now input.items }
    // Of two files, refused only where one has a fault, a line of the trace does not follow, or the scenario has a release.
    ensures rejected { result ≡ 1 → (first second : _) → slice_get inputs.now 0 ≡ Some first → slice_get inputs.now 1 ≡ Some second → IsRejected plan.now first.items second.items }
    // What is refused puts nothing out, but for a strict run.
    ensures nothing { result ≡ 1 → is_strict plan.now ≡ false → Keeps (W.contents out.old) (W.contents out.new) }
    // What is done writes nothing on `err`.
    ensures quiet { result ≡ 0 → Keeps (E.contents err.old) (E.contents err.new) }
    // A strict run ends with 1 only where a run would, or where calls were refused: then they are counted.
    ensures failed { result ≡ 1 → (first second : _) → slice_get inputs.now 0 ≡ Some first → slice_get inputs.now 1 ≡ Some second → IsFailedRun plan.now first.items second.items (W.contents out.old) (W.contents out.new) (E.contents err.old) (E.contents err.new) }
{
    match plan {
        Plan::Asm(text, _) => {
            print_assembled(alloc, (text.as_str(), inputs[0].as_slice()), out, err)
        }
        Plan::Dis(_) => print_disassembled(alloc, inputs[0].as_slice(), out, err),
        Plan::Check(manifest) => {
            let manifest = (manifest.as_str(), inputs[0].as_slice());
            print_checked(alloc, manifest, out, err)
        }
        Plan::Run(workers, _, manifest, scenario) => {
            let manifest = (manifest.as_str(), inputs[0].as_slice());
            let scenario = (scenario.as_str(), inputs[1].as_slice());
            let workers = usize::from(*workers).clamp(1, MAX_WORKERS);
            print_run(rt, alloc, workers, manifest, scenario, notices, out, err)
        }
        Plan::Strict(workers, _, manifest, scenario) => {
            let manifest = (manifest.as_str(), inputs[0].as_slice());
            let scenario = (scenario.as_str(), inputs[1].as_slice());
            let workers = usize::from(*workers).clamp(1, MAX_WORKERS);
            print_strict(rt, alloc, workers, manifest, scenario, notices, out, err)
        }
        // of a live engine, what it does where nothing is asked
        Plan::Live(_, manifest) => {
            let manifest = (manifest.as_str(), inputs[0].as_slice());
            print_idle(alloc, manifest, out, err)
        }
        Plan::Replay(manifest, trace) => {
            let manifest = (manifest.as_str(), inputs[0].as_slice());
            let trace = (trace.as_str(), inputs[1].as_slice());
            print_verdict(alloc, manifest, trace, notices, out, err)
        }
        Plan::Migrate(to, manifest, _) => {
            let manifest = (manifest.as_str(), inputs[0].as_slice());
            print_migrated(alloc, version_named(*to), manifest, out, err)
        }
        Plan::Journal(..) => report_no_disk(err),
        Plan::Audit(_) => report_no_disk(err),
    }
}

// A journal needs a disk, so its plans are carried out by functions of their own.
fn report_no_disk<E: Write>(err: &mut E) -> u8
    ensures { result ≡ 2 }
{
    Fault::InternalError.report(err)
}

// Puts out the bytes of the program that a text says, a path and its bytes, and answers the status.
fn print_assembled<W: Write, E: Write>(
    alloc: Global,
    text: (&str, &[u8]),
    out: &mut W,
    err: &mut E,
) -> u8
    ensures status { result ≤ 2 }
    ensures no_text { ¬ (IsUtf8 text.entry.1.now) → result ≡ 2 }
    ensures done { result ≡ 0 → IsText text.entry.1.now }
    ensures output { result ≡ 0 → PutsOut (IsAssembled text.entry.1.now) (W.contents out.old) (W.contents out.new) }
    ensures refused { result ≡ 1 → IsFaultyText text.entry.1.now }
    ensures nothing { result ≡ 1 → Keeps (W.contents out.old) (W.contents out.new) }
    ensures quiet { result ≡ 0 → Keeps (E.contents err.old) (E.contents err.new) }
{
    match assembled(alloc, text) {
        Ok(bytes) => write(&bytes, out, err),
        Err(fault) => fault.report(err),
    }
}

// Puts out the text of the program of these bytes, and answers the status.
fn print_disassembled<W: Write, E: Write>(
    alloc: Global,
    bytes: &[u8],
    out: &mut W,
    err: &mut E,
) -> u8
    ensures status { result ≤ 2 }
    ensures done { result ≡ 0 → IsProgram bytes.now }
    ensures output { result ≡ 0 → PutsOut (IsDisassembled bytes.now) (W.contents out.old) (W.contents out.new) }
    ensures refused { result ≡ 1 → IsFaultyProgram bytes.now }
    ensures nothing { result ≡ 1 → Keeps (W.contents out.old) (W.contents out.new) }
    ensures quiet { result ≡ 0 → Keeps (E.contents err.old) (E.contents err.new) }
{
    match disassembled(alloc, bytes) {
        Ok(text) => write(text.as_bytes(), out, err),
        Err(fault) => fault.report(err),
    }
}

// Puts out the verdicts on the programs of a manifest, a path and its bytes, and answers the status.
fn print_checked<W: Write, E: Write>(
    alloc: Global,
    manifest: (&str, &[u8]),
    out: &mut W,
    err: &mut E,
) -> u8
    ensures status { result ≤ 2 }
    ensures no_text { ¬ (IsUtf8 manifest.entry.1.now) → result ≡ 2 }
    ensures done { result ≡ 0 → IsManifest manifest.entry.1.now }
    ensures refused { result ≡ 1 → IsFaultyManifest manifest.entry.1.now }
    ensures nothing { result ≡ 1 → Keeps (W.contents out.old) (W.contents out.new) }
    ensures quiet { result ≡ 0 → Keeps (E.contents err.old) (E.contents err.new) }
{
    match check(alloc, manifest) {
        Ok(manifest) => write_verdicts(&manifest.programs, out, err),
        Err(fault) => fault.report(err),
    }
}

// Writes the verdicts on these programs, and answers the status.
fn write_verdicts<W: Write, E: Write>(programs: &[NamedProgram], out: &mut W, err: &mut E) -> u8
    ensures status { (result ≢ 1) × (result ≤ 2) }
    ensures quiet { result ≡ 0 → Keeps (E.contents err.old) (E.contents err.new) }
{
    match verdicts::print(programs, out) {
        Ok(()) => 0,
        Err(error) => unwritten(error, err),
    }
}

// The bytes of the program that a text says, a path and its bytes.
fn assembled<'a>(alloc: Global, file: (&'a str, &[u8])) -> Result<Vec<u8>, Fault<'a>>
    ensures no_text { ¬ (IsUtf8 file.entry.1.now) → IsErrAnd result (λ e. status_of e ≡ 2) }
    ensures bytes { IfOk result (λ bytes. IsAssembled file.entry.1.now bytes.items) }
    ensures fault { IfErr result (λ e. status_of e ≡ 1 → IsFaultyText file.entry.1.now) }
{
    let program = assemble(alloc, text(file)?)?;
    encode(alloc, &program).map_err(|_| Fault::OutOfMemory)
}

// The text of the program of these bytes.
fn disassembled(alloc: Global, bytes: &[u8]) -> Result<String, Fault<'static>>
    ensures text { IfOk result (λ text. IsDisassembled bytes.now (string_bytes text)) }
    ensures fault { IfErr result (λ e. status_of e ≡ 1 → IsFaultyProgram bytes.now) }
{
    let program = decode(alloc, bytes)?;
    disassemble(alloc, &program).map_err(|_| Fault::OutOfMemory)
}

// A manifest, a path and its bytes, with its programs verified.
fn check<'a>(alloc: Global, file: (&'a str, &[u8])) -> Result<Manifest, Fault<'a>>
    ensures no_text { ¬ (IsUtf8 file.entry.1.now) → IsErrAnd result (λ e. status_of e ≡ 2) }
    ensures manifest { IfOk result (λ manifest. IsServing file.entry.1.now manifest.config) }
    ensures fault { IfErr result (λ e. status_of e ≡ 1 → IsFaultyManifest file.entry.1.now) }
{
    Ok(manifest::read(alloc, text(file)?)?)
}

// The version by that name of the command line.
fn version_named(to: LaterVersion) -> Version
    ensures { result ≡ version_named to }
{
    match to {
        LaterVersion::Two => Version::Two,
        LaterVersion::Three => Version::Three,
    }
}

// Prints a manifest of a lower version, a path and its bytes, as one of that version, and answers the status.
fn print_migrated<W: Write, E: Write>(
    alloc: Global,
    to: Version,
    manifest: (&str, &[u8]),
    out: &mut W,
    err: &mut E,
) -> u8
    ensures status { result ≤ 2 }
    ensures no_text { ¬ (IsUtf8 manifest.entry.1.now) → result ≡ 2 }
    ensures done { result ≡ 0 → IsMigratable to manifest.entry.1.now }
    ensures output { result ≡ 0 → PutsOut (IsMigrated to manifest.entry.1.now) (W.contents out.old) (W.contents out.new) }
    ensures refused { result ≡ 1 → IsFaultyMigration to manifest.entry.1.now }
    ensures nothing { result ≡ 1 → Keeps (W.contents out.old) (W.contents out.new) }
    ensures quiet { result ≡ 0 → Keeps (E.contents err.old) (E.contents err.new) }
{
    match migrated(alloc, to, manifest) {
        Ok(text) => write(text.as_bytes(), out, err),
        Err(fault) => fault.report(err),
    }
}

// The text of that version for a manifest of a lower one, a path and its bytes.
fn migrated<'a>(alloc: Global, to: Version, file: (&'a str, &[u8])) -> Result<String, Fault<'a>>
    ensures no_text { ¬ (IsUtf8 file.entry.1.now) → IsErrAnd result (λ e. status_of e ≡ 2) }
    ensures migrated { IfOk result (λ text. IsMigrated to file.entry.1.now (string_bytes text)) }
    ensures fault { IfErr result (λ e. status_of e ≡ 1 → IsFaultyMigration to file.entry.1.now) }
{
    Ok(manifest::migrate(alloc, text(file)?, to)?)
}

// Prints the trace of a manifest and a scenario, each a path and its bytes, run by so many workers, and answers the status.
fn print_run<N: Notices + Sync, R: Threads + Wait + Sync, W: Write, E: Write>(
    rt: &R,
    alloc: Global,
    workers: usize,
    manifest: (&str, &[u8]),
    scenario: (&str, &[u8]),
    notices: &N,
    out: &mut W,
    err: &mut E,
) -> u8
    requires { (1 ≤ workers) × (workers ≤ MAX_WORKERS) }
    ensures status { result ≤ 2 }
    ensures manifest { ¬ (IsUtf8 manifest.entry.1.now) → result ≡ 2 }
    ensures scenario { ¬ (IsUtf8 scenario.entry.1.now) → result ≡ 2 }
    ensures done { result ≡ 0 → IsManifest manifest.entry.1.now }
    ensures accepted { result ≡ 0 → IsScenario manifest.entry.1.now scenario.entry.1.now }
    ensures out { result ≡ 0 → (trace : _) × IsOfManifest manifest.entry.1.now trace × IsOfScenarioText scenario.entry.1.now trace × IsPrinted trace (W.contents out.old) (W.contents out.new) }
    ensures output { result ≡ 0 → PutsOut (IsTraceUnder manifest.entry.1.now) (W.contents out.old) (W.contents out.new) }
    ensures rejected { result ≡ 1 → IsRejectedScenario manifest.entry.1.now scenario.entry.1.now }
    ensures nothing { result ≡ 1 → Keeps (W.contents out.old) (W.contents out.new) }
    ensures quiet { result ≡ 0 → Keeps (E.contents err.old) (E.contents err.new) }
{
    match run(rt, alloc, workers, manifest, scenario, notices) {
        Ok(trace) => write_trace(&trace, out, err),
        Err(fault) => fault.report(err),
    }
}

// The same, and the calls that were refused are counted on `err`: if there are any, the status is 1.
fn print_strict<N: Notices + Sync, R: Threads + Wait + Sync, W: Write, E: Write>(
    rt: &R,
    alloc: Global,
    workers: usize,
    manifest: (&str, &[u8]),
    scenario: (&str, &[u8]),
    notices: &N,
    out: &mut W,
    err: &mut E,
) -> u8
    requires { (1 ≤ workers) × (workers ≤ MAX_WORKERS) }
    ensures status { result ≤ 2 }
    ensures manifest { ¬ (IsUtf8 manifest.entry.1.now) → result ≡ 2 }
    ensures scenario { ¬ (IsUtf8 scenario.entry.1.now) → result ≡ 2 }
    ensures done { result ≡ 0 → IsManifest manifest.entry.1.now }
    ensures accepted { result ≡ 0 → IsScenario manifest.entry.1.now scenario.entry.1.now }
    ensures out { result ≡ 0 → (trace : _) × IsOfManifest manifest.entry.1.now trace × IsOfScenarioText scenario.entry.1.now trace × IsPrinted trace (W.contents out.old) (W.contents out.new) × (refused_count trace.records.items ≡ 0) }
    ensures output { result ≡ 0 → PutsOut (IsTraceUnder manifest.entry.1.now) (W.contents out.old) (W.contents out.new) }
    ensures quiet { result ≡ 0 → Keeps (E.contents err.old) (E.contents err.new) }
    ensures failed { result ≡ 1 → IsFailed manifest.entry.1.now scenario.entry.1.now (W.contents out.old) (W.contents out.new) (E.contents err.old) (E.contents err.new) }
{
    match carried_out(rt, alloc, workers, manifest, scenario, notices) {
        Ok((steps, trace)) => print_counted(&steps, &trace, out, err),
        Err(fault) => fault.report(err),
    }
}

// Writes the whole trace of a scenario, counts on `err` the calls that were refused, and answers the status. The trace is out before they
// are counted.
fn print_counted<W: Write, E: Write>(
    scenario: &Scenario<'_>,
    trace: &Trace,
    out: &mut W,
    err: &mut E,
) -> u8
    requires { AllHaveText trace.now.version trace.now.records.items }
    ensures status { result ≤ 2 }
    ensures written { result ≢ 2 → IsPrinted trace.now (W.contents out.old) (W.contents out.new) }
    ensures none { result ≡ 0 → refused_count trace.now.records.items ≡ 0 }
    ensures quiet { result ≡ 0 → Keeps (E.contents err.old) (E.contents err.new) }
    ensures told { result ≡ 1 → AreTold scenario.now trace.now.records.items (E.contents err.old) (E.contents err.new) }
{
    match print_flushed(trace, out) {
        Ok(()) => report_refusals(scenario, &trace.records, err),
        Err(error) => unwritten(error, err),
    }
}

// The whole trace goes out, and nothing of it waits in a buffer.
fn print_flushed<W: Write>(trace: &Trace, out: &mut W) -> io::Result<()>
    requires { AllHaveText trace.now.version trace.now.records.items }
    ensures { IfOk result (λ _. IsPrinted trace.now (W.contents out.old) (W.contents out.new)) }
{
    match print_trace(trace, out) {
        Ok(()) => out.flush(),
        Err(error) => Err(error),
    }
}

// Prints the trace of an engine of a manifest, a path and its bytes, of which nothing is asked, and answers the status.
fn print_idle<W: Write, E: Write>(
    alloc: Global,
    manifest: (&str, &[u8]),
    out: &mut W,
    err: &mut E,
) -> u8
    ensures status { result ≤ 2 }
    ensures no_text { ¬ (IsUtf8 manifest.entry.1.now) → result ≡ 2 }
    ensures done { result ≡ 0 → IsManifest manifest.entry.1.now }
    ensures output { result ≡ 0 → PutsOut (IsIdleUnder manifest.entry.1.now) (W.contents out.old) (W.contents out.new) }
    ensures refused { result ≡ 1 → IsFaultyManifest manifest.entry.1.now }
    ensures nothing { result ≡ 1 → Keeps (W.contents out.old) (W.contents out.new) }
    ensures quiet { result ≡ 0 → Keeps (E.contents err.old) (E.contents err.new) }
{
    match idle(alloc, manifest) {
        Ok(trace) => write_trace(&trace, out, err),
        Err(fault) => fault.report(err),
    }
}

// The trace of an engine of a manifest, a path and its bytes, of which nothing is asked.
fn idle<'a>(alloc: Global, manifest: (&'a str, &[u8])) -> Result<Trace, Fault<'a>>
    ensures no_text { ¬ (IsUtf8 manifest.entry.1.now) → IsErrAnd result (λ e. status_of e ≡ 2) }
    ensures spelled { IfOk result (λ trace. AllHaveText trace.version trace.records.items) }
    ensures trace { IfOk result (λ trace. IsOfManifest manifest.entry.1.now trace) }
    ensures empty { IfOk result (λ trace. trace.records.items ≡ []) }
    ensures fault { IfErr result (λ e. status_of e ≡ 1 → IsFaultyManifest manifest.entry.1.now) }
{
    let manifest = check(alloc, manifest)?;
    match Engine::open(alloc, manifest.config) {
        Ok(engine) => Ok(engine.shut()),
        Err(_) => Err(Fault::OutOfMemory),
    }
}

/// Writes the whole trace, and answers the status.
pub fn write_trace<W: Write, E: Write>(trace: &Trace, out: &mut W, err: &mut E) -> u8
    requires { AllHaveText trace.now.version trace.now.records.items }
    ensures status { (result ≢ 1) × (result ≤ 2) }
    ensures written { result ≡ 0 → IsPrinted trace.now (W.contents out.old) (W.contents out.new) }
    ensures quiet { result ≡ 0 → Keeps (E.contents err.old) (E.contents err.new) }
{
    match print_trace(trace, out) {
        Ok(()) => 0,
        Err(error) => unwritten(error, err),
    }
}

// The whole trace goes out, or why not.
fn print_trace<W: Write>(trace: &Trace, out: &mut W) -> io::Result<()>
    requires { AllHaveText trace.now.version trace.now.records.items }
    ensures { IfOk result (λ _. IsPrinted trace.now (W.contents out.old) (W.contents out.new)) }
{
    let mut handing = WriterSink::new(out);
    match trace::print(trace, &mut handing) {
        Ok(()) => Ok(()),
        Err(_) => Err(handing.last_failure()),
    }
}

/// The trace of a manifest and a scenario, each a path and its bytes, run by so many workers; else what is wrong with the first of them
/// that has a fault, or with the run.
pub fn run<'a, N: Notices + Sync, R: Threads + Wait + Sync>(
    rt: &R,
    alloc: Global,
    workers: usize,
    manifest: (&'a str, &[u8]),
    scenario: (&'a str, &[u8]),
    notices: &N,
) -> Result<Trace, Fault<'a>>
    requires { (1 ≤ workers) × (workers ≤ MAX_WORKERS) }
    ensures manifest { ¬ (IsUtf8 manifest.entry.1.now) → IsErrAnd result (λ e. status_of e ≡ 2) }
    ensures scenario { ¬ (IsUtf8 scenario.entry.1.now) → IsErrAnd result (λ e. status_of e ≡ 2) }
    ensures done { IfOk result (λ _. IsManifest manifest.entry.1.now) }
    ensures accepted { IfOk result (λ _. IsScenario manifest.entry.1.now scenario.entry.1.now) }
    ensures spelled { IfOk result (λ trace. AllHaveText trace.version trace.records.items) }
    ensures trace { IfOk result (λ trace. IsOfManifest manifest.entry.1.now trace) }
    ensures asked { IfOk result (λ trace. IsOfScenarioText scenario.entry.1.now trace) }
    ensures fault { IfErr result (λ e. status_of e ≡ 1 → IsScenarioFault manifest.entry.1.now scenario.entry.1.now e) }
{
    match carried_out(rt, alloc, workers, manifest, scenario, notices) {
        Ok((_, trace)) => Ok(trace),
        Err(fault) => Err(fault),
    }
}

// The same, with the scenario.
#[tactic(auto, using(trace_of_history::proofs::Each::each_record_has_text))]
fn carried_out<'a, 'b, N: Notices + Sync, R: Threads + Wait + Sync>(
    rt: &R,
    alloc: Global,
    workers: usize,
    manifest: (&'a str, &[u8]),
    scenario: (&'a str, &'b [u8]),
    notices: &N,
) -> Result<(Scenario<'b>, Trace), Fault<'a>>
    requires { (1 ≤ workers) × (workers ≤ MAX_WORKERS) }
    ensures manifest { ¬ (IsUtf8 manifest.entry.1.now) → IsErrAnd result (λ e. status_of e ≡ 2) }
    ensures scenario { ¬ (IsUtf8 scenario.entry.1.now) → IsErrAnd result (λ e. status_of e ≡ 2) }
    ensures done { IfOk result (λ _. IsManifest manifest.entry.1.now) }
    ensures accepted { IfOk result (λ _. IsScenario manifest.entry.1.now scenario.entry.1.now) }
    ensures said { IfOk result (λ its. Say its.1.version (lines_of scenario.entry.1.now) its.0) }
    ensures spelled { IfOk result (λ its. AllHaveText its.1.version its.1.records.items) }
    ensures trace { IfOk result (λ its. IsOfManifest manifest.entry.1.now its.1) }
    ensures asked { IfOk result (λ its. IsOfScenario its.1.version its.0 its.1.records.items) }
    ensures fault { IfErr result (λ e. status_of e ≡ 1 → IsScenarioFault manifest.entry.1.now scenario.entry.1.now e) }
{
    let manifest = text(manifest)?;
    let scenario = text(scenario)?;
    let manifest = manifest::read(alloc, manifest)?;
    let version = Version::of(manifest.config.helpers());
    let steps = scenario::read(alloc, version, scenario)?;
    let trace = host_scenario::run(rt, alloc, manifest.config, &steps, workers, notices)?;
    Ok((steps, trace))
}
