// The program: it reads the words after its name and the files that they name, and carries them out. It relies
// on `cli_line` for the words, on `cli_commands` for what is carried out, and on `cli_io` for the machine.
#![tactic(auto)]

ghost use Rattle.std.specs.Prelude.{◌≡◌, ◌<◌, ◌^◌, length, IfOk};
ghost use Rattle.cli_line.specs.Files.{input_paths};

use cli_commands::{
    AnsweringSink, Fault, GivenManifest, ManifestUnread, MetricsFile, MetricsUnwritten, WriterSink,
    audit_journal, carry, report_usage, serve, serve_journal,
};
use cli_io::{
    Clocked, Disk, Feeder, JournalDisk, MOST_MANIFEST, MOST_PROGRAM, MOST_SCENARIO, MOST_TEXT,
    MOST_TRACE, Patient, Reading, Relay, Relayer, Stopwatch, Telling, are_same, read_all,
    read_file, replace, stands_in, words,
};
use cli_line::{Manner, Plan, Watch, is_stream, not_utf8, plan};
use host_live::{Input, Moment};
use host_metrics::Metrics;
use std::alloc::{AllocError, Global};
use std::fs::File;
use std::io::{BufWriter, IsTerminal, Stderr, Write};
use std::process::ExitCode;
use std::random::RandomSource;
use std::rt::{Clock, Files, Runtime};
use std::sync::Wait;
use std::thread::Threads;
use std::{io, thread};
use world_calls::Notices;

fn main(rt: HostRuntime) -> ExitCode {
    let told = rt.stderr();
    let mut err = Patient::new(&rt, told);
    let begin = move |feeder: Feeder, relayer: Relayer| {
        thread::spawn(&rt, move || {
            feeder.read_all(&rt, Patient::new(&rt, rt.reader()))
        })
        .is_ok()
            && thread::spawn(&rt, move || {
                relayer.write_all(&rt, Patient::new(&rt, rt.stderr()))
            })
            .is_ok()
    };
    let out = BufWriter::new(rt.alloc(), Patient::new(&rt, io::writer(&rt)));
    ExitCode::from(match out {
        Ok(mut out) => {
            let status = status(&rt, told, &mut out, &mut err, begin);
            if out.flush().is_ok() { status } else { 2 }
        }
        Err(_) => Fault::OutOfMemory.report(&mut err),
    })
}

// Does what the words say, and answers the status to end with. `begin` starts a thread that reads standard input, and one that writes what
// is told on standard error.
fn status<
    R: Runtime + Files<File = File> + RandomSource + AllocGlobal + Threads + Wait + Sync,
    W: Write,
    E: Write,
    B: FnOnce(Feeder, Relayer) -> bool,
>(rt: &R, told: Stderr, out: &mut W, err: &mut E, begin: B) -> u8
    requires { (feeder : _) (relayer : _) → B.pre begin feeder relayer }
{
    let words = match words(rt) {
        Ok(words) => words,
        Err(error) if error.kind() == io::ErrorKind::OutOfMemory => {
            return Fault::OutOfMemory.report(err);
        }
        // of words nothing else is reported but that one is not UTF-8
        Err(_) => return report_usage(&not_utf8(rt.alloc()), out, err),
    };
    match plan(rt.alloc(), words.as_slice()) {
        Ok(plan) => match read_inputs(rt, &plan) {
            Ok(inputs) => match &plan {
                Plan::Live(manner, manifest) => {
                    let manifest = (manifest.as_str(), inputs[0].as_slice());
                    serve_line_by_line(rt, manner, Service::Alone(manifest), err, begin)
                }
                Plan::Journal(manner, is_synced, folder, _) => {
                    let manifest = first_input(&plan, &inputs);
                    let service = Service::Journal(folder.as_str(), *is_synced, manifest);
                    serve_line_by_line(rt, manner, service, err, begin)
                }
                Plan::Audit(folder) => {
                    let mut disk = JournalDisk::new(rt, folder.as_str(), Silence);
                    audit_journal(rt.alloc(), &mut disk, folder.as_str(), out, err)
                }
                _ => {
                    let is_on = tells(&plan, &told);
                    carry_out(rt, &plan, &inputs, &Telling::new(rt, told, is_on), out, err)
                }
            },
            Err(fault) => fault.report(err),
        },
        Err(fault) => report_usage(&fault, out, err),
    }
}

/// What a live engine is asked of: that of a manifest, a path and its bytes; or that of a journal, whose folder that is, which may be
/// synced, with the manifest if one is given.
#[derive(Clone, Copy)]
enum Service<'a> {
    Alone((&'a str, &'a [u8])),
    Journal(&'a str, bool, Option<(&'a str, &'a [u8])>),
}

impl<'a> Service<'a> {
    // Whether a later start goes on with the trace.
    fn is_kept(&self) -> bool {
        match self {
            Service::Alone(_) => false,
            Service::Journal(..) => true,
        }
    }

    // The path of the manifest, if one is given.
    fn path(&self) -> Option<&'a str> {
        match self {
            Service::Alone((path, _)) => Some(*path),
            Service::Journal(_, _, Some((path, _))) => Some(*path),
            Service::Journal(_, _, None) => None,
        }
    }

    // The journal's folder, if there is a journal.
    fn folder(&self) -> Option<&'a str> {
        match self {
            Service::Alone(_) => None,
            Service::Journal(folder, ..) => Some(*folder),
        }
    }
}

/// The files that are given: that of the manifest, if one is, and that for what is counted, if one is.
#[derive(Drop)]
struct GivenFiles<'a, R: Files<File = File> + AllocGlobal + Clock> {
    rt: &'a R,
    path: Option<&'a str>,
    metrics: Option<&'a str>,
    // the counters between an engine and the one that follows it
    counted: Option<Metrics>,
    clock: Stopwatch<'a, R>,
    // when what is counted was written last
    written: Option<u64>,
    has_failed: bool,
}

/// How long what is counted stands before it is written anew, in milliseconds, unless a timer was due.
const PAUSE: u64 = 1000;

impl<'a, R: Files<File = File> + AllocGlobal + Clock> GivenFiles<'a, R> {
    // Those of a live engine, of which nothing was counted.
    fn of(rt: &'a R, path: Option<&'a str>, metrics: Option<&'a str>) -> Result<Self, AllocError> {
        let counted = match metrics {
            Some(_) => Some(Metrics::new(rt.alloc())?),
            None => None,
        };
        Ok(GivenFiles {
            rt,
            path,
            metrics,
            counted,
            clock: Stopwatch::of(rt),
            written: None,
            has_failed: false,
        })
    }

    // Whether it is time to write what is counted anew. A clock that cannot be read stops nothing.
    fn is_time(&self) -> bool {
        match (self.written, self.clock.now()) {
            (Some(before), Some(now)) => now.saturating_sub(before) >= PAUSE,
            (_, _) => true,
        }
    }

    // Takes note of whether what is counted was written.
    fn note(&mut self, is_written: bool) -> Result<(), MetricsUnwritten>
        ensures { self.new.counted ≡ self.old.counted }
    {
        self.written = self.clock.now();
        let had_failed = self.has_failed;
        self.has_failed = !is_written;
        if is_written {
            Ok(())
        } else if had_failed {
            Err(MetricsUnwritten::Still)
        } else {
            Err(MetricsUnwritten::Now)
        }
    }
}

impl<R: Files<File = File> + RandomSource + AllocGlobal + Clock> MetricsFile for GivenFiles<'_, R> {
    ghost use Rattle.host_metrics.specs.Counted.{counts_in};

    ghost counts = { λ files. counts_in files.counted };

    fn take_metrics(&mut self, alloc: Global) -> Metrics {
        match self.counted.take() {
            Some(metrics) => metrics,
            None => Metrics::none(alloc),
        }
    }

    fn keep_metrics(&mut self, metrics: Metrics) {
        self.counted = Some(metrics);
    }

    fn is_due(&mut self, when: Moment) -> bool {
        self.metrics.is_some()
            && match when {
                Moment::Waits => self.is_time(),
                Moment::Timer | Moment::End => true,
            }
    }

    fn write_metrics(&mut self, text: Option<&str>) -> Result<(), MetricsUnwritten> {
        let is_written = match (self.metrics, text) {
            (Some(path), Some(text)) => {
                let mut disk = Disk::passing(self.rt);
                replace(self.rt.alloc(), &mut disk, path, text.as_bytes()).is_ok()
            }
            (_, _) => false,
        };
        self.note(is_written)
    }

    fn metrics_path(&self) -> &str {
        match self.metrics {
            Some(path) => path,
            None => "",
        }
    }
}

impl<R: Files<File = File> + AllocGlobal + Clock> GivenManifest for GivenFiles<'_, R> {
    ghost use Rattle.std.specs.Prelude.{⊤};

    ghost may_read = { λ reading. ⊤ };

    fn read_again(&mut self, _alloc: Global) -> Result<Option<Vec<u8>>, ManifestUnread> {
        let Some(path) = self.path else {
            return Ok(None);
        };
        match read_file(self.rt, path, MOST_MANIFEST) {
            Ok(bytes) => Ok(Some(bytes)),
            Err(error) if error.kind() == io::ErrorKind::OutOfMemory => {
                Err(ManifestUnread::OutOfMemory)
            }
            Err(_) => Err(ManifestUnread::Failed),
        }
    }
}

/// A writer for what is never written: an audit puts nothing on standard output by itself.
#[derive(Drop)]
struct Silence;

impl Write for Silence {
    fn write(&mut self, buf: &[u8]) -> io::Result<usize> {
        Ok(buf.len())
    }

    fn flush(&mut self) -> io::Result<()> {
        Ok(())
    }
}

// The plan's first file, a path and its bytes, if one is read.
fn first_input<'a>(plan: &'a Plan, inputs: &'a [Vec<u8>]) -> Option<(&'a str, &'a [u8])>
    requires { length inputs.now ≡ length (input_paths plan.now) }
{
    match inputs.first() {
        Some(bytes) => Some((plan.input(0), bytes.as_slice())),
        None => None,
    }
}

// Carries the plan out. What goes out goes into the plan's file, if it has one, where all went well.
fn carry_out<
    R: Runtime + Files<File = File> + RandomSource + AllocGlobal + Threads + Wait + Sync,
    N: Notices + Sync,
    W: Write,
    E: Write,
>(rt: &R, plan: &Plan, inputs: &[Vec<u8>], notices: &N, out: &mut W, err: &mut E) -> u8
    requires { length inputs.now ≡ length (input_paths plan.now) }
{
    let Some(path) = plan.output() else {
        return carry(rt, rt.alloc(), plan, inputs, notices, out, err);
    };
    let mut bytes = Vec::new(rt.alloc());
    let status = carry(rt, rt.alloc(), plan, inputs, notices, &mut bytes, err);
    if status != 0 {
        return status;
    }
    match replace(rt.alloc(), &mut Disk::new(rt), path, &bytes) {
        Ok(()) => 0,
        Err(error) => unread(&error, path).report(err),
    }
}

// Serves what standard input asks of a live engine. What goes out is not kept for a whole buffer.
// Where there is a clock, another thread reads, and another one tells what is no part of the trace: timers wait for neither.
fn serve_line_by_line<
    R: Runtime + Files<File = File> + RandomSource + AllocGlobal + Wait,
    E: Write,
    B: FnOnce(Feeder, Relayer) -> bool,
>(rt: &R, manner: &Manner, service: Service<'_>, err: &mut E, begin: B) -> u8
    requires { (feeder : _) (relayer : _) → B.pre begin feeder relayer }
{
    if let Some(path) = refused_metrics(rt, manner, service) {
        return Fault::File(path).report(err);
    }
    if !manner.is_clocked {
        return match Reading::of(rt.alloc(), Patient::new(rt, rt.reader())) {
            Ok(mut input) => serve_input(rt, manner, service, &mut input, err),
            Err(_) => Fault::OutOfMemory.report(err),
        };
    }
    let Ok((mut input, feeder)) = Clocked::of(rt.alloc(), rt) else {
        return Fault::OutOfMemory.report(err);
    };
    let Ok((mut relay, relayer)) = Relay::of(rt.alloc(), rt) else {
        return Fault::OutOfMemory.report(err);
    };
    if !begin(feeder, relayer) {
        return Fault::OutOfMemory.report(err);
    }
    let status = serve_input(rt, manner, service, &mut input, &mut relay);
    relay.end();
    status
}

// The path of the file for what is counted, if that is standard output, the manifest's file, or a file in the journal's folder: nothing is
// written there.
fn refused_metrics<'a, R: Files<File = File> + AllocGlobal>(
    rt: &R,
    manner: &'a Manner,
    service: Service<'_>,
) -> Option<&'a str> {
    let path = match &manner.metrics {
        Some(path) => path.as_str(),
        None => return None,
    };
    let is_manifest = match service.path() {
        Some(manifest) => are_same(rt, path, manifest),
        None => false,
    };
    let is_of_journal = match service.folder() {
        Some(folder) => stands_in(rt, path, folder),
        None => false,
    };
    if is_stream(path) || is_manifest || is_of_journal {
        Some(path)
    } else {
        None
    }
}

// Serves what this input asks.
fn serve_input<R: Runtime + Files<File = File> + RandomSource + AllocGlobal, I: Input, E: Write>(
    rt: &R,
    manner: &Manner,
    service: Service<'_>,
    input: &mut I,
    err: &mut E,
) -> u8 {
    let alloc = rt.alloc();
    let mut out = Patient::new(rt, io::writer(rt));
    let served = host_live::Manner {
        is_stepped: manner.is_stepped,
        is_told: manner.is_told,
        is_clocked: manner.is_clocked,
        is_kept: service.is_kept(),
    };
    let metrics = match &manner.metrics {
        Some(path) => Some(path.as_str()),
        None => None,
    };
    let mut given = match GivenFiles::of(rt, service.path(), metrics) {
        Ok(given) => given,
        Err(AllocError) => return Fault::OutOfMemory.report(err),
    };
    match service {
        Service::Alone(manifest) if manner.is_told => {
            serve_answering(alloc, manifest, served, &mut given, input, out, err)
        }
        Service::Alone(manifest) => {
            let mut out = WriterSink::new(&mut out);
            serve(alloc, manifest, served, &mut given, input, &mut out, err)
        }
        Service::Journal(folder, is_synced, manifest) => {
            let disk = JournalDisk::new(rt, folder, out);
            let (_disk, status) = serve_journal(
                alloc, disk, folder, manifest, served, is_synced, &mut given, input, err,
            );
            status
        }
    }
}

// Serves what this input asks, and answers each line. What goes out is kept until nothing more comes.
fn serve_answering<M: GivenManifest + MetricsFile, I: Input, W: Write + Drop, E: Write>(
    alloc: Global,
    manifest: (&str, &[u8]),
    manner: host_live::Manner,
    given: &mut M,
    input: &mut I,
    out: W,
    err: &mut E,
) -> u8 {
    let Ok(mut out) = BufWriter::new(alloc, out) else {
        return Fault::OutOfMemory.report(err);
    };
    let mut sink = AnsweringSink::new(&mut out);
    let status = serve(alloc, manifest, manner, given, input, &mut sink, err);
    if out.flush().is_ok() { status } else { 2 }
}

// Whether somebody is told how far the work is: of a run when its line says so, of a replay if standard error is a terminal.
fn tells(plan: &Plan, err: &Stderr) -> bool {
    match plan {
        Plan::Run(_, watch, _, _) | Plan::Strict(_, watch, _, _) => match watch {
            Watch::Lines => true,
            Watch::Terminal => err.is_terminal(),
            Watch::Never => false,
        },
        Plan::Replay(..) => err.is_terminal(),
        Plan::Asm(..)
        | Plan::Migrate(..)
        | Plan::Dis(_)
        | Plan::Check(_)
        | Plan::Live(..)
        | Plan::Journal(..)
        | Plan::Audit(_) => false,
    }
}

// The bytes of the plan's files, in the order of the line.
fn read_inputs<'a, R: Runtime + Files + AllocGlobal + Wait>(
    rt: &R,
    plan: &'a Plan,
) -> Result<Vec<Vec<u8>>, Fault<'a>>
    ensures { IfOk result (λ inputs. length inputs.items ≡ length (input_paths plan.entry.now)) }
{
    let mut inputs = Vec::new(rt.alloc());
    for place in 0..plan.input_count() {
        let path = plan.input(place);
        match read_input(rt, path, most_bytes(plan, place)) {
            Ok(input) => inputs.push(input).map_err(|_| Fault::OutOfMemory)?,
            Err(error) => return Err(unread(&error, path)),
        }
    }
    Ok(inputs)
}

// The bytes of that file, or of standard input.
fn read_input<R: Runtime + Files + AllocGlobal + Wait>(
    rt: &R,
    path: &str,
    most: u64,
) -> io::Result<Vec<u8>>
    requires { most < 2 ^ 63 }
{
    if is_stream(path) {
        read_all(rt.alloc(), Patient::new(rt, rt.reader()), most)
    } else {
        read_file(rt, path, most)
    }
}

// How many bytes the file at that place of the line may have.
fn most_bytes(plan: &Plan, place: usize) -> u64
    ensures { result < 2 ^ 63 }
{
    match plan {
        Plan::Asm(..) => MOST_TEXT,
        Plan::Dis(_) => MOST_PROGRAM,
        Plan::Run(..) | Plan::Strict(..) if place > 0 => MOST_SCENARIO,
        Plan::Replay(..) if place > 0 => MOST_TRACE,
        Plan::Migrate(..)
        | Plan::Check(_)
        | Plan::Run(..)
        | Plan::Strict(..)
        | Plan::Live(..)
        | Plan::Journal(..)
        | Plan::Audit(_)
        | Plan::Replay(..) => MOST_MANIFEST,
    }
}

// Why that file could not be read or written.
fn unread<'a>(error: &io::Error, path: &'a str) -> Fault<'a> {
    if error.kind() == io::ErrorKind::OutOfMemory {
        Fault::OutOfMemory
    } else {
        Fault::File(path)
    }
}
