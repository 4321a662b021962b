// Carries a case out as the script `camr` does, which hands what explains and shows to the second program. It relies on `cli_line` and
// `cli_commands` for the one program, and on `cli_inspect_line` and `cli_inspection` for the other.

ghost use Rattle.std.specs.Prelude.{◌≡◌, IfOk, length};
ghost use Rattle.cli_line.specs.Files.{input_paths};
ghost use Rattle.cli_inspect_line.specs.Files.{input_paths as inspected_paths};

use crate::pieces::Pieces;
use cli_commands::{
    AnsweringSink, Fault, GivenManifest, ManifestUnread, MetricsFile, MetricsUnwritten, WriterSink,
    carry, report_usage, serve,
};
use cli_inspect_line::Plan as InspectPlan;
use cli_inspection::{carry as inspect, report_unread};
use cli_line::{Manner, Plan, not_utf8, plan};
use host_live::Moment;
use host_metrics::Metrics;
use std::alloc::{AllocError, Global};
use std::sync::Wait;
use std::thread::Threads;
use test_cases::{Case, Outcome};
use world_calls::Silent;

/// What the case's words show over its files. A file that it does not have is one that cannot be read.
pub fn run<R: Threads + Wait + Sync>(
    rt: &R,
    alloc: Global,
    case: &Case<'_>,
) -> Result<Outcome, AllocError> {
    let mut out = Vec::new(alloc);
    let mut err = Vec::new(alloc);
    let status = match words_of(alloc, case)? {
        Some(words) if is_inspected(&words) => inspected(
            rt, alloc, &words, case, &mut out, &mut err,
        ),
        Some(words) => carried(rt, alloc, &words, case, &mut out, &mut err),
        None => report_usage(&not_utf8(alloc), &mut out, &mut err),
    };
    Ok(Outcome { out, err, status })
}

// Whether the second program carries these words out.
fn is_inspected(words: &[String]) -> bool {
    match words.first() {
        Some(word) => matches!(word.as_str(), "explain" | "show" | "decide" | "try"),
        None => false,
    }
}

// Carries out what the words ask of the first program.
fn carried<R: Threads + Wait + Sync>(
    rt: &R,
    alloc: Global,
    words: &[String],
    case: &Case<'_>,
    out: &mut Vec<u8>,
    err: &mut Vec<u8>,
) -> u8 {
    match plan(alloc, words) {
        Ok(plan) => match read_inputs(alloc, &plan, case) {
            Ok(inputs) => carry_out(rt, alloc, &plan, &inputs, case, out, err),
            Err(fault) => fault.report(err),
        },
        Err(fault) => report_usage(&fault, out, err),
    }
}

// Carries out what they ask of the second.
fn inspected<R: Threads + Wait + Sync>(
    rt: &R,
    alloc: Global,
    words: &[String],
    case: &Case<'_>,
    out: &mut Vec<u8>,
    err: &mut Vec<u8>,
) -> u8 {
    match cli_inspect_line::plan(alloc, words) {
        Ok(plan) => match read_inspected(alloc, &plan, case) {
            Ok(inputs) => inspect_keeping(rt, alloc, &plan, &inputs, out, err),
            Err(fault) => report_unread(alloc, &plan, &fault, err),
        },
        Err(fault) => report_usage(&fault, out, err),
    }
}

// Carries a plan of the second out. What it keeps stands after what went out.
fn inspect_keeping<R: Threads + Wait + Sync>(
    rt: &R,
    alloc: Global,
    plan: &InspectPlan,
    inputs: &[Vec<u8>],
    out: &mut Vec<u8>,
    err: &mut Vec<u8>,
) -> u8
    requires { length inputs.now ≡ length (inspected_paths plan.now) }
{
    let mut kept = Vec::new(alloc);
    let status = inspect(rt, alloc, plan, inputs, &Silent, out, &mut kept, err);
    if out.extend_from_slice(kept.as_slice()).is_err() {
        return Fault::OutOfMemory.report(err);
    }
    status
}

// Carries the plan out; what a live engine is asked is what comes on standard input.
fn carry_out<R: Threads + Wait + Sync>(
    rt: &R,
    alloc: Global,
    plan: &Plan,
    inputs: &[Vec<u8>],
    case: &Case<'_>,
    out: &mut Vec<u8>,
    err: &mut Vec<u8>,
) -> u8
    requires { length inputs.now ≡ length (input_paths plan.now) }
{
    match plan {
        Plan::Live(manner, manifest) => {
            let manifest = (manifest.as_str(), inputs[0].as_slice());
            serve_case(alloc, manner, manifest, case, out, err)
        }
        _ => carry(rt, alloc, plan, inputs, &Silent, out, err),
    }
}

// Serves what comes on standard input, with an answer to each line where that is asked for. What was counted stands after what went out, as it
// was written last, if it is asked for.
fn serve_case(
    alloc: Global,
    manner: &Manner,
    manifest: (&str, &[u8]),
    case: &Case<'_>,
    out: &mut Vec<u8>,
    err: &mut Vec<u8>,
) -> u8 {
    let mut input = Pieces::of(&case.input, manner.is_clocked);
    let served = host_live::Manner {
        is_stepped: manner.is_stepped,
        is_told: manner.is_told,
        is_clocked: manner.is_clocked,
        is_kept: false,
    };
    let mut again = match Again::of(alloc, manifest.0, manner, case) {
        Ok(again) => again,
        Err(AllocError) => return Fault::OutOfMemory.report(err),
    };
    let status = if manner.is_told {
        let mut out = AnsweringSink::new(out);
        serve(
            alloc, manifest, served, &mut again, &mut input, &mut out, err,
        )
    } else {
        let mut out = WriterSink::new(out);
        serve(
            alloc, manifest, served, &mut again, &mut input, &mut out, err,
        )
    };
    if out.extend_from_slice(again.text.as_slice()).is_err() {
        return Fault::OutOfMemory.report(err);
    }
    status
}

/// The manifest of that path, where it is read again: it is the case's file `again.toml`, if there is one, or has not changed. What is counted
/// is written whenever it may be; into a folder `missing` it cannot be.
#[derive(Drop)]
struct Again<'a> {
    path: &'a str,
    case: &'a Case<'a>,
    metrics: Option<&'a str>,
    counted: Option<Metrics>,
    text: Vec<u8>,
    has_failed: bool,
}

impl<'a> Again<'a> {
    fn of(
        alloc: Global,
        path: &'a str,
        manner: &'a Manner,
        case: &'a Case<'a>,
    ) -> Result<Self, AllocError> {
        let metrics = match &manner.metrics {
            Some(path) => Some(path.as_str()),
            None => None,
        };
        let counted = match metrics {
            Some(_) => Some(Metrics::new(alloc)?),
            None => None,
        };
        Ok(Again {
            path,
            case,
            metrics,
            counted,
            text: Vec::new(alloc),
            has_failed: false,
        })
    }

    // Keeps the text in the place of the one before.
    fn keep(&mut self, text: &str) -> bool
        ensures { self.new.counted ≡ self.old.counted }
    {
        self.text.clear();
        !self.metrics_path().starts_with("missing/")
            && self.text.extend_from_slice(text.as_bytes()).is_ok()
    }
}

impl MetricsFile for Again<'_> {
    ghost use Rattle.host_metrics.specs.Counted.{counts_in};

    ghost counts = { λ again. counts_in again.counted };

    fn take_metrics(&mut self, alloc: Global) -> Metrics {
        match self.counted.take() {
            Some(metrics) => metrics,
            None => Metrics::none(alloc),
        }
    }

    fn keep_metrics(&mut self, metrics: Metrics) {
        self.counted = Some(metrics);
    }

    fn is_due(&mut self, _when: Moment) -> bool {
        self.metrics.is_some()
    }

    fn write_metrics(&mut self, text: Option<&str>) -> Result<(), MetricsUnwritten> {
        let is_written = match text {
            Some(text) => self.keep(text),
            None => false,
        };
        let had_failed = self.has_failed;
        self.has_failed = !is_written;
        if is_written {
            Ok(())
        } else if had_failed {
            Err(MetricsUnwritten::Still)
        } else {
            Err(MetricsUnwritten::Now)
        }
    }

    fn metrics_path(&self) -> &str {
        match self.metrics {
            Some(path) => path,
            None => "",
        }
    }
}

impl GivenManifest for Again<'_> {
    ghost use Rattle.std.specs.Prelude.{⊤};

    ghost may_read = { λ reading. ⊤ };

    fn read_again(&mut self, alloc: Global) -> Result<Option<Vec<u8>>, ManifestUnread> {
        match read_input(alloc, "again.toml", self.case) {
            Ok(bytes) => Ok(Some(bytes)),
            Err(_) => match read_input(alloc, self.path, self.case) {
                Ok(bytes) => Ok(Some(bytes)),
                Err(_) => Err(ManifestUnread::Failed),
            },
        }
    }
}

/// The words as text, and none where one is not UTF-8.
pub(crate) fn words_of(alloc: Global, case: &Case<'_>) -> Result<Option<Vec<String>>, AllocError> {
    let mut words = Vec::new(alloc);
    for word in &case.words {
        match str::from_utf8(word) {
            Ok(word) => words.push(String::from_str(alloc, word)?)?,
            Err(_) => return Ok(None),
        }
    }
    Ok(Some(words))
}

// The bytes of the plan's files, in the order of the line.
fn read_inputs<'a>(
    alloc: Global,
    plan: &'a Plan,
    case: &Case<'_>,
) -> Result<Vec<Vec<u8>>, Fault<'a>>
    ensures { IfOk result (λ inputs. length inputs.items ≡ length (input_paths plan.entry.now)) }
{
    let mut inputs = Vec::new(alloc);
    for place in 0..plan.input_count() {
        let input = read_input(alloc, plan.input(place), case)?;
        inputs.push(input).map_err(|_| Fault::OutOfMemory)?;
    }
    Ok(inputs)
}

fn read_inspected<'a>(
    alloc: Global,
    plan: &'a InspectPlan,
    case: &Case<'_>,
) -> Result<Vec<Vec<u8>>, Fault<'a>>
    ensures { IfOk result (λ inputs. length inputs.items ≡ length (inspected_paths plan.entry.now)) }
{
    let mut inputs = Vec::new(alloc);
    for place in 0..plan.input_count() {
        let input = read_input(alloc, plan.input(place), case)?;
        inputs.push(input).map_err(|_| Fault::OutOfMemory)?;
    }
    Ok(inputs)
}

// The bytes of the case's file of that name.
fn read_input<'a>(alloc: Global, path: &'a str, case: &Case<'_>) -> Result<Vec<u8>, Fault<'a>> {
    let Some(file) = case.files.iter().find(|file| file.name == path) else {
        return Err(Fault::File(path));
    };
    file.bytes.to_vec(alloc).map_err(|_| Fault::OutOfMemory)
}
