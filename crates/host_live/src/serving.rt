// A live engine from where it stands to the end of its input, or to the engine that follows it. It relies on `host` for what lines ask, on
// `lines` for lines, and on `printed_engine` for what goes out.

ghost use Rattle.std.specs.Prelude.{◌≡◌, ◌≢◌, ◌<◌, ◌^◌, ◌-◌, ℕ, [], List, Ok, Err, IfErr, IfOk, IsTrue, OnErr, OnOk, Some, false, length, true};
ghost use Rattle.engine_core.specs.ByNumber.{IsBehind};
ghost use Rattle.trace.specs.Growing.{FailsBySink};
ghost use Rattle.trace.specs.Sinks.{HasFailed};
ghost use Rattle.world_calls.specs.declared.record.Record.{Record as TheRecord};
ghost use Rattle.host_live.specs.Answering.{Answer, with_answers};
ghost use Rattle.host_live.specs.Growth.{GrowsBy, StandsBehind};
ghost use Rattle.host_live.specs.LinesCome.{IsTaken, Stands, Waits};
ghost use Rattle.host_live.specs.Metering.{CountsTo, HasCounted, MayCount};
ghost use Rattle.host_live.specs.Served.{AnswersOwed, ContinuesTurns, EndsOr, FinishesOr, GoesOnOr, GrowsWith, IsOwed, IsPrintedBehind, MayCome, NextIs};
ghost use Rattle.host_live.specs.Telling.{Closes, Continues};
ghost use Rattle.host_live.specs.Turns.{IsAt, IsSomewhere, Point};
ghost use Rattle.host_live.specs.declared.lines.Next.TheVariants.{End, Failed};
ghost use Rattle.host_live.specs.declared.answering.After.TheVariants.{End as AfterAll};
ghost use Rattle.host_live.specs.declared.reports.Moment.TheVariants.{End as AtLast};
ghost use Rattle.host_live.specs.declared.serving.LiveFault.TheVariants.{Unread, Unwritten};

use crate::answering::{After, answer_decided, stop};
use crate::carrying::carry_out;
use crate::ending::{drive_first, finish};
use crate::host::Host;
use crate::input::Input;
use crate::lines::{Lines, Next};
use crate::manner::Manner;
use crate::outlet::Outlet;
use crate::printed_engine::PrintedEngine;
use crate::reports::{Moment, Reports};
use crate::served::HostFault;
use engine_core::NumberedEngine;
use host_metrics::Metrics;
use std::alloc::Global;
use std::mem::replace;
use trace::WriteFailed;

/// Why a live engine stopped before the end of its input.
#[derive(Clone, Copy, Debug, PartialEq, Eq)]
pub enum LiveFault {
    OutOfMemory,
    /// The input cannot be read.
    Unread,
    /// What goes out cannot be written.
    Unwritten,
    /// A call is no event of the engine, or the input has more lines than can be counted, which cannot be.
    InternalError,
}

impl From<WriteFailed> for LiveFault {
    ghost from_gives = { λ _ fault. fault ≡ Unwritten };

    fn from(_: WriteFailed) -> Self {
        LiveFault::Unwritten
    }
}

impl From<HostFault> for LiveFault {
    ghost from_gives = { λ _ fault. (fault ≢ Unread) × (fault ≢ Unwritten) };

    fn from(fault: HostFault) -> Self {
        match fault {
            HostFault::OutOfMemory => LiveFault::OutOfMemory,
            HostFault::InternalError => LiveFault::InternalError,
        }
    }
}

/// Carries out what the lines of an input ask of an engine that stands after a history of so many records, each as it comes, until the input
/// ends or another engine is to follow this one; it returns whether one is. The text before the records went out before: what goes out is the
/// lines of what a line led to, before the next one is waited for, and the last line of the trace at the end. No record is kept. Lines that
/// are not carried out are reported. Unless runs stay out, those that are out are driven to their ends before a line is read. At the end of
/// the input a trace that is kept gets its last line only if no run is live; otherwise the runs that are out are driven to their ends, unless
/// they are parked, and the last line is printed. Where the engine's clock goes by the input's, that is read before each line that is carried
/// out, and whenever a timer is due. Where it reads more than an engine takes, that is recorded once, and time stands still. Where lines are
/// answered, each is once the outlet took what it led to, and `quit` ends the input. The line that asks for the engine that follows is not
/// answered here: whoever makes that engine serves it with the same lines, and says that this answer is owed. Each record is counted, and what
/// was counted is reported whenever the engine is about to wait, and when nothing more is served, also where it stops before the end.
pub fn serve<I: Input, S: Outlet, N: Reports>(
    alloc: Global,
    engine: NumberedEngine<'_>,
    count: u64,
    manner: Manner,
    owed: Option<usize>,
    metrics: &mut Metrics,
    input: &mut I,
    lines: &mut Lines,
    out: &mut S,
    reports: &mut N,
) -> Result<bool, LiveFault>
    requires behind { StandsBehind count engine }
    requires begun { IsTrue lines.old.is_ended → IsTrue (I.has_ended input.old) }
    requires stands { IsSomewhere (I.came input.old) lines.old }
    // Whatever is counted of the records that follow may be reported, and nothing else is.
    requires counts { MayCount N.may_count engine metrics.old }
    // All that went out continues the trace of each history that led to the engine; where it stopped, it is a front of what does.
    ensures told { (records : List TheRecord) → IsBehind records engine.entry → count ≡ length records → Continues engine.entry.setup manner records (S.bytes out.old) result (S.bytes out.new) }
    // It is that of the runs that were out, unless runs stay out, and then of what the lines that came asked for. The answer that was owed was
    // given first, and then each line was answered so. The records of all that are counted, each once and no others, over what was counted
    // before; and what they come to was reported at last, as it is handed back, at the end and where it stopped.
    ensures turned { (first : List Answer) × IsOwed manner owed result (S.bytes out.old) first × ((point : Point) (records : List TheRecord) → IsAt point (I.came input.old) lines.old → IsBehind records engine.entry → count ≡ length records → ContinuesTurns engine.entry manner N.may_refuse point (I.came input.new) lines.new (N.has_decided reports.new) (CountsTo engine.entry metrics.old (N.has_counted reports.new AtLast) metrics.new) records (S.bytes out.old) (with_answers (S.answers out.old) first) result (S.bytes out.new) (S.answers out.new)) }
    // Between the clock of the input and that of the engine stays what was.
    ensures begun { lines.new.begun ≡ lines.old.begun }
    ensures unread { result ≡ Err Unread → IsTrue (I.has_failed input.new) }
    // The end of the input is no read that failed.
    ensures still { OnOk result (I.has_failed input.new ≡ I.has_failed input.old) }
    // All of it was read. Only where lines are answered one of them may end it.
    ensures ended { manner.is_told ≡ false → result ≡ Ok false → IsTrue (I.has_ended input.new) }
    ensures going { IsTrue lines.new.is_ended → IsTrue (I.has_ended input.new) }
    // The engine that follows goes on with the same lines.
    ensures stands { result ≡ Ok true → IsSomewhere (I.came input.new) lines.new }
    ensures unwritten { result ≡ Err Unwritten → HasFailed (S.failures out.old) (S.failures out.new) }
{
    match answer_owed(manner, owed, out) {
        Ok(()) => serve_here(
            alloc, engine, count, manner, metrics, input, lines, out, reports,
        ),
        Err(fault) => {
            reports.counted(Moment::End, metrics, &engine);
            Err(fault)
        }
    }
}

// Answers the line of that number, which was left to be answered.
fn answer_owed<S: Outlet>(manner: Manner, owed: Option<usize>, out: &mut S) -> Result<(), LiveFault>
    ensures bytes { S.bytes out.new ≡ S.bytes out.old }
    ensures answers { AnswersOwed manner owed (S.bytes out.old) (S.answers out.old) result (S.answers out.new) }
    ensures failures { FailsBySink (S.failures out.old) result (S.failures out.new) }
    ensures unwritten { IfErr result (λ fault. fault ≡ Unwritten) }
{
    match owed {
        Some(line) => answer_line_owed(manner, line, out),
        None => Ok(()),
    }
}

// Answers the line of that number, if lines are answered.
fn answer_line_owed<S: Outlet>(manner: Manner, line: usize, out: &mut S) -> Result<(), LiveFault>
    ensures bytes { S.bytes out.new ≡ S.bytes out.old }
    ensures answers { AnswersOwed manner (Some line) (S.bytes out.old) (S.answers out.old) result (S.answers out.new) }
    ensures failures { FailsBySink (S.failures out.old) result (S.failures out.new) }
    ensures unwritten { IfErr result (λ fault. fault ≡ Unwritten) }
{
    if !manner.is_told {
        return Ok(());
    }
    match out.answered(line, None) {
        Ok(()) => Ok(()),
        Err(failed) => Err(LiveFault::from(failed)),
    }
}

// The same once the answer that was owed was given.
fn serve_here<I: Input, S: Outlet, N: Reports>(
    alloc: Global,
    engine: NumberedEngine<'_>,
    count: u64,
    manner: Manner,
    metrics: &mut Metrics,
    input: &mut I,
    lines: &mut Lines,
    out: &mut S,
    reports: &mut N,
) -> Result<bool, LiveFault>
    requires behind { StandsBehind count engine }
    requires begun { IsTrue lines.old.is_ended → IsTrue (I.has_ended input.old) }
    requires stands { IsSomewhere (I.came input.old) lines.old }
    requires counts { MayCount N.may_count engine metrics.old }
    ensures told { (records : List TheRecord) → IsBehind records engine.entry → count ≡ length records → Continues engine.entry.setup manner records (S.bytes out.old) result (S.bytes out.new) }
    ensures turned { (point : Point) (records : List TheRecord) → IsAt point (I.came input.old) lines.old → IsBehind records engine.entry → count ≡ length records → ContinuesTurns engine.entry manner N.may_refuse point (I.came input.new) lines.new (N.has_decided reports.new) (CountsTo engine.entry metrics.old (N.has_counted reports.new AtLast) metrics.new) records (S.bytes out.old) (S.answers out.old) result (S.bytes out.new) (S.answers out.new) }
    ensures begun { lines.new.begun ≡ lines.old.begun }
    ensures unread { result ≡ Err Unread → IsTrue (I.has_failed input.new) }
    ensures still { OnOk result (I.has_failed input.new ≡ I.has_failed input.old) }
    ensures ended { manner.is_told ≡ false → result ≡ Ok false → IsTrue (I.has_ended input.new) }
    ensures going { IsTrue lines.new.is_ended → IsTrue (I.has_ended input.new) }
    ensures stands { result ≡ Ok true → IsSomewhere (I.came input.new) lines.new }
    ensures unwritten { result ≡ Err Unwritten → HasFailed (S.failures out.old) (S.failures out.new) }
{
    let counted = replace(metrics, Metrics::none(alloc));
    let engine = PrintedEngine::resumed(engine, count, counted);
    let mut host = Host::new(alloc, engine);
    match serve_resumed(&mut host, manner, input, lines, out, reports) {
        Ok(is_followed) => {
            host.hand_over(metrics);
            close(host, manner, is_followed, out)
        }
        Err(fault) => {
            host.hand_over(metrics);
            Err(fault)
        }
    }
}

// Prints the last line, unless the trace is kept and a run is live. All was handed on before. It returns whether another engine follows.
fn close<S: Outlet>(
    host: Host<'_>,
    manner: Manner,
    is_followed: bool,
    out: &mut S,
) -> Result<bool, LiveFault>
    requires all { host.engine.printed.lines.waiting ≡ [] }
    requires whole { host.engine.printed.has_failed ≡ false }
    ensures closed { Closes manner host.entry.engine (S.bytes out.old) result (S.bytes out.new) }
    ensures answers { S.answers out.new ≡ S.answers out.old }
    ensures failed { IfErr result (λ fault. (fault ≡ Unwritten) × HasFailed (S.failures out.old) (S.failures out.new)) }
    ensures followed { IfOk result (λ it. it ≡ is_followed) }
{
    if is_left_open(&host, manner) {
        return Ok(is_followed);
    }
    match host.into_engine().end(out) {
        Ok(()) => Ok(is_followed),
        Err(failed) => Err(LiveFault::from(failed)),
    }
}

// Returns whether the trace gets no last line: it is kept, and a run is live.
fn is_left_open(host: &Host<'_>, manner: Manner) -> bool
    ensures open { result ≡ true → (manner.is_kept ≡ true) × (host.now.engine.engine.runs.list ≡ [] → ⊥) }
    ensures shut { result ≡ false → manner.is_kept ≡ true → host.now.engine.engine.runs.list ≡ [] }
{
    manner.is_kept && host.engine.has_run()
}

// Drives the runs that are out, unless runs stay out, and serves the lines. All is handed on then, and what was counted is reported. It returns
// whether another engine follows.
fn serve_resumed<I: Input, S: Outlet, N: Reports>(
    host: &mut Host<'_>,
    manner: Manner,
    input: &mut I,
    lines: &mut Lines,
    out: &mut S,
    reports: &mut N,
) -> Result<bool, LiveFault>
    requires begun { IsTrue lines.old.is_ended → IsTrue (I.has_ended input.old) }
    requires counts { MayCount N.may_count host.old.engine.engine host.old.engine.metrics }
    ensures grown { (point : Point) → IsAt point (I.came input.old) lines.old → GrowsWith (GoesOnOr manner N.may_refuse host.old.engine.engine (IsPrintedBehind host.old.engine.printed (S.bytes out.old)) point (I.came input.new) lines.new (N.has_decided reports.new) result) host.old.engine (S.bytes out.old) (S.failures out.old) (S.answers out.old) host.new.engine (S.bytes out.new) (S.failures out.new) (S.answers out.new) }
    ensures counted { HasCounted host.old.engine.engine host.old.engine.metrics host.new.engine.engine host.new.engine.metrics }
    ensures reported { N.has_counted reports.new AtLast host.new.engine.metrics host.new.engine.engine }
    ensures begun { lines.new.begun ≡ lines.old.begun }
    ensures unread { result ≡ Err Unread → IsTrue (I.has_failed input.new) }
    ensures still { OnOk result (I.has_failed input.new ≡ I.has_failed input.old) }
    ensures ended { manner.is_told ≡ false → result ≡ Ok false → IsTrue (I.has_ended input.new) }
    ensures going { IsTrue lines.new.is_ended → IsTrue (I.has_ended input.new) }
    ensures unwritten { result ≡ Err Unwritten → host.new.engine.printed.has_failed ≡ true }
    ensures all { OnOk result (host.new.engine.printed.lines.waiting ≡ []) }
    ensures whole { OnOk result (host.new.engine.printed.has_failed ≡ false) }
{
    match drive_first(host, manner, out) {
        Ok(()) => serve_behind(host, manner, input, lines, out, reports),
        Err(fault) => {
            host.report_counted(Moment::End, reports);
            Err(fault)
        }
    }
}

// Serves the lines, and drives the runs that are out at the end of the input, unless the trace is kept. All is handed on then, and what was
// counted is reported.
fn serve_behind<I: Input, S: Outlet, N: Reports>(
    host: &mut Host<'_>,
    manner: Manner,
    input: &mut I,
    lines: &mut Lines,
    out: &mut S,
    reports: &mut N,
) -> Result<bool, LiveFault>
    requires begun { IsTrue lines.old.is_ended → IsTrue (I.has_ended input.old) }
    requires counts { MayCount N.may_count host.old.engine.engine host.old.engine.metrics }
    ensures grown { (point : Point) → IsAt point (I.came input.old) lines.old → GrowsWith (FinishesOr manner N.may_refuse host.old.engine.engine (IsPrintedBehind host.old.engine.printed (S.bytes out.old)) point (I.came input.new) lines.new (N.has_decided reports.new) result) host.old.engine (S.bytes out.old) (S.failures out.old) (S.answers out.old) host.new.engine (S.bytes out.new) (S.failures out.new) (S.answers out.new) }
    ensures counted { HasCounted host.old.engine.engine host.old.engine.metrics host.new.engine.engine host.new.engine.metrics }
    ensures reported { N.has_counted reports.new AtLast host.new.engine.metrics host.new.engine.engine }
    ensures begun { lines.new.begun ≡ lines.old.begun }
    ensures unread { result ≡ Err Unread → IsTrue (I.has_failed input.new) }
    ensures still { OnOk result (I.has_failed input.new ≡ I.has_failed input.old) }
    ensures ended { manner.is_told ≡ false → result ≡ Ok false → IsTrue (I.has_ended input.new) }
    ensures going { IsTrue lines.new.is_ended → IsTrue (I.has_ended input.new) }
    ensures unwritten { result ≡ Err Unwritten → host.new.engine.printed.has_failed ≡ true }
    ensures all { OnOk result (host.new.engine.printed.lines.waiting ≡ []) }
    ensures whole { OnOk result (host.new.engine.printed.has_failed ≡ false) }
{
    match serve_lines(host, manner, input, lines, out, reports) {
        Ok(is_followed) => {
            let finished = finish(host, manner, is_followed, out);
            host.report_counted(Moment::End, reports);
            finished
        }
        Err(fault) => {
            host.report_counted(Moment::End, reports);
            Err(fault)
        }
    }
}

// Serves the lines up to the input's end, or up to one that asks for another engine, which is to follow. It returns whether one is.
fn serve_lines<I: Input, S: Outlet, N: Reports>(
    host: &mut Host<'_>,
    manner: Manner,
    input: &mut I,
    lines: &mut Lines,
    out: &mut S,
    reports: &mut N,
) -> Result<bool, LiveFault>
    requires begun { IsTrue lines.old.is_ended → IsTrue (I.has_ended input.old) }
    requires counts { MayCount N.may_count host.old.engine.engine host.old.engine.metrics }
    ensures grown { (point : Point) → IsAt point (I.came input.old) lines.old → GrowsWith (EndsOr manner N.may_refuse host.old.engine.engine (IsPrintedBehind host.old.engine.printed (S.bytes out.old)) point (I.came input.new) lines.new (N.has_decided reports.new) result) host.old.engine (S.bytes out.old) (S.failures out.old) (S.answers out.old) host.new.engine (S.bytes out.new) (S.failures out.new) (S.answers out.new) }
    ensures counted { HasCounted host.old.engine.engine host.old.engine.metrics host.new.engine.engine host.new.engine.metrics }
    ensures begun { lines.new.begun ≡ lines.old.begun }
    ensures unread { result ≡ Err Unread → IsTrue (I.has_failed input.new) }
    ensures still { OnOk result (I.has_failed input.new ≡ I.has_failed input.old) }
    ensures ended { manner.is_told ≡ false → result ≡ Ok false → IsTrue (I.has_ended input.new) }
    ensures going { IsTrue lines.new.is_ended → IsTrue (I.has_ended input.new) }
    ensures unwritten { result ≡ Err Unwritten → host.new.engine.printed.has_failed ≡ true }
{
    for _ in 0..u64::MAX {
        if lines.number() == usize::MAX {
            return Err(LiveFault::InternalError);
        }
        match serve_next(host, manner, input, lines, out, reports) {
            Ok(comes) => match comes {
                After::More => {}
                After::End => return Ok(false),
                After::Asked => return Ok(true),
            },
            Err(fault) => return Err(fault),
        }
    }
    Err(LiveFault::InternalError)
}

// Serves what comes next, and answers it, if it is a line. It returns what comes after it.
fn serve_next<I: Input, S: Outlet, N: Reports>(
    host: &mut Host<'_>,
    manner: Manner,
    input: &mut I,
    lines: &mut Lines,
    out: &mut S,
    reports: &mut N,
) -> Result<After, LiveFault>
    requires begun { IsTrue lines.old.is_ended → IsTrue (I.has_ended input.old) }
    requires room { lines.old.number < 2 ^ 64 - 1 }
    requires counts { MayCount N.may_count host.old.engine.engine host.old.engine.metrics }
    ensures turned { (base told : List ℕ) → Stands base (I.came input.old) lines.old told → GrowsWith (NextIs manner N.may_refuse base told lines.old.number (I.came input.new) lines.new (N.has_decided reports.new) result host.new.engine.engine host.new.engine.printed (S.bytes out.new)) host.old.engine (S.bytes out.old) (S.failures out.old) (S.answers out.old) host.new.engine (S.bytes out.new) (S.failures out.new) (S.answers out.new) }
    ensures counted { HasCounted host.old.engine.engine host.old.engine.metrics host.new.engine.engine host.new.engine.metrics }
    ensures begun { lines.new.begun ≡ lines.old.begun }
    ensures unread { result ≡ Err Unread → IsTrue (I.has_failed input.new) }
    ensures still { OnOk result (I.has_failed input.new ≡ I.has_failed input.old) }
    ensures going { IsTrue lines.new.is_ended → IsTrue (I.has_ended input.new) }
    ensures ended { manner.is_told ≡ false → result ≡ Ok AfterAll → IsTrue (I.has_ended input.new) }
    ensures unwritten { result ≡ Err Unwritten → host.new.engine.printed.has_failed ≡ true }
{
    match take_next(host, manner, input, lines, out, reports) {
        Ok(next) => match carry_out(host, manner, next, input, lines, out, reports) {
            Ok(turn) => answer_decided(host, manner, lines.number(), turn, out, reports),
            Err(fault) => Err(stop(host, out, fault)),
        },
        Err(fault) => Err(fault),
    }
}

// Takes the next line, if it is there. Otherwise all goes out, what was counted is reported, and it waits for that line, or for the next timer.
fn take_next<I: Input, S: Outlet, N: Reports>(
    host: &mut Host<'_>,
    manner: Manner,
    input: &mut I,
    lines: &mut Lines,
    out: &mut S,
    reports: &mut N,
) -> Result<Next, LiveFault>
    requires begun { IsTrue lines.old.is_ended → IsTrue (I.has_ended input.old) }
    requires room { lines.old.number < 2 ^ 64 - 1 }
    requires counts { MayCount N.may_count host.old.engine.engine host.old.engine.metrics }
    ensures grown { GrowsBy [] host.old.engine (S.bytes out.old) (S.failures out.old) host.new.engine (S.bytes out.new) (S.failures out.new) }
    ensures answers { S.answers out.new ≡ S.answers out.old }
    ensures taken { (base told : List ℕ) → Stands base (I.came input.old) lines.old told → IfOk result (λ next. Waits base lines.old told next (I.came input.new) lines.new) }
    ensures unmoved { OnErr result (I.came input.new ≡ I.came input.old) }
    ensures failed { result ≡ Ok Failed → IsTrue (I.has_failed input.new) }
    ensures still { result ≢ Ok Failed → I.has_failed input.new ≡ I.has_failed input.old }
    ensures going { IsTrue lines.new.is_ended → IsTrue (I.has_ended input.new) }
    ensures end { result ≡ Ok End → IsTrue (I.has_ended input.new) }
    ensures due { IfOk result (MayCome manner) }
    ensures begun { lines.new.begun ≡ lines.old.begun }
    ensures unread { result ≢ Err Unread }
    ensures unwritten { result ≡ Err Unwritten → host.new.engine.printed.has_failed ≡ true }
{
    if lines.take_next(input) {
        return match host.engine.is_whole() {
            Ok(()) => Ok(Next::Line),
            Err(failed) => Err(LiveFault::from(failed)),
        };
    }
    match host.engine.settle(out) {
        Ok(()) => {
            host.report_waiting(reports);
            Ok(wait_next(host, manner, input, lines))
        }
        Err(failed) => Err(LiveFault::from(failed)),
    }
}

// Waits for the next line, or for the next timer. Nothing waits to go out meanwhile.
fn wait_next<I: Input>(host: &Host<'_>, manner: Manner, input: &mut I, lines: &mut Lines) -> Next
    requires all { host.now.engine.printed.lines.waiting ≡ [] }
    requires room { lines.old.number < 2 ^ 64 - 1 }
    requires untold { lines.old.is_ended ≡ false → lines.old.is_told ≡ false }
    requires begun { IsTrue lines.old.is_ended → IsTrue (I.has_ended input.old) }
    ensures waits { (base told : List ℕ) → Stands base (I.came input.old) lines.old told → IsTaken (I.came input.old) lines.old → Waits base lines.old told result (I.came input.new) lines.new }
    ensures begun { lines.new.begun ≡ lines.old.begun }
    ensures failed { result ≡ Failed → IsTrue (I.has_failed input.new) }
    ensures still { result ≢ Failed → I.has_failed input.new ≡ I.has_failed input.old }
    ensures going { IsTrue lines.new.is_ended → IsTrue (I.has_ended input.new) }
    ensures end { result ≡ End → IsTrue (I.has_ended input.new) }
    ensures due { MayCome manner result }
{
    lines.wait_next(manner, input, host.next_due())
}
