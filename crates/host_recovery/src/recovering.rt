// Recovers an engine from a segment. It relies on `lines` for its lines, on `carried` for those of what the engine took over, and on `reading`
// for what the others say.

ghost use Rattle.std.specs.Prelude.{◌≡◌, ◌≢◌, ◌+◌, ◌-◌, ◌<◌, ◌≤◌, ◌^◌, [], ◌∷◌, ◌++◌, ℕ, List, Option};
ghost use Rattle.std.specs.Io.KnownBytes.{Consumes};
ghost use Rattle.std.specs.List.{list_all};
ghost use Rattle.world.specs.World.{Setup};
ghost use Rattle.world_calls.specs.declared.totals.Totals.{Totals as TheTotals};
ghost use Rattle.base.specs.declared.or_memory.OrMemory.TheVariants.{Fault};
ghost use Rattle.trace.specs.declared.fault.TraceFault.TheVariants.{Line};
ghost use Rattle.trace.specs.ShortLines.{is_shown};
ghost use Rattle.host_recovery.specs.declared.fault.RecoveryFault.TheVariants.{Form};
ghost use Rattle.host_recovery.specs.declared.first_line.First.TheVariants.{Continued, Plain};
ghost use Rattle.host_recovery.specs.declared.recovering.Going.TheVariants.{On};
ghost use Rattle.host_recovery.specs.Carries.{FirstSays, first_text};
ghost use Rattle.host_recovery.specs.LinesRead.{IsOneLine};
ghost use Rattle.host_recovery.specs.Recovering.{Answers, ReadsBy};
ghost use Rattle.host_recovery.specs.Reads.{AllSays, GoingSays, IsNoCarried, IsPast, StandsAt};

use crate::carried::read_carried_lines;
use crate::carrying::Carrying;
use crate::fault::{RecoveryError, RecoveryFault};
use crate::first_line::{First, first_fault, first_of_line};
use crate::lines::{Lines, Next};
use crate::reading::{Reading, Took};
use crate::source::Source;
use base::OrMemory;
use engine_core::{Config, NumberedEngine};
use std::alloc::Global;
use trace::{TraceFault, header};
use world_calls::Version;

/// How many bytes of lines are read at most.
pub const MOST_WHOLE: usize = 1 << 62;

/// What a crash left of an engine's trace. The engine stands where the records lead whose lines are whole.
#[derive(Drop)]
pub struct Recovered<'a> {
    pub engine: NumberedEngine<'a>,
    /// How many carried lines there are: 0 exactly if the engine took over nothing. They stand after the first line, and before the records.
    pub carried: u64,
    /// How many records there are.
    pub records: u64,
    /// How many bytes stand in whole lines, the first line too. What follows them is to be cut off.
    pub whole: u64,
    /// Whether the last line is there: the engine was shut.
    pub is_ended: bool,
}

/// What a line led to.
#[derive(Clone, Copy, Debug, PartialEq, Eq)]
pub(crate) enum Going {
    /// More lines may come.
    On,
    /// There are no more lines.
    Done,
    /// There are no more lines, and the last line is there.
    Ended,
}

/// Recovers an engine of this configuration from the text that a crash left of its trace, also of the trace of an engine that took over what
/// its carried lines say. Bytes after the last line feed are cut off, if there are no more of them than a line can have, and each is one that
/// a line can have; in a continued trace that is so after the carried lines that must be there, the numbers and the clock. The first fault of
/// these is reported: X1 if the text begins with no first line of a version; X2 with the first line that is not of the form; X3 with the first
/// line of all if the version is another than the configuration's; X4 with the first carried line with which no engine of the configuration
/// begins; X3 with the first line that does not follow. The memory that it takes does not grow with the text, but for a token for each freeze
/// of a guest.
pub fn recover<'a, S: Source>(
    alloc: Global,
    config: &'a Config,
    source: &mut S,
) -> Result<Recovered<'a>, RecoveryError>
    ensures recovers { Answers config.now (S.remaining source.old) result }
    ensures reads { ReadsBy (S.failures source.old) result (S.failures source.new) }
{
    let mut lines = Lines::none();
    match read_first(&mut lines, source)? {
        First::Plain(version) => recover_plain(alloc, config, version, &mut lines, source),
        First::Continued(version) => recover_continued(alloc, config, version, &mut lines, source),
    }
}

// Recovers an engine that took over nothing, after the first line of the version.
fn recover_plain<'a, S: Source>(
    alloc: Global,
    config: &'a Config,
    version: Version,
    lines: &mut Lines,
    source: &mut S,
) -> Result<Recovered<'a>, RecoveryError>
    ensures recovers { (from : Option (List ℕ)) → Consumes from (S.remaining source.old) (first_text (Plain version) ++ lines.old.ahead) → Answers config.now from result }
    ensures reads { ReadsBy (S.failures source.old) result (S.failures source.new) }
{
    let engine = NumberedEngine::open(alloc, config)?;
    let fault = first_fault(version, Version::of(config.helpers()));
    let reading = Reading::of(alloc, engine, version, fault, 0, header(version).len());
    read_on(reading, lines, source)
}

// Recovers an engine that took over what its carried lines say, after the first line of the version.
fn recover_continued<'a, S: Source>(
    alloc: Global,
    config: &'a Config,
    version: Version,
    lines: &mut Lines,
    source: &mut S,
) -> Result<Recovered<'a>, RecoveryError>
    ensures recovers { (from : Option (List ℕ)) → Consumes from (S.remaining source.old) (first_text (Continued version) ++ lines.old.ahead) → Answers config.now from result }
    ensures reads { ReadsBy (S.failures source.old) result (S.failures source.new) }
{
    let mut carrying = Carrying::new(alloc, config, version)?;
    let goes_on = read_carried_lines(&mut carrying, lines, source)?;
    let reading = carrying.finish()?;
    if goes_on {
        read_after(reading, lines, source)
    } else {
        reading.finish(false)
    }
}

// Recovers an engine from the line that came after all carried lines, and those after it.
fn read_after<'a, S: Source>(
    mut reading: Reading<'a>,
    lines: &mut Lines,
    source: &mut S,
) -> Result<Recovered<'a>, RecoveryError>
    requires few { reading.whole < MOST_WHOLE }
    requires line { IsOneLine lines.old.line }
    requires other { IsNoCarried reading lines.old.line }
    ensures says { (config : Setup) (from : Option (List ℕ)) → StandsAt config from (S.remaining source.old) None (lines.old.line ++ 10 ∷ lines.old.ahead) reading.entry → Answers config from result }
    ensures reads { ReadsBy (S.failures source.old) result (S.failures source.new) }
{
    match take_line(&mut reading, lines, source)? {
        Going::On => read_on(reading, lines, source),
        Going::Done => reading.finish(false),
        Going::Ended => reading.finish(true),
    }
}

// Recovers an engine from the lines that are left.
fn read_on<'a, S: Source>(
    mut reading: Reading<'a>,
    lines: &mut Lines,
    source: &mut S,
) -> Result<Recovered<'a>, RecoveryError>
    requires past { IsPast reading }
    ensures says { (config : Setup) (from : Option (List ℕ)) → StandsAt config from (S.remaining source.old) None lines.old.ahead reading.entry → Answers config from result }
    ensures reads { ReadsBy (S.failures source.old) result (S.failures source.new) }
{
    let is_ended = read_all(&mut reading, lines, source)?;
    reading.finish(is_ended)
}

// Reads the first line.
fn read_first<S: Source>(lines: &mut Lines, source: &mut S) -> Result<First, RecoveryError>
    requires { lines.old.ahead ≡ [] }
    ensures says { FirstSays (S.remaining source.old) result lines.new.ahead (S.remaining source.new) }
    ensures reads { ReadsBy (S.failures source.old) result (S.failures source.new) }
{
    match lines.next(source) {
        Next::Line => match first_of_line(lines.line()) {
            Some(first) => Ok(first),
            None => Err(OrMemory::Fault(RecoveryFault::Form(TraceFault::Header))),
        },
        Next::Torn => Err(OrMemory::Fault(RecoveryFault::Form(TraceFault::Header))),
        Next::Long => Err(OrMemory::Fault(RecoveryFault::Form(TraceFault::Header))),
        Next::Failed => Err(OrMemory::Fault(RecoveryFault::Unread)),
    }
}

// Reads the lines that are left, and returns whether the last line is there.
fn read_all<S: Source>(
    reading: &mut Reading<'_>,
    lines: &mut Lines,
    source: &mut S,
) -> Result<bool, RecoveryError>
    requires past { IsPast reading.old }
    ensures says { (config : Setup) (from : Option (List ℕ)) → StandsAt config from (S.remaining source.old) None lines.old.ahead reading.old → AllSays config from result reading.new }
    ensures reads { ReadsBy (S.failures source.old) result (S.failures source.new) }
{
    while reading.whole < MOST_WHOLE {
        match read_next(reading, lines, source)? {
            Going::On => {}
            Going::Done => return Ok(false),
            Going::Ended => return Ok(true),
        }
    }
    Err(OrMemory::Fault(RecoveryFault::TooLong))
}

// Reads the next line.
fn read_next<S: Source>(
    reading: &mut Reading<'_>,
    lines: &mut Lines,
    source: &mut S,
) -> Result<Going, RecoveryError>
    requires few { reading.old.whole < MOST_WHOLE }
    requires past { IsPast reading.old }
    ensures says { (config : Setup) (from : Option (List ℕ)) → StandsAt config from (S.remaining source.old) None lines.old.ahead reading.old → GoingSays config from result reading.new lines.new.ahead (S.remaining source.new) }
    ensures reads { ReadsBy (S.failures source.old) result (S.failures source.new) }
    ensures more { result ≡ Ok On → (reading.old.whole < reading.new.whole) × (0 < reading.new.count) }
{
    match lines.next(source) {
        Next::Line => take_line(reading, lines, source),
        Next::Torn => {
            if is_torn(lines.line()) {
                Ok(Going::Done)
            } else {
                Err(broken(reading.line_count()))
            }
        }
        Next::Long => Err(broken(reading.line_count())),
        Next::Failed => Err(OrMemory::Fault(RecoveryFault::Unread)),
    }
}

// Takes the line that came.
fn take_line<S: Source>(
    reading: &mut Reading<'_>,
    lines: &mut Lines,
    source: &mut S,
) -> Result<Going, RecoveryError>
    requires few { reading.old.whole < MOST_WHOLE }
    requires line { IsOneLine lines.old.line }
    requires other { IsNoCarried reading.old lines.old.line }
    ensures says { (config : Setup) (from : Option (List ℕ)) → StandsAt config from (S.remaining source.old) None (lines.old.line ++ 10 ∷ lines.old.ahead) reading.old → GoingSays config from result reading.new lines.new.ahead (S.remaining source.new) }
    ensures reads { ReadsBy (S.failures source.old) result (S.failures source.new) }
    ensures more { result ≡ Ok On → (reading.old.whole < reading.new.whole) × (0 < reading.new.count) }
{
    match reading.take(lines.line())? {
        Took::Record => Ok(Going::On),
        Took::End => read_end(reading, lines, source),
        Took::Nothing => Err(broken(reading.line_count())),
    }
}

// Nothing may stand after the last line.
fn read_end<S: Source>(
    reading: &Reading<'_>,
    lines: &mut Lines,
    source: &mut S,
) -> Result<Going, RecoveryError>
    requires few { reading.now.whole ≤ 2 ^ 63 }
    ensures says { (config : Setup) (from : Option (List ℕ)) (totals : TheTotals) → StandsAt config from (S.remaining source.old) (Some totals) lines.old.ahead reading.now → GoingSays config from result reading.now lines.new.ahead (S.remaining source.new) }
    ensures reads { ReadsBy (S.failures source.old) result (S.failures source.new) }
    ensures last { result ≢ Ok On }
{
    match lines.next(source) {
        Next::Line => Err(broken(reading.line_count() + 1)),
        Next::Torn => {
            if lines.line().is_empty() {
                Ok(Going::Ended)
            } else {
                Err(broken(reading.line_count() + 1))
            }
        }
        Next::Long => Err(broken(reading.line_count() + 1)),
        Next::Failed => Err(OrMemory::Fault(RecoveryFault::Unread)),
    }
}

/// X2 of the line after the first one and so many others.
pub(crate) fn broken(count: usize) -> RecoveryError
    requires { count < 2 ^ 64 - 2 }
    ensures { result ≡ Fault (Form (Line (count + 2))) }
{
    OrMemory::Fault(RecoveryFault::Form(TraceFault::Line(count + 2)))
}

/// Whether these bytes, without a line feed, may have been left of a line.
pub(crate) fn is_torn(rest: &[u8]) -> bool
    ensures { result ≡ list_all is_shown rest.now }
{
    rest.iter().all(|byte| *byte >= 32 && *byte <= 126)
}
