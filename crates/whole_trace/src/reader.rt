// Reads the text of a whole trace. It relies on `trace` for the trace of an engine that was opened, and for the lines of records; and on
// `continued` for carried lines.

ghost use Rattle.std.specs.Prelude.{◌≡◌, ◌≢◌, ◌++◌, ◌+◌, ◌<◌, ◌^◌, IfOk, List, MatchOption, length, ℕ};
ghost use Rattle.world_calls.specs.declared.trace.Version.TheVariants.{One};
ghost use Rattle.trace.specs.HasText.{AllHaveText};
ghost use Rattle.carried_lines.specs.FirstLine.{continued_header};
ghost use Rattle.carried_lines.specs.InOrder.{AreInOrder};
ghost use Rattle.whole_trace.specs.Continued.{IsReadAfter, SaysAfter, SaysContinued, IsReadContinued};
ghost use Rattle.whole_trace.specs.WholeText.{IsReadAgain, SaysWhole, SaysPlain, IsReadPlain};

use crate::continued::{SECOND, read_lines as read_carried_lines};
use base::OrMemory;
use carried_lines::continued_header;
use std::alloc::Global;
use trace::{TraceError, TraceFault, read_lines};
use world_calls::{CarriedLine, Trace, Version};

/// A trace, with the lines of what its engine took over, if it took over anything.
#[derive(Drop)]
pub struct WholeTrace {
    /// Those lines, in their order, if it is a continued trace.
    pub carried: Option<Vec<CarriedLine>>,
    pub trace: Trace,
}

/// Reads a whole trace. Besides the lists it takes memory for sense bytes and traced bytes alone.
pub fn read(alloc: Global, text: &str) -> Result<WholeTrace, TraceError>
    // What was read is printed so again, and carried lines are in order; else which line is the first that is not of the form.
    ensures said { SaysWhole text.now result }
    // What is printed so is read again.
    ensures back { IsReadAgain text.now result }
    // What was read can be printed.
    ensures spelled { IfOk result (λ whole. AllHaveText whole.trace.version whole.trace.records.items) }
{
    match after(Version::One, text) {
        Some(lines) => read_continued(alloc, Version::One, lines),
        None => read_later(alloc, text),
    }
}

// Reads a trace that is no continued one of the first version.
fn read_later(alloc: Global, text: &str) -> Result<WholeTrace, TraceError>
    requires later { (rest : List ℕ) → text.now ≢ continued_header One ++ rest }
    ensures said { SaysWhole text.now result }
    ensures back { IsReadAgain text.now result }
    ensures spelled { IfOk result (λ whole. AllHaveText whole.trace.version whole.trace.records.items) }
{
    if let Some(lines) = after(Version::Two, text) {
        return read_continued(alloc, Version::Two, lines);
    }
    match after(Version::Three, text) {
        Some(lines) => read_continued(alloc, Version::Three, lines),
        None => read_plain(alloc, text),
    }
}

// What stands after the first line of a continued trace of the version.
fn after(version: Version, text: &str) -> Option<&str>
    ensures { MatchOption result ((rest : _) → ¬ (text.now ≡ continued_header version ++ rest)) (λ rest. text.now ≡ continued_header version ++ rest.now) }
{
    text.strip_prefix(continued_header(version))
}

// Reads the trace of an engine that took over nothing.
fn read_plain(alloc: Global, text: &str) -> Result<WholeTrace, TraceError>
    ensures said { SaysPlain text.now result }
    ensures back { IsReadPlain text.now result }
    ensures spelled { IfOk result (λ whole. AllHaveText whole.trace.version whole.trace.records.items) }
{
    match trace::read(alloc, text) {
        Ok(trace) => Ok(WholeTrace {
            carried: None,
            trace,
        }),
        Err(fault) => Err(fault),
    }
}

// Reads what stands after the first line of a continued trace.
fn read_continued(alloc: Global, version: Version, text: &str) -> Result<WholeTrace, TraceError>
    ensures said { SaysContinued version text.now result }
    ensures back { IsReadContinued version text.now result }
    ensures spelled { IfOk result (λ whole. AllHaveText whole.trace.version whole.trace.records.items) }
{
    let mut lines = Vec::new(alloc);
    match read_carried_lines(version, &mut lines, text) {
        Ok(rest) => read_after(alloc, version, lines, rest),
        Err(fault) => Err(fault),
    }
}

// Reads what stands after carried lines.
fn read_after(
    alloc: Global,
    version: Version,
    lines: Vec<CarriedLine>,
    text: &str,
) -> Result<WholeTrace, TraceError>
    requires numbers { length lines.items + SECOND + length text.now < 2 ^ 64 }
    ensures said { SaysAfter version lines.items text.now result }
    ensures back { IsReadAfter version lines.items text.now result }
    ensures spelled { IfOk result (λ whole. AllHaveText whole.trace.version whole.trace.records.items) }
{
    match read_lines(alloc, version, text, lines.len() + SECOND) {
        Ok(trace) => Ok(WholeTrace {
            carried: Some(lines),
            trace,
        }),
        Err(fault) => Err(fault),
    }
}
