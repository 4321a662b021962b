// Reads the text of a trace as far as it was written. It relies on `feeds` for where its lines end, and on `whole_trace` for the text of a
// whole trace.

ghost use Rattle.std.specs.Prelude.{ℕ, List, true, false, ◌++◌, ◌∷◌};
ghost use Rattle.whole_trace.specs.WholeText.{SaysWhole};
ghost use Rattle.trace_front.specs.Front.{SaysFront, SaysSo};

use crate::feeds::{ends_whole, followed, is_short, last_feed};
use base::OrMemory;
use std::alloc::Global;
use trace::TraceError;
use whole_trace::{WholeTrace, read};

/// The last line of a trace without records.
const NO_SUMS: &str = "end 0 0 0 0\n";

/// A line that no trace has.
const NO_LINE: &str = "\n";

/// What was read of a trace's text.
#[derive(Drop)]
pub struct TraceFront {
    /// The trace. If its last line is missing, its sums are zeros.
    pub whole: WholeTrace,
    /// Whether the last line is there.
    pub is_ended: bool,
}

/// Reads a trace as far as its text was written. If its last line is missing, what stands after the last line feed is ignored, if it may
/// be the front of a line; the lines before it are then those of a trace whose last line is still to come. Otherwise the text is that of a
/// whole trace, or has the fault that is returned.
#[tactic(auto, using(crate::proofs::Fronts::says_without_feed, crate::proofs::Fronts::says_whole, crate::proofs::Fronts::says_open, crate::proofs::Fronts::says_torn))]
pub fn read_front(alloc: Global, text: &str) -> Result<TraceFront, TraceError>
    ensures { SaysFront text.now result }
{
    let Some((lines, rest)) = last_feed(text) else {
        return read_whole(alloc, text);
    };
    if ends_whole(lines, rest) {
        return read_whole(alloc, text);
    }
    if is_short(rest) {
        read_open(alloc, lines, NO_SUMS)
    } else {
        read_open(alloc, lines, NO_LINE)
    }
}

// Reads the text as it stands.
fn read_whole(alloc: Global, text: &str) -> Result<TraceFront, TraceError>
    ensures { SaysSo text.now true result }
{
    front_of(read(alloc, text), true)
}

// Reads the lines with a last one after them.
fn read_open(alloc: Global, lines: &str, last: &str) -> Result<TraceFront, TraceError>
    ensures { SaysSo (lines.now ++ 10 ∷ last.now) false result }
{
    let Ok(text) = followed(alloc, lines, last) else {
        return Err(OrMemory::OutOfMemory);
    };
    front_of(read(alloc, text.as_str()), false)
}

// What was read, and whether the last line was there.
#[tactic(auto, using(crate::proofs::Fronts::read_so, crate::proofs::Fronts::refused_so))]
fn front_of(read: Result<WholeTrace, TraceError>, is_ended: bool) -> Result<TraceFront, TraceError>
    ensures { (full : List ℕ) → SaysWhole full read → SaysSo full is_ended result }
{
    match read {
        Ok(whole) => Ok(TraceFront { whole, is_ended }),
        Err(fault) => Err(fault),
    }
}
