// Reads a trace: its first line, which says the version, a record a line, and the sums. It relies on `entry` and `sums` for lines, and on
// `base_chunked_list` for the records.

ghost use Rattle.std.specs.Prelude.{◌≡◌, ◌≢◌, ◌+◌, ◌++◌, ◌<◌, ◌^◌, IfOk, List, MatchOption, length, ℕ};
ghost use Rattle.world_calls.specs.declared.trace.Version.TheVariants.{One};
ghost use Rattle.trace.specs.HasText.{AllHaveText};
ghost use Rattle.trace.specs.Reading.{AreReadAgain, IsReadAgain, Says, SaysLines};
ghost use Rattle.trace.specs.TraceText.{header};

use crate::entry::read_record;
use crate::fault::{TraceError, TraceFault};
use crate::sums::read_totals;
use crate::version::header;
use base::OrMemory;
use base_chunked_list::ChunkedList;
use std::alloc::Global;
use world_calls::{Trace, Version};

// The number of the line after the first one.
const SECOND: usize = 2;

/// Reads a whole trace. Besides the list's chunks it takes memory for sense bytes and traced bytes alone.
pub fn read(alloc: Global, text: &str) -> Result<Trace, TraceError>
    // What was read is printed so again; else which line is the first that is not of the form.
    ensures said { Says text.now result }
    // What is printed so is read again.
    ensures back { IsReadAgain text.now result }
    // What was read can be printed.
    ensures spelled { IfOk result (λ trace. AllHaveText trace.version trace.records.items) }
{
    match behind(Version::One, text) {
        Some(lines) => read_lines(alloc, Version::One, lines, SECOND),
        None => read_later(alloc, text),
    }
}

// Reads a trace that is none of the first version.
fn read_later(alloc: Global, text: &str) -> Result<Trace, TraceError>
    requires later { (rest : List ℕ) → text.now ≢ header One ++ rest }
    ensures said { Says text.now result }
    ensures back { IsReadAgain text.now result }
    ensures spelled { IfOk result (λ trace. AllHaveText trace.version trace.records.items) }
{
    if let Some(lines) = behind(Version::Two, text) {
        return read_lines(alloc, Version::Two, lines, SECOND);
    }
    match behind(Version::Three, text) {
        Some(lines) => read_lines(alloc, Version::Three, lines, SECOND),
        None => Err(OrMemory::Fault(TraceFault::Header)),
    }
}

// What follows the version's first line.
fn behind(version: Version, text: &str) -> Option<&str>
    ensures { MatchOption result ((rest : _) → ¬ (text.now ≡ header version ++ rest)) (λ rest. text.now ≡ header version ++ rest.now) }
{
    text.strip_prefix(header(version))
}

/// Reads the lines of the records and the last line, which stand after the first lines of a trace of that version. The line with which
/// they begin has this number, by which a fault counts. Besides the list's chunks it takes memory for sense bytes and traced bytes alone.
pub fn read_lines(
    alloc: Global,
    version: Version,
    text: &str,
    first: usize,
) -> Result<Trace, TraceError>
    requires numbers { first + length text.now < 2 ^ 64 }
    // What was read is printed so again; else which line is the first that is not of the form.
    ensures said { SaysLines version text.now first result }
    // What is printed so is read again.
    ensures back { AreReadAgain version text.now result }
    // What was read can be printed.
    ensures spelled { IfOk result (λ trace. AllHaveText trace.version trace.records.items) }
{
    let mut records = ChunkedList::with_room(alloc)?;
    let (mut rest, mut number) = (text, first);
    while let Some((line, behind)) = rest.split_once('\n') {
        let Some(entry) = read_record(alloc, version, line)? else {
            let Some(totals) = read_totals(line) else {
                return Err(OrMemory::Fault(TraceFault::Line(number)));
            };
            if !behind.is_empty() {
                return Err(OrMemory::Fault(TraceFault::Line(number + 1)));
            }
            return Ok(Trace {
                version,
                records,
                totals,
            });
        };
        records.reserve(1)?;
        records.push_reserved(entry);
        rest = behind;
        number += 1;
    }
    Err(OrMemory::Fault(TraceFault::Line(number)))
}
