// Reads a record of its line: what was asked by the row of its word, and after ` = ` what was answered. It relies on `trace_lines` for
// lines and answers, and on `world_calls` for records.

ghost use Rattle.std.specs.Prelude.{◌≡◌, ◌≢◌, IfOk, List, None, Some, ℕ, if◌then◌else◌};
ghost use Rattle.trace_lines.specs.Lines.{line_text};
ghost use Rattle.trace_lines.specs.Written.{Reads};
ghost use Rattle.trace.specs.Reading.{ReadsAnswered, stopped_at};
ghost use Rattle.trace.specs.TraceText.{entry_text, line_of};
ghost use Rattle.trace.specs.Versions.{is_of};

use crate::version::is_of;
use std::alloc::{AllocError, Global};
use trace_lines::{Slots, Stop, Value, Word, call_of, long_number, number_at, read_line, stop_in};
use world_calls::{Record, StoppedAt, TracedBytes, Version};

/// The record of a line, which stands without its line feed. None where it is that of no record which a text of the version may have. It
/// takes memory for sense bytes and traced bytes alone.
pub fn read_record(
    alloc: Global,
    version: Version,
    line: &str,
) -> Result<Option<Record>, AllocError>
    ensures { IfOk result (Reads (entry_text version) line.now) }
{
    match read_any(alloc, line)? {
        Some(entry) => Ok(of_version(version, entry)),
        None => Ok(None),
    }
}

// The record, where a text of the version may have it.
fn of_version(version: Version, entry: Record) -> Option<Record>
    ensures { result ≡ (if is_of version entry then Some entry else None) }
{
    if is_of(version, &entry) {
        Some(entry)
    } else {
        None
    }
}

// The record of a line, of any version.
fn read_any(alloc: Global, line: &str) -> Result<Option<Record>, AllocError>
    ensures { IfOk result (Reads line_of line.now) }
{
    let Some((asked, told)) = line.split_once(" = ") else {
        return Ok(None);
    };
    let Some((word, held)) = read_line(asked) else {
        return Ok(None);
    };
    read_answered(alloc, word, &held, told)
}

// The record of what was asked and answered.
fn read_answered(
    alloc: Global,
    word: Word,
    held: &Slots<Value>,
    told: &str,
) -> Result<Option<Record>, AllocError>
    ensures { (asked : List ℕ) → line_text word held.now ≡ Some asked → IfOk result (ReadsAnswered word held.now told.now) }
{
    match word {
        Word::Advance => read_advance(alloc, held, told),
        _ => read_called(alloc, word, held, told),
    }
}

// The record of a call.
fn read_called(
    alloc: Global,
    word: Word,
    held: &Slots<Value>,
    told: &str,
) -> Result<Option<Record>, AllocError>
    requires { word ≢ Word.Advance }
    ensures { (asked : List ℕ) → line_text word held.now ≡ Some asked → IfOk result (ReadsAnswered word held.now told.now) }
{
    let Some(answer) = word.row().read_answer(told) else {
        return Ok(None);
    };
    match call_of(alloc, word, held)? {
        Some(call) => Ok(Some(Record::Called { answer, call })),
        None => Ok(None),
    }
}

// The record of a run that went on.
fn read_advance(
    alloc: Global,
    held: &Slots<Value>,
    told: &str,
) -> Result<Option<Record>, AllocError>
    ensures { (asked : List ℕ) → line_text Word.Advance held.now ≡ Some asked → IfOk result (ReadsAnswered Word.Advance held.now told.now) }
{
    let Some(r0) = long_number(told) else {
        return Ok(None);
    };
    let Some(stop) = stop_in(held.third) else {
        return Ok(None);
    };
    let stop = stopped_at(alloc, stop)?;
    Ok(Some(Record::Advance {
        run: number_at(held.first),
        instructions: number_at(held.second),
        stop,
        r0,
    }))
}

// Where the run stopped, as the history keeps it.
fn stopped_at(alloc: Global, stop: Stop) -> Result<StoppedAt, AllocError>
    ensures { IfOk result (λ kept. kept ≡ stopped_at stop) }
{
    match stop {
        Stop::Helper(helper) => Ok(StoppedAt::Helper(helper)),
        Stop::Bytes(helper, bytes) => {
            Ok(StoppedAt::Trace(helper, TracedBytes::new(alloc, bytes)?))
        }
        Stop::Code(helper, code) => Ok(StoppedAt::Finish(helper, code)),
        Stop::Exit => Ok(StoppedAt::Exit),
    }
}
