// Prints a trace: the header of its version, a line a record by the row of its word, and the sums. It relies on `page` for what goes out,
// on `trace_lines` for lines, and on `world_calls` for records, which stand in a `base_chunked_list`.

ghost use Rattle.std.specs.Prelude.{◌≡◌, ◌+◌, ◌*◌, ◌^◌, ◌≤◌, length, IsSome, None, IfOk, OnErr};
ghost use Rattle.trace_lines.specs.Texts.{stop_text};
ghost use Rattle.trace_lines.specs.Written.{IsPut, KeepsFront, Puts};
ghost use Rattle.std.specs.Fmt.{with_newline};
ghost use Rattle.trace.specs.HasText.{AllHaveText};
ghost use Rattle.trace.specs.Printed.{Prints, PrintsRecords};
ghost use Rattle.trace.specs.TraceText.{line_of, stop_of};

use crate::fault::PrintFault;
use crate::fitting::fits;
use crate::page::{Page, RECORD, flush, make_room};
use crate::sink::Sink;
use crate::sums::print_totals;
use crate::version::header;
use base::ShortBytes;
use trace_lines::{
    NoText, ROOM, Slots, Stop, Text, Value, Word, print_line, print_long_number, values_of, word_of,
};
use world_calls::{Call, CallAnswer, Record, StoppedAt, Trace};

/// How long a line may be without its line feed.
const ENTRY: usize = 696;

/// Hands the whole text of a trace on to a sink, where each of its records has one, as those of an engine have. Where a write fails it
/// answers how many bytes of the text are out. It takes no memory.
pub fn print<S: Sink>(trace: &Trace, out: &mut S) -> Result<(), PrintFault>
    requires { AllHaveText trace.now.version trace.now.records.items }
    ensures printed { Prints trace.now (S.bytes out.old) (S.failures out.old) result (S.bytes out.new) (S.failures out.new) }
    ensures same { S.origin out.new ≡ S.origin out.old }
{
    let mut page = Page {
        text: Text::none(),
        written: 0,
    };
    page.text.put(header(trace.version).as_bytes());
    print_records(trace, &mut page, out)?;
    make_room(&mut page, out)?;
    print_totals(trace.totals, &mut page.text);
    flush(&mut page, out)
}

fn print_records<S: Sink>(trace: &Trace, page: &mut Page, out: &mut S) -> Result<(), PrintFault>
    requires spelled { AllHaveText trace.now.version trace.now.records.items }
    requires first { page.old.written ≡ 0 }
    ensures text { PrintsRecords trace.now.version trace.now.records.items page.old (S.bytes out.old) (S.failures out.old) result page.new (S.bytes out.new) (S.failures out.new) }
    ensures most { page.new.written ≤ 2 ^ 80 }
    ensures same { S.origin out.new ≡ S.origin out.old }
{
    for number in 0..trace.records.len() {
        make_room(page, out)?;
        let entry = &trace.records[number];
        fits(entry);
        print_record(entry, &mut page.text);
    }
    Ok(())
}

/// Puts the line of a record that has one.
pub(crate) fn print_record(entry: &Record, text: &mut Text)
    requires room { length text.old + RECORD ≤ ROOM }
    requires spelled { IsSome (line_of entry.now) }
    ensures text { IsPut (with_newline (line_of entry.now)) text.old text.new }
    ensures few { length text.new ≤ length text.old + RECORD }
{
    match print_entry(entry, text) {
        Ok(()) => text.push(b'\n'),
        Err(NoText) => unreachable!(),
    }
}

/// Puts a record's line without its line feed, where it has one.
pub fn print_entry(entry: &Record, text: &mut Text) -> Result<(), NoText>
    requires room { length text.old + ENTRY ≤ ROOM }
    ensures text { Puts (line_of entry.now) text.old result text.new }
    ensures front { KeepsFront text.old result text.new }
    ensures few { length text.new ≤ length text.old + ENTRY }
{
    match entry {
        Record::Called { call, answer } => print_called(call, *answer, text),
        Record::Advance {
            run,
            instructions,
            stop,
            r0,
        } => print_advance(*run, *instructions, stop, *r0, text),
    }
}

fn print_called(call: &Call, answer: CallAnswer, text: &mut Text) -> Result<(), NoText>
    requires room { length text.old + ENTRY ≤ ROOM }
    ensures text { Puts (line_of (Record.Called answer call.now)) text.old result text.new }
    ensures front { KeepsFront text.old result text.new }
    ensures few { length text.new ≤ length text.old + ENTRY }
{
    let word = word_of(call);
    print_line(word, &values_of(call), text)?;
    text.put(b" = ");
    word.row().print_answer(answer, text)
}

fn print_advance(
    run: u32,
    instructions: u32,
    stop: &StoppedAt,
    r0: u64,
    text: &mut Text,
) -> Result<(), NoText>
    requires room { length text.old + ENTRY ≤ ROOM }
    ensures text { Puts (line_of (Record.Advance run instructions stop.now r0)) text.old result text.new }
    ensures front { KeepsFront text.old result text.new }
    ensures few { length text.new ≤ length text.old + ENTRY }
{
    let stop = stop_of(stop)?;
    let held = Slots {
        first: Some(Value::Number(run)),
        second: Some(Value::Number(instructions)),
        third: Some(Value::Stop(stop)),
        fourth: None,
    };
    print_line(Word::Advance, &held, text)?;
    text.put(b" = ");
    print_long_number(r0, text);
    Ok(())
}

// Where the run stopped. What tells more bytes than a line has no text.
fn stop_of(stop: &StoppedAt) -> Result<Stop, NoText>
    ensures stop { IfOk result (λ its. its ≡ stop_of stop.now) }
    ensures none { OnErr result (stop_text (stop_of stop.now) ≡ None) }
{
    match stop {
        StoppedAt::Helper(helper) => Ok(Stop::Helper(*helper)),
        StoppedAt::Trace(helper, bytes) => match ShortBytes::new(bytes.as_slice()) {
            Some(bytes) => Ok(Stop::Bytes(*helper, bytes)),
            None => Err(NoText),
        },
        StoppedAt::Finish(helper, code) => Ok(Stop::Code(*helper, *code)),
        StoppedAt::Exit => Ok(Stop::Exit),
    }
}
