// The last line of a trace, the sums over its records, printed and read as a line's fields are. It relies on `trace_lines` for fields.

ghost use Rattle.std.specs.Prelude.{◌≡◌, ◌+◌, ◌≤◌, ◌++◌, codes, length, MatchOption};
ghost use Rattle.trace_lines.specs.Lines.{fields_text};
ghost use Rattle.trace_lines.specs.Written.{IsPut, Reads};
ghost use Rattle.trace.specs.Reading.{sums_of};
ghost use Rattle.trace.specs.TraceText.{sums_text, totals_text, values_of_sums};

use crate::page::RECORD;
use trace_lines::{
    Kind, ROOM, Slots, Text, Value, long_number_at, number_at, print_long_number, print_number,
    read_fields,
};
use world_calls::Totals;

// What follows `end`: how many records there are, how many freezes, active CCBs and live runs.
const SUMS: Slots<Kind> = Slots {
    first: Some(Kind::LongNumber),
    second: Some(Kind::Number),
    third: Some(Kind::Number),
    fourth: Some(Kind::Number),
};

/// How long they may be.
const SUMS_LENGTH: usize = 54;

/// Puts the last line, which always has a text.
pub fn print_totals(totals: Totals, text: &mut Text)
    requires room { length text.old + RECORD ≤ ROOM }
    ensures text { IsPut (totals_text totals) text.old text.new }
    ensures few { length text.new ≤ length text.old + RECORD }
{
    text.put(b"end");
    print_sums(
        totals.history,
        totals.frozen,
        totals.active,
        totals.runs,
        text,
    );
    text.push(b'\n');
}

// What follows `end`.
#[tactic(auto, unfolding(trace_lines::specs::Lines::fields_text, trace_lines::specs::Texts::field_text))]
fn print_sums(history: u64, frozen: u32, active: u32, runs: u32, text: &mut Text)
    requires room { length text.old + SUMS_LENGTH ≤ ROOM }
    ensures text { IsPut (fields_text SUMS (values_of_sums (record { history = history; frozen = frozen; active = active; runs = runs }))) text.old text.new }
    ensures few { length text.new ≤ length text.old + SUMS_LENGTH }
{
    text.push(b' ');
    print_long_number(history, text);
    text.push(b' ');
    print_number(frozen, text);
    text.push(b' ');
    print_number(active, text);
    text.push(b' ');
    print_number(runs, text);
}

/// The sums of the last line, which stands without its line feed.
pub fn read_totals(line: &str) -> Option<Totals>
    ensures { Reads sums_text line.now result }
{
    let rest = behind_end(line)?;
    match read_fields(&SUMS, rest) {
        Some(held) => Some(sums_of(&held)),
        None => None,
    }
}

// What follows `end`.
fn behind_end(line: &str) -> Option<&str>
    ensures { MatchOption result ((rest : _) → ¬ (line.now ≡ codes "end" ++ rest)) (λ rest. line.now ≡ codes "end" ++ rest.now) }
{
    line.strip_prefix("end")
}

fn sums_of(held: &Slots<Value>) -> Totals
    ensures { result ≡ sums_of held.now }
{
    Totals {
        history: long_number_at(held.first),
        frozen: number_at(held.second),
        active: number_at(held.third),
        runs: number_at(held.fourth),
    }
}
