// A decision in words. It relies on `host_decision` for what was decided, on `show_account` for the names of final codes, and on `cli_text_page`
// for the page.

ghost use Rattle.std.specs.Prelude.{◌++◌, ℕ, List, codes};
ghost use Rattle.std.specs.Fmt.{decimal};
ghost use Rattle.std.specs.List.{flat_map};
ghost use Rattle.cli_text_page.specs.Page.{Puts, byte_digits};
ghost use Rattle.show_account.specs.Names.{advice_text};
ghost use Rattle.show_decision.specs.Words.{IsDecisionText, IsEndText, advised_text, bytes_text, character, instructions_text, other_text, own_text, stop_text, traced_text};

use cli_text_page::Page;
use host_decision::{Decision, End, LeftFreeze};
use show_account::{put_advice, put_code};
use world_calls::{Record, StoppedAt};

/// Puts what was decided of a CCB that had so many retries, in a run with these records.
pub(crate) fn put_decision(decision: &Decision, retries: u32, records: &[Record], page: &mut Page)
    ensures { (text : List ℕ) × IsDecisionText decision.now retries records.now text × Puts page.old text page.new }
{
    put_end(decision.end, retries, page);
    put_advised(decision.advice, page);
    put_own(decision.freeze, page);
    put_others(&decision.others, page);
    put_all_traced(records, page);
}

/// Puts how many instructions a run executed, of how many that it may, and ends the line.
pub(crate) fn put_instructions(instructions: u64, budget: u32, page: &mut Page)
    ensures { Puts page.old (instructions_text instructions budget) page.new }
{
    put_count("; ", instructions, page);
    put_count(" of ", u64::from(budget), page);
    page.text(" instructions\n");
}

// Puts a number after some words.
fn put_count(before: &str, number: u64, page: &mut Page)
    ensures { Puts page.old (before.now ++ decimal number) page.new }
{
    page.text(before);
    page.number(number);
}

// Puts what became of the CCB.
fn put_end(end: End, retries: u32, page: &mut Page)
    ensures { (text : List ℕ) × IsEndText end retries text × Puts page.old text page.new }
{
    match end {
        End::Requeued(now) => put_requeued(retries, now, page),
        End::Finished(code) => put_finished(code, page),
        End::Kept => page.text("left in recovery"),
    }
}

fn put_requeued(retries: u32, now: u32, page: &mut Page)
    ensures { (text : List ℕ) × IsEndText (End.Requeued now) retries text × Puts page.old text page.new }
{
    put_count("requeued, retries ", u64::from(retries), page);
    put_count(", then ", u64::from(now), page);
}

fn put_finished(code: u8, page: &mut Page)
    ensures { (text : List ℕ) × IsEndText (End.Finished code) 0 text × Puts page.old text page.new }
{
    page.text("finished, ");
    put_code(code, page);
}

// Puts what is advised for its next start, if anything is.
fn put_advised(word: u32, page: &mut Page)
    ensures { Puts page.old (advised_text word) page.new }
{
    if word != 0 {
        put_any_advice(u64::from(word), page);
    }
}

fn put_any_advice(word: u64, page: &mut Page)
    ensures { Puts page.old (codes ", advised " ++ advice_text word) page.new }
{
    page.text(", advised ");
    put_advice(word, page);
}

// Puts what became of the freeze that was taken for the failure.
fn put_own(freeze: Option<u64>, page: &mut Page)
    ensures { Puts page.old (own_text freeze) page.new }
{
    match freeze {
        Some(milliseconds) => put_timed("; its freeze is left to a timer for ", milliseconds, page),
        None => page.text("; its freeze is given back"),
    }
}

// Puts a time after some words.
fn put_timed(before: &str, milliseconds: u64, page: &mut Page)
    ensures { Puts page.old (before.now ++ decimal milliseconds ++ codes " ms") page.new }
{
    put_count(before, milliseconds, page);
    page.text(" ms");
}

// Puts the other freezes that are left.
fn put_others(others: &[LeftFreeze], page: &mut Page)
    ensures { Puts page.old (flat_map other_text others.now) page.new }
{
    for other in others {
        put_other(*other, page);
    }
}

fn put_other(other: LeftFreeze, page: &mut Page)
    ensures { Puts page.old (other_text other) page.new }
{
    page.text("; a freeze of ");
    page.text(other.place.kind_word());
    put_count(" ", u64::from(other.place.number()), page);
    put_timed(" is left to a timer for ", other.milliseconds, page);
}

// Puts what these records traced.
fn put_all_traced(records: &[Record], page: &mut Page)
    ensures { Puts page.old (flat_map traced_text records.now) page.new }
{
    for told in records {
        put_traced(told, page);
    }
}

fn put_traced(told: &Record, page: &mut Page)
    ensures { Puts page.old (traced_text told.now) page.new }
{
    match told {
        Record::Advance { stop, .. } => put_stop(stop, page),
        Record::Called { .. } => {}
    }
}

fn put_stop(stop: &StoppedAt, page: &mut Page)
    ensures { Puts page.old (stop_text stop.now) page.new }
{
    match stop {
        StoppedAt::Trace(_, bytes) => put_bytes(bytes.as_slice(), page),
        StoppedAt::Helper(_) | StoppedAt::Finish(..) | StoppedAt::Exit => {}
    }
}

// Puts bytes that were traced.
fn put_bytes(bytes: &[u8], page: &mut Page)
    ensures { Puts page.old (bytes_text bytes.now) page.new }
{
    page.text("; traced ");
    put_digits(bytes, page);
    page.text(" \"");
    put_characters(bytes, page);
    page.text("\"");
}

fn put_digits(bytes: &[u8], page: &mut Page)
    ensures { Puts page.old (flat_map byte_digits bytes.now) page.new }
{
    for byte in bytes {
        page.byte(*byte);
    }
}

fn put_characters(bytes: &[u8], page: &mut Page)
    ensures { Puts page.old (flat_map character bytes.now) page.new }
{
    for byte in bytes {
        page.ascii(*byte);
    }
}
