// What is printed of one failure: a line a call, and the end. It relies on `host_decision` for the run, on `show_account` for the lines of its records,
// and on `words` for the end.

ghost use Rattle.std.specs.Prelude.{◌<◌, ◌++◌, ℕ, List, IfErr, IfOk, OnOk};
ghost use Rattle.std.specs.Io.KnownBytes.{Appends};
ghost use Rattle.cli_text_page.specs.Page.{Puts};
ghost use Rattle.world.specs.World.{queue_count};
ghost use Rattle.host_decision.specs.Answered.{IsDecided};
ghost use Rattle.host_decision.specs.Asked.{AreLinesOf};
ghost use Rattle.show_decision.specs.Told.{IsAnswered, IsLastLine, IsTold, IsUntold};

use crate::words::{put_decision, put_instructions};
use base::OrMemory;
use base_chunked_list::ChunkedList;
use cli_text_page::Page;
use engine_config::Config;
use host_decision::{Decided, DecisionError, Ran, Undecided, decision_on, lines};
use show_account::account;
use show_events::{Ending, Filter, NamedAccepted, Shown};
use show_question::{Failure, Question};
use std::alloc::{AllocError, Global};
use std::io;
use std::io::Write;
use world_calls::{CarriedLine, Record, Trace, Version};

/// Events of the run, which is the first one.
const OF_THE_RUN: Filter = Filter {
    ccb: None,
    queue: None,
    run: Some(1),
    freeze: None,
    from: None,
    to: None,
    status: None,
    sense: None,
    refused: None,
};

/// Writes what the queue's policy does with the failure, from an engine of the configuration in which that one CCB is active: a line a call
/// in the words of an account, and one that says what was decided. If an engine cannot take what is asked, nothing goes out but that is
/// answered. It fails if memory is refused, as such an error, or if the writer does. Its contract pins the last line; of the lines before
/// that one it says only that they come first.
pub fn decide<W: Write>(
    alloc: Global,
    config: &Config,
    named: &[NamedAccepted<'_>],
    question: &Question,
    out: &mut W,
) -> io::Result<Option<Undecided>>
    ensures { IfOk result (IsAnswered config.now question.now (W.contents out.old) (W.contents out.new)) }
{
    match told_of(alloc, config, question) {
        Ok(told) => {
            write(alloc, config, named, question, told, out)?;
            Ok(None)
        }
        Err(OrMemory::Fault(fault)) => Ok(Some(fault)),
        Err(OrMemory::OutOfMemory) => Err(io::Error::from(AllocError)),
    }
}

/// The lines with which an engine begins, and what it decides.
#[derive(Drop)]
struct Told<'a> {
    lines: Vec<CarriedLine>,
    decided: Decided<'a>,
}

// What an engine of the question decides.
fn told_of<'a>(
    alloc: Global,
    config: &'a Config,
    question: &Question,
) -> Result<Told<'a>, DecisionError>
    ensures queue { IfOk result (λ told. question.now.failure.queue.0 < queue_count config.now) }
    ensures lines { IfOk result (λ told. AreLinesOf config.now question.now told.lines.items) }
    ensures decided { IfOk result (λ told. IsDecided config.now told.lines.items question.now.failure told.decided) }
    ensures refused { IfErr result (IsUntold config.now question.now) }
{
    let lines = lines(alloc, config, question)?;
    let decided = decision_on(alloc, config, &lines, &question.failure)?;
    Ok(Told { lines, decided })
}

// Writes the lines of the run's records, and the end.
fn write<W: Write>(
    alloc: Global,
    config: &Config,
    named: &[NamedAccepted<'_>],
    question: &Question,
    told: Told<'_>,
    out: &mut W,
) -> io::Result<()>
    requires queue { question.now.failure.queue.0 < queue_count config.now }
    requires lines { AreLinesOf config.now question.now told.lines.items }
    requires decided { IsDecided config.now told.lines.items question.now.failure told.decided }
    ensures { OnOk result (IsTold config.now question.now (W.contents out.old) (W.contents out.new)) }
{
    let mut page = Page::new(alloc);
    put_last(config, &question.failure, &told.decided, &mut page);
    write_calls(alloc, config, named, told, out)?;
    page.write_to(out)?;
    Ok(())
}

// Puts the last line.
fn put_last(config: &Config, failure: &Failure, decided: &Decided<'_>, page: &mut Page)
    requires { failure.now.queue.0 < queue_count config.now }
    ensures { (text : List ℕ) × IsLastLine config.now failure.now decided.now text × Puts page.old text page.new }
{
    put_decision(
        &decided.decision,
        failure.retries,
        &decided.ran.records,
        page,
    );
    let budget = config.program(failure.queue).budget();
    put_instructions(decided.ran.instructions, budget, page);
}

// Writes the account of the records alone, without what it says first of what was there before them.
fn write_calls<W: Write>(
    alloc: Global,
    config: &Config,
    named: &[NamedAccepted<'_>],
    told: Told<'_>,
    out: &mut W,
) -> io::Result<()>
    ensures { OnOk result ((text : List ℕ) × Appends (W.contents out.old) (W.contents out.new) text) }
{
    let text = calls(alloc, config, named, told)?;
    out.write_all(after_line(&text))?;
    Ok(())
}

// The account, as text.
fn calls(
    alloc: Global,
    config: &Config,
    named: &[NamedAccepted<'_>],
    told: Told<'_>,
) -> io::Result<Vec<u8>> {
    let decided = told.decided;
    let trace = trace(alloc, config, decided.ran)?;
    let shown = Shown {
        carried: Some(&told.lines),
        trace: &trace,
        ending: Ending::Whole,
    };
    let mut text: Vec<u8> = Vec::new(alloc);
    account(alloc, config, named, shown, &OF_THE_RUN, &mut text)?;
    Ok(text)
}

// The records as a trace.
fn trace(alloc: Global, config: &Config, ran: Ran<'_>) -> Result<Trace, AllocError> {
    let totals = ran.engine.totals(ran.records.len() as u64);
    let records = listed(alloc, ran.records)?;
    let version = Version::of(config.helpers());
    Ok(Trace {
        version,
        records,
        totals,
    })
}

// The records in a list of another form.
fn listed(alloc: Global, records: Vec<Record>) -> Result<ChunkedList<Record>, AllocError> {
    let mut list = ChunkedList::with_room(alloc)?;
    for record in records {
        list.reserve(1)?;
        list.push_reserved(record);
    }
    Ok(list)
}

// What stands after the first line.
fn after_line(text: &[u8]) -> &[u8] {
    match text.iter().position(|byte| *byte == b'\n') {
        Some(place) => text.get(place.saturating_add(1)..).unwrap_or(&[]),
        None => text,
    }
}
