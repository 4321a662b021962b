// The calls of a scenario that were refused: how many there are, and on which line the first of them stands. It relies on `scenario` for
// lines, and on `fault`.

ghost use Rattle.std.specs.Prelude.{◌≡◌, ◌<◌, ◌≤◌, MatchOption, filter, length, take, ⊤};
ghost use Rattle.std.specs.Io.KnownBytes.{Keeps};
ghost use Rattle.world_calls.specs.declared.call.Call.TheVariants.{Complete};
ghost use Rattle.scenario.specs.Steps.{command_seen};
ghost use Rattle.host_scenario.specs.Asked.{is_hosts};
ghost use Rattle.cli_commands.specs.Refusals.{AreTold, IsFirstRefused, are_alike, is_asked_by, is_refused, is_same_report, line_of, refused_count, tells};

use crate::fault::Fault;
use base_chunked_list::ChunkedList;
use scenario::Scenario;
use std::fmt;
use std::io::Write;
use world_calls::{Call, CallAnswer, CallRefusal, CompletionRecord, Record};

// How many calls were refused, on which line the first of them stands, and why it was refused.
#[derive(Clone, Copy)]
struct Refusals {
    count: usize,
    line: usize,
    first: CallRefusal,
}

impl fmt::Display for Refusals {
    ghost use Rattle.std.specs.Prelude.{Some};
    ghost use Rattle.cli_commands.specs.Refusals.{refusals_text};

    ghost output = { λ it. Some (refusals_text it.count it.line it.first) };

    fn fmt<W: fmt::Write>(&self, f: &mut fmt::Formatter<W>) -> fmt::Result {
        if self.count == 1 {
            write!(
                f,
                "1 call was refused, at line {}: {}",
                self.line, self.first
            )
        } else {
            write!(
                f,
                "{} calls were refused, the first at line {}: {}",
                self.count, self.line, self.first
            )
        }
    }
}

/// Reports the calls that these records of a scenario tell as refused, if there are any, and answers the status: 0 for none, and 1 for
/// those that are reported.
pub(crate) fn report_refusals<E: Write>(
    scenario: &Scenario<'_>,
    records: &ChunkedList<Record>,
    err: &mut E,
) -> u8
    ensures status { result ≤ 2 }
    ensures none { result ≡ 0 → refused_count records.now.items ≡ 0 }
    ensures quiet { result ≡ 0 → Keeps (E.contents err.old) (E.contents err.new) }
    ensures told { result ≡ 1 → AreTold scenario.now records.now.items (E.contents err.old) (E.contents err.new) }
{
    let count = count_refused(records);
    if count == 0 {
        return 0;
    }
    match refusals_in(scenario, records, count) {
        Some(refusals) => match writeln!(err, "camr: {refusals}") {
            Ok(()) => 1,
            Err(_) => 2,
        },
        None => Fault::InternalError.report(err),
    }
}

// How many of the records tell a refusal.
fn count_refused(records: &ChunkedList<Record>) -> usize
    ensures { result ≡ refused_count records.now.items }
{
    let mut count = 0;
    for place in 0..records.len() {
        if is_refused(&records[place]) {
            count += 1;
        }
    }
    count
}

fn is_refused(made: &Record) -> bool
    ensures { result ≡ is_refused made.now }
{
    match made {
        Record::Called {
            answer: CallAnswer::Refused(_),
            ..
        } => true,
        _ => false,
    }
}

// The refusals that these records of a scenario tell, of which there are so many; none if the first of them is of no line.
fn refusals_in(
    scenario: &Scenario<'_>,
    records: &ChunkedList<Record>,
    count: usize,
) -> Option<Refusals>
    requires { count ≡ refused_count records.now.items }
    ensures { MatchOption result ⊤ (λ it. (it.count ≡ refused_count records.now.items) × IsFirstRefused scenario.now records.now.items it.line it.first) }
{
    let place = first_refused(records)?;
    let Record::Called {
        answer: CallAnswer::Refused(first),
        call,
    } = &records[place]
    else {
        return None;
    };
    let line = line_of(scenario, call, count_told(records, place, call))?;
    Some(Refusals {
        count,
        line,
        first: *first,
    })
}

// The place of the first record that tells a refusal.
fn first_refused(records: &ChunkedList<Record>) -> Option<usize>
    ensures { MatchOption result ⊤ (λ place. (place < length records.now.items) × (refused_count (take place records.now.items) ≡ 0)) }
{
    for place in 0..records.len() {
        if is_refused(&records[place]) {
            return Some(place);
        }
    }
    None
}

// How many of the records before that place tell such a call.
fn count_told(records: &ChunkedList<Record>, place: usize, call: &Call) -> usize
    requires { place ≤ length records.now.items }
    ensures { result ≡ length (filter (tells call.now) (take place records.now.items)) }
{
    let mut count = 0;
    for before in 0..place {
        if tells(&records[before], call) {
            count += 1;
        }
    }
    count
}

// Whether the record tells such a call.
fn tells(made: &Record, call: &Call) -> bool
    ensures { result ≡ tells call.now made.now }
{
    match made {
        Record::Called { call: its, .. } => are_alike(call, its),
        Record::Advance { .. } => false,
    }
}

// The line of the step that asks for such a call after so many others.
fn line_of(scenario: &Scenario<'_>, call: &Call, turn: usize) -> Option<usize>
    ensures { result ≡ line_of call.now turn scenario.now }
{
    let mut left = turn;
    for step in scenario.steps() {
        if is_asked_by(step.call, call) {
            if left == 0 {
                return Some(step.line);
            }
            left -= 1;
        }
    }
    None
}

// Whether a step with that call, or a `drain`, asks for such a call.
fn is_asked_by(step: Option<&Call>, call: &Call) -> bool
    ensures { result ≡ is_asked_by call.now (command_seen step.entry) }
{
    match step {
        Some(its) => are_alike(call, its),
        None => false,
    }
}

// Whether the two calls are served in the order of their lines.
fn are_alike(one: &Call, other: &Call) -> bool
    ensures { result ≡ are_alike one.now other.now }
{
    match one {
        Call::Complete { completion } => reports(other, completion),
        _ => is_hosts(one) && is_hosts(other),
    }
}

// Whether the call is of a completion that reports the same.
fn reports(call: &Call, told: &CompletionRecord) -> bool
    ensures { result ≡ are_alike (Complete told.now) call.now }
{
    match call {
        Call::Complete { completion } => is_same_report(told, completion),
        _ => false,
    }
}

fn is_same_report(one: &CompletionRecord, other: &CompletionRecord) -> bool
    ensures { result ≡ is_same_report one.now other.now }
{
    one.ccb().0 == other.ccb().0
        && one.status().code() == other.status().code()
        && one.scsi() == other.scsi()
        && one.sense().as_slice() == other.sense().as_slice()
}

// Whether the host makes such calls.
fn is_hosts(call: &Call) -> bool
    ensures { result ≡ is_hosts call.now }
{
    !matches!(call, Call::Complete { .. } | Call::Park { .. })
}
