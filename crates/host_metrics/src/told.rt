// What a record tells that is counted. It relies on `world_calls` for records.

ghost use Rattle.std.specs.Prelude.{◌≡◌, ◌<◌, ◌^◌};
ghost use Rattle.host_metrics.specs.Notes.{cell_behind, cell_in, cell_of, code_at, code_completed, code_finished, completed_in, elapsed_by, elapsed_in, elapsed_told, if_so, instructions_told, is_begun, is_ccb, is_completed, is_dispatched, is_failed, is_helper_requeue, is_recovery, is_requeue, is_requeue_at, is_start, is_started, is_submission, is_submitted, refusal_in, refusal_told, row_if};

use helpers::Helper;
use world_calls::{Call, CallAnswer, Record, StoppedAt};

/// How many queues there may be.
pub const QUEUES: usize = 64;

/// How many controllers there may be.
pub const CONTROLLERS: usize = 8;

/// How many columns a table of status codes or of final codes has: a code is below it.
pub const CODES: usize = 64;

/// How many cells the table of refusals has: the number of a refusal is below it.
pub(crate) const REFUSED: usize = 16;

/// Whether a record tells of a submission that was answered by a CCB.
pub(crate) fn is_submission(told: &Record) -> bool
    ensures { result ≡ is_submission told.now }
{
    match told {
        Record::Called { answer, call } => is_submitted(*answer, call),
        Record::Advance { .. } => false,
    }
}

fn is_submitted(answer: CallAnswer, call: &Call) -> bool
    ensures { result ≡ is_submitted answer call.now }
{
    match call {
        Call::Submit { .. } => is_ccb(answer),
        _ => false,
    }
}

/// Whether it tells of a start that was answered by a CCB, with its advice or without one.
pub(crate) fn is_start(told: &Record) -> bool
    ensures { result ≡ is_start told.now }
{
    match told {
        Record::Called { answer, call } => is_dispatched(*answer, call),
        Record::Advance { .. } => false,
    }
}

fn is_dispatched(answer: CallAnswer, call: &Call) -> bool
    ensures { result ≡ is_dispatched answer call.now }
{
    match call {
        Call::Dispatch { .. } => is_begun(answer),
        _ => false,
    }
}

/// Whether it tells of a completion that started a run.
pub(crate) fn is_recovery(told: &Record) -> bool
    ensures { result ≡ is_recovery told.now }
{
    match told {
        Record::Called { answer, call } => is_failed(*answer, call),
        Record::Advance { .. } => false,
    }
}

fn is_failed(answer: CallAnswer, call: &Call) -> bool
    ensures { result ≡ is_failed answer call.now }
{
    match call {
        Call::Complete { .. } => is_started(answer),
        _ => false,
    }
}

fn is_ccb(answer: CallAnswer) -> bool
    ensures { result ≡ is_ccb answer }
{
    matches!(answer, CallAnswer::Ccb(_))
}

fn is_begun(answer: CallAnswer) -> bool
    ensures { result ≡ is_begun answer }
{
    matches!(answer, CallAnswer::Ccb(_) | CallAnswer::Advised(_, _))
}

fn is_started(answer: CallAnswer) -> bool
    ensures { result ≡ is_started answer }
{
    matches!(answer, CallAnswer::Started { .. })
}

fn is_completed(answer: CallAnswer) -> bool
    ensures { result ≡ is_completed answer }
{
    matches!(answer, CallAnswer::Done | CallAnswer::Started { .. })
}

/// Whether it tells of a call of the helper that makes the run's CCB wait again.
pub(crate) fn is_requeue(told: &Record) -> bool
    ensures { result ≡ is_requeue told.now }
{
    match told {
        Record::Called { .. } => false,
        Record::Advance { stop, .. } => is_requeue_at(stop),
    }
}

fn is_requeue_at(stop: &StoppedAt) -> bool
    ensures { result ≡ is_requeue_at stop.now }
{
    match stop {
        StoppedAt::Helper(helper) => is_helper_requeue(*helper),
        _ => false,
    }
}

fn is_helper_requeue(helper: Helper) -> bool
    ensures { result ≡ is_helper_requeue helper }
{
    matches!(helper, Helper::Requeue)
}

/// Of a completion that was answered by its end or by a run: the code of the status.
pub(crate) fn code_completed(told: &Record) -> Option<u32>
    ensures { result ≡ code_completed told.now }
{
    match told {
        Record::Called { answer, call } => completed_in(*answer, call),
        Record::Advance { .. } => None,
    }
}

fn completed_in(answer: CallAnswer, call: &Call) -> Option<u32>
    ensures { result ≡ completed_in answer call.now }
{
    match call {
        Call::Complete { completion } => if_so(
            is_completed(answer),
            u32::from(completion.status().code()),
        ),
        _ => None,
    }
}

fn if_so(is_so: bool, number: u32) -> Option<u32>
    ensures { result ≡ if_so is_so number }
{
    if is_so { Some(number) } else { None }
}

/// Of a call of the helper that finishes the run's CCB: the final code.
pub(crate) fn code_finished(told: &Record) -> Option<u32>
    ensures { result ≡ code_finished told.now }
{
    match told {
        Record::Called { .. } => None,
        Record::Advance { stop, .. } => code_at(stop),
    }
}

fn code_at(stop: &StoppedAt) -> Option<u32>
    ensures { result ≡ code_at stop.now }
{
    match stop {
        StoppedAt::Finish(_, code) => Some(u32::from(*code)),
        _ => None,
    }
}

/// The number of the refusal by which a call was answered.
pub(crate) fn refusal_told(told: &Record) -> Option<usize>
    ensures { result ≡ refusal_told told.now }
{
    match told {
        Record::Called { answer, .. } => refusal_in(*answer),
        Record::Advance { .. } => None,
    }
}

fn refusal_in(answer: CallAnswer) -> Option<usize>
    ensures { result ≡ refusal_in answer }
{
    match answer {
        CallAnswer::Refused(refusal) => Some(usize::from(refusal.row().number)),
        _ => None,
    }
}

/// How many instructions a run executed.
pub(crate) fn instructions_told(told: &Record) -> u64
    ensures { result ≡ instructions_told told.now }
{
    match told {
        Record::Called { .. } => 0,
        Record::Advance { instructions, .. } => u64::from(*instructions),
    }
}

/// By how many milliseconds a reading that was taken moved on a clock that read that.
pub(crate) fn elapsed_told(clock: u64, told: &Record) -> u64
    ensures { result ≡ elapsed_told clock told.now }
{
    match told {
        Record::Called { answer, call } => elapsed_in(clock, *answer, call),
        Record::Advance { .. } => 0,
    }
}

fn elapsed_in(clock: u64, answer: CallAnswer, call: &Call) -> u64
    ensures { result ≡ elapsed_in clock answer call.now }
{
    match call {
        Call::Clock { reading } => elapsed_by(clock, answer, *reading),
        _ => 0,
    }
}

fn elapsed_by(clock: u64, answer: CallAnswer, reading: u64) -> u64
    ensures { result ≡ elapsed_by clock answer reading }
{
    match answer {
        CallAnswer::Removed(_) => reading.saturating_sub(clock),
        _ => 0,
    }
}

/// The row of a queue, if it is so.
pub(crate) fn row_if(is_so: bool, queue: Option<u32>) -> Option<usize>
    ensures { result ≡ row_if is_so queue }
{
    if !is_so {
        return None;
    }
    match queue {
        Some(queue) => Some(queue as usize),
        None => None,
    }
}

/// The cell of a code in the row of a queue.
pub(crate) fn cell_of(queue: Option<u32>, code: Option<u32>) -> Option<usize>
    ensures { result ≡ cell_of queue code }
{
    match queue {
        Some(queue) => cell_behind(queue as usize, code),
        None => None,
    }
}

fn cell_behind(queue: usize, code: Option<u32>) -> Option<usize>
    requires { queue < 2 ^ 32 }
    ensures { result ≡ cell_behind queue code }
{
    match code {
        Some(code) => cell_in(queue, code as usize),
        None => None,
    }
}

fn cell_in(queue: usize, code: usize) -> Option<usize>
    requires { queue < 2 ^ 32 }
    ensures { result ≡ cell_in queue code }
{
    if code < CODES {
        Some(queue * CODES + code)
    } else {
        None
    }
}
