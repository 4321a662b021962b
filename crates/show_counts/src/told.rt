// What a record tells that is counted, and what a carried line tells: two numbers, if it tells them. It relies on `world_calls` for records
// and lines.

ghost use Rattle.std.specs.Prelude.{◌≡◌};
ghost use Rattle.show_counts.specs.Told.{carried, ccb_in, code_at, completed_by, completed_in, completion, failure, finish, finished_by, helper_at, helper_call, its_second, pair_with, recovered_by, recovery, run_in, start, started_by, started_in, submission, submitted_by, told_by, zero_answer};

use world_calls::{Call, CallAnswer, CarriedLine, Record, StoppedAt};

/// What two numbers a record may tell.
#[derive(Clone, Copy, PartialEq, Eq)]
pub(crate) enum Tells {
    /// Of a submission that was answered by a CCB: the CCB, and the queue.
    Submission,
    /// Of a start that was answered by a CCB: the CCB, and the queue.
    Start,
    /// Of a completion that was answered by its end or by a run: the CCB, and the code of the status.
    Completion,
    /// Of a completion that was answered by a run: the run, and the CCB.
    Recovery,
    /// Of the same: the CCB, and 0.
    Failure,
    /// Of a call of a helper that finishes a CCB: the run, and the final code.
    Finish,
    /// Of a call of a helper: the run, and the helper's number.
    HelperCall,
    /// Of one that was answered 0: the same.
    ZeroAnswer,
}

impl Tells {
    /// What the record tells of that.
    pub(crate) fn told(self, entry: &Record) -> Option<(u32, u32)>
        ensures { result ≡ told_by self entry.now }
    {
        match self {
            Tells::Submission => submission(entry),
            Tells::Start => start(entry),
            Tells::Completion => completion(entry),
            Tells::Recovery => recovery(entry),
            Tells::Failure => failure(entry),
            Tells::Finish => finish(entry),
            Tells::HelperCall => helper_call(entry),
            Tells::ZeroAnswer => zero_answer(entry),
        }
    }
}

/// Of a CCB that a line carries over: the CCB, and its queue.
pub(crate) fn carried(line: &CarriedLine) -> Option<(u32, u32)>
    ensures { result ≡ carried line.now }
{
    match line {
        CarriedLine::Ccb(it) => Some((it.number.0, it.queue.0)),
        _ => None,
    }
}

fn pair_with(first: Option<u32>, second: u32) -> Option<(u32, u32)>
    ensures { result ≡ pair_with first second }
{
    match first {
        Some(first) => Some((first, second)),
        None => None,
    }
}

fn ccb_in(answer: CallAnswer) -> Option<u32>
    ensures { result ≡ ccb_in answer }
{
    match answer {
        CallAnswer::Ccb(ccb) => Some(ccb.0),
        _ => None,
    }
}

fn started_in(answer: CallAnswer) -> Option<u32>
    ensures { result ≡ started_in answer }
{
    match answer {
        CallAnswer::Ccb(ccb) => Some(ccb.0),
        CallAnswer::Advised(ccb, _) => Some(ccb.0),
        _ => None,
    }
}

fn run_in(answer: CallAnswer) -> Option<u32>
    ensures { result ≡ run_in answer }
{
    match answer {
        CallAnswer::Started { run, freeze: _ } => Some(run),
        _ => None,
    }
}

fn completed_in(answer: CallAnswer, ccb: u32) -> Option<u32>
    ensures { result ≡ completed_in answer ccb }
{
    match answer {
        CallAnswer::Done => Some(ccb),
        CallAnswer::Started { run: _, freeze: _ } => Some(ccb),
        _ => None,
    }
}

fn submitted_by(answer: CallAnswer, call: &Call) -> Option<(u32, u32)>
    ensures { result ≡ submitted_by answer call.now }
{
    match call {
        Call::Submit {
            queue,
            priority: _,
            retries: _,
            class: _,
        } => pair_with(ccb_in(answer), queue.0),
        _ => None,
    }
}

fn started_by(answer: CallAnswer, call: &Call) -> Option<(u32, u32)>
    ensures { result ≡ started_by answer call.now }
{
    match call {
        Call::Dispatch { queue } => pair_with(started_in(answer), queue.0),
        _ => None,
    }
}

fn completed_by(answer: CallAnswer, call: &Call) -> Option<(u32, u32)>
    ensures { result ≡ completed_by answer call.now }
{
    match call {
        Call::Complete { completion } => {
            let status = u32::from(completion.status().code());
            pair_with(completed_in(answer, completion.ccb().0), status)
        }
        _ => None,
    }
}

fn recovered_by(answer: CallAnswer, call: &Call) -> Option<(u32, u32)>
    ensures { result ≡ recovered_by answer call.now }
{
    match call {
        Call::Complete { completion } => pair_with(run_in(answer), completion.ccb().0),
        _ => None,
    }
}

fn code_at(stop: &StoppedAt) -> Option<u32>
    ensures { result ≡ code_at stop.now }
{
    match stop {
        StoppedAt::Finish(_, code) => Some(u32::from(*code)),
        _ => None,
    }
}

fn helper_at(stop: &StoppedAt) -> Option<u32>
    ensures { result ≡ helper_at stop.now }
{
    match stop {
        StoppedAt::Helper(helper) => Some(u32::from(helper.number())),
        StoppedAt::Trace(helper, _) => Some(u32::from(helper.number())),
        StoppedAt::Finish(helper, _) => Some(u32::from(helper.number())),
        StoppedAt::Exit => None,
    }
}

fn finished_by(run: u32, told: Option<u32>) -> Option<(u32, u32)>
    ensures { result ≡ finished_by run told }
{
    match told {
        Some(told) => Some((run, told)),
        None => None,
    }
}

// A submission that was answered by a CCB: the CCB, and the queue.
fn submission(entry: &Record) -> Option<(u32, u32)>
    ensures { result ≡ submission entry.now }
{
    match entry {
        Record::Called { answer, call } => submitted_by(*answer, call),
        Record::Advance { .. } => None,
    }
}

// A start that was answered by a CCB: the CCB, and the queue.
fn start(entry: &Record) -> Option<(u32, u32)>
    ensures { result ≡ start entry.now }
{
    match entry {
        Record::Called { answer, call } => started_by(*answer, call),
        Record::Advance { .. } => None,
    }
}

// A completion that was answered by its end or by a run: the CCB, and the code of the status.
fn completion(entry: &Record) -> Option<(u32, u32)>
    ensures { result ≡ completion entry.now }
{
    match entry {
        Record::Called { answer, call } => completed_by(*answer, call),
        Record::Advance { .. } => None,
    }
}

// A completion that was answered by a run: the run, and the CCB.
fn recovery(entry: &Record) -> Option<(u32, u32)>
    ensures { result ≡ recovery entry.now }
{
    match entry {
        Record::Called { answer, call } => recovered_by(*answer, call),
        Record::Advance { .. } => None,
    }
}

fn its_second(pair: Option<(u32, u32)>) -> Option<(u32, u32)>
    ensures { result ≡ its_second pair }
{
    match pair {
        Some((_, second)) => Some((second, 0)),
        None => None,
    }
}

// The same: the CCB, and 0.
fn failure(entry: &Record) -> Option<(u32, u32)>
    ensures { result ≡ failure entry.now }
{
    its_second(recovery(entry))
}

// A call of a helper that finishes a CCB: the run, and the final code.
fn finish(entry: &Record) -> Option<(u32, u32)>
    ensures { result ≡ finish entry.now }
{
    match entry {
        Record::Called { .. } => None,
        Record::Advance { run, stop, .. } => finished_by(*run, code_at(stop)),
    }
}

// A call of a helper: the run, and the helper's number.
fn helper_call(entry: &Record) -> Option<(u32, u32)>
    ensures { result ≡ helper_call entry.now }
{
    match entry {
        Record::Called { .. } => None,
        Record::Advance { run, stop, .. } => finished_by(*run, helper_at(stop)),
    }
}

// The same where the answer is 0.
fn zero_answer(entry: &Record) -> Option<(u32, u32)>
    ensures { result ≡ zero_answer entry.now }
{
    match entry {
        Record::Called { .. } => None,
        Record::Advance { run, stop, r0, .. } => {
            if *r0 == 0 {
                finished_by(*run, helper_at(stop))
            } else {
                None
            }
        }
    }
}
