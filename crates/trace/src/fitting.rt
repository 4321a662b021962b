// What the types of a record's parts say of its numbers and bytes, for contracts, which see numbers of any size. No function here does
// anything. It relies on `world_calls` for records.

ghost use Rattle.std.specs.Prelude.{◌<◌, ◌^◌, All};
ghost use Rattle.trace.specs.HasText.{AnswerFits, CallFits, ClassFits, NumbersFit, StopFits};

use world_calls::{Call, CallAnswer, Record, StoppedAt};

/// The numbers of a record are below 2^32, or 2^64, and its bytes are bytes.
pub(crate) fn fits(entry: &Record)
    ensures { NumbersFit entry.now }
{
    match entry {
        Record::Called { call, answer } => {
            call_fits(call);
            answer_fits(*answer);
        }
        Record::Advance { run, stop, r0, .. } => {
            number_fits(*run);
            stop_fits(stop);
            long_number_fits(*r0);
        }
    }
}

fn call_fits(call: &Call)
    ensures { CallFits call.now }
{
    match call {
        Call::Submit {
            queue,
            priority,
            retries,
            class,
        } => {
            number_fits(queue.0);
            number_fits(*priority);
            number_fits(*retries);
            class_fits(*class);
        }
        Call::Dispatch { queue } => number_fits(queue.0),
        Call::Complete { completion } => number_fits(completion.ccb().0),
        Call::Withdraw { ccb } => number_fits(ccb.0),
        Call::GuestFreeze { place, guest } => {
            number_fits(place.number());
            number_fits(*guest);
        }
        Call::GuestRelease { freeze } => number_fits(*freeze),
        Call::Clock { reading } => long_number_fits(*reading),
        Call::Park { run } | Call::Resume { run } => number_fits(*run),
    }
}

fn answer_fits(answer: CallAnswer)
    ensures { AnswerFits answer }
{
    match answer {
        CallAnswer::Ccb(ccb) => number_fits(ccb.0),
        CallAnswer::Advised(ccb, advice) => {
            number_fits(ccb.0);
            number_fits(advice);
        }
        CallAnswer::Started { run, freeze } => {
            number_fits(run);
            number_fits(freeze);
        }
        CallAnswer::Freeze(number) | CallAnswer::Left(number) | CallAnswer::Removed(number) => {
            number_fits(number);
        }
        CallAnswer::Done | CallAnswer::Ok | CallAnswer::Refused(_) => {}
    }
}

fn stop_fits(stop: &StoppedAt)
    ensures { StopFits stop.now }
{
    match stop {
        StoppedAt::Trace(_, bytes) => bytes_fit(bytes.as_slice()),
        StoppedAt::Helper(_) | StoppedAt::Finish(_, _) | StoppedAt::Exit => {}
    }
}

fn class_fits(class: Option<u32>)
    ensures { ClassFits class }
{
    match class {
        Some(class) => number_fits(class),
        None => {}
    }
}

fn number_fits(number: u32)
    ensures { number < 2 ^ 32 }
{}

fn long_number_fits(number: u64)
    ensures { number < 2 ^ 64 }
{}

fn bytes_fit(bytes: &[u8])
    ensures { All (λ byte. byte < 256) bytes.now }
{}
