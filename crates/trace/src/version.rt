// What a version's texts begin with, and which records they may have. It relies on `world_calls` for records, on `trace_lines` for what has
// classes, and on `helpers` for which helpers there are.

ghost use Rattle.std.specs.Prelude.{◌≡◌};
ghost use Rattle.trace.specs.TraceText.{header};
ghost use Rattle.trace.specs.Versions.{helpers_of, is_answer_of, is_call_of, is_class_of, is_helper_of, is_later_refusal, is_of, is_since, is_start_of, is_stop_of, is_told_of, is_unknown, number_of, since};

use ccb::Place;
use helpers::{Helper, HelperSet};
use trace_lines::has_classes;
use world_calls::{Call, CallAnswer, CallRefusal, Record, StoppedAt, Version};

/// The first line, with its line feed.
pub fn header(version: Version) -> &'static str
    ensures { result.now ≡ header version }
{
    match version {
        Version::One => "camr-trace 1\n",
        Version::Two => "camr-trace 2\n",
        Version::Three => "camr-trace 3\n",
    }
}

/// Whether a text of the version may have the record.
pub(crate) fn is_of(version: Version, entry: &Record) -> bool
    ensures { result ≡ is_of version entry.now }
{
    match entry {
        Record::Called { answer, call } => {
            is_call_of(version, call)
                && is_told_of(version, call, *answer)
                && is_answer_of(version, call, *answer)
        }
        Record::Advance { stop, .. } => is_stop_of(version, stop),
    }
}

// Whether a submission says a class exactly where CCBs have one.
fn is_call_of(version: Version, call: &Call) -> bool
    ensures { result ≡ is_call_of version call.now }
{
    match call {
        Call::Submit { class, .. } => is_class_of(version, *class),
        _ => true,
    }
}

fn is_class_of(version: Version, class: Option<u32>) -> bool
    ensures { result ≡ is_class_of version class }
{
    if has_classes(version) {
        class.is_some()
    } else {
        class.is_none()
    }
}

// Whether a start reports an advice exactly where CCBs have one.
fn is_told_of(version: Version, call: &Call, answer: CallAnswer) -> bool
    ensures { result ≡ is_told_of version call.now answer }
{
    match call {
        Call::Dispatch { .. } => is_start_of(version, answer),
        _ => true,
    }
}

fn is_start_of(version: Version, answer: CallAnswer) -> bool
    ensures { result ≡ is_start_of version answer }
{
    match answer {
        CallAnswer::Ccb(_) => !has_classes(version),
        CallAnswer::Advised(_, _) => has_classes(version),
        _ => true,
    }
}

// Whether what the call names is not there, or may be there, and the call was not refused for a reason that the version does not have.
fn is_answer_of(version: Version, call: &Call, answer: CallAnswer) -> bool
    ensures { result ≡ is_answer_of version call.now answer }
{
    if is_since(version, call) {
        !is_later_refusal(version, answer)
    } else {
        is_unknown(answer)
    }
}

// Whether what the call names may be there.
fn is_since(version: Version, call: &Call) -> bool
    ensures { result ≡ is_since version call.now }
{
    since(call) <= number_of(version)
}

// The first version in which what the call names may be there.
fn since(call: &Call) -> u8
    ensures { result ≡ since call.now }
{
    match call {
        Call::GuestFreeze { place, .. } => match place {
            Place::Device(_) => 1,
            Place::Controller(_) => 2,
        },
        Call::Withdraw { .. } => 3,
        _ => 1,
    }
}

fn number_of(version: Version) -> u8
    ensures { result ≡ number_of version }
{
    match version {
        Version::One => 1,
        Version::Two => 2,
        Version::Three => 3,
    }
}

// Whether it was refused, since what it names is not there.
fn is_unknown(answer: CallAnswer) -> bool
    ensures { result ≡ is_unknown answer }
{
    matches!(answer, CallAnswer::Refused(CallRefusal::Unknown))
}

// Whether it was refused for a reason that the version does not have.
fn is_later_refusal(version: Version, answer: CallAnswer) -> bool
    ensures { result ≡ is_later_refusal version answer }
{
    match answer {
        CallAnswer::Refused(refusal) => refusal.row().since > number_of(version),
        _ => false,
    }
}

// Whether the helper is one of those that there are.
fn is_helper_of(version: Version, helper: Helper) -> bool
    ensures { result ≡ is_helper_of version helper }
{
    helpers_of(version).has(helper)
}

fn helpers_of(version: Version) -> HelperSet
    ensures { result ≡ helpers_of version }
{
    match version {
        Version::One => HelperSet::Queues,
        Version::Two => HelperSet::Controllers,
        Version::Three => HelperSet::Classes,
    }
}

fn is_stop_of(version: Version, stop: &StoppedAt) -> bool
    ensures { result ≡ is_stop_of version stop.now }
{
    match stop {
        StoppedAt::Helper(helper) => is_helper_of(version, *helper),
        StoppedAt::Trace(helper, _) => is_helper_of(version, *helper),
        StoppedAt::Finish(helper, _) => is_helper_of(version, *helper),
        StoppedAt::Exit => true,
    }
}
