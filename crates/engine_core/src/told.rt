// What is recorded of a call that gives a value, or is refused. It relies on `world_calls` for records.

ghost use Rattle.std.specs.Prelude.{◌≡◌};
ghost use Rattle.world_calls.specs.declared.record.Record.TheVariants.{Called};
ghost use Rattle.world_calls.specs.declared.call_answer.CallAnswer.TheVariants as answers;
ghost use Rattle.world_calls.specs.Answered.{ccb_answer, removed_answer, start_answer, started_answer};
ghost use Rattle.engine_core.specs.ByNumber.{IsCalled, answer_told};

use ccb::{CallRefusal, CcbId};
use world_calls::{Call, CallAnswer, Record, Start, Version};

/// A call that is refused.
pub(crate) fn refused(refusal: CallRefusal, call: Call) -> Record
    ensures { result ≡ Called (answers.Refused refusal) call }
{
    let answer = CallAnswer::Refused(refusal);
    Record::Called { answer, call }
}

/// A submission.
pub(crate) fn ccb_told(answer: Result<CcbId, CallRefusal>, call: Call) -> Record
    ensures { result ≡ Called (ccb_answer answer) call }
{
    match answer {
        Ok(ccb) => {
            let answer = CallAnswer::Ccb(ccb);
            Record::Called { answer, call }
        }
        Err(refusal) => refused(refusal, call),
    }
}

/// A start. Its record reports the advice if the vocabulary has one.
pub(crate) fn start_told(version: Version, answer: Result<Start, CallRefusal>, call: Call) -> Record
    ensures { result ≡ Called (start_answer version answer) call }
{
    match answer {
        Ok(start) => {
            let answer = started(version, start);
            Record::Called { answer, call }
        }
        Err(refusal) => refused(refusal, call),
    }
}

// The answer to a start.
fn started(version: Version, start: Start) -> CallAnswer
    ensures { result ≡ started_answer version start }
{
    match version {
        Version::One => CallAnswer::Ccb(start.ccb),
        Version::Two => CallAnswer::Ccb(start.ccb),
        Version::Three => CallAnswer::Advised(start.ccb, start.advice),
    }
}

/// A clock reading.
pub(crate) fn removed_told(answer: Result<u32, CallRefusal>, call: Call) -> Record
    ensures { result ≡ Called (removed_answer answer) call }
{
    match answer {
        Ok(count) => {
            let answer = CallAnswer::Removed(count);
            Record::Called { answer, call }
        }
        Err(refusal) => refused(refusal, call),
    }
}

/// What a call was answered, of its record.
pub(crate) fn answer_in(told: Record) -> CallAnswer
    requires { IsCalled told }
    ensures { result ≡ answer_told told }
{
    match told {
        Record::Called { answer, call: _ } => answer,
        Record::Advance { .. } => unreachable!(),
    }
}
