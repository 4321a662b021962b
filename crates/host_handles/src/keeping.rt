// An event is asked, and what is given or comes back is kept. It relies on `responder` for who is asked, and on `sorted` for the lists.

ghost use Rattle.std.specs.Prelude.{◌≡◌, ◌<◌, length, vec_capacity};
ghost use Rattle.engine_core.specs.Replies.{answer_of};
ghost use Rattle.host_handles.specs.Handles.{AreSorted, IsRepliedTo, KeepsGiven, KeepsReturned, handles};

use crate::held::HeldRun;
use crate::responder::Responder;
use crate::sorted::put;
use crate::unanswered::Unanswered;
use engine_core::{CallAnswer, Event, GuestToken, Reply, Returned, Success};

/// Asks what an event leads to, and keeps the run or the token that is given, or that comes back, for which there is room.
pub(crate) fn ask<A: Responder>(
    runs: &mut Vec<HeldRun>,
    tokens: &mut Vec<GuestToken>,
    asked: &mut A,
    event: Event<'_>,
) -> Result<CallAnswer, Unanswered>
    requires sorted { AreSorted runs.old.items tokens.old.items }
    requires runs { length runs.old.items < vec_capacity runs.old }
    requires tokens { length tokens.old.items < vec_capacity tokens.old }
    ensures replied { IsRepliedTo (λ event reply. A.answers asked.old event reply asked.new) event.entry (handles runs.old.items tokens.old.items) (handles runs.new.items tokens.new.items) result }
    ensures sorted { AreSorted runs.new.items tokens.new.items }
{
    match asked.answer(event) {
        Reply::Success(given) => {
            let answer = answer_of(&given);
            keep_given(runs, tokens, given);
            Ok(answer)
        }
        Reply::Refused(refusal) => Ok(CallAnswer::Refused(refusal)),
        Reply::NotAdmitted(back) => {
            keep_returned(runs, tokens, back);
            Err(Unanswered::NotAdmitted)
        }
        Reply::OutOfMemory(back) => {
            keep_returned(runs, tokens, back);
            Err(Unanswered::OutOfMemory)
        }
    }
}

// What a call is answered that is carried out. Whatever gives no number is `ok`.
fn answer_of(given: &Success) -> CallAnswer
    ensures { result ≡ answer_of given.now }
{
    match given {
        Success::Ccb(ccb) => CallAnswer::Ccb(*ccb),
        Success::Advised(start) => CallAnswer::Advised(start.ccb, start.advice),
        Success::Done => CallAnswer::Done,
        Success::Started(run, freeze) => CallAnswer::Started {
            run: run.number(),
            freeze: *freeze,
        },
        Success::Freeze(token) => CallAnswer::Freeze(token.number()),
        Success::Left(count) => CallAnswer::Left(*count),
        Success::Removed(count) => CallAnswer::Removed(*count),
        Success::Withdrawn
        | Success::Goes(_, _)
        | Success::Ended(_)
        | Success::Parked
        | Success::Resumed(_) => CallAnswer::Ok,
    }
}

// Keeps a run or a token that is given.
fn keep_given(runs: &mut Vec<HeldRun>, tokens: &mut Vec<GuestToken>, given: Success)
    requires sorted { AreSorted runs.old.items tokens.old.items }
    requires runs { length runs.old.items < vec_capacity runs.old }
    requires tokens { length tokens.old.items < vec_capacity tokens.old }
    ensures kept { KeepsGiven given (handles runs.old.items tokens.old.items) (handles runs.new.items tokens.new.items) }
    ensures sorted { AreSorted runs.new.items tokens.new.items }
{
    match given {
        Success::Started(run, _) | Success::Goes(run, _) | Success::Resumed(run) => {
            put(runs, HeldRun::new(run))
        }
        Success::Freeze(token) => put(tokens, GuestToken::new(token)),
        Success::Ccb(_)
        | Success::Advised(_)
        | Success::Done
        | Success::Withdrawn
        | Success::Ended(_)
        | Success::Left(_)
        | Success::Removed(_)
        | Success::Parked => {}
    }
}

// Keeps what comes back.
fn keep_returned(runs: &mut Vec<HeldRun>, tokens: &mut Vec<GuestToken>, back: Returned)
    requires sorted { AreSorted runs.old.items tokens.old.items }
    requires runs { length runs.old.items < vec_capacity runs.old }
    requires tokens { length tokens.old.items < vec_capacity tokens.old }
    ensures kept { KeepsReturned back (handles runs.old.items tokens.old.items) (handles runs.new.items tokens.new.items) }
    ensures sorted { AreSorted runs.new.items tokens.new.items }
{
    match back {
        Returned::Nothing => {}
        Returned::Run(run) => put(runs, HeldRun::new(run)),
        Returned::Token(token) => put(tokens, GuestToken::new(token)),
    }
}
