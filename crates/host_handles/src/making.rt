// A call is made, and a run goes on: the event that is asked takes along what it names. It relies on `keeping` for what is kept then.

ghost use Rattle.std.specs.Prelude.{◌≡◌, ◌<◌, Err, MatchResult, Ok, length, vec_capacity};
ghost use Rattle.world_calls.specs.declared.call_answer.CallAnswer.{CallAnswer};
ghost use Rattle.world.specs.World.{class_in};
ghost use Rattle.host_handles.specs.Handles.{AreSorted, HasNoRun, IsAdvanceOf, IsOfCall, IsSettled, IsUnheld, handles};

use crate::held::HeldRun;
use crate::keeping::ask;
use crate::responder::Responder;
use crate::sorted::take;
use crate::unanswered::Unanswered;
use engine_core::{Call, CallAnswer, Event, GuestToken};

/// Asks what a call leads to, with the run or the token that it names, and keeps what is given or comes back. There is room for that.
pub(crate) fn make<A: Responder>(
    runs: &mut Vec<HeldRun>,
    tokens: &mut Vec<GuestToken>,
    asked: &mut A,
    call: &Call,
) -> Result<CallAnswer, Unanswered>
    requires sorted { AreSorted runs.old.items tokens.old.items }
    requires runs { length runs.old.items < vec_capacity runs.old }
    requires tokens { length tokens.old.items < vec_capacity tokens.old }
    ensures settled { IsSettled (λ event reply. A.answers asked.old event reply asked.new) (IsOfCall call.now) (IsUnheld call.now (handles runs.old.items tokens.old.items)) (asked.new ≡ asked.old) (handles runs.old.items tokens.old.items) (handles runs.new.items tokens.new.items) result }
    ensures sorted { AreSorted runs.new.items tokens.new.items }
{
    match call {
        Call::Submit {
            queue,
            priority,
            retries,
            class,
        } => ask(
            runs,
            tokens,
            asked,
            Event::Submit {
                queue: *queue,
                priority: *priority,
                retries: *retries,
                class: class_in(*class),
            },
        ),
        Call::Dispatch { queue } => ask(runs, tokens, asked, Event::Dispatch { queue: *queue }),
        Call::Complete { completion } => match completion.completion() {
            Some(completion) => ask(
                runs,
                tokens,
                asked,
                Event::Complete {
                    completion: &completion,
                },
            ),
            None => Err(Unanswered::NotHeld),
        },
        Call::Withdraw { ccb } => ask(runs, tokens, asked, Event::Withdraw { ccb: *ccb }),
        Call::GuestFreeze { place, guest } => ask(
            runs,
            tokens,
            asked,
            Event::GuestFreeze {
                place: *place,
                guest: *guest,
            },
        ),
        Call::GuestRelease { freeze } => match take(tokens, *freeze) {
            Some(held) => ask(
                runs,
                tokens,
                asked,
                Event::GuestRelease {
                    token: held.into_token(),
                },
            ),
            None => Err(Unanswered::NotHeld),
        },
        Call::Clock { reading } => ask(runs, tokens, asked, Event::Clock { reading: *reading }),
        Call::Park { run } => match take(runs, *run) {
            Some(held) => ask(
                runs,
                tokens,
                asked,
                Event::Park {
                    run: held.into_run(),
                },
            ),
            None => Err(Unanswered::NotHeld),
        },
        Call::Resume { run } => ask(runs, tokens, asked, Event::Resume { run: *run }),
    }
}

/// Lets the run of that number go on to its next stop, asks what that leads to, and keeps the run that is given or comes back. There is
/// room for that.
pub(crate) fn advance<A: Responder>(
    runs: &mut Vec<HeldRun>,
    tokens: &mut Vec<GuestToken>,
    asked: &mut A,
    run: u32,
) -> Result<(), Unanswered>
    requires sorted { AreSorted runs.old.items tokens.old.items }
    requires runs { length runs.old.items < vec_capacity runs.old }
    requires tokens { length tokens.old.items < vec_capacity tokens.old }
    ensures settled { MatchResult result
        (λ _. (answer : CallAnswer) × IsSettled (λ event reply. A.answers asked.old event reply asked.new) (IsAdvanceOf run) (HasNoRun run (handles runs.old.items tokens.old.items)) (asked.new ≡ asked.old) (handles runs.old.items tokens.old.items) (handles runs.new.items tokens.new.items) (Ok answer))
        (λ fault. IsSettled (λ event reply. A.answers asked.old event reply asked.new) (IsAdvanceOf run) (HasNoRun run (handles runs.old.items tokens.old.items)) (asked.new ≡ asked.old) (handles runs.old.items tokens.old.items) (handles runs.new.items tokens.new.items) (Err fault)) }
    ensures sorted { AreSorted runs.new.items tokens.new.items }
{
    let Some(held) = take(runs, run) else {
        return Err(Unanswered::NotHeld);
    };
    let run = held.into_run().to_stop();
    match ask(runs, tokens, asked, Event::Advance { run }) {
        Ok(_) => Ok(()),
        Err(fault) => Err(fault),
    }
}

// The class that a submission asks for: 0 if it says none.
fn class_in(class: Option<u32>) -> u32
    ensures { result ≡ class_in class }
{
    match class {
        Some(class) => class,
        None => 0,
    }
}
