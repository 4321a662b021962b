// The events that are about freezes and the clock. It relies on `engine_transport` for both.

ghost use Rattle.std.specs.Prelude.{◌≡◌, Contains, true};
ghost use Rattle.engine_runs.specs.RunsState.{RunsState};
ghost use Rattle.world.specs.World.{Setup};
ghost use Rattle.world.specs.FreezeSteps.{is_guest};
ghost use Rattle.world_calls.specs.declared.call.Call.TheVariants as calls;
ghost use Rattle.world_calls.specs.declared.call_answer.CallAnswer.TheVariants as answers;
ghost use Rattle.world_calls.specs.declared.record.Record.TheVariants.{Called};
ghost use Rattle.world_calls.specs.Answered.{removed_answer};
ghost use Rattle.engine_core.specs.declared.event.Event.TheVariants.{Clock, GuestFreeze, GuestRelease};
ghost use Rattle.engine_core.specs.declared.reply.Success.TheVariants as given;
ghost use Rattle.engine_core.specs.declared.reply.Reply.TheVariants.{Success};
ghost use Rattle.engine_core.specs.Performing.{Performs};
ghost use Rattle.engine_core.specs.Replies.{removed_reply, token_answer, token_reply};

use crate::setting::Setting;
use crate::told::{refused, removed_told};
use ccb::{CallRefusal, Place};
use engine_transport::Transport;
use freeze_ledger::FreezeToken;
use world_calls::{Call, CallAnswer, Record};

/// A guest has a freeze more of the place, or C1, or C2.
#[inline(always)]
pub(crate) fn guest_freeze(
    setting: &Setting<'_>,
    transport: &mut Transport,
    place: Place,
    guest: u32,
) -> (Result<FreezeToken, CallRefusal>, Record)
    ensures told { result.1 ≡ Called (token_answer result.0) (calls.GuestFreeze place guest) }
    ensures performs { (runs : RunsState) → Performs setting.now (GuestFreeze place guest) transport.old runs transport.new runs (token_reply result.0) result.1 }
{
    let call = Call::GuestFreeze { place, guest };
    match transport.guest_freeze(place, setting.controllers(), guest) {
        Ok(token) => {
            let answer = CallAnswer::Freeze(token.number());
            (Ok(token), Record::Called { answer, call })
        }
        Err(refusal) => (Err(refusal), refused(refusal, call)),
    }
}

/// A guest's freeze is given back: how many its place has then.
#[inline(always)]
pub(crate) fn guest_release(transport: &mut Transport, token: FreezeToken) -> (u32, Record)
    requires { Contains transport.old.freezes token × (is_guest token.holder ≡ true) }
    ensures told { result.1 ≡ Called (answers.Left result.0) (calls.GuestRelease token.number) }
    ensures performs { (setup : Setup) (runs : RunsState) → Performs setup (GuestRelease token) transport.old runs transport.new runs (Success (given.Left result.0)) result.1 }
{
    let call = Call::GuestRelease {
        freeze: token.number(),
    };
    let count = transport.guest_release(token);
    let answer = CallAnswer::Left(count);
    (count, Record::Called { answer, call })
}

/// The freezes go whose timers are due, or C2, or C5.
#[inline(always)]
pub(crate) fn read_clock(
    transport: &mut Transport,
    reading: u64,
) -> (Result<u32, CallRefusal>, Record)
    ensures told { result.1 ≡ Called (removed_answer result.0) (calls.Clock reading) }
    ensures performs { (setup : Setup) (runs : RunsState) → Performs setup (Clock reading) transport.old runs transport.new runs (removed_reply result.0) result.1 }
{
    let answer = transport.read_clock(reading);
    let told = removed_told(answer, Call::Clock { reading });
    (answer, told)
}
