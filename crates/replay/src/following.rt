// Whether a record follows from those that led to an engine: the engine carries out what the record asks, and has to tell the same. It
// relies on `engine_core` for the engine, and on `likeness` for whether an advance is the same.

ghost use Rattle.std.specs.Prelude.{◌≡◌, IfOk};
ghost use Rattle.world_calls.specs.declared.record.Record.TheVariants.{Called, Advance};
ghost use Rattle.replay.specs.Replaying.{FollowsIf};

use crate::likeness::{is_advance_of, is_same_answer};
use engine_core::NumberedEngine;
use std::alloc::AllocError;
use world_calls::{Call, CallAnswer, Record, StoppedAt};

/// Whether the record follows, and then it has led to the engine too. Where it does not, the engine means nothing any more.
pub fn follows(engine: &mut NumberedEngine<'_>, told: &Record) -> Result<bool, AllocError>
    ensures follows { IfOk result (λ yes. FollowsIf yes engine.old told.now engine.new) }
    ensures setup { engine.new.setup ≡ engine.old.setup }
{
    match told {
        Record::Called { answer, call } => follows_call(engine, *answer, call),
        Record::Advance {
            run,
            instructions,
            stop,
            r0,
        } => follows_advance(engine, *run, *instructions, stop, *r0),
    }
}

fn follows_call(
    engine: &mut NumberedEngine<'_>,
    told: CallAnswer,
    call: &Call,
) -> Result<bool, AllocError>
    ensures follows { IfOk result (λ yes. FollowsIf yes engine.old (Called told call.now) engine.new) }
    ensures setup { engine.new.setup ≡ engine.old.setup }
{
    match engine.call(call)? {
        Some(answer) => Ok(is_same_answer(answer, told)),
        None => Ok(false),
    }
}

fn follows_advance(
    engine: &mut NumberedEngine<'_>,
    run: u32,
    instructions: u32,
    stop: &StoppedAt,
    r0: u64,
) -> Result<bool, AllocError>
    ensures follows { IfOk result (λ yes. FollowsIf yes engine.old (Advance run instructions stop.now r0) engine.new) }
    ensures setup { engine.new.setup ≡ engine.old.setup }
{
    match engine.advance(run)? {
        Some(made) => Ok(is_advance_of(&made, run, instructions, stop, r0)),
        None => Ok(false),
    }
}
