// Whether the one record that an engine keeps is that of a trace. It relies on `engine_core` for records.

ghost use Rattle.std.specs.Prelude.{◌≡◌, ◌+◌, ◌↔◌, IsTrue, length};
ghost use Rattle.world_calls.specs.declared.call.Call.{Call};
ghost use Rattle.world_calls.specs.declared.record.Record.TheVariants.{Advance, Called};
ghost use Rattle.world_calls.specs.declared.record.StoppedAt.TheVariants as stopped;
ghost use Rattle.host_embedding.specs.Recovering.{KeepsJust};

use crate::engine_handle::EngineHandle;
use crate::text_lines::entry;
use engine_core::Engine;
use helpers::Helper;
use world_calls::{CallAnswer, Record, StoppedAt};

impl EngineHandle {
    /// Whether the engine keeps one record alone, that of a call with this answer.
    pub(crate) fn has_answered(&self, answer: CallAnswer) -> bool
        ensures { IsTrue result → (call : Call) × KeepsJust self.now (Called answer call) }
    {
        is_just_answered(&self.engine, answer)
    }

    /// Whether the engine keeps one record alone, that of an advance of this run by so many instructions, with this stop and this R0.
    pub(crate) fn has_advanced(
        &self,
        run: u32,
        instructions: u32,
        stop: &StoppedAt,
        r0: u64,
    ) -> bool
        ensures { IsTrue result → KeepsJust self.now (Advance run instructions stop.now r0) }
    {
        is_just_advanced(&self.engine, run, instructions, stop, r0)
    }
}

fn is_just_answered(engine: &Engine, answer: CallAnswer) -> bool
    ensures { IsTrue result → (call : Call) × KeepsJust engine.now (Called answer call) }
{
    keeps_one(engine) && is_answered(entry(engine, engine.taken()), answer)
}

fn is_just_advanced(engine: &Engine, run: u32, instructions: u32, stop: &StoppedAt, r0: u64) -> bool
    ensures { IsTrue result → KeepsJust engine.now (Advance run instructions stop.now r0) }
{
    keeps_one(engine) && is_advance_of(entry(engine, engine.taken()), run, instructions, stop, r0)
}

// Whether the engine keeps one record.
fn keeps_one(engine: &Engine) -> bool
    ensures { IsTrue result ↔ (length engine.now.history ≡ engine.now.taken + 1) }
{
    engine.recorded() - engine.taken() == 1
}

// Whether the record is that of a call with this answer.
fn is_answered(made: &Record, told: CallAnswer) -> bool
    ensures { IsTrue result → (call : Call) × (made.now ≡ Called told call) }
{
    match made {
        Record::Called { answer, .. } => *answer == told,
        Record::Advance { .. } => false,
    }
}

// Whether the record is that of an advance of this run by so many instructions, with this stop and this R0.
fn is_advance_of(made: &Record, run: u32, instructions: u32, stop: &StoppedAt, r0: u64) -> bool
    ensures { IsTrue result ↔ (made.now ≡ Advance run instructions stop.now r0) }
{
    match made {
        Record::Advance {
            run: its_run,
            instructions: its_instructions,
            stop: its_stop,
            r0: its_r0,
        } => {
            *its_run == run
                && *its_instructions == instructions
                && *its_r0 == r0
                && is_same_stop(its_stop, stop)
        }
        Record::Called { .. } => false,
    }
}

// Whether both are the same stop.
fn is_same_stop(made: &StoppedAt, told: &StoppedAt) -> bool
    ensures { IsTrue result ↔ (made.now ≡ told.now) }
{
    match told {
        StoppedAt::Helper(helper) => is_call_of(made, *helper),
        StoppedAt::Trace(helper, bytes) => is_trace_of(made, *helper, bytes.as_slice()),
        StoppedAt::Finish(helper, code) => is_finish_of(made, *helper, *code),
        StoppedAt::Exit => is_exit(made),
    }
}

fn is_call_of(made: &StoppedAt, helper: Helper) -> bool
    ensures { IsTrue result ↔ (made.now ≡ stopped.Helper helper) }
{
    match made {
        StoppedAt::Helper(its) => *its == helper,
        StoppedAt::Trace(_, _) | StoppedAt::Finish(_, _) | StoppedAt::Exit => false,
    }
}

fn is_trace_of(made: &StoppedAt, helper: Helper, bytes: &[u8]) -> bool
    ensures { IsTrue result ↔ (made.now ≡ stopped.Trace helper bytes.now) }
{
    match made {
        StoppedAt::Trace(its, those) => *its == helper && those.as_slice() == bytes,
        StoppedAt::Helper(_) | StoppedAt::Finish(_, _) | StoppedAt::Exit => false,
    }
}

fn is_finish_of(made: &StoppedAt, helper: Helper, code: u8) -> bool
    ensures { IsTrue result ↔ (made.now ≡ stopped.Finish helper code) }
{
    match made {
        StoppedAt::Finish(its, its_code) => *its == helper && *its_code == code,
        StoppedAt::Helper(_) | StoppedAt::Trace(_, _) | StoppedAt::Exit => false,
    }
}

fn is_exit(made: &StoppedAt) -> bool
    ensures { IsTrue result ↔ (made.now ≡ stopped.Exit) }
{
    match made {
        StoppedAt::Exit => true,
        StoppedAt::Helper(_) | StoppedAt::Trace(_, _) | StoppedAt::Finish(_, _) => false,
    }
}
