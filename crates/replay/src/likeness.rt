// Whether what an engine told is what a record tells, part by part. It relies on `world_calls` for records.

ghost use Rattle.std.specs.Prelude.{◌≡◌, ◌↔◌, IsTrue};
ghost use Rattle.world_calls.specs.declared.record.Record.TheVariants.{Advance};
ghost use Rattle.world_calls.specs.declared.record.StoppedAt.TheVariants as stopped;

use helpers::Helper;
use world_calls::{CallAnswer, Record, StoppedAt, Totals, Version};

/// Whether both are the same version.
pub(crate) fn is_same_version(told: Version, its: Version) -> bool
    ensures { IsTrue result ↔ (told ≡ its) }
{
    told == its
}

/// Whether both are the same answer.
pub(crate) fn is_same_answer(made: CallAnswer, told: CallAnswer) -> bool
    ensures { IsTrue result ↔ (made ≡ told) }
{
    made == told
}

/// Whether both are the same sums.
pub(crate) fn is_same_totals(made: Totals, told: Totals) -> bool
    ensures { IsTrue result ↔ (made ≡ told) }
{
    made == told
}

/// Whether the record is of an advance of this run by so many instructions, with this stop and this R0.
pub(crate) fn is_advance_of(
    made: &Record,
    run: u32,
    instructions: u32,
    stop: &StoppedAt,
    r0: u64,
) -> bool
    ensures { IsTrue result ↔ (made.now ≡ Advance run instructions stop.now r0) }
{
    match made {
        Record::Advance {
            run: its_run,
            instructions: its_instructions,
            stop: its_stop,
            r0: its_r0,
        } => {
            *its_run == run
                && *its_instructions == instructions
                && *its_r0 == r0
                && is_same_stop(its_stop, stop)
        }
        Record::Called { .. } => false,
    }
}

// Whether both tell the same stop.
fn is_same_stop(made: &StoppedAt, told: &StoppedAt) -> bool
    ensures { IsTrue result ↔ (made.now ≡ told.now) }
{
    match told {
        StoppedAt::Helper(helper) => is_call_of(made, *helper),
        StoppedAt::Trace(helper, bytes) => is_trace_of(made, *helper, bytes.as_slice()),
        StoppedAt::Finish(helper, code) => is_finish_of(made, *helper, *code),
        StoppedAt::Exit => is_exit(made),
    }
}

fn is_call_of(made: &StoppedAt, helper: Helper) -> bool
    ensures { IsTrue result ↔ (made.now ≡ stopped.Helper helper) }
{
    match made {
        StoppedAt::Helper(its) => *its == helper,
        StoppedAt::Trace(_, _) | StoppedAt::Finish(_, _) | StoppedAt::Exit => false,
    }
}

fn is_trace_of(made: &StoppedAt, helper: Helper, bytes: &[u8]) -> bool
    ensures { IsTrue result ↔ (made.now ≡ stopped.Trace helper bytes.now) }
{
    match made {
        StoppedAt::Trace(its, those) => *its == helper && those.as_slice() == bytes,
        StoppedAt::Helper(_) | StoppedAt::Finish(_, _) | StoppedAt::Exit => false,
    }
}

fn is_finish_of(made: &StoppedAt, helper: Helper, code: u8) -> bool
    ensures { IsTrue result ↔ (made.now ≡ stopped.Finish helper code) }
{
    match made {
        StoppedAt::Finish(its, its_code) => *its == helper && *its_code == code,
        StoppedAt::Helper(_) | StoppedAt::Trace(_, _) | StoppedAt::Exit => false,
    }
}

fn is_exit(made: &StoppedAt) -> bool
    ensures { IsTrue result ↔ (made.now ≡ stopped.Exit) }
{
    match made {
        StoppedAt::Exit => true,
        StoppedAt::Helper(_) | StoppedAt::Trace(_, _) | StoppedAt::Finish(_, _) => false,
    }
}
