// What is compared before the lock is taken: a run's program with that of the queue for which it was started. It relies on
// `engine_core` for runs, which name their queue as a hint.

ghost use Rattle.std.specs.Prelude.{◌≡◌, IfSome};
ghost use Rattle.world.specs.World.{Setup, queue_setup};
ghost use Rattle.engine_config.specs.Configured.{AreProgramsOf};
ghost use Rattle.engine_core.specs.Replies.{IsOfKnown};

use bpf_accepted::Accepted;
use ccb::QueueId;
use engine_core::{Event, Stopped};
use std::sync::Arc;

/// The queue that the run of an advance names, where these are the queues' programs and it has that queue's instructions.
pub(crate) fn known_queue(programs: &[Arc<Accepted>], event: &Event<'_>) -> Option<QueueId>
    ensures { (setup : Setup) → AreProgramsOf setup programs.now → IsOfKnown setup event.now result }
{
    match event {
        Event::Advance { run } => queue_of(programs, run),
        _ => None,
    }
}

// The same of the run alone.
fn queue_of(programs: &[Arc<Accepted>], run: &Stopped) -> Option<QueueId>
    ensures { (setup : Setup) → AreProgramsOf setup programs.now →
        IfSome result (λ queue. run.now.segment.program.program ≡ (queue_setup setup queue.0).program) }
{
    let queue = run.queue();
    let place = queue.0 as usize;
    if place >= programs.len() {
        return None;
    }
    if run.is_of(&programs[place]) {
        Some(queue)
    } else {
        None
    }
}
