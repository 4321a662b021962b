// How many openings the queues of another configuration have. It relies on `engine_transport` for what they have at present, and on
// `engine_config` for what they are opened with.

ghost use Rattle.std.specs.Prelude.{◌≡◌, ◌<◌, ◌++◌, length, map, OnOk};
ghost use Rattle.std.specs.List.{range_with_len};
ghost use Rattle.world.specs.World.{queue_count};
ghost use Rattle.engine_beginning.specs.Lines.{openings_from};
ghost use Rattle.engine_carried.specs.TakenOver.{openings_over};

use crate::added::add;
use ccb::QueueId;
use engine_config::Config;
use engine_transport::Transport;
use std::alloc::AllocError;
use world_calls::CarriedLine;

/// Adds a line for each queue of the new configuration.
pub(crate) fn add_openings(
    lines: &mut Vec<CarriedLine>,
    transport: &Transport,
    old: &Config,
    new: &Config,
) -> Result<(), AllocError>
    requires { queue_count old.now ≡ length transport.now.openings }
    ensures { OnOk result (lines.new.items ≡ lines.old.items ++ openings_from 0 (map (openings_over old.now new.now transport.now.openings) (range_with_len 0 (queue_count new.now)))) }
{
    for queue in 0..new.queues() {
        let openings = openings_over(transport, old, new, queue);
        add(lines, CarriedLine::Openings { queue, openings })?;
    }
    Ok(())
}

// Returns the openings of a queue: it keeps its present ones if both configurations give it the same number of openings, and has that of
// the new one otherwise.
fn openings_over(transport: &Transport, old: &Config, new: &Config, queue: u32) -> u32
    requires known { queue_count old.now ≡ length transport.now.openings }
    requires there { queue < queue_count new.now }
    ensures { result ≡ openings_over old.now new.now transport.now.openings queue }
{
    let own = new.openings(queue);
    if queue < old.queues() && old.openings(queue) == own {
        transport.queue_info(QueueId(queue)).openings
    } else {
        u32::from(own)
    }
}
