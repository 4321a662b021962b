// Whether what an engine leaves fits another configuration. It relies on `engine_core` for the engine and on `engine_transport` for what its
// queues and controllers have.

ghost use Rattle.std.specs.Prelude.{◌≡◌, ◌<◌, ◌≤◌, ◌↔◌, [], false, length, All, IsTrue};
ghost use Rattle.world.specs.Capacities.{most_ccbs, most_controllers};
ghost use Rattle.world.specs.Limits.{IsPlain};
ghost use Rattle.world.specs.World.{has_classes, queue_count};
ghost use Rattle.engine_carried.specs.Left.{ControllersAreFree, IsFree, QueuesAreFree, world_left};
ghost use Rattle.engine_carried.specs.TakenOver.{Fits};

use crate::carried_ccbs::ccb_at;
use crate::carried_numbers::live_count;
use ccb::{Ccb, QueueId};
use engine_config::Config;
use engine_core::{Engine, NumberedEngine};
use engine_transport::Transport;
use world::QueueInfo;

/// Returns whether an engine of this configuration may take over what the engine leaves, in which no run is live: each queue with a live
/// CCB or a freeze, and each controller with a freeze, is one of the configuration's; and if its CCBs have no class, none has a class or an
/// advice. It looks at each queue, each controller and each CCB at most once, and takes no memory.
pub fn fits(engine: &Engine, config: &Config) -> bool
    requires { engine.now.world.runs.list ≡ [] }
    ensures { IsTrue result ↔ Fits config.now engine.now.world }
{
    leaves_what_fits(engine.transport(), engine.config(), config)
}

/// Returns the same of an engine that keeps no history.
pub fn fits_numbered(engine: &NumberedEngine<'_>, config: &Config) -> bool
    requires { engine.now.runs.list ≡ [] }
    ensures { IsTrue result ↔ Fits config.now (world_left engine.now.transport engine.now.runs) }
{
    leaves_what_fits(engine.transport(), engine.config(), config)
}

// Returns whether nothing is left that the new configuration has no place for.
fn leaves_what_fits(transport: &Transport, old: &Config, new: &Config) -> bool
    requires openings { queue_count old.now ≡ length transport.now.openings }
    requires ccbs { length transport.now.live ≤ most_ccbs }
    ensures { IsTrue result ↔ ((QueuesAreFree transport.now (queue_count new.now) (queue_count old.now) × ControllersAreFree transport.now new.now.controllers old.now.controllers)
        × (has_classes new.now ≡ false → All IsPlain transport.now.live)) }
{
    are_others_free(transport, old, new) && have_fit_words(transport, new)
}

// Returns whether no CCB has a class or an advice, unless those of the new configuration have them.
fn have_fit_words(transport: &Transport, new: &Config) -> bool
    requires { length transport.now.live ≤ most_ccbs }
    ensures { IsTrue result ↔ (has_classes new.now ≡ false → All IsPlain transport.now.live) }
{
    if new.has_classes() {
        return true;
    }
    are_plain(transport)
}

// Returns whether no CCB has a class or an advice.
fn are_plain(transport: &Transport) -> bool
    requires { length transport.now.live ≤ most_ccbs }
    ensures { IsTrue result ↔ All IsPlain transport.now.live }
{
    for place in 0..live_count(transport) {
        if !has_no_words(ccb_at(transport, place).ccb()) {
            return false;
        }
    }
    true
}

// Returns whether the CCB has no class and no advice.
fn has_no_words(ccb: Ccb) -> bool
    ensures { IsTrue result ↔ ((ccb.class ≡ 0) × (ccb.advice ≡ 0)) }
{
    ccb.class == 0 && ccb.advice == 0
}

// Returns whether nothing is left of the queues and controllers that the old configuration has and the new one does not.
fn are_others_free(transport: &Transport, old: &Config, new: &Config) -> bool
    requires { queue_count old.now ≡ length transport.now.openings }
    ensures { IsTrue result ↔ (QueuesAreFree transport.now (queue_count new.now) (queue_count old.now) × ControllersAreFree transport.now new.now.controllers old.now.controllers) }
{
    are_queues_free(transport, new.queues(), old.queues())
        && are_controllers_free(transport, new.controllers(), old.controllers())
}

// Returns whether the queues from this number on, up to the last one that there is, have no freeze and no waiting or active CCB.
fn are_queues_free(transport: &Transport, from: u32, to: u32) -> bool
    requires { to ≡ length transport.now.openings }
    ensures { IsTrue result ↔ QueuesAreFree transport.now from to }
{
    for queue in from..to {
        if !is_free(transport, QueueId(queue)) {
            return false;
        }
    }
    true
}

// Returns the same of one queue.
fn is_free(transport: &Transport, queue: QueueId) -> bool
    requires { queue.0 < length transport.now.openings }
    ensures { IsTrue result ↔ IsFree transport.now queue.0 }
{
    has_nothing(transport.queue_info(queue))
}

fn has_nothing(info: QueueInfo) -> bool
    ensures { IsTrue result ↔ ((info.frozen ≡ 0) × (info.active ≡ 0) × (info.waiting ≡ 0)) }
{
    info.frozen == 0 && info.active == 0 && info.waiting == 0
}

// Returns whether the controllers from `from` on and below `to` have no freeze.
fn are_controllers_free(transport: &Transport, from: u32, to: u32) -> bool
    requires { to ≤ most_controllers }
    ensures { IsTrue result ↔ ControllersAreFree transport.now from to }
{
    for controller in from..to {
        if transport.controller_frozen(controller) > 0 {
            return false;
        }
    }
    true
}
