// The freezes of a transport in the order of their numbers, one after the other: the transport lists them by place alone. It relies on
// `engine_transport` for the freezes of a place.

ghost use Rattle.std.specs.Prelude.{◌≡◌, false};
ghost use Rattle.world.specs.Refusals.{is_unknown};
ghost use Rattle.world.specs.World.{queue_count};
ghost use Rattle.engine_carried.specs.FreezeAbove.{controllers_above, freeze_above, holder_above, lesser, place_above, queues_above};
ghost use Rattle.engine_carried.specs.Left.{IsLeft};

use ccb::{Place, QueueId};
use engine_config::Config;
use engine_transport::Transport;
use freeze_ledger::{Freeze, Holders};

/// Returns the freeze with the least number above this one, and `None` if no freeze has a greater number. It looks at each place and each
/// freeze of the transport at most once.
pub(crate) fn freeze_above(transport: &Transport, config: &Config, after: u32) -> Option<Freeze>
    requires { IsLeft config.now transport.now }
    ensures { result ≡ freeze_above after transport.now.freezes }
{
    lesser(
        queues_above(transport, config, after),
        controllers_above(transport, config, after),
    )
}

// Returns the same of the freezes of queues.
fn queues_above(transport: &Transport, config: &Config, after: u32) -> Option<Freeze>
    requires { IsLeft config.now transport.now }
    ensures { result ≡ queues_above (queue_count config.now) after transport.now.freezes }
{
    let mut least = None;
    for queue in 0..config.queues() {
        let place = Place::Device(QueueId(queue));
        least = lesser(least, place_above(transport, config, place, after));
    }
    least
}

// Returns the same of the freezes of controllers.
fn controllers_above(transport: &Transport, config: &Config, after: u32) -> Option<Freeze>
    requires { IsLeft config.now transport.now }
    ensures { result ≡ controllers_above config.now.controllers after transport.now.freezes }
{
    let mut least = None;
    for controller in 0..config.controllers() {
        let place = Place::Controller(controller);
        least = lesser(least, place_above(transport, config, place, after));
    }
    least
}

// Returns the same of the freezes of one place that there is.
fn place_above(transport: &Transport, config: &Config, place: Place, after: u32) -> Option<Freeze>
    requires left { IsLeft config.now transport.now }
    requires there { is_unknown config.now place ≡ false }
    ensures { result ≡ place_above place after transport.now.freezes }
{
    match transport.holders(place, config.controllers()) {
        Some(holders) => holder_above(holders, place, after),
        None => unreachable!(),
    }
}

// Returns the same of the holders of one place's freezes, in the order of their numbers.
fn holder_above(holders: Holders<'_>, place: Place, after: u32) -> Option<Freeze>
    ensures { result ≡ holder_above place after holders.entry }
{
    for (number, holder) in holders {
        if after < number {
            return Some(Freeze {
                number,
                place,
                holder,
            });
        }
    }
    None
}

// Returns the one of the two that has the lesser number.
fn lesser(one: Option<Freeze>, other: Option<Freeze>) -> Option<Freeze>
    ensures { result ≡ lesser one other }
{
    match (one, other) {
        (None, other) => other,
        (Some(one), None) => Some(one),
        (Some(one), Some(other)) => Some(if one.number <= other.number {
            one
        } else {
            other
        }),
    }
}
