// How recorded calls are published: what the engine has beyond the shared history joins it. It relies on `monitor`, whose keeper adds
// records in one step, which the proof alone names.

ghost use Rattle.std.specs.Prelude.{◌≡◌, ◌++◌};
ghost use Rattle.monitor.specs.LegalHistory.{all_by, records};
ghost use Rattle.monitor.specs.Telling.{Joins};
ghost use Rattle.engine_lock.specs.Publishing.{beyond};

use crate::object::Object;
use engine_core::Engine;
use monitor::{CallerPart, Keeper, Monitor, Told};
use std::marker::Brand;
use std::sync::Wait;

/// The engine's records beyond those that the keeper knows were made by this caller, and the engine's sums are shown.
pub(crate) fn publish_beyond<B: Object, R: Wait>(
    rt: &R,
    monitor: &Monitor<B>,
    keeper: &mut Keeper<B>,
    part: &mut CallerPart<B>,
    engine: &Engine,
)
    requires setup { engine.now.setup ≡ B.setup }
    requires beyond { engine.now.history ≡ records keeper.old.history ++ beyond keeper.old.history engine.now.history }
    ensures history { keeper.new ≡ record keeper.old { history = keeper.old.history ++ all_by part.old.number (beyond keeper.old.history engine.now.history) } }
    ensures caller { Joins B.setup keeper.old.history part.old (beyond keeper.old.history engine.now.history) part.new }
{
    publish::<B, Brand, R>(rt, monitor, keeper, part, engine);
}

// The same of the records of that name.
fn publish<B: Object, S: Told, R: Wait>(
    rt: &R,
    monitor: &Monitor<B>,
    keeper: &mut Keeper<B>,
    part: &mut CallerPart<B>,
    engine: &Engine,
)
    requires setup { engine.now.setup ≡ B.setup }
    requires beyond { engine.now.history ≡ records keeper.old.history ++ S.told }
    ensures history { keeper.new ≡ record keeper.old { history = keeper.old.history ++ all_by part.old.number S.told } }
    ensures caller { Joins B.setup keeper.old.history part.old S.told part.new }
{
    let totals = engine.totals();
    keeper.publish::<S, R>(rt, monitor, part, totals);
}
