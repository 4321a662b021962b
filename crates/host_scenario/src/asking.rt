// A caller of a shared engine as one who answers events. It relies on `engine_lock` for the call.

ghost use Rattle.std.specs.Prelude.{◌≡◌};
ghost use Rattle.engine_lock.specs.Sharing.{Section};

use engine_core::{Event, Reply};
use engine_lock::{Caller, Object, Shared};
use host_handles::Responder;
use std::sync::Wait;

/// The engine, by one of its callers.
#[derive(Drop)]
pub(crate) struct Asked<'a, B: Object, R: Wait> {
    pub(crate) rt: &'a R,
    pub(crate) shared: &'a Shared<B>,
    pub(crate) caller: &'a mut Caller<B>,
}

impl<B: Object, R: Wait> Responder for Asked<'_, B, R> {
    ghost answers = { λ old event reply new. Section B.setup event reply old.caller.now new.caller.now × (new.caller.ghost_name ≡ old.caller.ghost_name) };

    fn answer(&mut self, event: Event<'_>) -> Reply {
        self.shared.call(self.rt, self.caller, event)
    }
}
