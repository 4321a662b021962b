// The end of a shared engine: all its callers come back, and it is one thread's again. It relies on callers being linear, so
// that as many as were given out are all that were given out.

ghost use Rattle.std.specs.Prelude.{◌≡◌, length, IsOk, IfOk, IfErr};
ghost use Rattle.engine_lock.specs.Sharing.{Closes};
ghost use Rattle.engine_lock.specs.declared.fault.LockFault.TheVariants.{CallerMissing};
ghost use Rattle.engine_lock.specs.declared.object.TheConstants.{MAX_CALLERS};

use crate::caller::Caller;
use crate::fault::LockFault;
use crate::object::Object;
use crate::shared::Shared;
use engine_core::Engine;
use std::sync::{Mutex, Wait};

/// A shared engine that was not closed, with why, and with the callers that were handed in.
pub struct Unclosed<B: Object> {
    pub fault: LockFault,
    pub shared: Shared<B>,
    pub callers: Vec<Caller<B>>,
}

impl<B: Object> Unclosed<B> {
    /// Spends all that came back, and lets the engine go.
    pub fn forfeit(self) {
        let Unclosed {
            fault: _,
            shared: _,
            mut callers,
        } = self;
        while let Some(caller) = callers.pop() {
            caller.forfeit();
        }
        callers.destroy_empty();
    }
}

impl<B: Object> Shared<B> {
    /// Ends the sharing, with all callers, in any order: the engine, whose history has as many records beyond those with
    /// which it began as these callers had recorded calls, and begins with what each of them had seen and was told of. It may wait
    /// for those that read the monitor.
    ///
    /// L2 where a caller that was given out is not among them. Then all comes back, and is good for further calls. Only the lock
    /// knows how many were given out (`Locked::close`); with 64 none is missing.
    pub fn close<R: Wait>(self, rt: &R, callers: Vec<Caller<B>>) -> Result<Engine, Unclosed<B>>
        ensures closed { IfOk result (Closes B.setup B.begun callers.items) }
        ensures all { length callers.items ≡ MAX_CALLERS → IsOk result }
        ensures unclosed { IfErr result (λ back. (back.fault ≡ CallerMissing) × (back.callers.items ≡ callers.items)) }
    {
        let Shared {
            lock,
            programs,
            monitor,
        } = self;
        match lock.into_inner().close(rt, &monitor, callers) {
            Ok(engine) => Ok(engine),
            Err((locked, callers)) => Err(Unclosed {
                fault: LockFault::CallerMissing,
                shared: Shared {
                    lock: Mutex::new(locked),
                    programs,
                    monitor,
                },
                callers,
            }),
        }
    }
}
