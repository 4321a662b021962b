// The engine that threads share. It relies on `locked` for what a section under the lock does, on `comparing` for what is done before
// one, and on `monitor` for the sums beside the lock.

ghost use Rattle.std.specs.Prelude.{◌≡◌, ◌≤◌, [], IfOk, IfErr};
ghost use Rattle.engine_config.specs.Configured.{AreProgramsOf};
ghost use Rattle.monitor.specs.LegalHistory.{LegalHistory};
ghost use Rattle.engine_lock.specs.Driving.{Drives, DrivesOnce};
ghost use Rattle.engine_lock.specs.Sharing.{IsNewCaller, IsNewWatch, Section};
ghost use Rattle.engine_lock.specs.declared.fault.LockFault.TheVariants.{TooManyCallers};
ghost use Rattle.engine_lock.specs.declared.object.TheConstants.{MAX_CALLERS};

use crate::caller::Caller;
use crate::comparing::known_queue;
use crate::fault::LockFault;
use crate::locked::Locked;
use crate::object::Object;
use bpf_accepted::Accepted;
use engine_core::{DriveFault, Event, Reply, Run};
use monitor::{Monitor, Watch};
use std::sync::{Arc, Mutex, Wait};

/// An engine that threads share by reference. Its type bears which engine it is. It may be let go; its callers are good for
/// nothing then.
#[derive(Drop)]
pub struct Shared<B: Object> {
    pub(crate) lock: Mutex<Locked<B>>,
    // those of the setup's queues, in the order of their numbers
    pub(crate) programs: Vec<Arc<Accepted>>,
    pub(crate) monitor: Monitor<B>,
    ghost its: { AreProgramsOf B.setup programs.items },
}

/// What is done inside a call's section, after its record was published. A test holds a call up in it.
pub trait Pause {
    /// The call's record stands in the shared history, and the lock is held.
    fn inside<R: Wait>(&self, rt: &R);
}

// Holds nobody up.
struct NoPause;

impl Pause for NoPause {
    fn inside<R: Wait>(&self, _rt: &R) {}
}

impl<B: Object> Shared<B> {
    /// A caller more, of which no call is recorded, with a number from 1 to 64. L1 where 64 were given out. It takes no memory, and
    /// may wait for other callers.
    pub fn caller<R: Wait>(&self, rt: &R) -> Result<Caller<B>, LockFault>
        ensures given { IfOk result (IsNewCaller B.setup B.begun) }
        ensures number { IfOk result (λ caller. (1 ≤ caller.number) × (caller.number ≤ MAX_CALLERS)) }
        ensures full { IfErr result (λ fault. fault ≡ TooManyCallers) }
    {
        let mut guard = self.lock.lock(rt);
        let locked = &mut *guard;
        locked.caller(&self.monitor)
    }

    /// The sums of the engine, which are read without its lock.
    pub fn monitor(&self) -> &Monitor<B> {
        &self.monitor
    }

    /// A watch, which has seen the history so far. It takes no memory, and may wait for callers.
    pub fn watch<R: Wait>(&self, rt: &R) -> Watch<B>
        ensures { IsNewWatch B.setup B.begun result }
    {
        let mut guard = self.lock.lock(rt);
        let locked = &mut *guard;
        locked.watch(rt, &self.monitor)
    }

    /// Answers an event, as the engine answers it at some moment of the call: one section under the lock. What it owned comes
    /// back where it is not carried out. It may wait for other callers. The program of a run that goes on is compared before
    /// the lock is taken.
    ///
    /// Where it is recorded the caller has seen a legal history that ends with its record: one that begins with all that the
    /// caller had seen and was told of, and has of this caller's records just those that its calls made, in its order. After C4
    /// or C6 it has seen one in whose last world that is so. Where memory was refused nothing changed.
    pub fn call<R: Wait>(&self, rt: &R, caller: &mut Caller<B>, event: Event<'_>) -> Reply
        ensures { Section B.setup event.entry result caller.old caller.new }
    {
        self.call_held(rt, caller, event, &NoPause)
    }

    /// The same, with a pause at the end of its section, which the lock's other callers wait for. Others may read the monitor
    /// meanwhile.
    pub fn call_held<P: Pause, R: Wait>(
        &self,
        rt: &R,
        caller: &mut Caller<B>,
        event: Event<'_>,
        pause: &P,
    ) -> Reply
        ensures { Section B.setup event.entry result caller.old caller.new }
    {
        let known = known_queue(&self.programs, &event);
        let mut guard = self.lock.lock(rt);
        let locked = &mut *guard;
        let reply = locked.call(rt, &self.monitor, caller, event, known);
        pause.inside(rt);
        reply
    }

    /// Drives a run to its exit, as the engine drives it at some moment of the call: one section under the lock, and R0 at its exit.
    /// Its records are those of its advances one by one, in their order. They join the history together, at its end, so that no
    /// record of another caller stands between them, and the caller has seen the history with them. Other callers wait for all that
    /// it executes, so it is for short runs.
    ///
    /// C4 exactly as for the run's advance: the caller has then seen a history in whose last world the run is not out, and the run
    /// comes back as it was. If memory is refused the run comes back at the last of its stops that was recorded, and the records up
    /// to there have joined the history together; if there are none the caller is as it was.
    pub fn drive<R: Wait>(
        &self,
        rt: &R,
        caller: &mut Caller<B>,
        run: Run,
    ) -> Result<u64, DriveFault>
        ensures drives { Drives B.setup run result caller.old caller.new }
        ensures once { DrivesOnce B.setup run result caller.old caller.new }
    {
        let mut guard = self.lock.lock(rt);
        let locked = &mut *guard;
        locked.drive(rt, &self.monitor, caller, run)
    }
}
