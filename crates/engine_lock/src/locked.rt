// What stands under the lock of a shared engine. It relies on `engine_core` for what a call does, on the ledger of the standard
// library, whose book is the sum of its shares, and on `monitor`, whose keeper knows the whole history with its callers.

ghost use Rattle.std.specs.Prelude.{◌≡◌, ◌+◌, ◌<◌, ◌≤◌, ◌↔◌, [], length, IsErr, IfOk, IfErr, IsTrue};
ghost use Rattle.engine_core.specs.EngineState.{IsRun};
ghost use Rattle.engine_core.specs.Replies.{IsOfKnown};
ghost use Rattle.monitor.specs.LegalHistory.{unshared};
ghost use Rattle.monitor.specs.Telling.{new_caller};
ghost use Rattle.engine_lock.specs.Driving.{Drives, DrivesOn, is_not_out};
ghost use Rattle.engine_lock.specs.Sharing.{Answers, Closes, IsNewCaller, IsNewWatch, Section, Tells, is_unfit, keeper_of};
ghost use Rattle.engine_lock.specs.declared.fault.LockFault.TheVariants.{TooManyCallers};
ghost use Rattle.engine_lock.specs.declared.object.TheConstants.{MAX_CALLERS};

use crate::caller::Caller;
use crate::fault::LockFault;
use crate::object::{MAX_CALLERS, Object};
use crate::publishing::publish_beyond;
use ccb::QueueId;
use engine_core::{AdvanceFault, DriveFault, Engine, Event, Reply, Run};
use monitor::{Keeper, Monitor, Watch};
use std::marker::Model;
use std::sync::Wait;
use std::sync::ledger::{Book, Share};

/// The engine, how many callers were given out, the sum of their recorded calls, what is left of the right to call, and the right
/// to publish.
#[derive(Drop)]
pub(crate) struct Locked<B: Object> {
    engine: Engine,
    given: u64,
    book: Book<B>,
    rest: Share<B>,
    keeper: Keeper<B>,
}

impl<B: Object> Model for Locked<B> {
    ghost use Rattle.std.specs.Prelude.{◌≡◌, ◌+◌};
    ghost use Rattle.monitor.specs.LegalHistory.{StartsWith, records, unshared};
    ghost use Rattle.engine_lock.specs.Sharing.{IsSince, LockedState};
    ghost use Rattle.engine_lock.specs.declared.object.TheConstants.{MAX_CALLERS};

    ghost Value = { LockedState };

    ghost view = { λ l. record { engine = l.engine; history = l.keeper.history; given = l.given } };

    ghost invariant = { λ l. IsSince B.setup B.begun l.book.total l.engine × (l.rest.parts + l.given ≡ B.parts) × (l.rest.amount ≡ 0) × (B.parts ≡ MAX_CALLERS) × (records l.keeper.history ≡ l.engine.history) × (l.keeper.callers ≡ l.given) × StartsWith l.keeper.history (unshared B.begun) };
}

impl<B: Object> Locked<B> {
    /// An engine of which no caller was given out.
    pub(crate) fn new(engine: Engine, book: Book<B>, rest: Share<B>, keeper: Keeper<B>) -> Self
        requires run { IsRun engine }
        requires setup { engine.setup ≡ B.setup }
        requires begun { engine.history ≡ B.begun }
        requires untaken { engine.taken ≡ 0 }
        requires book { book.total ≡ 0 }
        requires rest { (rest.parts ≡ B.parts) × (rest.amount ≡ 0) × (B.parts ≡ MAX_CALLERS) }
        requires keeper { keeper ≡ record { history = unshared B.begun; callers = 0 } }
        ensures { result ≡ record { engine = engine; history = unshared B.begun; given = 0 } }
    {
        Locked {
            engine,
            given: 0,
            book,
            rest,
            keeper,
        }
    }

    /// A caller more, of which no call is recorded. L1 exactly where 64 were given out.
    pub(crate) fn caller(&mut self, monitor: &Monitor<B>) -> Result<Caller<B>, LockFault>
        ensures caller { IfOk result (IsNewCaller B.setup B.begun) }
        ensures given { IfOk result (λ caller. (caller ≡ new_caller (keeper_of self.old)) × (self.new ≡ record self.old { given = self.old.given + 1 })) }
        ensures full { IfErr result (λ fault. (fault ≡ TooManyCallers) × (self.new ≡ self.old)) }
        ensures number { IfOk result (λ caller. (1 ≤ caller.number) × (caller.number ≤ MAX_CALLERS)) }
        ensures refused { IsErr result ↔ (self.old.given ≡ MAX_CALLERS) }
    {
        if self.given == MAX_CALLERS {
            return Err(LockFault::TooManyCallers);
        }
        let Locked {
            engine: _,
            given,
            book: _,
            rest,
            keeper,
        } = self;
        let calls = rest.split_off(1, 0);
        let part = keeper.caller(monitor);
        *given += 1;
        Ok(Caller { calls, part })
    }

    /// A watch, which has seen the history so far, whose sums are shown.
    pub(crate) fn watch<R: Wait>(&mut self, rt: &R, monitor: &Monitor<B>) -> Watch<B>
        ensures same { self.new ≡ self.old }
        ensures watch { IsNewWatch B.setup B.begun result }
    {
        let totals = self.engine.totals();
        self.keeper.watch(rt, monitor, totals)
    }

    /// Answers an event, and publishes it with its caller where it is recorded. Where a queue is known, an advance is of a run
    /// with that queue's program.
    pub(crate) fn call<R: Wait>(
        &mut self,
        rt: &R,
        monitor: &Monitor<B>,
        caller: &mut Caller<B>,
        event: Event<'_>,
        known: Option<QueueId>,
    ) -> Reply
        requires { IsOfKnown B.setup event known }
        ensures answers { Answers self.old.engine event.entry result self.new.engine }
        ensures tells { Tells B.setup self.old.history event.entry result caller.old caller.new }
        ensures given { self.new.given ≡ self.old.given }
        ensures section { Section B.setup event.entry result caller.old caller.new }
    {
        let reply = self.engine.answer_known(event, known);
        if reply.is_recorded() {
            let Locked {
                engine,
                given: _,
                book,
                rest: _,
                keeper,
            } = self;
            book.add(&mut caller.calls, 1);
            publish_beyond(rt, monitor, keeper, &mut caller.part, engine);
        } else if is_unfit(&reply) {
            self.keeper.look(rt, monitor, &mut caller.part);
        }
        reply
    }

    /// Drives a run to its exit, as the engine drives it from what stands here. What the engine records joins the history at its end,
    /// all of it as this caller's, and nothing else joins it; the caller has then seen the history with it. If nothing is recorded
    /// the history stays as it is: after C4 the caller has seen it, and where memory was refused the caller is as it was. No caller
    /// is given out. What the caller is told is also what the run's advances would tell it, one by one.
    pub(crate) fn drive<R: Wait>(
        &mut self,
        rt: &R,
        monitor: &Monitor<B>,
        caller: &mut Caller<B>,
        run: Run,
    ) -> Result<u64, DriveFault>
        ensures drives { Drives B.setup run result caller.old caller.new }
        ensures once { DrivesOn B.setup run result self.old self.new caller.old caller.new }
        ensures given { self.new.given ≡ self.old.given }
    {
        let Locked {
            engine,
            given: _,
            book,
            rest: _,
            keeper,
        } = self;
        let known = engine.totals().history;
        let driven = engine.drive(run);
        let made = engine.totals().history - known;
        if made > 0 {
            book.add(&mut caller.calls, made);
            // In one step at the cell, so that a watch sees all of these records or none. No clause here speaks of watches.
            publish_beyond(rt, monitor, keeper, &mut caller.part, engine);
        } else if is_not_out(&driven) {
            keeper.look(rt, monitor, &mut caller.part);
        }
        driven
    }

    /// Ends the sharing: the engine, exactly where all callers that were given out are here. Else all comes back.
    pub(crate) fn close<R: Wait>(
        self,
        rt: &R,
        monitor: &Monitor<B>,
        callers: Vec<Caller<B>>,
    ) -> Result<Engine, (Self, Vec<Caller<B>>)>
        ensures closed { IfOk result (Closes B.setup B.begun callers.items) }
        ensures all { IfOk result (λ _. length callers.items ≡ self.given) }
        ensures missing { IfErr result (λ back. (length callers.items < self.given) × (self.given ≤ MAX_CALLERS)) }
        ensures back { IfErr result (λ back. (back.0 ≡ self) × (back.1.items ≡ callers.items)) }
    {
        if self.has_all(&callers) {
            Ok(self.settle(rt, monitor, callers))
        } else {
            Err((self, callers))
        }
    }

    // Whether these are as many callers as were given out.
    fn has_all(&self, callers: &[Caller<B>]) -> bool
        ensures all { IsTrue result ↔ (self.now.given ≤ length callers.now) }
        ensures most { self.now.given ≤ MAX_CALLERS }
    {
        callers.len() as u64 >= self.given
    }

    // The engine, where all callers that were given out are here. There are no more: each has a part of the ledger, which has as
    // many as may be given out.
    fn settle<R: Wait>(self, rt: &R, monitor: &Monitor<B>, mut callers: Vec<Caller<B>>) -> Engine
        requires { self.given ≤ length callers.items }
        ensures closes { Closes B.setup B.begun callers.items result }
        ensures all { length callers.items ≡ self.given }
    {
        let Locked {
            engine,
            given: _,
            mut book,
            rest: mut all,
            mut keeper,
        } = self;
        while let Some(caller) = callers.pop() {
            let Caller { calls, part } = caller;
            all.merge(calls);
            keeper.retire(rt, monitor, part);
        }
        callers.destroy_empty();
        book.audit(&mut all);
        engine
    }
}

// Whether the engine did not have the run out, which is C4.
fn is_not_out(driven: &Result<u64, DriveFault>) -> bool
    ensures { result ≡ is_not_out driven.now }
{
    match driven {
        Ok(_) => false,
        Err(fault) => matches!(fault.why, AdvanceFault::NotOut),
    }
}

// Whether the engine answered C4 or C6.
fn is_unfit(reply: &Reply) -> bool
    ensures { result ≡ is_unfit reply.now }
{
    matches!(reply, Reply::NotAdmitted(_))
}
