// An engine with the tokens of all its guests' freezes, which are found by their freezes' numbers, and with what is kept of its beginning.
// It relies on `engine_core` for each call and for tokens.

ghost use Rattle.std.specs.Prelude.{◌≡◌, ◌≢◌, ◌↔◌, [], false, IfSome, IsNone, None};
ghost use Rattle.freeze_ledger.specs.Deadlines.{some_timer};
ghost use Rattle.engine_transport.specs.Freezing.{IsNextDue};
ghost use Rattle.world_calls.specs.Answered.{started_answer};
ghost use Rattle.world_calls.specs.declared.call.Call.TheVariants.{Submit, Dispatch, Withdraw, Clock};
ghost use Rattle.world_calls.specs.declared.call_answer.CallAnswer.TheVariants as answers;
ghost use Rattle.world_calls.specs.declared.trace.Version.TheVariants.{Three};
ghost use Rattle.world.specs.TotalsOf.{totals_in};
ghost use Rattle.world.specs.World.{class_kept, version_of};
ghost use Rattle.engine_core.specs.EngineState.{IsRun};
ghost use Rattle.engine_core.specs.ByNumber.{guests_of};
ghost use Rattle.host_embedding.specs.Calls.{IsCalled, IsFrozen, IsReleased};
ghost use Rattle.host_embedding.specs.Lines.{front_of};

use crate::call_result::CallResult;
use crate::fates::RunFate;
use ccb::{CcbId, Place, QueueId};
use engine_core::{Engine, GuestToken, Totals, put_token, take_token};
use std::alloc::Global;
use std::marker::Model;
use trace::header;
use world_calls::CarriedLine;

/// An engine with the tokens of all its guests' freezes: a number stands for one of them exactly where a guest holds a freeze of
/// it. It also knows whether the engine follows another one, keeps the lines of what that one left until a record is taken, and knows what
/// runs have done with their CCBs. Contracts see the engine. Where it is dropped what is still frozen is forfeited.
#[derive(Drop)]
pub struct EngineHandle {
    pub(crate) engine: Engine,
    pub(crate) tokens: Vec<GuestToken>,
    pub(crate) is_continued: bool,
    pub(crate) lines: Vec<CarriedLine>,
    // of runs that have disposed of their CCBs and have not exited
    pub(crate) fates: Vec<RunFate>,
}

impl Model for EngineHandle {
    ghost use Rattle.engine_core.specs.EngineState.{EngineState};

    ghost Value = { EngineState };

    ghost view = { λ handle. handle.engine };

    ghost use Rattle.host_embedding.specs.Guests.{HasGuests};
    ghost use Rattle.host_embedding.specs.Beginning.{KnowsBeginning};
    ghost use Rattle.host_embedding.specs.Fates.{KeepsFates};

    ghost invariant = { λ handle. HasGuests handle.engine handle.tokens.items × KnowsBeginning handle.engine handle.is_continued handle.lines.items × KeepsFates handle.fates.items handle.engine.history };
}

impl EngineHandle {
    /// The engine, which follows no other one, has no record, and of which no guest holds a freeze.
    #[tactic(auto, using(crate::proofs::Guests::begins, crate::proofs::Beginning::alone, crate::proofs::Courses::none_kept))]
    pub fn new(alloc: Global, engine: Engine) -> Self
        requires guests { guests_of engine.world.transport.freezes ≡ [] }
        requires alone { engine.setup.carried ≡ None }
        requires fresh { engine.history ≡ [] }
        ensures { result ≡ engine }
    {
        let _records = engine.records();
        EngineHandle {
            engine,
            tokens: Vec::new(alloc),
            is_continued: false,
            lines: Vec::new(alloc),
            fates: Vec::new(alloc),
        }
    }

    /// What stands before the line of record 0: the first line of a trace, and nothing if the engine follows another one.
    pub(crate) fn front(&self) -> &'static str
        ensures { result.now ≡ front_of self.now.setup }
    {
        if self.is_continued {
            ""
        } else {
            header(self.engine.version())
        }
    }

    /// The class that a submission's record says, if CCBs have one.
    pub(crate) fn class_said(&self, class: u32) -> Option<u32>
        ensures { result ≡ class_kept self.now.setup class }
    {
        class_by(&self.engine, class)
    }

    /// Submits a CCB to a queue: its number. The lowest priority number starts first; it may be tried again so many times. The class is what
    /// the command is, by the host's choice, and is taken as 0 if CCBs have none.
    #[tactic(auto, using(crate::proofs::Guests::stay, crate::proofs::Guests::stay_faulted, crate::proofs::Beginning::recorded, crate::proofs::Beginning::faulted, crate::proofs::Courses::called, crate::proofs::Courses::faulted))]
    pub fn submit(
        &mut self,
        queue: u32,
        priority: u32,
        retries: u32,
        class: u32,
        ccb: &mut u32,
    ) -> CallResult
        ensures recorded { IsCalled result self.old self.new (answers.Ccb (record { 0 = ccb.new })) (Submit (record { 0 = queue }) priority retries (class_kept self.old.setup class)) }
        ensures kept { result ≢ CallResult.Done → ccb.new ≡ ccb.old }
    {
        match self.engine.submit(QueueId(queue), priority, retries, class) {
            Ok(CcbId(number)) => {
                *ccb = number;
                CallResult::Done
            }
            Err(fault) => CallResult::of(fault),
        }
    }

    /// Starts the waiting CCB of a queue that goes first: its number, and what its policy advised for this start, or 0.
    #[tactic(auto, using(crate::proofs::Guests::stay, crate::proofs::Guests::stay_faulted, crate::proofs::Beginning::recorded, crate::proofs::Beginning::faulted, crate::proofs::Courses::called, crate::proofs::Courses::faulted))]
    pub fn dispatch(&mut self, queue: u32, ccb: &mut u32, advice: &mut u32) -> CallResult
        ensures recorded { IsCalled result self.old self.new (started_answer (version_of self.old.setup) (record { ccb = record { 0 = ccb.new }; advice = advice.new })) (Dispatch (record { 0 = queue })) }
        ensures kept { result ≢ CallResult.Done → (ccb.new ≡ ccb.old) × (advice.new ≡ advice.old) }
        ensures unadvised { result ≡ CallResult.Done → version_of self.old.setup ≢ Three → advice.new ≡ 0 }
    {
        match self.engine.dispatch(QueueId(queue)) {
            Ok(start) => {
                *ccb = start.ccb.0;
                *advice = start.advice;
                CallResult::Done
            }
            Err(fault) => CallResult::of(fault),
        }
    }

    /// Withdraws a CCB that waits: it is gone, with the code of REQ_ABORTED.
    #[tactic(auto, using(crate::proofs::Guests::stay, crate::proofs::Guests::stay_faulted, crate::proofs::Beginning::recorded, crate::proofs::Beginning::faulted, crate::proofs::Courses::called, crate::proofs::Courses::faulted))]
    pub fn withdraw(&mut self, ccb: u32) -> CallResult
        ensures { IsCalled result self.old self.new answers.Ok (Withdraw (record { 0 = ccb })) }
    {
        match self.engine.withdraw(CcbId(ccb)) {
            Ok(()) => CallResult::Done,
            Err(fault) => CallResult::of(fault),
        }
    }

    /// Reads the clock, in milliseconds: how many freezes went since their timers were due.
    #[tactic(auto, using(crate::proofs::Guests::stay, crate::proofs::Guests::stay_faulted, crate::proofs::Beginning::recorded, crate::proofs::Beginning::faulted, crate::proofs::Courses::called, crate::proofs::Courses::faulted))]
    pub fn clock(&mut self, reading: u64, removed: &mut u32) -> CallResult
        ensures recorded { IsCalled result self.old self.new (answers.Removed removed.new) (Clock reading) }
        ensures kept { result ≢ CallResult.Done → removed.new ≡ removed.old }
    {
        match self.engine.clock(reading) {
            Ok(count) => {
                *removed = count;
                CallResult::Done
            }
            Err(fault) => CallResult::of(fault),
        }
    }

    /// Freezes a place for a guest: the freeze's number, for which its token is kept here. No freeze has had it before.
    #[tactic(auto, using(crate::proofs::Guests::same, crate::proofs::Guests::frozen, crate::proofs::Guests::is_fresh, crate::proofs::Guests::stay_unfrozen, crate::proofs::Beginning::same, crate::proofs::Beginning::recorded, crate::proofs::Beginning::faulted, crate::proofs::Courses::same, crate::proofs::Courses::called, crate::proofs::Courses::faulted))]
    pub fn guest_freeze(&mut self, place: Place, guest: u32, freeze: &mut u32) -> CallResult
        ensures recorded { IsFrozen result self.old self.new freeze.new place guest }
        ensures kept { result ≢ CallResult.Done → freeze.new ≡ freeze.old }
    {
        if self.tokens.reserve(1).is_err() {
            return CallResult::OutOfMemory;
        }
        match self.engine.freeze_place(place, guest) {
            Ok(token) => {
                *freeze = token.number();
                self.tokens.push_reserved(GuestToken::new(token));
                CallResult::Done
            }
            Err(fault) => CallResult::of(fault),
        }
    }

    /// Gives the freeze of that number back: how many freezes its place has then. There is no token of the number exactly where no
    /// guest holds a freeze of it. Where memory is refused its token is still here.
    #[tactic(auto, using(crate::proofs::Guests::rise, crate::proofs::Guests::same, crate::proofs::Guests::released, crate::proofs::Guests::put_back, crate::proofs::Beginning::same, crate::proofs::Beginning::recorded, crate::proofs::Courses::same, crate::proofs::Courses::called))]
    pub fn guest_release(&mut self, freeze: u32, left: &mut u32) -> CallResult
        ensures recorded { IsReleased result self.old self.new left.new freeze }
        ensures kept { result ≢ CallResult.Done → left.new ≡ left.old }
    {
        let Some((place, token)) = take_token(&mut self.tokens, freeze) else {
            return CallResult::NoToken;
        };
        match self.engine.guest_release(token) {
            Ok(count) => {
                *left = count;
                CallResult::Done
            }
            Err((fault, token)) => {
                put_token(&mut self.tokens, place, token);
                CallResult::released(fault)
            }
        }
    }

    /// The sums so far.
    pub fn totals(&self) -> Totals
        ensures { result ≡ totals_in self.now.history self.now.world }
    {
        self.engine.totals()
    }

    /// When the timer is due that goes first, in milliseconds of the clock; `None` exactly where no timer holds a freeze.
    pub fn next_due(&self) -> Option<u64>
        ensures first { IfSome result (IsNextDue self.now.world.transport.freezes) }
        ensures none { IsNone result ↔ (some_timer self.now.world.transport.freezes ≡ false) }
    {
        self.engine.next_due()
    }
}

// The class that a submission's record says of an engine, if its CCBs have one.
#[tactic(auto, using(crate::proofs::Courses::class_over))]
fn class_by(engine: &Engine, class: u32) -> Option<u32>
    ensures { result ≡ class_kept engine.now.setup class }
{
    if engine.config().has_classes() {
        Some(class)
    } else {
        None
    }
}
