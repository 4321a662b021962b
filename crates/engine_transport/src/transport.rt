// The transport: what becomes of a CCB that is submitted, started, finished, put in recovery and made to wait again, and
// of the freezes that guests, runs and timers hold. It relies on `ccb_list` for the CCBs, on `queue_list` for the queues,
// and on `freeze_ledger` for the freezes.

ghost use Rattle.std.specs.Prelude.{◌≡◌, ℕ, ◌+◌, ◌<◌, ◌≤◌, ◌++◌, [], ◌∷◌, ◌==◌, ◌↔◌, not, true, false, Option, length, map, filter, count_by, slice_index, slice_index_or, slice_set, All, Contains, IsTrue, IsSome, IsNone, IsErrAnd, None, Some, IfOk, IfSome, IfNone, OnOk, OnErr};
ghost use Rattle.std.specs.Option.{is_some};
ghost use Rattle.ccb.specs.Ccb.{advised, completed, requeued};
ghost use Rattle.dev_queue.specs.State.{empty_queue};
ghost use Rattle.freeze_ledger.specs.declared.freeze.Holder.TheVariants.{Guest, Run};
ghost use Rattle.ccb.specs.declared.place.Place.TheVariants.{Controller, Device};
ghost use Rattle.freeze_ledger.specs.declared.ledger.TheConstants.{MAX_FREEZES};
ghost use Rattle.freeze_ledger.specs.Freezes.{entry_of, frozen, handed_over, holders_of, not_due_at, without};
ghost use Rattle.freeze_ledger.specs.Deadlines.{some_timer};
ghost use Rattle.ccb.specs.Places.{index_of, places_of};
ghost use Rattle.world.specs.declared.ccb_state.CcbState.TheVariants.{Waiting, Active as IsActive, InRecovery};
ghost use Rattle.world.specs.World.{Setup, World, class_in, queue_count, queue_setup, version_of, LiveCcb as WorldCcb};
ghost use Rattle.world.specs.Capacities.{most_controllers, most_queues, most_ccbs, last_reading};
ghost use Rattle.world.specs.Lookups.{is_waiting, is_active, ccb_of, with_ccb};
ghost use Rattle.world.specs.Refusals.{is_unknown};
ghost use Rattle.world_calls.specs.declared.call.Call.TheVariants.{Submit, Dispatch, GuestFreeze, GuestRelease, Clock};
ghost use Rattle.world_calls.specs.declared.call_answer.CallAnswer.TheVariants as answers;
ghost use Rattle.ccb.specs.declared.call_refusal.CallRefusal.TheVariants.{Unknown};
ghost use Rattle.world_calls.specs.Answered.{ccb_answer, freeze_answer, removed_answer, start_answer};
ghost use Rattle.world.specs.Event.{replies};
ghost use Rattle.world.specs.FreezeSteps.{is_guest};
ghost use Rattle.world.specs.Step.{is_call, step_call};
ghost use Rattle.world.specs.QueueInfo.{queue_info};
ghost use Rattle.engine_transport.specs.Freezing.{IsNextDue, IsTaken, took};
ghost use Rattle.engine_transport.specs.Listed.{IsPlaceOf};

use crate::ccb_list::CcbList;
use crate::live_ccb::LiveCcb;
use crate::queue_list::{FrozenTimes, QueueList, refusal};
use ccb::{Ccb, CcbId, Completion, Place, QueueId};
use freeze_ledger::{FreezeToken, Holder, Holders, Ledger};
use std::alloc::{AllocError, Global};
use std::marker::Model;
use timer_events::expire_due;
use world::{CcbState, MAX_CONTROLLERS, QueueInfo};
use world_calls::{CallRefusal, Start};

/// The last clock reading that there is, in milliseconds: 2^62.
const LAST_READING: u64 = 4_611_686_018_427_387_904;

/// At most 64 device queues with their openings, the live CCBs of all of them, at most 4096 and 256 a queue, their freezes,
/// and the clock. Contracts see the world's transport.
#[derive(Drop)]
pub struct Transport {
    pub(crate) ccbs: CcbList,
    pub(crate) queues: QueueList,
    pub(crate) ledger: Ledger,
    pub(crate) clock: u64,
}

impl Model for Transport {
    ghost use Rattle.world.specs.World.{Transport as WorldTransport};
    ghost use Rattle.engine_transport.specs.Invariant.{seen, KeepsTransport};

    ghost Value = { WorldTransport };

    ghost view = { λ t. seen t.ccbs t.queues t.ledger t.clock };

    ghost invariant = { λ t. KeepsTransport t.ccbs t.queues t.ledger };
}

// Device queues without CCBs, one for each of these openings.
fn queues_of(alloc: Global, openings: &[u8]) -> Result<QueueList, AllocError>
    requires { All (λ it. 1 ≤ it) openings.now }
    ensures { IfOk result (λ queues. queues ≡ map empty_queue openings.now) }
{
    let mut queues = QueueList::new(alloc);
    for it in openings {
        queues.add(*it)?;
    }
    Ok(queues)
}

impl Transport {
    /// Device queues with so many openings each, at least 1, in the order of their numbers from 0, at most 64 of them,
    /// without CCBs and not frozen; no clock was read. There is room for 4096 CCBs and 1024 freezes: no later call takes
    /// memory.
    pub fn with_room(alloc: Global, openings: &[u8]) -> Result<Self, AllocError>
        requires some { All (λ it. 1 ≤ it) openings.now }
        requires few { length openings.now ≤ most_queues }
        ensures { IfOk result (λ it. it ≡ record { live = []; openings = openings.now; freezes = []; greatest_ccb = 0; greatest_freeze = 0; clock = 0 }) }
    {
        Ok(Transport {
            ccbs: CcbList::with_room(alloc)?,
            queues: queues_of(alloc, openings)?,
            ledger: Ledger::with_room(alloc, openings.len() as u32, u32::from(MAX_CONTROLLERS))?,
            clock: 0,
        })
    }

    /// Submits a CCB of this class to a queue: it waits, under the number after the greatest given. If CCBs have no class it is 0. C1
    /// where there is no such queue, C2 where the queue has 256 live CCBs, there are 4096 in all, or the numbers are used up. A
    /// refusal changes nothing.
    pub fn submit(
        &mut self,
        queue: QueueId,
        priority: u32,
        retries: u32,
        class: u32,
    ) -> Result<CcbId, CallRefusal>
        ensures step { (setup : Setup) (world : World) → queue_count setup ≡ length self.old.openings →
            (said : Option ℕ) → class_in said ≡ class → is_call setup (Submit queue priority retries said) ≡ true →
            step_call setup (record world { transport = self.old }) (Submit queue priority retries said) ≡ Some (replies (ccb_answer result), record world { transport = self.new }) }
        ensures freezes { self.new.freezes ≡ self.old.freezes }
    {
        if queue.0 as usize >= self.queues.len() {
            return Err(CallRefusal::Unknown);
        }
        if self.ccbs.is_full() {
            return Err(CallRefusal::Limit);
        }
        let number = CcbId(self.ccbs.greatest() + 1);
        match self.queues.insert(queue, number, priority) {
            Err(fault) => Err(refusal(fault)),
            Ok(()) => {
                let ccb = Ccb::new(number, queue, priority, retries, class);
                self.ccbs.enter(LiveCcb::new(ccb, CcbState::Waiting));
                Ok(number)
            }
        }
    }

    /// Starts the waiting CCB of the queue that has the lowest priority number, and among these the lowest CCB number:
    /// it is active. Its number is answered with what was advised for this start, or 0, which is advised no more. Refused with the
    /// first refusal of a dispatch that holds (`ccb::REFUSALS` has them in their order), which changes nothing.
    pub fn dispatch(&mut self, queue: QueueId, controller: u32) -> Result<Start, CallRefusal>
        requires { controller < most_controllers }
        ensures step { (setup : Setup) (world : World) → queue_count setup ≡ length self.old.openings → (queue_setup setup queue.0).controller ≡ controller →
            step_call setup (record world { transport = self.old }) (Dispatch queue) ≡ Some (replies (start_answer (version_of setup) result), record world { transport = self.new }) }
        ensures unknown { length self.old.openings ≤ queue.0 → IsErrAnd result (λ refusal. refusal ≡ Unknown) × (self.new ≡ self.old) }
        ensures freezes { self.new.freezes ≡ self.old.freezes }
    {
        if queue.0 as usize >= self.queues.len() {
            return Err(CallRefusal::Unknown);
        }
        let freezes = FrozenTimes {
            queue: self.ledger.count(Place::Device(queue)),
            controller: self.ledger.count(Place::Controller(controller)),
        };
        match self.queues.start(queue, &freezes) {
            Err(fault) => Err(refusal(fault)),
            Ok(number) => {
                let Some(place) = self.ccbs.place_of(number) else {
                    unreachable!()
                };
                let mut next = *self.ccbs.at(place);
                let advice = next.as_ccb().advice;
                next.start();
                self.ccbs.change(place, &next);
                Ok(Start {
                    ccb: number,
                    advice,
                })
            }
        }
    }

    /// Where the CCB of this number stands among the live ones; `None` exactly where no live one has it.
    pub fn place_of(&self, ccb: CcbId) -> Option<usize>
        ensures found { IfSome result (IsPlaceOf ccb.0 self.now.live) }
        ensures none { IfNone result (ccb_of ccb.0 self.now.live ≡ None) }
    {
        self.ccbs.place_of(ccb)
    }

    /// The live CCB at this place.
    pub fn at(&self, place: usize) -> &LiveCcb
        requires { place < length self.now.live }
        ensures { (number : ℕ) → IsPlaceOf number self.now.live place → ccb_of number self.now.live ≡ Some result.now }
    {
        self.ccbs.at(place)
    }

    /// The live CCB of this number, with where it is; `None` exactly where no live one has it.
    pub fn live(&self, ccb: CcbId) -> Option<LiveCcb>
        ensures { result ≡ ccb_of ccb.0 self.now.live }
    {
        let place = self.ccbs.place_of(ccb)?;
        Some(*self.ccbs.at(place))
    }

    /// The live CCB at this place, from 0, in the order of their numbers, with where it is; `None` exactly where fewer are live.
    pub fn live_at(&self, place: usize) -> Option<LiveCcb>
        ensures there { IsSome result ↔ (place < length self.now.live) }
        ensures value { IfSome result (λ live. live ≡ slice_index_or self.now.live place live) }
    {
        self.ccbs.nth(place)
    }

    /// The CCB of this number is finished and gone. It asks for an active one, or one in recovery.
    pub fn finish(&mut self, ccb: CcbId)
        requires { (it : WorldCcb) × (ccb_of ccb.0 self.old.live ≡ Some it) × (is_waiting it.state ≡ false) }
        ensures { self.new ≡ record self.old { live = filter (λ live. not (live.ccb.number.0 == ccb.0)) self.old.live } }
    {
        let live = self.ccbs.remove(ccb);
        self.queues.leave(live.ccb().queue, live.is_active());
    }

    /// The CCB of this number is gone, since its host does not want it. It asks for one that waits.
    pub fn withdraw(&mut self, ccb: CcbId)
        requires { (it : WorldCcb) × (ccb_of ccb.0 self.old.live ≡ Some it) × (it.state ≡ Waiting) }
        ensures { self.new ≡ record self.old { live = filter (λ live. not (live.ccb.number.0 == ccb.0)) self.old.live } }
    {
        let live = self.ccbs.remove(ccb);
        self.queues.withdraw(live.ccb().queue, ccb);
    }

    /// This is what is advised for the next start of the CCB of this number, in place of what was advised before. It asks for a live one.
    pub fn advise(&mut self, ccb: CcbId, word: u32)
        requires { (it : WorldCcb) × (ccb_of ccb.0 self.old.live ≡ Some it) }
        ensures { (it : WorldCcb) → ccb_of ccb.0 self.old.live ≡ Some it → self.new ≡ record self.old { live = with_ccb (record it { ccb = advised it.ccb word }) self.old.live } }
    {
        let Some(place) = self.ccbs.place_of(ccb) else {
            unreachable!()
        };
        let mut live = *self.ccbs.at(place);
        live.advise(word);
        self.ccbs.change(place, &live);
    }

    /// The completion of an active CCB, which stands at this place, failed. A freeze of its queue is taken for the run of
    /// that number, or none where that meets a limit; the CCB takes over what the completion brought, and is in recovery.
    /// It answers the CCB, and the right of the run to give its freeze back.
    pub fn fail(
        &mut self,
        place: usize,
        ccb: Ccb,
        completion: &Completion,
        run: u32,
    ) -> (Ccb, Option<FreezeToken>)
        requires active { ccb_of ccb.number.0 self.old.live ≡ Some (record { ccb = ccb; state = IsActive }) }
        requires there { IsPlaceOf ccb.number.0 self.old.live place }
        ensures taken { IsTaken self.old (Device ccb.queue) (Run run) result.1 }
        ensures ccb { result.0 ≡ completed ccb completion.now (is_some result.1) }
        ensures state { self.new ≡ record (took self.old result.1) { live = with_ccb (record { ccb = result.0; state = InRecovery }) self.old.live } }
    {
        let token = self.ledger.take(Place::Device(ccb.queue), Holder::Run(run));
        let mut ccb = ccb;
        ccb.complete(completion, token.is_some());
        self.queues.stop(ccb.queue, true);
        self.ccbs
            .change(place, &LiveCcb::new(ccb, CcbState::InRecovery));
        (ccb, token)
    }

    /// The CCB of this number waits again, with so many retries fewer, as far as it has that many. It asks for one in
    /// recovery.
    pub fn requeue(&mut self, ccb: CcbId, used: u32)
        requires { (it : WorldCcb) × (ccb_of ccb.0 self.old.live ≡ Some it) × (it.state ≡ InRecovery) }
        ensures { (it : WorldCcb) → ccb_of ccb.0 self.old.live ≡ Some it → self.new ≡ record self.old { live = with_ccb (record { ccb = requeued it.ccb used; state = Waiting }) self.old.live } }
    {
        let Some(place) = self.ccbs.place_of(ccb) else {
            unreachable!()
        };
        let mut live = *self.ccbs.at(place);
        live.requeue(used);
        let again = live.as_ccb();
        self.queues
            .put_back(again.queue, again.number, again.priority);
        self.ccbs.change(place, &live);
    }

    /// What a queue that there is has: its freezes, its active CCBs, those that wait, and its openings.
    pub fn queue_info(&self, queue: QueueId) -> QueueInfo
        requires { queue.0 < length self.now.openings }
        ensures { (world : World) → result ≡ queue_info (record world { transport = self.now }) queue.0 }
    {
        let own = self.queues.get(queue);
        let (waiting, active, _) = own.counts();
        QueueInfo {
            frozen: self.ledger.count(Place::Device(queue)),
            active,
            waiting,
            openings: u32::from(own.openings()),
        }
    }

    /// Whether there is a queue of that number.
    pub fn has_queue(&self, queue: QueueId) -> bool
        ensures { IsTrue result ↔ (queue.0 < length self.now.openings) }
    {
        (queue.0 as usize) < self.queues.len()
    }

    /// A queue that there is has so many openings from now on, at least 1, and the answer is how many it had. Openings
    /// below its active CCBs stop starts and nothing else.
    pub fn set_openings(&mut self, queue: QueueId, openings: u8) -> u8
        requires known { queue.0 < length self.old.openings }
        requires some { 1 ≤ openings }
        ensures answer { result ≡ slice_index self.old.openings queue.0 }
        ensures openings { self.new ≡ record self.old { openings = slice_set self.old.openings queue.0 openings } }
    {
        let old = self.queues.get(queue).openings();
        self.queues.set_openings(queue, openings);
        old
    }

    /// How many CCBs are active, at most 4096. It is a stored number.
    pub fn active(&self) -> u32
        ensures value { result ≡ count_by (λ live. is_active live.state) self.now.live }
        ensures bound { result ≤ most_ccbs }
    {
        self.ccbs.active()
    }

    /// How many freezes there are in all, at most 1024.
    pub fn frozen(&self) -> u32
        ensures value { result ≡ length self.now.freezes }
        ensures bound { result ≤ MAX_FREEZES }
    {
        self.ledger.len() as u32
    }

    /// Whether there is such a place: a queue, or one of so many controllers.
    pub fn has_place(&self, place: Place, controllers: u32) -> bool
        requires { controllers ≤ most_controllers }
        ensures known { (setup : Setup) → queue_count setup ≡ length self.now.openings → setup.controllers ≡ controllers → result ≡ not (is_unknown setup place) }
        ensures within { IsTrue result → index_of place < places_of (length self.now.openings) most_controllers }
    {
        match place {
            Place::Device(queue) => self.has_queue(queue),
            Place::Controller(controller) => controller < controllers,
        }
    }

    /// The number and the holder of each freeze of a place, by rising number; `None` exactly where there is no such place, so many
    /// controllers being there.
    pub fn holders(&self, place: Place, controllers: u32) -> Option<Holders<'_>>
        requires { controllers ≤ most_controllers }
        ensures there { (setup : Setup) → queue_count setup ≡ length self.now.openings → setup.controllers ≡ controllers → IsSome result ↔ (is_unknown setup place ≡ false) }
        ensures holders { IfSome result (λ holders. holders ≡ holders_of place self.now.freezes) }
    {
        if self.has_place(place, controllers) {
            Some(self.ledger.holders(place))
        } else {
            None
        }
    }

    /// Freezes a place that there is once more for this holder: the right to give that freeze back. `None`, which changes
    /// nothing, exactly at a limit: the place has 255 freezes, there are 1024 in all, or the numbers up to 4,294,967,295
    /// are used up.
    pub fn take(&mut self, place: Place, holder: Holder) -> Option<FreezeToken>
        requires { index_of place < places_of (length self.old.openings) most_controllers }
        ensures taken { IsTaken self.old place holder result }
        ensures state { self.new ≡ took self.old result }
    {
        self.ledger.take(place, holder)
    }

    /// Gives a freeze back that is there: how many freezes its place has then, at most 254.
    pub fn give_back(&mut self, token: FreezeToken) -> u32
        requires { Contains self.old.freezes token }
        ensures entry { entry_of token.number self.old.freezes ≡ Some token }
        ensures freezes { self.new ≡ record self.old { freezes = without token.number self.old.freezes } }
        ensures count { result ≡ frozen token.place self.new.freezes }
    {
        match self.ledger.give_back(token) {
            Ok(count) => count,
            Err(token) => {
                token.forfeit();
                unreachable!()
            }
        }
    }

    /// Makes a timer the holder of a freeze that is there. It is due so many milliseconds after the last clock reading.
    pub fn hand_over(&mut self, token: FreezeToken, milliseconds: u32)
        requires there { Contains self.old.freezes token }
        requires clock { self.old.clock ≤ last_reading }
        ensures { self.new ≡ record self.old { freezes = handed_over token.number (self.old.clock + milliseconds) self.old.freezes } }
    {
        let due = self.clock + u64::from(milliseconds);
        if let Err(token) = self.ledger.hand_over(token, due) {
            token.forfeit();
            unreachable!()
        }
    }

    /// How many freezes a controller has, at most 255. It is a stored number.
    pub fn controller_frozen(&self, controller: u32) -> u32
        requires { controller < most_controllers }
        ensures { result ≡ frozen (Controller controller) self.now.freezes }
    {
        self.ledger.count(Place::Controller(controller))
    }

    /// Freezes a place once more for a guest, under the number that it chose. C1 where there is no such place, so many
    /// controllers being there; C2 where
    /// the place has 255 freezes, there are 1024 in all, or the numbers up to 4,294,967,295 are used up. A refusal
    /// changes nothing.
    pub fn guest_freeze(
        &mut self,
        place: Place,
        controllers: u32,
        guest: u32,
    ) -> Result<FreezeToken, CallRefusal>
        requires { controllers ≤ most_controllers }
        ensures step { (setup : Setup) (world : World) → queue_count setup ≡ length self.old.openings → setup.controllers ≡ controllers →
            step_call setup (record world { transport = self.old }) (GuestFreeze place guest) ≡ Some (replies (freeze_answer result), record world { transport = self.new }) }
        ensures token { IfOk result (λ token. (token.place ≡ place) × (token.holder ≡ Guest guest) × (self.new.freezes ≡ self.old.freezes ++ token ∷ [])) }
        ensures refused { OnErr result (self.new ≡ self.old) }
    {
        if !self.has_place(place, controllers) {
            return Err(CallRefusal::Unknown);
        }
        self.take(place, Holder::Guest(guest))
            .ok_or(CallRefusal::Limit)
    }

    /// Whether an entry has the token's number, place and holder, and that is a guest.
    pub fn is_guests(&self, token: &FreezeToken) -> bool
        ensures { IsTrue result ↔ (Contains self.now.freezes token.now × (is_guest token.now.holder ≡ true)) }
    {
        matches!(token.holder(), Holder::Guest(_)) && self.ledger.holds(token)
    }

    /// Gives a guest's freeze back: how many freezes its place has then, at most 254. It asks for a token that is a
    /// guest's.
    pub fn guest_release(&mut self, token: FreezeToken) -> u32
        requires { Contains self.old.freezes token × (is_guest token.holder ≡ true) }
        ensures step { (setup : Setup) (world : World) →
            step_call setup (record world { transport = self.old }) (GuestRelease token.number) ≡ Some (replies (answers.Left result), record world { transport = self.new }) }
        ensures freezes { self.new.freezes ≡ without token.number self.old.freezes }
    {
        self.give_back(token)
    }

    /// What the clock read last, in milliseconds, 0 before the first reading, at most 2^62.
    pub fn clock(&self) -> u64
        ensures { result ≡ self.now.clock }
    {
        self.clock
    }

    /// When the timer is due that goes first, in milliseconds of the clock; `None` exactly where no timer holds a freeze. It reads
    /// one deadline.
    pub fn next_due(&self) -> Option<u64>
        ensures first { IfSome result (IsNextDue self.now.freezes) }
        ensures none { IsNone result ↔ (some_timer self.now.freezes ≡ false) }
    {
        let (due, _) = self.ledger.first_deadline()?;
        Some(due)
    }

    /// Reads the clock, in milliseconds: the freezes go whose timers are due at or before the reading, and no others; it
    /// answers how many these were, at most 1024. C2 above 2^62, and C5 below the last reading. A refusal changes
    /// nothing.
    pub fn read_clock(&mut self, reading: u64) -> Result<u32, CallRefusal>
        ensures step { (setup : Setup) (world : World) →
            step_call setup (record world { transport = self.old }) (Clock reading) ≡ Some (replies (removed_answer result), record world { transport = self.new }) }
        ensures removed { OnOk result (self.new.freezes ≡ not_due_at reading self.old.freezes) }
        ensures refused { OnErr result (self.new ≡ self.old) }
    {
        if reading > LAST_READING {
            return Err(CallRefusal::Limit);
        }
        if reading < self.clock {
            return Err(CallRefusal::GoesBack);
        }
        self.clock = reading;
        Ok(expire_due(&mut self.ledger, reading))
    }
}
