// One device queue: its waiting CCBs, two counts and its openings. It relies on `waiting_heap` for
// the heap, on `frozen` for the count of freezes, and on `queue_fault`.

ghost use Rattle.std.specs.Prelude.{◌≡◌, ◌<◌, ◌≤◌, false, true, length, IfOk, OnOk, OnErr};
ghost use Rattle.std.specs.Result.{result_err};
ghost use Rattle.dev_queue.specs.Waiting.{IsLeastNumber, waits};
ghost use Rattle.dev_queue.specs.State.{QueueState, empty_queue, live, with_active, with_waiting, with_started, with_withdrawn, with_stopped, with_left};
ghost use Rattle.dev_queue.specs.Faults.{insert_fault, start_fault};

use crate::frozen::Frozen;
use crate::queue_fault::QueueFault;
use crate::waiting_ccb::WaitingCcb;
use crate::waiting_heap::WaitingHeap;
use ccb::{CallRefusal, CcbId};
use std::alloc::{AllocError, Global};
use std::marker::Model;

/// How many CCBs of one queue can be live at a time, so that each of them finds room to wait.
pub const MAX_LIVE: u32 = 256;

/// How many times at most a call compares two waiting CCBs: on eight levels twice each.
pub const MAX_STEPS: u32 = 16;

/// The live CCBs of one device queue: which wait, how many are active, and how many in recovery, at most
/// 256 in all. Openings, from 1 to 255, are how many may be active for another one to start. Contracts
/// see the waiting ones in the order of their numbers.
#[derive(Drop)]
pub struct DevQueue {
    waiting: WaitingHeap,
    active: u32,
    recovering: u32,
    openings: u8,
    steps: u32,
}

impl Model for DevQueue {
    ghost use Rattle.std.specs.Prelude.{◌+◌, ◌≤◌, length};
    ghost use Rattle.dev_queue.specs.declared.dev_queue.TheConstants.{MAX_LIVE, MAX_STEPS};
    ghost use Rattle.dev_queue.specs.State.{QueueState};

    ghost Value = { QueueState };

    ghost view = { λ q. record { waiting = q.waiting; active = q.active; recovering = q.recovering; openings = q.openings } };

    ghost invariant = { λ q. (length q.waiting + q.active + q.recovering ≤ MAX_LIVE) × (1 ≤ q.openings) × (q.steps ≤ MAX_STEPS) };
}

impl DevQueue {
    /// A queue without CCBs, with so many openings, at least 1, and with room for 256 waiting CCBs: no
    /// later call takes memory.
    pub fn with_room(alloc: Global, openings: u8) -> Result<Self, AllocError>
        requires { 1 ≤ openings }
        ensures { IfOk result (λ queue. queue ≡ empty_queue openings) }
    {
        Ok(DevQueue {
            waiting: WaitingHeap::with_room(alloc)?,
            active: 0,
            recovering: 0,
            openings,
            steps: 0,
        })
    }

    /// One CCB more waits, under a number that does not wait yet. Q1, which changes nothing, exactly where
    /// 256 CCBs are live.
    pub fn insert(&mut self, number: CcbId, priority: u32) -> Result<(), QueueFault>
        requires { waits number self.old.waiting ≡ false }
        ensures fault { result_err result ≡ insert_fault self.old }
        ensures waits { OnOk result (self.new ≡ with_waiting number priority self.old) }
        ensures refused { OnErr result (self.new ≡ self.old) }
    {
        let (waiting, active, recovering) = self.counts();
        if waiting + active + recovering >= MAX_LIVE {
            return Err(QueueFault::Full);
        }
        self.waiting
            .add(WaitingCcb { priority, number }, &mut self.steps);
        Ok(())
    }

    /// One CCB more is active, which another engine started: openings and freezes do not stop it. Q1, which changes nothing,
    /// exactly where 256 CCBs are live.
    pub fn insert_active(&mut self) -> Result<(), QueueFault>
        ensures fault { result_err result ≡ insert_fault self.old }
        ensures active { OnOk result (self.new ≡ with_active self.old) }
        ensures refused { OnErr result (self.new ≡ self.old) }
    {
        let (waiting, active, recovering) = self.counts();
        if waiting + active + recovering >= MAX_LIVE {
            return Err(QueueFault::Full);
        }
        self.active += 1;
        Ok(())
    }

    /// Starts the waiting CCB of the lowest priority number, and among these of the lowest CCB number: it
    /// is active, and its number is answered. Refused, which changes nothing, with Q2 exactly where the
    /// queue is frozen, else with Q3 where no fewer CCBs are active than there are openings, else with Q4
    /// where none waits, else with Q5 where its controller is frozen.
    pub fn start<F: Frozen>(&mut self, freezes: &F) -> Result<CcbId, QueueFault>
        ensures fault { result_err result ≡ start_fault (F.frozen_count freezes.now) (F.controller_count freezes.now) self.old }
        ensures least { IfOk result (IsLeastNumber self.old.waiting) }
        ensures started { IfOk result (λ number. self.new ≡ with_started number self.old) }
        ensures refused { OnErr result (self.new ≡ self.old) }
    {
        if freezes.frozen() != 0 {
            return Err(QueueFault::Refused(CallRefusal::Frozen));
        }
        if self.active >= u32::from(self.openings) {
            return Err(QueueFault::Refused(CallRefusal::NoOpening));
        }
        if self.waiting.len() == 0 {
            return Err(QueueFault::Refused(CallRefusal::NothingWaits));
        }
        if freezes.controller_frozen() != 0 {
            return Err(QueueFault::Refused(CallRefusal::ControllerFrozen));
        }
        let Some(pair) = self.waiting.take_least(&mut self.steps) else {
            unreachable!()
        };
        self.active += 1;
        Ok(pair.number)
    }

    /// The waiting CCB of this number waits no more, and is out: its host does not want it. It asks for one that waits, and leaves
    /// room for another one.
    pub fn withdraw(&mut self, number: CcbId)
        requires { waits number self.old.waiting ≡ true }
        ensures withdrawn { self.new ≡ with_withdrawn number self.old }
        ensures room { live self.new < MAX_LIVE }
    {
        self.waiting.take(number, &mut self.steps);
    }

    /// An active CCB stops: it stays, in recovery, or is out. It asks for an active one.
    pub fn stop(&mut self, stays: bool)
        requires { 1 ≤ self.old.active }
        ensures { self.new ≡ with_stopped stays self.old }
    {
        self.active -= 1;
        if stays {
            self.recovering += 1;
        }
    }

    /// A CCB in recovery waits again, under a number that does not wait yet. It asks for one in recovery, and
    /// so there is room.
    pub fn put_back(&mut self, number: CcbId, priority: u32)
        requires recovering { 1 ≤ self.old.recovering }
        requires new { waits number self.old.waiting ≡ false }
        ensures { self.new ≡ with_waiting number priority (with_left self.old) }
    {
        self.leave();
        self.waiting
            .add(WaitingCcb { priority, number }, &mut self.steps);
    }

    /// A CCB in recovery is out, and leaves room for another one. It asks for one in recovery.
    pub fn leave(&mut self)
        requires { 1 ≤ self.old.recovering }
        ensures left { self.new ≡ with_left self.old }
        ensures room { live self.new < MAX_LIVE }
    {
        self.recovering -= 1;
    }

    /// How many CCBs wait, are active, and are in recovery, at most 256 in all.
    pub fn counts(&self) -> (u32, u32, u32)
        ensures counts { result ≡ (length self.now.waiting, self.now.active, self.now.recovering) }
        ensures bound { live self.now ≤ MAX_LIVE }
    {
        (self.waiting.len() as u32, self.active, self.recovering)
    }

    /// Whether a CCB of this number waits.
    pub fn waits(&self, number: CcbId) -> bool
        ensures { result ≡ waits number self.now.waiting }
    {
        self.waiting.waits(number)
    }

    /// How many times the last `insert`, `start`, `withdraw` or `put_back` that was not refused compared two waiting CCBs, 0
    /// before any: at most 16.
    pub fn steps(&self) -> u32
        ensures { result ≤ MAX_STEPS }
    {
        self.steps
    }

    /// How many CCBs may be active for another one to start, from 1 to 255.
    pub fn openings(&self) -> u8
        ensures openings { result ≡ self.now.openings }
        ensures bound { 1 ≤ result }
    {
        self.openings
    }

    /// Changes the openings to a number of at least 1. One below the active CCBs stops starts and nothing
    /// else.
    pub fn set_openings(&mut self, openings: u8)
        requires { 1 ≤ openings }
        ensures { self.new ≡ record self.old { openings = openings } }
    {
        self.openings = openings;
    }
}
