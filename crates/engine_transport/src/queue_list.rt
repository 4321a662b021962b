// The device queues as a plain list: what a call of one of them changes. It relies on `dev_queue` for the queues.

ghost use Rattle.std.specs.Prelude.{◌≡◌, ◌<◌, ◌≤◌, ◌++◌, [], ◌∷◌, false, true, nat_le, length, slice_set, if◌then◌else◌, IfOk, OnOk, OnErr};
ghost use Rattle.std.specs.Result.{result_err};
ghost use Rattle.dev_queue.specs.Waiting.{IsLeastNumber, waits};
ghost use Rattle.dev_queue.specs.State.{empty_queue, live, with_waiting, with_started, with_withdrawn, with_stopped, with_left};
ghost use Rattle.dev_queue.specs.Faults.{insert_fault, start_fault};
ghost use Rattle.engine_transport.specs.Carrying.{with_carried};
ghost use Rattle.engine_transport.specs.Queues.{queue_at, with_gone};
ghost use Rattle.engine_transport.specs.Refusals.{refusal_of};

use ccb::{CcbId, QueueId};
use dev_queue::{DevQueue, Frozen, QueueFault};
use std::alloc::{AllocError, Global};
use std::marker::Model;
use world_calls::{CallRefusal, CarriedCcb};

/// How often a queue is frozen, and its controller.
#[derive(Drop)]
pub(crate) struct FrozenTimes {
    pub(crate) queue: u32,
    pub(crate) controller: u32,
}

impl Frozen for FrozenTimes {
    ghost frozen_count = { λ f. f.queue };

    ghost controller_count = { λ f. f.controller };

    fn frozen(&self) -> u32 {
        self.queue
    }

    fn controller_frozen(&self) -> u32 {
        self.controller
    }
}

/// The refusal that tells a queue's fault.
pub(crate) fn refusal(fault: QueueFault) -> CallRefusal
    ensures { result ≡ refusal_of fault }
{
    match fault {
        QueueFault::Full => CallRefusal::Limit,
        QueueFault::Refused(refusal) => refusal,
    }
}

/// The device queues in the order of their numbers from 0. Contracts see the list of what is seen of each.
#[derive(Drop)]
pub(crate) struct QueueList {
    queues: Vec<DevQueue>,
}

impl Model for QueueList {
    ghost use Rattle.std.specs.Prelude.{List};
    ghost use Rattle.dev_queue.specs.State.{QueueState};

    ghost Value = { List QueueState };

    ghost view = { λ l. l.queues.items };
}

impl QueueList {
    /// No queues.
    pub(crate) fn new(alloc: Global) -> Self
        ensures { result ≡ [] }
    {
        QueueList {
            queues: Vec::new(alloc),
        }
    }

    /// How many queues there are.
    pub(crate) fn len(&self) -> usize
        ensures { result ≡ length self.now }
    {
        self.queues.len()
    }

    /// The queue of that number.
    pub(crate) fn get(&self, queue: QueueId) -> &DevQueue
        requires { queue.0 < length self.now }
        ensures { result.now ≡ queue_at self.now queue.0 }
    {
        &self.queues[queue.0 as usize]
    }

    /// One queue more, without CCBs, with so many openings. Where memory is refused, nothing changes.
    pub(crate) fn add(&mut self, openings: u8) -> Result<(), AllocError>
        requires { 1 ≤ openings }
        ensures added { OnOk result (self.new ≡ self.old ++ empty_queue openings ∷ []) }
        ensures refused { OnErr result (self.new ≡ self.old) }
    {
        let queue = DevQueue::with_room(*self.queues.allocator(), openings)?;
        self.queues.push(queue)?;
        Ok(())
    }

    /// One CCB more waits. Q1, which changes nothing, exactly where 256 CCBs of the queue are live.
    pub(crate) fn insert(
        &mut self,
        queue: QueueId,
        number: CcbId,
        priority: u32,
    ) -> Result<(), QueueFault>
        requires known { queue.0 < length self.old }
        requires new { waits number (queue_at self.old queue.0).waiting ≡ false }
        ensures fault { result_err result ≡ insert_fault (queue_at self.old queue.0) }
        ensures waits { OnOk result (self.new ≡ slice_set self.old queue.0 (with_waiting number priority (queue_at self.old queue.0))) }
        ensures refused { OnErr result (self.new ≡ self.old) }
    {
        self.queues[queue.0 as usize].insert(number, priority)
    }

    /// One CCB more, which is taken over: it waits, or is active. Q1, which changes nothing, exactly where 256 CCBs of the queue are
    /// live.
    pub(crate) fn carry(&mut self, carried: &CarriedCcb) -> Result<(), QueueFault>
        requires known { carried.now.queue.0 < length self.old }
        requires new { waits carried.now.number (queue_at self.old carried.now.queue.0).waiting ≡ false }
        ensures fault { result_err result ≡ insert_fault (queue_at self.old carried.now.queue.0) }
        ensures carried { OnOk result (self.new ≡ slice_set self.old carried.now.queue.0 (with_carried carried.now (queue_at self.old carried.now.queue.0))) }
        ensures refused { OnErr result (self.new ≡ self.old) }
    {
        let queue = &mut self.queues[carried.queue.0 as usize];
        if carried.is_active {
            queue.insert_active()
        } else {
            queue.insert(carried.number, carried.priority)
        }
    }

    /// Starts the waiting CCB of the queue that is least, where the queue and its controller are frozen so many times.
    pub(crate) fn start(
        &mut self,
        queue: QueueId,
        freezes: &FrozenTimes,
    ) -> Result<CcbId, QueueFault>
        requires { queue.0 < length self.old }
        ensures fault { result_err result ≡ start_fault freezes.now.queue freezes.now.controller (queue_at self.old queue.0) }
        ensures least { IfOk result (IsLeastNumber (queue_at self.old queue.0).waiting) }
        ensures started { IfOk result (λ number. self.new ≡ slice_set self.old queue.0 (with_started number (queue_at self.old queue.0))) }
        ensures refused { OnErr result (self.new ≡ self.old) }
    {
        self.queues[queue.0 as usize].start(freezes)
    }

    /// A CCB of the queue that waits is out.
    pub(crate) fn withdraw(&mut self, queue: QueueId, number: CcbId)
        requires known { queue.0 < length self.old }
        requires there { waits number (queue_at self.old queue.0).waiting ≡ true }
        ensures { self.new ≡ slice_set self.old queue.0 (with_withdrawn number (queue_at self.old queue.0)) }
    {
        self.queues[queue.0 as usize].withdraw(number);
    }

    /// The queue has so many openings from now on.
    pub(crate) fn set_openings(&mut self, queue: QueueId, openings: u8)
        requires known { queue.0 < length self.old }
        requires some { 1 ≤ openings }
        ensures { self.new ≡ slice_set self.old queue.0 (record (queue_at self.old queue.0) { openings = openings }) }
    {
        self.queues[queue.0 as usize].set_openings(openings);
    }

    /// An active CCB of the queue stops: it stays, in recovery, or is out.
    pub(crate) fn stop(&mut self, queue: QueueId, stays: bool)
        requires known { queue.0 < length self.old }
        requires active { 1 ≤ (queue_at self.old queue.0).active }
        ensures { self.new ≡ slice_set self.old queue.0 (with_stopped stays (queue_at self.old queue.0)) }
    {
        self.queues[queue.0 as usize].stop(stays);
    }

    /// A CCB of the queue, active or else in recovery, is out.
    pub(crate) fn leave(&mut self, queue: QueueId, active: bool)
        requires known { queue.0 < length self.old }
        requires there { 1 ≤ (if active then (queue_at self.old queue.0).active else (queue_at self.old queue.0).recovering) }
        ensures { self.new ≡ slice_set self.old queue.0 (with_gone active (queue_at self.old queue.0)) }
    {
        if active {
            self.stop(queue, false);
        } else {
            self.queues[queue.0 as usize].leave();
        }
    }

    /// A CCB of the queue that is in recovery waits again.
    pub(crate) fn put_back(&mut self, queue: QueueId, number: CcbId, priority: u32)
        requires known { queue.0 < length self.old }
        requires recovering { 1 ≤ (queue_at self.old queue.0).recovering }
        requires new { waits number (queue_at self.old queue.0).waiting ≡ false }
        ensures { self.new ≡ slice_set self.old queue.0 (with_waiting number priority (with_left (queue_at self.old queue.0))) }
    {
        self.queues[queue.0 as usize].put_back(number, priority);
    }
}
