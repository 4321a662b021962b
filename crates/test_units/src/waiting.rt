// The calls of a device queue, whose waiting CCBs stand in a heap, answer as a plain list of these does.

use ccb::{CallRefusal, CcbId};
use dev_queue::{DevQueue, Frozen, MAX_LIVE, QueueFault, WaitingCcb};
use std::alloc::{AllocError, Global};

/// How many calls are made.
const CALLS: u32 = 10_000;

/// After so many calls a queue that was filled is emptied, and the other way round.
const TURN: u32 = 700;

/// CCBs have numbers below this, and priorities below the other, so that many are tied.
const NUMBERS: u32 = 400;

const PRIORITIES: u32 = 4;

/// How often the queue is frozen, and its controller.
#[derive(Drop)]
struct Freezes {
    queue: u32,
    controller: u32,
}

impl Frozen for Freezes {
    ghost frozen_count = { λ f. f.queue };

    ghost controller_count = { λ f. f.controller };

    fn frozen(&self) -> u32 {
        self.queue
    }

    fn controller_frozen(&self) -> u32 {
        self.controller
    }
}

/// None of either.
const NONE: Freezes = Freezes {
    queue: 0,
    controller: 0,
};

/// Numbers without an order, the same ones each time.
#[derive(Drop)]
struct Numbers(u32);

impl Numbers {
    fn next(&mut self) -> u32 {
        self.0 = self.0.wrapping_mul(1_664_525).wrapping_add(1_013_904_223);
        self.0 >> 12
    }
}

/// The queue as a plain list.
#[derive(Drop)]
struct PlainQueue {
    waiting: Vec<WaitingCcb>,
    active: u32,
    recovering: u32,
    openings: u8,
}

impl PlainQueue {
    fn new(alloc: Global, openings: u8) -> Self {
        PlainQueue {
            waiting: Vec::new(alloc),
            active: 0,
            recovering: 0,
            openings,
        }
    }

    fn counts(&self) -> (u32, u32, u32) {
        (
            self.waiting.len().try_into().unwrap_or(u32::MAX),
            self.active,
            self.recovering,
        )
    }

    fn is_full(&self) -> bool {
        let (waiting, active, recovering) = self.counts();
        waiting.saturating_add(active).saturating_add(recovering) >= MAX_LIVE
    }

    fn waits(&self, number: CcbId) -> bool {
        self.waiting.iter().any(|pair| pair.number == number)
    }

    fn add(&mut self, pair: WaitingCcb) -> Result<(), AllocError> {
        self.waiting.push(pair)?;
        Ok(())
    }

    fn least(&self) -> Option<WaitingCcb> {
        let mut least: Option<WaitingCcb> = None;
        for pair in self.waiting.iter() {
            least = earlier(least, *pair);
        }
        least
    }

    fn start(&mut self, freezes: &Freezes) -> Result<CcbId, QueueFault> {
        if freezes.queue != 0 {
            return Err(QueueFault::Refused(CallRefusal::Frozen));
        }
        if self.active >= u32::from(self.openings) {
            return Err(QueueFault::Refused(CallRefusal::NoOpening));
        }
        let Some(pair) = self.least() else {
            return Err(QueueFault::Refused(CallRefusal::NothingWaits));
        };
        if freezes.controller != 0 {
            return Err(QueueFault::Refused(CallRefusal::ControllerFrozen));
        }
        let number = pair.number;
        self.waiting.retain(|other| other.number != number);
        self.active = self.active.saturating_add(1);
        Ok(number)
    }
}

// Of two CCBs the one that starts first.
fn earlier(least: Option<WaitingCcb>, pair: WaitingCcb) -> Option<WaitingCcb> {
    match least {
        Some(other) => {
            if (other.priority, other.number.0) < (pair.priority, pair.number.0) {
                Some(other)
            } else {
                Some(pair)
            }
        }
        None => Some(pair),
    }
}

/// A queue, the plain one beside it, and how often both are frozen.
#[derive(Drop)]
struct Both {
    queue: DevQueue,
    plain: PlainQueue,
    freezes: Freezes,
    numbers: Numbers,
    differs: bool,
}

impl Both {
    fn next_pair(&mut self) -> WaitingCcb {
        let number = CcbId(self.numbers.next() % NUMBERS);
        let priority = self.numbers.next() % PRIORITIES;
        WaitingCcb { priority, number }
    }

    // Whether both answer alike so far.
    fn see(&mut self, alike: bool) {
        if !alike {
            self.differs = true;
        }
    }

    // One more, if none of that number waits. A refusal leaves the count of comparisons as it was.
    fn insert(&mut self) -> Result<(), AllocError> {
        let pair = self.next_pair();
        let there = self.queue.waits(pair.number);
        let alike = there == self.plain.waits(pair.number);
        if there {
            self.see(alike);
            return Ok(());
        }
        let before = self.queue.steps();
        let is_full = self.plain.is_full();
        match self.queue.insert(pair.number, pair.priority) {
            Ok(()) => {
                self.see(alike && !is_full);
                self.plain.add(pair)
            }
            Err(fault) => {
                let after = self.queue.steps();
                self.see(alike && is_full && fault == QueueFault::Full && after == before);
                Ok(())
            }
        }
    }

    fn start(&mut self) {
        let before = self.queue.steps();
        let started = self.queue.start(&self.freezes);
        let wanted = self.plain.start(&self.freezes);
        let after = self.queue.steps();
        self.see(started == wanted && (started.is_ok() || after == before));
    }

    fn stop(&mut self) {
        let stays = self.numbers.next() % 4 != 0;
        let (_, active, _) = self.queue.counts();
        if active == 0 {
            return;
        }
        self.queue.stop(stays);
        self.plain.active = self.plain.active.saturating_sub(1);
        if stays {
            self.plain.recovering = self.plain.recovering.saturating_add(1);
        }
    }

    fn put_back(&mut self) -> Result<(), AllocError> {
        let pair = self.next_pair();
        let (_, _, recovering) = self.queue.counts();
        if recovering == 0 || self.queue.waits(pair.number) {
            return Ok(());
        }
        self.queue.put_back(pair.number, pair.priority);
        self.plain.recovering = self.plain.recovering.saturating_sub(1);
        self.plain.add(pair)
    }

    fn leave(&mut self) {
        let (_, _, recovering) = self.queue.counts();
        if recovering == 0 {
            return;
        }
        self.queue.leave();
        self.plain.recovering = self.plain.recovering.saturating_sub(1);
    }

    // One is withdrawn, if one of that number waits.
    fn withdraw(&mut self) {
        let number = self.next_pair().number;
        if !self.queue.waits(number) {
            return;
        }
        self.queue.withdraw(number);
        self.plain.waiting.retain(|other| other.number != number);
    }

    fn set_openings(&mut self) {
        let openings = 1 + (self.numbers.next() % 200) as u8;
        self.queue.set_openings(openings);
        self.plain.openings = openings;
    }

    // One call, and the counts after it.
    fn call(&mut self, fills: bool) -> Result<(), AllocError> {
        match self.numbers.next() % 16 {
            0 => self.set_openings(),
            1 => {
                self.freezes = Freezes {
                    queue: self.numbers.next() % 2,
                    controller: self.numbers.next() % 2,
                };
            }
            2 | 3 => self.put_back()?,
            4 => self.stop(),
            5 => self.leave(),
            6 => self.start(),
            7 => self.withdraw(),
            _ if fills => self.insert()?,
            8 | 9 | 10 => self.start(),
            11 | 12 | 13 => self.stop(),
            _ => self.leave(),
        }
        let counted = self.queue.counts() == self.plain.counts();
        let opened = self.queue.openings() == self.plain.openings;
        self.see(counted && opened);
        Ok(())
    }
}

// What comes last starts all that still wait.
fn start_all(both: &mut Both) {
    both.freezes = NONE;
    both.queue.set_openings(u8::MAX);
    both.plain.openings = u8::MAX;
    for _turn in 0..MAX_LIVE {
        both.start();
        both.stop();
    }
    let (waiting, _, _) = both.queue.counts();
    both.see(waiting == 0);
}

// Makes the calls. Whether the heap was deep, and the queue full often.
fn call_all(both: &mut Both) -> Result<bool, AllocError> {
    let mut most = 0;
    let mut full = 0u32;
    for turn in 0..CALLS {
        both.call(turn / TURN % 2 == 0)?;
        most = most.max(both.queue.steps());
        if both.plain.is_full() {
            full = full.wrapping_add(1);
        }
    }
    Ok(most >= 13 && full >= 100)
}

pub fn a_heap_answers_as_a_plain_list_does(alloc: Global) -> Result<bool, AllocError> {
    let mut both = Both {
        queue: DevQueue::with_room(alloc, 2)?,
        plain: PlainQueue::new(alloc, 2),
        freezes: NONE,
        numbers: Numbers(42),
        differs: false,
    };
    let begins = both.queue.steps() == 0;
    let reached = call_all(&mut both)?;
    start_all(&mut both);
    Ok(begins && reached && !both.differs)
}
