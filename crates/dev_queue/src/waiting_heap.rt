// The CCBs of a queue that wait, as a binary heap, reserved once: under the pair at a place stand those at twice the place
// and one or two more, and none of them starts before it. It relies on `starts_before` for which of two starts first, and
// for the count of such comparisons.

ghost use Rattle.std.specs.Prelude.{◌≡◌, ◌+◌, ◌-◌, ◌*◌, ◌<◌, ◌≤◌, [], true, false, length, slice_index_or, IfOk, IfSome, IfNone, OnSome};
ghost use Rattle.std.specs.List.Sorted.{IsPermutation};
ghost use Rattle.dev_queue.specs.declared.waiting_ccb.WaitingCcb.{WaitingCcb};
ghost use Rattle.dev_queue.specs.Heap.{IsHeap, IsFirstUnder, MayRise, MaySink, StandsAt};
ghost use Rattle.dev_queue.specs.Waiting.{IsLeast, with_pair, without, waits};

use crate::dev_queue::{MAX_LIVE, MAX_STEPS};
use crate::starts_before::starts_before;
use crate::waiting_ccb::WaitingCcb;
use ccb::CcbId;
use std::alloc::{AllocError, Global};
use std::marker::Model;

/// How many CCBs can wait at a time.
const ROOM: usize = MAX_LIVE as usize;

/// How many times a pair can go down, where fewer than 256 stand: once it did so, it is at the first place or after,
/// twice, at the third, and so on.
const LEVELS: usize = 8;

// Whether one of these has that number. This walks through all of them.
fn has_number(pairs: &[WaitingCcb], number: CcbId) -> bool
    ensures { result ≡ waits number pairs.now }
{
    pairs.iter().any(|pair| pair.number == number)
}

// Where the pair of this number stands, which is there. This walks through all of them.
fn place_of(pairs: &[WaitingCcb], number: CcbId) -> usize
    requires { waits number pairs.now ≡ true }
    ensures { StandsAt pairs.now number result }
{
    for place in 0..pairs.len() {
        if pairs[place].number == number {
            return place;
        }
    }
    unreachable!()
}

// Of the pairs under this place the one that starts first, if there are any.
fn first_under(pairs: &[WaitingCcb], place: usize, steps: &mut u32) -> Option<usize>
    requires few { place ≤ MAX_LIVE }
    requires room { steps.old < MAX_STEPS }
    ensures first { IfSome result (IsFirstUnder pairs.now place) }
    ensures none { IfNone result (length pairs.now ≤ 2 * place + 1) }
    ensures counted { steps.new ≤ steps.old + 1 }
{
    let left = 2 * place + 1;
    let right = left + 1;
    if left >= pairs.len() {
        return None;
    }
    if right >= pairs.len() {
        return Some(left);
    }
    if starts_before(pairs[right], pairs[left], steps) {
        Some(right)
    } else {
        Some(left)
    }
}

// The pair at the first place goes down, until none under it starts before it.
fn sink(pairs: &mut [WaitingCcb], steps: &mut u32)
    requires few { length pairs.old < MAX_LIVE }
    requires anew { steps.old ≡ 0 }
    requires others { MaySink pairs.old 0 }
    ensures moved { IsPermutation pairs.old pairs.new }
    ensures heap { IsHeap pairs.new }
    ensures counted { steps.new ≤ MAX_STEPS }
{
    let mut place = 0;
    for level in 0..LEVELS {
        let Some(first) = first_under(pairs, place, steps) else {
            return;
        };
        if !starts_before(pairs[first], pairs[place], steps) {
            return;
        }
        pairs.swap(place, first);
        place = first;
    }
}

// The pair at the last place goes up, until it starts before none above it.
fn rise(pairs: &mut [WaitingCcb], steps: &mut u32)
    requires some { 1 ≤ length pairs.old }
    requires few { length pairs.old ≤ MAX_LIVE }
    requires anew { steps.old ≡ 0 }
    requires others { MayRise pairs.old (length pairs.old - 1) }
    ensures moved { IsPermutation pairs.old pairs.new }
    ensures heap { IsHeap pairs.new }
    ensures counted { steps.new ≤ MAX_STEPS }
{
    let mut place = pairs.len() - 1;
    while place > 0 {
        let above = (place - 1) / 2;
        if !starts_before(pairs[place], pairs[above], steps) {
            return;
        }
        pairs.swap(place, above);
        place = above;
    }
}

// The pair at this place goes up to the first one, whatever stands above it. Nothing is compared.
fn lift(pairs: &mut [WaitingCcb], place: usize)
    requires inside { place < length pairs.old }
    requires heap { IsHeap pairs.old }
    ensures moved { IsPermutation pairs.old pairs.new }
    ensures others { MaySink pairs.new 0 }
    ensures first { (d : WaitingCcb) → slice_index_or pairs.new 0 d ≡ slice_index_or pairs.old place d }
{
    let mut here = place;
    while here > 0 {
        let above = (here - 1) / 2;
        pairs.swap(here, above);
        here = above;
    }
}

/// The waiting CCBs. Contracts see the list in the order of their numbers.
#[derive(Drop)]
pub(crate) struct WaitingHeap {
    pairs: Vec<WaitingCcb>,
}

impl Model for WaitingHeap {
    ghost use Rattle.std.specs.Prelude.{List};
    ghost use Rattle.dev_queue.specs.declared.waiting_ccb.WaitingCcb.{WaitingCcb};
    ghost use Rattle.dev_queue.specs.Waiting.{in_order};
    ghost use Rattle.dev_queue.specs.Invariant.{QueueIsKept};

    ghost Value = { List WaitingCcb };

    ghost view = { λ w. in_order w.pairs.items };

    ghost invariant = { λ w. QueueIsKept w.pairs };
}

impl WaitingHeap {
    /// No CCB waits, and there is room for 256: no later call takes memory.
    pub(crate) fn with_room(alloc: Global) -> Result<Self, AllocError>
        ensures { IfOk result (λ heap. heap ≡ []) }
    {
        Ok(WaitingHeap {
            pairs: Vec::with_capacity(alloc, ROOM)?,
        })
    }

    /// How many CCBs wait, at most 256.
    pub(crate) fn len(&self) -> usize
        ensures pairs { result ≡ length self.now }
        ensures bound { result ≤ MAX_LIVE }
    {
        self.pairs.len()
    }

    /// Whether a CCB of this number waits.
    pub(crate) fn waits(&self, number: CcbId) -> bool
        ensures { result ≡ waits number self.now }
    {
        has_number(&self.pairs, number)
    }

    /// One more CCB waits, of a number that did not. The comparisons are counted anew.
    pub(crate) fn add(&mut self, pair: WaitingCcb, steps: &mut u32)
        requires room { length self.old < MAX_LIVE }
        requires new { waits pair.number self.old ≡ false }
        ensures added { self.new ≡ with_pair pair self.old }
        ensures len { length self.new ≡ length self.old + 1 }
        ensures counted { steps.new ≤ MAX_STEPS }
    {
        *steps = 0;
        let Ok(()) = self.pairs.push(pair) else {
            unreachable!()
        };
        rise(&mut self.pairs, steps);
    }

    /// The least waiting CCB waits no more, and the comparisons are counted anew. `None`, which changes nothing, exactly
    /// where none waits.
    pub(crate) fn take_least(&mut self, steps: &mut u32) -> Option<WaitingCcb>
        ensures least { IfSome result (IsLeast self.old) }
        ensures taken { IfSome result (λ pair. self.new ≡ without pair.number self.old) }
        ensures len { OnSome result (length self.new + 1 ≡ length self.old) }
        ensures counted { OnSome result (steps.new ≤ MAX_STEPS) }
        ensures none { IfNone result ((self.old ≡ []) × (self.new ≡ []) × (steps.new ≡ steps.old)) }
    {
        if self.pairs.is_empty() {
            return None;
        }
        *steps = 0;
        let least = self.pairs.swap_remove(0);
        sink(&mut self.pairs, steps);
        Some(least)
    }

    /// The waiting CCB of this number waits no more, and the comparisons are counted anew. It asks for one that waits.
    pub(crate) fn take(&mut self, number: CcbId, steps: &mut u32)
        requires { waits number self.old ≡ true }
        ensures taken { self.new ≡ without number self.old }
        ensures len { length self.new + 1 ≡ length self.old }
        ensures counted { steps.new ≤ MAX_STEPS }
    {
        *steps = 0;
        let place = place_of(&self.pairs, number);
        lift(&mut self.pairs, place);
        self.pairs.swap_remove(0);
        sink(&mut self.pairs, steps);
    }
}
