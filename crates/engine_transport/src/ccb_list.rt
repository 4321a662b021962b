// The live CCBs in the order of their numbers, for which room is taken once. It relies on `live_ccb` for what an entry is,
// and on `cam_numbered_slots` for where it stands.

ghost use Rattle.std.specs.Prelude.{◌≡◌, ◌+◌, ◌<◌, ◌≤◌, ◌++◌, [], ◌∷◌, ◌==◌, ℕ, nat_le, not, length, filter, slice_index_or, ◌↔◌, IfOk, IfSome, IfNone, IsSome, None, Some, if◌then◌else◌};
ghost use Rattle.world.specs.Capacities.{most_ccbs};
ghost use Rattle.world.specs.World.{LiveCcb as WorldCcb};
ghost use Rattle.world.specs.Lookups.{ccb_of, with_ccb};
ghost use Rattle.engine_transport.specs.Listed.{ListState, IsPlaceOf, no_live, is_full, all_active};

use crate::live_ccb::LiveCcb;
use cam_numbered_slots::NumberedSlots;
use ccb::CcbId;
use std::alloc::{AllocError, Global};
use std::marker::Model;

/// How many CCBs are live at a time, in all queues.
const MAX_CCBS: usize = 4096;

/// The live CCBs, the greatest number that was given, and how many are active. Contracts see the first two.
#[derive(Drop)]
pub(crate) struct CcbList {
    ccbs: NumberedSlots<LiveCcb>,
    greatest: u32,
    active: u32,
}

impl Model for CcbList {
    ghost use Rattle.engine_transport.specs.Listed.{ListState, IsListed};

    ghost Value = { ListState };

    ghost view = { λ l. record { live = l.ccbs.values; greatest = l.greatest } };

    ghost invariant = { λ l. IsListed l.ccbs l.greatest l.active };
}

// How many CCBs are active after one that was, or was not, is or is not.
fn moved(active: u32, was: bool, is: bool) -> u32
    requires some { (if was then 1 else 0) ≤ active }
    requires few { active ≤ most_ccbs }
    ensures { result + (if was then 1 else 0) ≡ active + (if is then 1 else 0) }
{
    match (was, is) {
        (true, false) => active - 1,
        (false, true) => active + 1,
        (true, true) | (false, false) => active,
    }
}

impl CcbList {
    /// No CCB, none was given a number, and there is room for 4096: no later call takes memory.
    pub(crate) fn with_room(alloc: Global) -> Result<Self, AllocError>
        ensures { IfOk result (λ list. list ≡ no_live) }
    {
        Ok(CcbList {
            ccbs: NumberedSlots::with_room(alloc, MAX_CCBS)?,
            greatest: 0,
            active: 0,
        })
    }

    /// Whether a further CCB has no room or no number.
    pub(crate) fn is_full(&self) -> bool
        ensures { result ≡ is_full self.now }
    {
        self.ccbs.len() >= MAX_CCBS || self.greatest == u32::MAX
    }

    /// Whether as many CCBs are live as may be.
    pub(crate) fn is_crowded(&self) -> bool
        ensures { result ≡ nat_le most_ccbs (length self.now.live) }
    {
        self.ccbs.len() >= MAX_CCBS
    }

    /// The greatest number that was given, 0 before the first.
    pub(crate) fn greatest(&self) -> u32
        ensures { result ≡ self.now.greatest }
    {
        self.greatest
    }

    /// How many CCBs are active, at most 4096. It is a stored number.
    pub(crate) fn active(&self) -> u32
        ensures value { result ≡ all_active self.now.live }
        ensures bound { result ≤ most_ccbs }
    {
        self.active
    }

    /// Where the CCB of this number stands in the order of the numbers; `None` exactly where no live one has it.
    pub(crate) fn place_of(&self, number: CcbId) -> Option<usize>
        ensures found { IfSome result (IsPlaceOf number.0 self.now.live) }
        ensures none { IfNone result (ccb_of number.0 self.now.live ≡ None) }
    {
        self.ccbs.place_of(number.0)
    }

    /// The CCB at this place.
    pub(crate) fn at(&self, place: usize) -> &LiveCcb
        requires { place < length self.now.live }
        ensures { (number : ℕ) → IsPlaceOf number self.now.live place → ccb_of number self.now.live ≡ Some result.now }
    {
        &self.ccbs[place]
    }

    /// The CCB that stands at this place; `None` exactly where fewer are there.
    pub(crate) fn nth(&self, place: usize) -> Option<LiveCcb>
        ensures there { IsSome result ↔ (place < length self.now.live) }
        ensures value { IfSome result (λ live. live ≡ slice_index_or self.now.live place live) }
    {
        if place < self.ccbs.len() {
            Some(self.ccbs[place])
        } else {
            None
        }
    }

    /// One CCB more, under the number after the greatest given.
    pub(crate) fn enter(&mut self, live: LiveCcb)
        requires room { length self.old.live < most_ccbs }
        requires next { live.ccb.number.0 ≡ self.old.greatest + 1 }
        ensures { self.new ≡ record { live = self.old.live ++ live ∷ []; greatest = live.ccb.number.0 } }
    {
        self.greatest = live.number().0;
        self.active = moved(self.active, false, live.is_active());
        self.ccbs.push(live.number().0, live);
    }

    /// The numbers up to this one, which is at least the greatest given, are given no more.
    pub(crate) fn pass_over(&mut self, number: u32)
        requires { self.old.greatest ≤ number }
        ensures { self.new ≡ record self.old { greatest = number } }
    {
        self.greatest = number;
    }

    /// Puts a CCB in the place of the one of its number, which stands there.
    pub(crate) fn change(&mut self, place: usize, changed: &LiveCcb)
        requires { IsPlaceOf changed.now.ccb.number.0 self.old.live place }
        ensures { self.new ≡ record self.old { live = with_ccb changed.now self.old.live } }
    {
        let was = self.ccbs[place].is_active();
        self.active = moved(self.active, was, changed.is_active());
        self.ccbs[place] = *changed;
    }

    /// Takes out the CCB of this number, which is there.
    pub(crate) fn remove(&mut self, number: CcbId) -> LiveCcb
        requires { (it : WorldCcb) × (ccb_of number.0 self.old.live ≡ Some it) }
        ensures gone { ccb_of number.0 self.old.live ≡ Some result }
        ensures others { self.new ≡ record self.old { live = filter (λ live. not (live.ccb.number.0 == number.0)) self.old.live } }
    {
        let Some(place) = self.ccbs.place_of(number.0) else {
            unreachable!()
        };
        let gone = self.ccbs.remove(place);
        self.active = moved(self.active, gone.is_active(), false);
        gone
    }
}
