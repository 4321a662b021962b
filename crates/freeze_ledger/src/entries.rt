// The entries of a ledger: freezes under keys that the slab picks, beside a stored count a place. It relies on `slab`, which
// gives a key again once its entry is gone.

ghost use Rattle.std.specs.Prelude.{◌≡◌, ◌+◌, ◌<◌, ◌≤◌, ◌++◌, ◌∷◌, ◌↔◌, [], length, false, IsTrue, IsSome, IsNone, Some, None, IfSome, OnSome, IfOk, IfNone, Contains, ℕ, ◌≢◌};
ghost use Rattle.freeze_ledger.specs.declared.freeze.Freeze.{Freeze as Entry};
ghost use Rattle.freeze_ledger.specs.declared.freeze.Holder.TheVariants.{Timer};
ghost use Rattle.freeze_ledger.specs.declared.ledger.TheConstants.{MAX_FREEZES, MAX_PLACE_FREEZES};
ghost use Rattle.freeze_ledger.specs.Deadlines.{deadlines_of, timers_in};
ghost use Rattle.freeze_ledger.specs.Entries.{EntriesState, all_of, freeze_at, Changes, AreListed};
ghost use Rattle.freeze_ledger.specs.Freezes.{entry_of, frozen, meets_limit, without, handed_over};
ghost use Rattle.freeze_ledger.specs.Invariant.{AreApart, AreGiven, AreKnown};
ghost use Rattle.ccb.specs.Places.{index_of};

use crate::freeze::{Freeze, Holder};
use crate::ledger::{MAX_FREEZE_NUMBER, MAX_FREEZES, MAX_PLACE_FREEZES};
use ccb::Place;
use slab::Slab;
use std::alloc::{AllocError, Global};
use std::marker::Model;

/// The entries, with room for 1024: no later call takes memory. Contracts see how many places there are, the greatest number
/// given so far, how many keys there may be, and what stands under each.
#[derive(Drop)]
pub(crate) struct Entries {
    slots: Slab<Freeze>,
    counts: Vec<u8>,
    greatest: u32,
}

impl Model for Entries {
    ghost use Rattle.std.specs.Prelude.{length};
    ghost use Rattle.freeze_ledger.specs.Entries.{EntriesState};

    ghost Value = { EntriesState };

    ghost use Rattle.freeze_ledger.specs.Invariant.{LedgerIsKept};

    ghost view = { λ e. record { places = length e.counts.items; greatest = e.greatest; keys = e.slots.capacity; slots = e.slots.slots } };

    ghost invariant = { λ e. LedgerIsKept e.slots e.counts.items e.greatest };
}

impl Entries {
    /// None, for the places from 0 to `places` - 1, with room for 1024.
    pub(crate) fn with_room(alloc: Global, places: usize) -> Result<Self, AllocError>
        ensures places { IfOk result (λ entries. entries.places ≡ places) }
        ensures greatest { IfOk result (λ entries. entries.greatest ≡ 0) }
        ensures empty { IfOk result (λ entries. entries.slots ≡ []) }
    {
        let slots = Slab::with_capacity(alloc, MAX_FREEZES)?;
        let counts = vec![in alloc; 0u8; places]?;
        Ok(Entries {
            slots,
            counts,
            greatest: 0,
        })
    }

    /// Whether a further freeze of the place meets a limit.
    pub(crate) fn meets_limit(&self, place: Place) -> bool
        requires { index_of place < self.now.places }
        ensures { result ≡ meets_limit place (all_of self.now) self.now.greatest }
    {
        self.counts[place.index()] == MAX_PLACE_FREEZES
            || self.slots.len() == MAX_FREEZES
            || self.greatest == MAX_FREEZE_NUMBER
    }

    /// Enters a freeze under the number after the greatest given, and answers its key and what it is.
    pub(crate) fn enter(&mut self, place: Place, holder: Holder) -> (usize, Freeze)
        requires place { index_of place < self.old.places }
        requires room { meets_limit place (all_of self.old) self.old.greatest ≡ false }
        ensures freeze { result.1 ≡ record { number = self.old.greatest + 1; place = place; holder = holder } }
        ensures key { result.0 < self.old.keys }
        ensures vacant { freeze_at self.old.slots result.0 ≡ None }
        ensures changes { Changes self.old.slots self.new.slots result.0 (Some result.1) }
        ensures greatest { self.new.greatest ≡ self.old.greatest + 1 }
        ensures places { self.new.places ≡ self.old.places }
        ensures keys { self.new.keys ≡ self.old.keys }
        ensures freezes { all_of self.new ≡ all_of self.old ++ result.1 ∷ [] }
    {
        let number = self.greatest + 1;
        let freeze = Freeze {
            number,
            place,
            holder,
        };
        let at = place.index();
        let count = self.counts[at] + 1;
        let key = self.slots.insert_reserved(freeze);
        self.counts[at] = count;
        self.greatest = number;
        (key, freeze)
    }

    /// The numbers up to this one, which is at least the greatest given, are given no more.
    pub(crate) fn pass_over(&mut self, number: u32)
        requires { self.old.greatest ≤ number }
        ensures slots { self.new.slots ≡ self.old.slots }
        ensures greatest { self.new.greatest ≡ number }
        ensures places { self.new.places ≡ self.old.places }
        ensures keys { self.new.keys ≡ self.old.keys }
        ensures freezes { all_of self.new ≡ all_of self.old }
    {
        self.greatest = number;
    }

    /// Removes what stands under the key: its place has one freeze fewer.
    pub(crate) fn remove(&mut self, key: usize, freeze: Freeze)
        requires { freeze_at self.old.slots key ≡ Some freeze }
        ensures changes { Changes self.old.slots self.new.slots key None }
        ensures greatest { self.new.greatest ≡ self.old.greatest }
        ensures places { self.new.places ≡ self.old.places }
        ensures keys { self.new.keys ≡ self.old.keys }
        ensures freezes { all_of self.new ≡ without freeze.number (all_of self.old) }
        ensures timers { timers_in (all_of self.new) + deadlines_of (Some freeze) ≡ timers_in (all_of self.old) }
    {
        let at = freeze.place.index();
        let count = self.counts[at] - 1;
        self.slots.remove(key);
        self.counts[at] = count;
    }

    /// Makes a timer the holder of what stands under the key.
    pub(crate) fn hand_over(&mut self, key: usize, freeze: Freeze, due: u64)
        requires { freeze_at self.old.slots key ≡ Some freeze }
        ensures changes { Changes self.old.slots self.new.slots key (Some (record freeze { holder = Timer due })) }
        ensures greatest { self.new.greatest ≡ self.old.greatest }
        ensures places { self.new.places ≡ self.old.places }
        ensures keys { self.new.keys ≡ self.old.keys }
        ensures freezes { all_of self.new ≡ handed_over freeze.number due (all_of self.old) }
        ensures timers { timers_in (all_of self.new) + deadlines_of (Some freeze) ≡ timers_in (all_of self.old) + 1 }
    {
        let holder = Holder::Timer(due);
        self.slots[key] = Freeze { holder, ..freeze };
    }

    /// The key under which this very freeze stands. The key of its token says where to look first: there each freeze is that
    /// this ledger took and still has. Where it is not there, all others are looked at: the token may be of another ledger.
    pub(crate) fn key_of(&self, freeze: Freeze, entered: usize) -> Option<usize>
        ensures there { IfSome result (λ key. freeze_at self.now.slots key ≡ Some freeze) }
        ensures held { IsSome result ↔ Contains (all_of self.now) freeze }
        ensures number { OnSome result (entry_of freeze.number (all_of self.now) ≡ Some freeze) }
        ensures place { OnSome result (index_of freeze.place < self.now.places) }
    {
        if stands_at(&self.slots, entered, freeze) {
            return Some(entered);
        }
        searched(&self.slots, freeze)
    }

    /// What stands under the key.
    pub(crate) fn at(&self, key: usize) -> Freeze
        requires { IsSome (freeze_at self.now.slots key) }
        ensures { freeze_at self.now.slots key ≡ Some result }
    {
        self.slots[key]
    }

    /// How many freezes the place has, a stored number.
    pub(crate) fn count(&self, place: Place) -> u32
        requires { index_of place < self.now.places }
        ensures entries { result ≡ frozen place (all_of self.now) }
        ensures bound { result ≤ MAX_PLACE_FREEZES }
    {
        u32::from(self.counts[place.index()])
    }

    /// The greatest number that was given.
    pub(crate) fn greatest(&self) -> u32
        ensures { result ≡ self.now.greatest }
    {
        self.greatest
    }

    /// How many freezes there are in all.
    pub(crate) fn len(&self) -> usize
        ensures entries { result ≡ length (all_of self.now) }
        ensures bound { result ≤ MAX_FREEZES }
    {
        self.slots.len()
    }

    /// All freezes under their keys.
    pub(crate) fn slots(&self) -> &Slab<Freeze>
        ensures { result.now.slots ≡ self.now.slots }
    {
        &self.slots
    }

    /// How many keys there may be: each is below it.
    pub(crate) fn keys(&self) -> usize
        ensures { result ≡ self.now.keys }
    {
        self.slots.capacity()
    }

    /// How many places there are.
    pub(crate) fn places(&self) -> usize
        ensures { result ≡ self.now.places }
    {
        self.counts.len()
    }

    /// What stands there is told apart by its number, from 1 to the greatest given: a fact that only these fields know.
    pub(crate) fn are_numbered(&self)
        ensures apart { AreApart self.now.slots }
        ensures given { AreGiven self.now.slots self.now.greatest }
        ensures known { AreKnown self.now.slots self.now.places }
    {
        let _greatest = self.greatest;
    }

    /// What stands there is in the list of all: a fact that only these fields know.
    pub(crate) fn are_listed(&self)
        ensures { AreListed self.now }
    {
        let _greatest = self.greatest;
    }
}

// Whether this very freeze stands under the key.
fn stands_at(slots: &Slab<Freeze>, key: usize, freeze: Freeze) -> bool
    ensures { IsTrue result ↔ (freeze_at slots.now.slots key ≡ Some freeze) }
{
    match slots.get(key) {
        Some(there) => there.is_same(&freeze),
        None => false,
    }
}

// The key under which this very freeze stands.
fn searched(slots: &Slab<Freeze>, freeze: Freeze) -> Option<usize>
    ensures there { IfSome result (λ key. freeze_at slots.now.slots key ≡ Some freeze) }
    ensures none { IfNone result ((key : ℕ) → freeze_at slots.now.slots key ≢ Some freeze) }
{
    for (key, there) in slots.iter() {
        if there.is_same(&freeze) {
            return Some(key);
        }
    }
    None
}
