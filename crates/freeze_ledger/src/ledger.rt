// The ledger: entries under keys, beside an index of the deadlines of those that timers hold. It relies on `entries` and
// `deadlines` for these, on `indexed` for the changes of both, and on `freeze_token` for the right to give one back.

ghost use Rattle.std.specs.Prelude.{◌≡◌, ◌<◌, ◌≤◌, ◌↔◌, [], false, length, map, IsTrue, IsSome, IsOk, Some, IsNone, IfSome, IfNone, IfOk, IfErr, OnOk, OnSome, Contains};
ghost use Rattle.ccb.specs.Rising.{AreRising};
ghost use Rattle.freeze_ledger.specs.Deadlines.{IsFirstDeadline, some_timer};
ghost use Rattle.freeze_ledger.specs.Freezes.{frozen, meets_limit, entry_of, without, handed_over, HasTimer, holders_of};
ghost use Rattle.ccb.specs.Places.{index_of, places_of};
ghost use Rattle.freeze_ledger.specs.State.{LedgerState, empty_ledger, next_freeze, with_entry, with_freezes};

use crate::chains::Chains;
use crate::deadlines::Deadlines;
use crate::entries::Entries;
use crate::freeze::{Freeze, Holder};
use crate::freeze_token::FreezeToken;
use crate::holders::Holders;
use crate::indexed::{enter, hand_over, take_out};
use ccb::Place;
use std::alloc::{AllocError, Global};
use std::marker::Model;

/// How many freezes the ledger holds at most.
pub const MAX_FREEZES: usize = 1024;

/// How many freezes one place has at most.
pub const MAX_PLACE_FREEZES: u8 = 255;

/// The greatest number that a freeze bears.
pub const MAX_FREEZE_NUMBER: u32 = 4_294_967_295;

/// The freezes of a fixed number of device queues and controllers. Contracts see the number of places, the greatest
/// number given so far, and the freezes in the order of their numbers.
#[derive(Drop)]
pub struct Ledger {
    entries: Entries,
    chains: Chains,
    deadlines: Deadlines,
}

impl Model for Ledger {
    ghost use Rattle.freeze_ledger.specs.State.{LedgerState};
    ghost use Rattle.freeze_ledger.specs.Chained.{IsChained};
    ghost use Rattle.freeze_ledger.specs.Deadlines.{IsIndex};
    ghost use Rattle.freeze_ledger.specs.Entries.{all_of, ledger_of};

    ghost Value = { LedgerState };

    ghost view = { λ l. ledger_of l.entries };

    ghost invariant = { λ l. IsIndex l.entries.slots (all_of l.entries) l.deadlines × IsChained l.entries l.chains.links.items l.chains.ends.items };
}

impl Ledger {
    /// An empty ledger for the queues from 0 to `queues` - 1 and the controllers from 0 to `controllers` - 1, with room for
    /// all 1024 entries: no later call takes memory.
    pub fn with_room(alloc: Global, queues: u32, controllers: u32) -> Result<Self, AllocError>
        ensures { IfOk result (λ ledger. ledger ≡ empty_ledger (places_of queues controllers)) }
    {
        let places = 2 * queues.max(controllers) as usize;
        let entries = Entries::with_room(alloc, places)?;
        let chains = Chains::with_room(alloc, places, entries.keys())?;
        let deadlines = Deadlines::with_room(alloc)?;
        Ok(Ledger {
            entries,
            chains,
            deadlines,
        })
    }

    /// Freezes a place once more for this holder, under the number after the greatest given. `None`,
    /// which changes nothing, exactly at a limit: the place has 255 freezes, the ledger 1024, or the
    /// numbers up to 4,294,967,295 are used up.
    pub fn take(&mut self, place: Place, holder: Holder) -> Option<FreezeToken>
        requires { index_of place < self.old.places }
        ensures limit { IsNone result ↔ IsTrue (meets_limit place self.old.freezes self.old.greatest) }
        ensures token { IfSome result (λ token. token ≡ next_freeze self.old place holder) }
        ensures entered { IfSome result (λ token. self.new ≡ with_entry self.old token) }
        ensures none { IfNone result (self.new ≡ self.old) }
    {
        if self.entries.meets_limit(place) {
            return None;
        }
        let (key, freeze) = enter(
            &mut self.entries,
            &mut self.chains,
            &mut self.deadlines,
            place,
            holder,
        );
        Some(FreezeToken::new(freeze, key))
    }

    /// The numbers up to this one, which is at least the greatest given, are given no more: the next freeze bears the number after it.
    pub fn pass_over(&mut self, number: u32)
        requires { self.old.greatest ≤ number }
        ensures { self.new ≡ record self.old { greatest = number } }
    {
        self.entries.are_numbered();
        self.entries.pass_over(number);
    }

    /// The greatest number that was given, 0 before the first.
    pub fn greatest(&self) -> u32
        ensures { result ≡ self.now.greatest }
    {
        self.entries.greatest()
    }

    /// Enters a freeze under its own number, which is above the greatest given: the right to give it back. `None`, which changes
    /// nothing, exactly at a limit: the place has 255 freezes, or the ledger 1024.
    pub fn take_over(&mut self, freeze: Freeze) -> Option<FreezeToken>
        requires place { index_of freeze.place < self.old.places }
        requires above { self.old.greatest < freeze.number }
        ensures limit { IsNone result ↔ IsTrue (meets_limit freeze.place self.old.freezes self.old.greatest) }
        ensures token { IfSome result (λ token. token ≡ freeze) }
        ensures entered { OnSome result (self.new ≡ with_entry self.old freeze) }
        ensures none { IfNone result (self.new ≡ self.old) }
    {
        if self.count(freeze.place) >= u32::from(MAX_PLACE_FREEZES) || self.len() >= MAX_FREEZES {
            return None;
        }
        self.pass_over(freeze.number - 1);
        match self.take(freeze.place, freeze.holder) {
            Some(token) => Some(token),
            None => unreachable!(),
        }
    }

    /// Removes the token's entry, and answers how many freezes its place has left, at most 254. The
    /// token comes back, and nothing changes, exactly where no entry has its number, place and holder.
    pub fn give_back(&mut self, token: FreezeToken) -> Result<u32, FreezeToken>
        ensures held { IsOk result ↔ Contains self.old.freezes token }
        ensures number { OnOk result (entry_of token.number self.old.freezes ≡ Some token) }
        ensures removed { OnOk result (self.new ≡ with_freezes self.old (without token.number self.old.freezes)) }
        ensures count { IfOk result (λ count. count ≡ frozen token.place self.new.freezes) }
        ensures refused { IfErr result (λ back. (back ≡ token) × (self.new ≡ self.old)) }
    {
        let freeze = token.freeze();
        let Some(key) = self.entries.key_of(freeze, token.key()) else {
            return Err(token);
        };
        token.forfeit();
        take_out(
            &mut self.entries,
            &mut self.chains,
            &mut self.deadlines,
            key,
            freeze,
        );
        Ok(self.count(freeze.place))
    }

    /// Makes a timer the holder of the token's entry, due at the clock reading `due`, any number of milliseconds, and
    /// spends the token. No other entry changes, and no count. The token comes back, and nothing changes, exactly
    /// where no entry has its number, place and holder.
    pub fn hand_over(&mut self, token: FreezeToken, due: u64) -> Result<(), FreezeToken>
        ensures held { IsOk result ↔ Contains self.old.freezes token }
        ensures number { OnOk result (entry_of token.number self.old.freezes ≡ Some token) }
        ensures handed { OnOk result (self.new ≡ with_freezes self.old (handed_over token.number due self.old.freezes)) }
        ensures refused { IfErr result (λ back. (back ≡ token) × (self.new ≡ self.old)) }
    {
        let freeze = token.freeze();
        let Some(key) = self.entries.key_of(freeze, token.key()) else {
            return Err(token);
        };
        token.forfeit();
        hand_over(&mut self.entries, &mut self.deadlines, key, freeze, due);
        Ok(())
    }

    /// Removes the entry of this number, and one from its place's count. It asks for an entry of that number that a
    /// timer holds. No other entry changes.
    pub fn expire(&mut self, number: u32)
        requires { HasTimer number self.old.freezes }
        ensures { self.new ≡ with_freezes self.old (without number self.old.freezes) }
    {
        let Some(deadline) = self.deadlines.of(number) else {
            unreachable!()
        };
        let key = deadline.key;
        let freeze = self.entries.at(key);
        take_out(
            &mut self.entries,
            &mut self.chains,
            &mut self.deadlines,
            key,
            freeze,
        );
    }

    /// When the timer is due that goes first, in milliseconds, and the number of the freeze that it holds: of all timers the
    /// one of the least time, and among these that of the lowest number. `None` exactly where no timer holds a freeze. It reads
    /// one entry of the index.
    pub fn first_deadline(&self) -> Option<(u64, u32)>
        ensures first { IfSome result (λ first. IsFirstDeadline self.now.freezes first.0 first.1) }
        ensures none { IsNone result ↔ (some_timer self.now.freezes ≡ false) }
    {
        self.entries.are_listed();
        match self.deadlines.first() {
            Some(first) => Some((first.due, first.number)),
            None => None,
        }
    }

    /// Whether an entry has the token's number, place and holder.
    pub fn holds(&self, token: &FreezeToken) -> bool
        ensures { IsTrue result ↔ Contains self.now.freezes token.now }
    {
        self.entries.key_of(token.freeze(), token.key()).is_some()
    }

    /// How many freezes the place has, at most 255. It is a stored number.
    pub fn count(&self, place: Place) -> u32
        requires { index_of place < self.now.places }
        ensures entries { result ≡ frozen place self.now.freezes }
        ensures bound { result ≤ MAX_PLACE_FREEZES }
    {
        self.entries.count(place)
    }

    /// How many freezes there are in all, at most 1024.
    pub fn len(&self) -> usize
        ensures entries { result ≡ length self.now.freezes }
        ensures bound { result ≤ MAX_FREEZES }
    {
        self.entries.len()
    }

    /// Whether no place is frozen.
    pub fn is_empty(&self) -> bool
        ensures { IsTrue result ↔ (self.now.freezes ≡ []) }
    {
        self.entries.len() == 0
    }

    /// How many places the ledger was made for: the number of each is below it.
    pub fn places(&self) -> usize
        ensures { result ≡ self.now.places }
    {
        self.entries.places()
    }

    /// That no two freezes bear one number: a fact for the contracts of callers, which does nothing and costs nothing.
    pub fn numbers_rise(&self)
        ensures { AreRising 0 (map (λ freeze. freeze.number) self.now.freezes) self.now.greatest }
    {
        self.entries.are_numbered();
    }

    /// The number and the holder of each freeze of the place, by rising number.
    pub fn holders(&self, place: Place) -> Holders<'_>
        requires { index_of place < self.now.places }
        ensures entries { result ≡ holders_of place self.now.freezes }
        ensures rising { AreRising 0 (map (λ holder. holder.0) result) self.now.greatest }
    {
        self.entries.are_numbered();
        Holders {
            slots: self.entries.slots(),
            links: self.chains.links(),
            at: self.chains.first(place.index()),
            left: self.entries.count(place),
        }
    }
}
