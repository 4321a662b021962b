// What is known of numbers that stand on a program's stack: each at one known place, so many bytes of a live frame. Few are kept,
// so that this is copied and joined in little time: each place has one slot, and what is kept there is forgotten if a number is
// kept at another place of that slot. It relies on `scalar_domain` for numbers, and on `slots` for all slots in turn.

ghost use Rattle.std.specs.Prelude.{◌≡◌, ◌<◌, ◌≤◌, ◌+◌, ℕ, List, [], Option, IfOk, IfSome, IsOk, IsTrue, length, slice_index_or, take, vec_len};
ghost use Rattle.stack_domain.specs.Numbers.{AreStanding, StandsAt};
ghost use Rattle.stack_domain.specs.Stores.{stored};

use crate::slots;
use scalar_domain::Scalar;
use std::alloc::{AllocError, Global};
use std::marker::Model;

/// How many numbers are kept at most.
const SLOTS: usize = 16;

/// The last word of eight bytes of a frame, which has the first slot.
const LAST_WORD: usize = 63;

/// Bytes of a frame in which a number stands, little-endian.
#[derive(Clone, Copy, Debug, PartialEq, Eq)]
pub struct NumberPlace {
    pub frame: u8,
    pub offset: u16,
    pub bytes: u16,
}

/// A number of which that is known, and where it stands.
#[derive(Clone, Copy, Debug, PartialEq, Eq)]
pub struct StackNumber {
    pub place: NumberPlace,
    pub number: Scalar,
}

/// The numbers that are kept. There are as many slots as have been needed, so that it takes memory only if a number is stored, and
/// a copy only as much as the last slot needs.
#[derive(Debug, Drop)]
pub struct StackNumbers {
    slots: Vec<Option<StackNumber>>,
}

impl Model for StackNumbers {
    ghost use Rattle.std.specs.Prelude.{List, Option};
    ghost use Rattle.stack_domain.specs.declared.numbers.StackNumber.{StackNumber};

    ghost Value = { List (Option StackNumber) };

    ghost view = { λ numbers. numbers.slots.items };
}

impl StackNumbers {
    /// None.
    pub fn none(alloc: Global) -> Self
        ensures { result ≡ [] }
    {
        StackNumbers {
            slots: Vec::new(alloc),
        }
    }

    /// A copy, for which memory is taken only if a number was stored.
    pub fn try_copy(&self) -> Result<Self, AllocError>
        ensures copy { IfOk result (λ copy. copy ≡ self.now) }
        ensures none { self.now ≡ [] → IsOk result }
    {
        let alloc = *self.slots.allocator();
        if self.slots.is_empty() {
            return Ok(StackNumbers::none(alloc));
        }
        Ok(StackNumbers {
            slots: Vec::from_slice(alloc, self.slots.as_slice())?,
        })
    }

    /// Bytes of a frame from an offset up to another are written: what stood in one of them is known no more.
    pub fn overwrite(&mut self, frame: u8, from: u16, end: u16)
        ensures stored { (frames : List (List (Option ℕ))) (offset : ℕ) (bytes : List ℕ) → AreStanding frames self.old → offset + length bytes ≤ length (slice_index_or frames frame []) → from ≤ offset → offset + length bytes ≤ end → AreStanding (stored frames frame offset bytes) self.new }
        ensures fewer { (frames : List (List (Option ℕ))) → AreStanding frames self.old → AreStanding frames self.new }
        ensures none { self.old ≡ [] → self.new ≡ [] }
    {
        slots::overwrite(self.slots.as_mut_slice(), frame, from, end);
    }

    /// Makes room for one number more, wherever it stands.
    ///
    /// # Errors
    /// There is no memory.
    pub fn make_room(&mut self) -> Result<(), AllocError>
        ensures { self.new ≡ self.old }
    {
        self.slots.reserve(SLOTS.saturating_sub(self.slots.len()))
    }

    /// One of these numbers stands there. It is kept if room was made for it.
    pub fn keep(&mut self, place: NumberPlace, number: Scalar)
        ensures { (frames : List (List (Option ℕ))) → AreStanding frames self.old → StandsAt frames place number → AreStanding frames self.new }
    {
        let slot = slot_of(place);
        if has_slot(&mut self.slots, slot) {
            self.slots[slot] = Some(StackNumber { place, number });
        }
    }

    /// What is known of the number that stands there, if anything is.
    pub fn find(&self, place: NumberPlace) -> Option<Scalar>
        ensures { IfSome result (λ number. (frames : List (List (Option ℕ))) → AreStanding frames self.now → StandsAt frames place number) }
    {
        slots::found(slots::at(self.slots.as_slice(), slot_of(place)), place)
    }

    /// Only so many frames are live any more.
    pub fn close(&mut self, live: usize)
        ensures closed { (frames : List (List (Option ℕ))) → AreStanding frames self.old → AreStanding (take live frames) self.new }
        ensures none { self.old ≡ [] → self.new ≡ [] }
    {
        slots::close(self.slots.as_mut_slice(), live);
    }

    /// What is known on both of two paths that meet.
    pub fn join(&mut self, other: &Self)
        ensures first { (frames : List (List (Option ℕ))) → AreStanding frames self.old → AreStanding frames self.new }
        ensures second { (frames : List (List (Option ℕ))) → AreStanding frames other.now → AreStanding frames self.new }
        ensures none { self.old ≡ [] → self.new ≡ [] }
    {
        self.slots.truncate(other.slots.len());
        slots::join(self.slots.as_mut_slice(), other.slots.as_slice());
    }
}

// The slot of a place: sixteen words of eight bytes that lie side by side have one each, from the last word of a frame down, and the
// upper half of a word has the slot of the word 64 bytes away.
fn slot_of(place: NumberPlace) -> usize
    ensures { result < 16 }
{
    let half = 8 * usize::from(place.offset / 4 % 2);
    let word = usize::from(place.offset / 8);
    (LAST_WORD.saturating_sub(word) + half + 4 * usize::from(place.frame)) % SLOTS
}

// Whether there is that slot, for which memory may have been reserved. What the slots have is as before.
fn has_slot(slots: &mut Vec<Option<StackNumber>>, slot: usize) -> bool
    ensures there { IsTrue result → slot < vec_len slots.new }
    ensures same { (j : ℕ) → slice_index_or slots.new.items j None ≡ slice_index_or slots.old.items j None }
{
    slot < slots.len() || (slot < slots.capacity() && slots.resize(slot + 1, None).is_ok())
}
