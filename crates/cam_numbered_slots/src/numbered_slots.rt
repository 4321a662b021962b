// The index over the slots, in the order of the numbers. It relies on `search` for the search by number, and on `slots` for
// what a slot holds.

ghost use Rattle.std.specs.Prelude.{◌≡◌, ◌<◌, ◌≤◌, ◌^◌, ◌++◌, [], ◌∷◌, length, slice_index_or, Contains, IfOk, IfSome, IfNone};
ghost use Rattle.std.specs.List.{remove};
ghost use Rattle.std.specs.Borrow.{sem};
ghost use Rattle.ccb.specs.Rising.{AreRising};
ghost use Rattle.cam_numbered_slots.specs.NumberedState.{no_values, IsPlaceOf};

use crate::search::{Numbered, place_for};
use crate::slots::{put, take, value_mut};
use std::alloc::{AllocError, Global};
use std::marker::Model;
use std::ops::{Index, IndexMut};

/// Where the value of a number stands.
#[derive(Clone, Copy)]
pub(crate) struct Entry {
    pub(crate) number: u32,
    pub(crate) slot: u32,
}

impl Numbered for Entry {
    ghost number_of = { λ it. it.number };

    fn number(&self) -> u32 {
        self.number
    }
}

/// Values that bear rising numbers, as many as were reserved at most. Contracts see the numbers, and the values, in the order
/// of their numbers.
#[derive(Drop)]
pub struct NumberedSlots<T> {
    // in the order of the numbers
    index: Vec<Entry>,
    slots: Vec<Option<T>>,
    free: Vec<u32>,
}

impl<T> Model for NumberedSlots<T> {
    ghost use Rattle.std.specs.Prelude.{vec_capacity};
    ghost use Rattle.cam_numbered_slots.specs.NumberedState.{NumberedState};

    ghost Value = { NumberedState T };

    ghost use Rattle.cam_numbered_slots.specs.Invariant.{seen, KeepsSlots};

    ghost view = { λ n. seen n.index.items n.slots.items (vec_capacity n.slots) };

    ghost invariant = { λ n. KeepsSlots n.index n.slots n.free };
}

impl<T> NumberedSlots<T> {
    /// No value, and room for so many: no later call takes memory.
    pub fn with_room(alloc: Global, most: usize) -> Result<Self, AllocError>
        requires { most < 2 ^ 32 }
        ensures { IfOk result (λ slots. slots ≡ no_values most) }
    {
        let index = Vec::with_capacity(alloc, most)?;
        let free = Vec::with_capacity(alloc, most)?;
        // last, since values may not be let go
        let slots = Vec::with_capacity(alloc, most)?;
        Ok(NumberedSlots { index, slots, free })
    }

    /// How many values there are.
    pub fn len(&self) -> usize
        ensures values { result ≡ length self.now.values }
        ensures bound { result ≤ self.now.most }
    {
        self.index.len()
    }

    /// Where the value of this number stands in the order of the numbers; `None` exactly where there is none.
    pub fn place_of(&self, number: u32) -> Option<usize>
        ensures found { IfSome result (IsPlaceOf number self.now.numbers) }
        ensures none { IfNone result (Contains self.now.numbers number → ⊥) }
    {
        let place = place_for(&self.index, number);
        if place < self.index.len() && self.index[place].number == number {
            Some(place)
        } else {
            None
        }
    }

    /// One value more, whose number is greater than the others' and not 0.
    pub fn push(&mut self, number: u32, value: T)
        requires room { length self.old.values < self.old.most }
        requires rising { AreRising 0 (self.old.numbers ++ number ∷ []) number }
        ensures { self.new ≡ record self.old { numbers = self.old.numbers ++ number ∷ []; values = self.old.values ++ value ∷ [] } }
    {
        let slot = put(&mut self.slots, &mut self.free, value);
        self.index.push_reserved(Entry { number, slot });
    }

    /// Takes out the value at this place in the order of the numbers.
    pub fn remove(&mut self, place: usize) -> T
        requires { place < length self.old.values }
        ensures value { result ≡ slice_index_or self.old.values place result }
        ensures others { self.new ≡ record self.old { numbers = remove self.old.numbers place; values = remove self.old.values place } }
    {
        let entry = self.index.remove(place);
        take(&mut self.slots, &mut self.free, entry.slot)
    }
}

impl<T> Index<usize> for NumberedSlots<T> {
    type Output = T;

    ghost can_index = { λ n place. place < length n.values };

    ghost index_gives = { λ n place value. value ≡ slice_index_or n.values place value };

    fn index(&self, place: usize) -> &T {
        match &self.slots[self.index[place].slot as usize] {
            Some(value) => value,
            None => unreachable!(),
        }
    }
}

impl<T> IndexMut<usize> for NumberedSlots<T> {
    ghost use Rattle.cam_numbered_slots.specs.Lends.{lends_value};

    fn index_mut(&mut self, place: usize) -> &mut T
        requires { place < length self.old.values }
        ensures* writes_back { sem 𝓛 (lends_value T.row self.entry place result) }
        ensures value { result.now ≡ slice_index_or self.old.values place result.now }
    {
        let slot = self.index[place].slot as usize;
        value_mut(&mut self.slots[slot])
    }
}
