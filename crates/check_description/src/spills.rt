// The addresses and freezes that stand on a program's stack, by their places. It relies on `spill` for each of them, and on
// `stack_domain` for what is known to be written.

ghost use Rattle.std.specs.Prelude.{◌≡◌, ◌↔◌, ◌+◌, ◌*◌, ◌/◌, ◌<◌, ◌≤◌, ◌⊎◌, ℕ, List, Option, [], false, length, IfOk, IsOk, IsTrue};
ghost use Rattle.stack_domain.specs.Stack.{MarksCover, Knows};
ghost use Rattle.check_description.specs.Spills.{AreUnspilled, IsFewer, IsGone, at_place, spill_at, spill_without};

use crate::places;
use crate::spill::Spill;
use check_register_kinds::FreezeName;
use stack_domain::Stack;
use std::alloc::{AllocError, Global};
use std::marker::Model;

/// How many words of eight bytes a frame has.
const WORDS: usize = 64;

/// What stands in each word of each live frame besides numbers. It takes memory only where something does.
#[derive(Debug, Drop)]
pub struct Spills {
    places: Vec<Spill>,
}

impl Model for Spills {
    ghost use Rattle.std.specs.Prelude.{List};
    ghost use Rattle.check_description.specs.declared.spill.Spill.{Spill};

    ghost Value = { List Spill };

    ghost view = { λ s. s.places.items };
}

impl Spills {
    /// None.
    pub fn none(alloc: Global) -> Self
        ensures { result ≡ [] }
    {
        Spills {
            places: Vec::new(alloc),
        }
    }

    /// A copy, for which memory is taken only where something was spilled.
    pub(crate) fn try_copy(&self) -> Result<Self, AllocError>
        ensures copy { IfOk result (λ copy. copy ≡ self.now) }
        ensures none { self.now ≡ [] → IsOk result }
    {
        let alloc = *self.places.allocator();
        if self.places.is_empty() {
            return Ok(Spills::none(alloc));
        }
        Ok(Spills {
            places: Vec::from_slice(alloc, self.places.as_slice())?,
        })
    }

    /// What stands in a word of a frame.
    pub(crate) fn at(&self, frame: u8, word: u16) -> Spill
        requires { word < 64 }
        ensures { result ≡ spill_at self.now frame word }
    {
        places::at(self.places.as_slice(), place_of(frame, word))
    }

    /// Whether nothing stands in the bytes of a frame from an offset up to another.
    pub(crate) fn are_none_in(&self, frame: u8, from: u16, end: u16) -> bool
        requires { end ≤ 512 }
        ensures { IsTrue result ↔ AreUnspilled self.now frame from end }
    {
        let first = place_of(frame, from / 8);
        places::are_none(
            self.places.as_slice(),
            first,
            place_of(frame, end.div_ceil(8)),
        )
    }

    /// The bytes of a frame from an offset up to another are written, by numbers or by what is known no more.
    pub(crate) fn overwrite(&mut self, frame: u8, from: u16, end: u16)
        requires { end ≤ 512 }
        ensures ended { AreUnspilled self.new frame from end }
        ensures fewer { IsFewer self.old self.new }
        ensures none { self.old ≡ [] → self.new ≡ [] }
    {
        let first = place_of(frame, from / 8);
        places::end(
            self.places.as_mut_slice(),
            first,
            place_of(frame, end.div_ceil(8)),
        );
    }

    /// That stands in a word of a frame.
    pub(crate) fn put(&mut self, frame: u8, word: u16, spill: Spill) -> Result<(), AllocError>
        requires { word < 64 }
        ensures put { IfOk result (λ _. spill_at self.new frame word ≡ spill) }
        ensures others { IfOk result (λ _. (place : ℕ) → (place ≡ 64 * frame + word → ⊥) → at_place self.new place ≡ at_place self.old place) }
    {
        let place = place_of(frame, word);
        if place >= self.places.len() {
            self.places.resize(place + 1, Spill::Nothing)?;
        }
        self.places[place] = spill;
        Ok(())
    }

    /// The freeze of that name is held no more, and its copies are numbers.
    pub(crate) fn give_up(&mut self, name: FreezeName)
        ensures each { (place : ℕ) → at_place self.new place ≡ spill_without name (at_place self.old place) }
        ensures none { self.old ≡ [] → self.new ≡ [] }
    {
        places::give_up(self.places.as_mut_slice(), name);
    }

    /// A frame is gone, and so many are live: what stood in it is gone too, and bytes in which an address of it stood are
    /// known to be written no more.
    pub fn close(&mut self, live: usize, stack: &mut Stack)
        requires { live ≤ 8 }
        ensures fewer { IsFewer self.old self.new }
        ensures gone { (place : ℕ) → IsGone live (at_place self.new place) → ⊥ }
        ensures outside { (place : ℕ) → 64 * live ≤ place → at_place self.new place ≡ Spill.Nothing }
        ensures none { self.old ≡ [] → self.new ≡ [] }
        ensures depth { length stack.new ≡ length stack.old }
        ensures covers { (frames : List (List (Option ℕ))) → MarksCover stack.old frames → MarksCover stack.new frames }
        ensures knows { (frame offset : ℕ) → (IsGone live (spill_at self.old frame (offset / 8)) → ⊥) → Knows stack.old frame offset → Knows stack.new frame offset }
    {
        self.places.truncate(WORDS * live);
        places::outlive(self.places.as_mut_slice(), live, stack);
    }

    /// What stands there on both of two paths that meet. Bytes are known to be written no more in which something else
    /// stands on the one than on the other.
    pub fn join(&mut self, other: &Self, stack: &mut Stack)
        ensures first { IsFewer self.old self.new }
        ensures second { IsFewer other.now self.new }
        ensures none { self.old ≡ [] → self.new ≡ [] }
        ensures depth { length stack.new ≡ length stack.old }
        ensures covers { (frames : List (List (Option ℕ))) → MarksCover stack.old frames → MarksCover stack.new frames }
        ensures knows { (frame offset : ℕ) → spill_at self.old frame (offset / 8) ≡ spill_at other.now frame (offset / 8) → Knows stack.old frame offset → Knows stack.new frame offset }
    {
        places::meet(self.places.as_mut_slice(), other.places.as_slice(), stack);
    }
}

// The place of a word of a frame.
fn place_of(frame: u8, word: u16) -> usize
    ensures { result ≡ 64 * frame + word }
{
    WORDS * usize::from(frame) + usize::from(word)
}
