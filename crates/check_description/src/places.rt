// What stands in the words of all frames as a list of places. It relies on `spill` for each of them, and on `stack_domain`
// for what is known to be written.

ghost use Rattle.std.specs.Prelude.{◌≡◌, ◌↔◌, ◌+◌, ◌*◌, ◌/◌, ◌<◌, ◌≤◌, ◌⊎◌, ℕ, List, Option, length, IsTrue};
ghost use Rattle.stack_domain.specs.Stack.{MarksCover, Knows};
ghost use Rattle.check_description.specs.Spills.{IsFewer, IsGone, at_place, spill_at, spill_without};

use crate::spill::Spill;
use check_register_kinds::FreezeName;
use stack_domain::Stack;

/// How many words of eight bytes a frame has.
const WORDS: usize = 64;

// What stands at a place.
pub(crate) fn at(places: &[Spill], place: usize) -> Spill
    ensures { result ≡ at_place places.now place }
{
    match places.get(place) {
        Some(spill) => *spill,
        None => Spill::Nothing,
    }
}

// Nothing stands at a place any more.
fn empty(places: &mut [Spill], place: usize)
    ensures nothing { at_place places.new place ≡ Spill.Nothing }
    ensures others { (other : ℕ) → (other ≡ place → ⊥) → at_place places.new other ≡ at_place places.old other }
    ensures len { length places.new ≡ length places.old }
{
    if place < places.len() {
        places[place] = Spill::Nothing;
    }
}

// Whether nothing stands from one place up to another.
pub(crate) fn are_none(places: &[Spill], from: usize, to: usize) -> bool
    ensures { IsTrue result ↔ ((place : ℕ) → from ≤ place → place < to → at_place places.now place ≡ Spill.Nothing) }
{
    for place in from..to.min(places.len()) {
        if !at(places, place).is_nothing() {
            return false;
        }
    }
    true
}

// Nothing stands from one place up to another any more.
pub(crate) fn end(places: &mut [Spill], from: usize, to: usize)
    ensures ended { (place : ℕ) → from ≤ place → place < to → at_place places.new place ≡ Spill.Nothing }
    ensures fewer { IsFewer places.old places.new }
    ensures len { length places.new ≡ length places.old }
{
    for place in from..to.min(places.len()) {
        empty(places, place);
    }
}

// The freeze of that name is held no more, and its copies are numbers.
pub(crate) fn give_up(places: &mut [Spill], name: FreezeName)
    ensures each { (place : ℕ) → at_place places.new place ≡ spill_without name (at_place places.old place) }
    ensures len { length places.new ≡ length places.old }
{
    for place in 0..places.len() {
        places[place] = places[place].without(name);
    }
}

// Nothing stands at a place any more, and its bytes are known to be written no more.
fn lose(places: &mut [Spill], place: usize, stack: &mut Stack)
    ensures nothing { at_place places.new place ≡ Spill.Nothing }
    ensures others { (other : ℕ) → (other ≡ place → ⊥) → at_place places.new other ≡ at_place places.old other }
    ensures len { length places.new ≡ length places.old }
    ensures depth { length stack.new ≡ length stack.old }
    ensures covers { (frames : List (List (Option ℕ))) → MarksCover stack.old frames → MarksCover stack.new frames }
    ensures knows { (frame offset : ℕ) → (64 * frame + offset / 8 ≡ place → ⊥) → Knows stack.old frame offset → Knows stack.new frame offset }
{
    empty(places, place);
    let frame = place / WORDS;
    if frame < stack.depth() {
        stack.forget_word(frame, place % WORDS);
    }
}

// Addresses of frames that are gone are lost, where so many are live.
pub(crate) fn outlive(places: &mut [Spill], live: usize, stack: &mut Stack)
    ensures fewer { IsFewer places.old places.new }
    ensures gone { (place : ℕ) → IsGone live (at_place places.new place) → ⊥ }
    ensures len { length places.new ≡ length places.old }
    ensures depth { length stack.new ≡ length stack.old }
    ensures covers { (frames : List (List (Option ℕ))) → MarksCover stack.old frames → MarksCover stack.new frames }
    ensures knows { (frame offset : ℕ) → (IsGone live (spill_at places.old frame (offset / 8)) → ⊥) → Knows stack.old frame offset → Knows stack.new frame offset }
{
    for place in 0..places.len() {
        if at(places, place).is_gone(live) {
            lose(places, place, stack);
        }
    }
}

// What does not stand at a place on the other path too is lost.
pub(crate) fn meet(places: &mut [Spill], others: &[Spill], stack: &mut Stack)
    ensures first { IsFewer places.old places.new }
    ensures second { IsFewer others.now places.new }
    ensures len { length places.new ≡ length places.old }
    ensures depth { length stack.new ≡ length stack.old }
    ensures covers { (frames : List (List (Option ℕ))) → MarksCover stack.old frames → MarksCover stack.new frames }
    ensures knows { (frame offset : ℕ) → spill_at places.old frame (offset / 8) ≡ spill_at others.now frame (offset / 8) → Knows stack.old frame offset → Knows stack.new frame offset }
{
    for place in 0..places.len().max(others.len()) {
        if !at(places, place).is_same(at(others, place)) {
            lose(places, place, stack);
        }
    }
}
