// What is known of numbers on the stack as a list of slots, each of which has a number and its place, or nothing. It relies on
// `scalar_domain` for numbers.

ghost use Rattle.std.specs.Prelude.{◌≡◌, ◌<◌, ◌≤◌, ◌+◌, ℕ, List, [], Option, None, Some, IsTrue, length, slice_index_or, take};
ghost use Rattle.stack_domain.specs.Numbers.{AreStanding, IsApart, StandsAt, StandsIn};
ghost use Rattle.stack_domain.specs.Stores.{stored};

use crate::numbers::{NumberPlace, StackNumber};
use scalar_domain::Scalar;

// What a slot has.
pub(crate) fn at(slots: &[Option<StackNumber>], slot: usize) -> Option<StackNumber>
    ensures { result ≡ slice_index_or slots.now slot None }
{
    match slots.get(slot) {
        Some(kept) => *kept,
        None => None,
    }
}

// Bytes of a frame from an offset up to another are written: what stood in one of them is known no more.
pub(crate) fn overwrite(slots: &mut [Option<StackNumber>], frame: u8, from: u16, end: u16)
    ensures stored { (frames : List (List (Option ℕ))) (offset : ℕ) (bytes : List ℕ) → AreStanding frames slots.old → offset + length bytes ≤ length (slice_index_or frames frame []) → from ≤ offset → offset + length bytes ≤ end → AreStanding (stored frames frame offset bytes) slots.new }
    ensures fewer { (frames : List (List (Option ℕ))) → AreStanding frames slots.old → AreStanding frames slots.new }
    ensures len { length slots.new ≡ length slots.old }
{
    for slot in 0..slots.len() {
        slots[slot] = left(slots[slot], frame, from, end);
    }
}

// Only so many frames are live any more.
pub(crate) fn close(slots: &mut [Option<StackNumber>], live: usize)
    ensures closed { (frames : List (List (Option ℕ))) → AreStanding frames slots.old → AreStanding (take live frames) slots.new }
    ensures len { length slots.new ≡ length slots.old }
{
    for slot in 0..slots.len() {
        slots[slot] = outlived(slots[slot], live);
    }
}

// What is known on both of two paths that meet.
pub(crate) fn join(slots: &mut [Option<StackNumber>], others: &[Option<StackNumber>])
    ensures first { (frames : List (List (Option ℕ))) → AreStanding frames slots.old → AreStanding frames slots.new }
    ensures second { (frames : List (List (Option ℕ))) → AreStanding frames others.now → AreStanding frames slots.new }
    ensures len { length slots.new ≡ length slots.old }
{
    for slot in 0..slots.len() {
        slots[slot] = met(slots[slot], at(others, slot));
    }
}

// What is known by a slot of the number that stands there.
pub(crate) fn found(slot: Option<StackNumber>, place: NumberPlace) -> Option<Scalar>
    ensures { (number : Scalar) → result ≡ Some number → slot ≡ Some (record { place = place; number = number }) }
{
    match slot {
        Some(kept) if kept.place == place => Some(kept.number),
        _ => None,
    }
}

// What is left of a slot where bytes of a frame from an offset up to another are written.
fn left(slot: Option<StackNumber>, frame: u8, from: u16, end: u16) -> Option<StackNumber>
    ensures { (kept : StackNumber) → result ≡ Some kept → (slot ≡ Some kept) × IsApart kept.place frame from end }
{
    match slot {
        Some(kept) if is_apart(kept.place, frame, from, end) => Some(kept),
        _ => None,
    }
}

// Whether a place has none of the bytes of a frame from an offset up to another.
fn is_apart(place: NumberPlace, frame: u8, from: u16, end: u16) -> bool
    ensures { IsTrue result → IsApart place frame from end }
{
    place.frame != frame
        || usize::from(place.offset) + usize::from(place.bytes) <= usize::from(from)
        || end <= place.offset
}

// What is left of a slot where so many frames are live.
fn outlived(slot: Option<StackNumber>, live: usize) -> Option<StackNumber>
    ensures { (kept : StackNumber) → result ≡ Some kept → (slot ≡ Some kept) × (kept.place.frame < live) }
{
    match slot {
        Some(kept) if usize::from(kept.place.frame) < live => Some(kept),
        _ => None,
    }
}

// What a slot has where two paths meet.
fn met(slot: Option<StackNumber>, other: Option<StackNumber>) -> Option<StackNumber>
    ensures first { (frames : List (List (Option ℕ))) → StandsIn frames slot → StandsIn frames result }
    ensures second { (frames : List (List (Option ℕ))) → StandsIn frames other → StandsIn frames result }
{
    match slot {
        Some(kept) => met_by(kept, other),
        None => None,
    }
}

// What a slot has that has this on one path and that on the other.
fn met_by(kept: StackNumber, other: Option<StackNumber>) -> Option<StackNumber>
    ensures first { (frames : List (List (Option ℕ))) → StandsAt frames kept.place kept.number → StandsIn frames result }
    ensures second { (frames : List (List (Option ℕ))) → StandsIn frames other → StandsIn frames result }
{
    match other {
        Some(found) if found.place == kept.place => Some(StackNumber {
            place: kept.place,
            number: kept.number.join(found.number),
        }),
        _ => None,
    }
}
