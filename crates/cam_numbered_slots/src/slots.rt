// Slots, of which those that are free are listed. They rely on nothing.

ghost use Rattle.std.specs.Prelude.{◌≡◌, ℕ, ◌+◌, ◌<◌, ◌≤◌, ◌^◌, ◌++◌, [], ◌∷◌, List, length, slice_set, slice_index, Some, None, IsSome, vec_capacity};
ghost use Rattle.std.specs.List.{remove};
ghost use Rattle.std.specs.Borrow.{Lends, sem};
ghost use Rattle.std.specs.contracts.option.Option.{the_row};
ghost use Rattle.cam_numbered_slots.specs.Invariant.{AreSlots, value_at, values_in};

use std::mem;

/// The value in this slot, in which there is one.
pub(crate) fn value_mut<T>(slot: &mut Option<T>) -> &mut T
    requires { IsSome slot.old }
    ensures* lends { sem 𝓛 (Lends (the_row T.row) T.row slot.entry result Some) }
    ensures value { slot.old ≡ Some result.now }
{
    match slot {
        Some(value) => value,
        None => unreachable!(),
    }
}

/// Puts a value into a slot that is free, or into one more, for which it asks for room.
pub(crate) fn put<T>(slots: &mut Vec<Option<T>>, free: &mut Vec<u32>, value: T) -> u32
    requires slots { (used : List ℕ) × AreSlots used slots.old.items free.old.items × (length used < vec_capacity slots.old) }
    requires within { length slots.old.items ≤ vec_capacity slots.old }
    requires short { vec_capacity slots.old < 2 ^ 32 }
    ensures slots { (used : List ℕ) → AreSlots used slots.old.items free.old.items → AreSlots (used ++ result ∷ []) slots.new.items free.new.items }
    ensures values { (used : List ℕ) → AreSlots used slots.old.items free.old.items → values_in (used ++ result ∷ []) slots.new.items ≡ values_in used slots.old.items ++ value ∷ [] }
    ensures within { length slots.new.items ≤ vec_capacity slots.new }
    ensures capacity { vec_capacity slots.new ≡ vec_capacity slots.old }
    ensures free_capacity { vec_capacity free.new ≡ vec_capacity free.old }
{
    match free.pop() {
        Some(slot) => match mem::replace(&mut slots[slot as usize], Some(value)) {
            None => slot,
            Some(_) => unreachable!(),
        },
        None => {
            let slot = slots.len() as u32;
            slots.push_reserved(Some(value));
            slot
        }
    }
}

/// Takes the value out of a slot, which is free then. It asks for room to list it.
pub(crate) fn take<T>(slots: &mut Vec<Option<T>>, free: &mut Vec<u32>, slot: u32) -> T
    requires full { IsSome (value_at slots.old.items slot) }
    requires room { length free.old.items < vec_capacity free.old }
    ensures value { value_at slots.old.items slot ≡ Some result }
    ensures slots { slots.new.items ≡ slice_set slots.old.items slot None }
    ensures free { free.new.items ≡ free.old.items ++ slot ∷ [] }
    ensures capacity { vec_capacity slots.new ≡ vec_capacity slots.old }
    ensures free_capacity { vec_capacity free.new ≡ vec_capacity free.old }
{
    let taken = slots[slot as usize].take();
    free.push_reserved(slot);
    match taken {
        Some(value) => value,
        None => unreachable!(),
    }
}
