// Lists in the order of their numbers, of which two may be the same. They rely on `cam_numbered_slots` for the search.

ghost use Rattle.std.specs.Prelude.{◌≡◌, ◌≢◌, ◌<◌, ◌≤◌, ◌∷◌, All, IfNone, IfSome, length, vec_capacity};
ghost use Rattle.std.specs.List.Sorted.{IsNonDecreasingBy, IsPermutation};

use cam_numbered_slots::{Numbered, place_for};

/// Takes out one of that number; `None`, which changes nothing, exactly where none is there.
pub(crate) fn take<T: Numbered>(all: &mut Vec<T>, number: u32) -> Option<T>
    requires { IsNonDecreasingBy T.number_of all.old.items }
    ensures taken { IfSome result (λ it. (T.number_of it ≡ number) × IsPermutation all.old.items (it ∷ all.new.items)) }
    ensures none { IfNone result ((all.new.items ≡ all.old.items) × All (λ it. T.number_of it ≢ number) all.old.items) }
    ensures sorted { IsNonDecreasingBy T.number_of all.new.items }
    ensures fewer { length all.new.items ≤ length all.old.items }
    ensures room { vec_capacity all.new ≡ vec_capacity all.old }
{
    let place = place_for(all, number);
    if place < all.len() && all[place].number() == number {
        Some(all.remove(place))
    } else {
        None
    }
}

/// Puts one more to its place, for which there is room.
pub(crate) fn put<T: Numbered + Drop>(all: &mut Vec<T>, it: T)
    requires sorted { IsNonDecreasingBy T.number_of all.old.items }
    requires room { length all.old.items < vec_capacity all.old }
    ensures put { IsPermutation all.new.items (it ∷ all.old.items) }
    ensures sorted { IsNonDecreasingBy T.number_of all.new.items }
{
    let place = place_for(all, it.number());
    if all.insert(place, it).is_err() {
        unreachable!();
    }
}
