// Changes of the entries, of their chains and of the index of their deadlines, which stay in step. It relies on `entries`,
// `chains` and `deadlines`.

ghost use Rattle.std.specs.Prelude.{◌≡◌, ◌+◌, ◌<◌, ◌++◌, ◌∷◌, [], List, false, Some};
ghost use Rattle.freeze_ledger.specs.Chained.{IsChained};
ghost use Rattle.freeze_ledger.specs.declared.chains.Link.{Link as TheLink};
ghost use Rattle.freeze_ledger.specs.declared.chains.Ends.{Ends as TheEnds};
ghost use Rattle.freeze_ledger.specs.Deadlines.{IsIndex, HasItsDeadline, ForgetsOne};
ghost use Rattle.freeze_ledger.specs.Entries.{all_of, freeze_at, ledger_of};
ghost use Rattle.freeze_ledger.specs.Freezes.{meets_limit};
ghost use Rattle.freeze_ledger.specs.Freezes as freezes;
ghost use Rattle.freeze_ledger.specs.declared.freeze.Holder.TheVariants.{Timer};
ghost use Rattle.ccb.specs.Places.{index_of};
ghost use Rattle.freeze_ledger.specs.State.{next_freeze, with_entry, with_freezes};

use crate::chains::Chains;
use crate::deadline::Deadline;
use crate::deadlines::Deadlines;
use crate::entries::Entries;
use crate::freeze::{Freeze, Holder};
use ccb::Place;

/// Enters a freeze as the last of its place, with its deadline where a timer holds it; answers its key and what it is.
pub(crate) fn enter(
    entries: &mut Entries,
    chains: &mut Chains,
    deadlines: &mut Deadlines,
    place: Place,
    holder: Holder,
) -> (usize, Freeze)
    requires place { index_of place < entries.old.places }
    requires room { meets_limit place (all_of entries.old) entries.old.greatest ≡ false }
    requires chained { IsChained entries.old chains.old.links.items chains.old.ends.items }
    requires index { IsIndex entries.old.slots (all_of entries.old) deadlines.old }
    ensures chained { IsChained entries.new chains.new.links.items chains.new.ends.items }
    ensures index { IsIndex entries.new.slots (all_of entries.new) deadlines.new }
    ensures freeze { result.1 ≡ next_freeze (ledger_of entries.old) place holder }
    ensures entered { ledger_of entries.new ≡ with_entry (ledger_of entries.old) result.1 }
{
    entries.are_numbered();
    let (key, freeze) = entries.enter(place, holder);
    chains.append(place.index(), key);
    if let Holder::Timer(due) = holder {
        let number = freeze.number;
        deadlines.insert(Deadline { due, number, key });
    }
    (key, freeze)
}

/// Removes what stands under the key, with its deadline where a timer holds it.
pub(crate) fn take_out(
    entries: &mut Entries,
    chains: &mut Chains,
    deadlines: &mut Deadlines,
    key: usize,
    freeze: Freeze,
)
    requires there { freeze_at entries.old.slots key ≡ Some freeze }
    requires chained { IsChained entries.old chains.old.links.items chains.old.ends.items }
    requires index { IsIndex entries.old.slots (all_of entries.old) deadlines.old }
    ensures chained { IsChained entries.new chains.new.links.items chains.new.ends.items }
    ensures index { IsIndex entries.new.slots (all_of entries.new) deadlines.new }
    ensures taken { ledger_of entries.new ≡ with_freezes (ledger_of entries.old) (freezes.without freeze.number (all_of entries.old)) }
{
    entries.are_numbered();
    forget(deadlines, key, freeze);
    chains.remove(freeze.place.index(), key);
    entries.remove(key, freeze);
}

/// Makes a timer the holder of what stands under the key, and enters its deadline in the place of the one that it had, if
/// any. Chains stay as they are. That there are few freezes tells that there is room.
pub(crate) fn hand_over(
    entries: &mut Entries,
    deadlines: &mut Deadlines,
    key: usize,
    freeze: Freeze,
    due: u64,
)
    requires there { freeze_at entries.old.slots key ≡ Some freeze }
    requires index { IsIndex entries.old.slots (all_of entries.old) deadlines.old }
    ensures index { IsIndex entries.new.slots (all_of entries.new) deadlines.new }
    ensures chained { (links : List TheLink) (ends : List TheEnds) → IsChained entries.old links ends → IsChained entries.new links ends }
    ensures handed { ledger_of entries.new ≡ with_freezes (ledger_of entries.old) (freezes.handed_over freeze.number due (all_of entries.old)) }
{
    let _freezes = entries.len();
    forget(deadlines, key, freeze);
    entries.hand_over(key, freeze, due);
    let number = freeze.number;
    deadlines.insert(Deadline { due, number, key });
}

// Removes the deadline of what stands under the key, where a timer holds it.
fn forget(deadlines: &mut Deadlines, key: usize, freeze: Freeze)
    requires { HasItsDeadline deadlines.old key freeze }
    ensures { ForgetsOne deadlines.old deadlines.new key freeze }
{
    if let Holder::Timer(due) = freeze.holder {
        let number = freeze.number;
        deadlines.remove(Deadline { due, number, key });
    }
}
