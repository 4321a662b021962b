// What happens at the cell when records are published, and when a caller looks: the caller's part goes into the keeper's hands,
// whose seat steps, and comes back. It relies on the cell's rule.

ghost use Rattle.std.specs.Prelude.{◌≡◌, true, false, ◌++◌};
ghost use Rattle.crossbeam_utils.specs.Seq.{cell_view};
ghost use Rattle.world.specs.TotalsOf.{TotalsOf};
ghost use Rattle.monitor.specs.LegalHistory.{all_by, records};
ghost use Rattle.monitor.specs.Seats.{IsKeeper, IsCaller, keeper_state, caller_state, with_part, without_part};
ghost use Rattle.monitor.specs.Telling.{Joins, Looks};

use crate::monitor::words_of;
use crate::origin::Origin;
use crate::rule::{CallerLooks, Cell, HandsOver, Publishes, Seat, Told};
use std::sync::Wait;
use world_calls::Totals;

// A caller's part goes from seat to seat.
fn hand_over(cell: &Cell, from: &mut Seat, to: &mut Seat)
    requires cell { (from.old.table_id ≡ cell.now.table.shared.table_id) × (to.old.table_id ≡ cell.now.table.shared.table_id) }
    requires from { ((cell_view from.old).calls ≡ true) × ((cell_view from.old).opens ≡ false) }
    requires to { (cell_view to.old).opens ≡ false }
    ensures cell { (from.new.table_id ≡ from.old.table_id) × (to.new.table_id ≡ to.old.table_id) }
    ensures from { cell_view from.new ≡ without_part (cell_view from.old) }
    ensures to { cell_view to.new ≡ with_part (cell_view to.old) (cell_view from.old) }
{
    let handed = cell.split_pass::<HandsOver>(from);
    cell.join_pass::<HandsOver>(to, handed);
}

/// The caller's records join the history, and the sums of the history with them are shown.
pub(crate) fn publish_as<B: Origin, S: Told, R: Wait>(
    rt: &R,
    cell: &Cell,
    keeper: &mut Seat,
    caller: &mut Seat,
    totals: Totals,
)
    requires cell { (cell.now.table.shared.table_id ≡ B.table) × (keeper.old.table_id ≡ B.table) × (caller.old.table_id ≡ B.table) }
    requires keeper { IsKeeper B.setup (cell_view keeper.old) }
    requires caller { IsCaller B.setup (cell_view caller.old) }
    requires totals { TotalsOf B.setup (records (cell_view keeper.old).log ++ S.told) totals }
    ensures cell { (keeper.new.table_id ≡ B.table) × (caller.new.table_id ≡ B.table) }
    ensures keeper { IsKeeper B.setup (cell_view keeper.new) }
    ensures caller { IsCaller B.setup (cell_view caller.new) }
    ensures history { keeper_state (cell_view keeper.new) ≡ record (keeper_state (cell_view keeper.old)) { history = (cell_view keeper.old).log ++ all_by (cell_view caller.old).number S.told } }
    ensures joins { Joins B.setup (cell_view keeper.old).log (caller_state (cell_view caller.old)) S.told (caller_state (cell_view caller.new)) }
{
    let words = words_of(totals);
    hand_over(cell, caller, keeper);
    cell.swap_as::<Publishes<S>, R>(rt, keeper, words);
    hand_over(cell, keeper, caller);
}

/// The caller sees the whole history.
pub(crate) fn look_as<B: Origin, R: Wait>(rt: &R, cell: &Cell, keeper: &mut Seat, caller: &mut Seat)
    requires cell { (cell.now.table.shared.table_id ≡ B.table) × (keeper.old.table_id ≡ B.table) × (caller.old.table_id ≡ B.table) }
    requires keeper { IsKeeper B.setup (cell_view keeper.old) }
    requires caller { IsCaller B.setup (cell_view caller.old) }
    ensures cell { (keeper.new.table_id ≡ B.table) × (caller.new.table_id ≡ B.table) }
    ensures keeper { IsKeeper B.setup (cell_view keeper.new) }
    ensures caller { IsCaller B.setup (cell_view caller.new) }
    ensures history { keeper_state (cell_view keeper.new) ≡ keeper_state (cell_view keeper.old) }
    ensures looks { Looks B.setup (cell_view keeper.old).log (caller_state (cell_view caller.old)) (caller_state (cell_view caller.new)) }
{
    hand_over(cell, caller, keeper);
    cell.load_as::<CallerLooks, R>(rt, keeper);
    hand_over(cell, keeper, caller);
}
