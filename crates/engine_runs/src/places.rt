// Which run a number finds among the live ones. It relies on `run_record`, and on `cam_numbered_slots` for the search.

ghost use Rattle.std.specs.Prelude.{◌≡◌, ◌<◌, ℕ, Some, None, length, IfSome, IfNone};
ghost use Rattle.std.specs.List.{HoldsAt};
ghost use Rattle.world.specs.Lookups.{run_of};
ghost use Rattle.engine_runs.specs.Invariant.{KeepsRuns};
ghost use Rattle.engine_runs.specs.LiveRuns.{live_of, lives_of};

use crate::run_record::RunRecord;
use cam_numbered_slots::NumberedSlots;

/// Where the record of this run stands; `None` exactly where there is none.
pub(crate) fn place_of(records: &NumberedSlots<RunRecord>, run: u32) -> Option<usize>
    requires { (greatest : ℕ) × KeepsRuns records.now greatest }
    ensures within { IfSome result (λ place. place < length records.now.values) }
    ensures found { IfSome result (λ place. HoldsAt (λ it. run_of run (lives_of records.now.values) ≡ Some (live_of it)) records.now.values place) }
    ensures none { IfNone result (run_of run (lives_of records.now.values) ≡ None) }
{
    records.place_of(run)
}
