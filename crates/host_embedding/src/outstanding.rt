// Whether the runs that are kept are those that are out. It relies on `engine_runs` for runs.

ghost use Rattle.std.specs.Prelude.{◌≡◌, ◌<◌, IsTrue, length};
ghost use Rattle.engine_core.specs.EngineState.{IsRun};
ghost use Rattle.engine_runs.specs.RunPlaces.{HasRunAt};
ghost use Rattle.world.specs.World.{LiveRun};
ghost use Rattle.host_embedding.specs.Recovering.{AreOut, HoldsOut, IsNextOut};

use crate::engine_handle::EngineHandle;
use crate::run_handle::{HeldRun, RunHandle};
use engine_runs::Runs;

impl EngineHandle {
    /// Whether the handles have the runs that are out, by rising number, and no others.
    pub(crate) fn has_out(&self, handles: &[Box<RunHandle>]) -> bool
        ensures out { IsTrue result → AreOut self.now.world.runs.list handles.now }
        ensures run { IsRun self.now }
    {
        are_out(self.engine.runs(), handles)
    }
}

#[tactic(auto, using(crate::proofs::Standing::none_yet, crate::proofs::Standing::there, crate::proofs::Standing::all_listed))]
fn are_out(runs: &Runs, handles: &[Box<RunHandle>]) -> bool
    ensures { IsTrue result → AreOut runs.now.runs.list handles.now }
{
    let mut count = 0usize;
    for place in 0..runs.len() as usize {
        if runs.is_out(place) {
            if !is_next(runs, place, handles, count) {
                return false;
            }
            count += 1;
        }
    }
    count == handles.len()
}

// Whether the handle at this place has the run at that place, which is out.
fn is_next(runs: &Runs, place: usize, handles: &[Box<RunHandle>], count: usize) -> bool
    requires { (it : LiveRun) × HasRunAt runs.now.runs.list place it }
    ensures { IsTrue result → IsNextOut runs.now.runs.list place handles.now count }
{
    count < handles.len()
        && handles[count].number == runs.number(place)
        && holds_out(runs, &handles[count])
}

// Whether the handle has a run that is out under its number.
fn holds_out(runs: &Runs, handle: &RunHandle) -> bool
    ensures { IsTrue result → HoldsOut runs.now.runs.list handle.now }
{
    match &handle.held {
        HeldRun::Out(run) => {
            run.number() == handle.number
                && runs
                    .admit_run(run.number(), run.program(), None, run.machine())
                    .is_some()
        }
        HeldRun::Stopped(_) => false,
        HeldRun::Spent => false,
    }
}
