// A run that is driven to its exit by one call. It relies on `run_events` for what the run does up to each of its stops.

ghost use Rattle.std.specs.Prelude.{◌≡◌, ◌↔◌, IfErr, IfOk, IfSome, IsSome, MatchResult, OnErr};
ghost use Rattle.engine_runs.specs.RunPlaces.{HasRunAt};
ghost use Rattle.world.specs.World.{LiveRun, queue_setup};
ghost use Rattle.engine_core.specs.EngineState.{IsRun};
ghost use Rattle.engine_core.specs.Faults.{AdmitsUnlessTold};
ghost use Rattle.engine_core.specs.RunState.{IsOut, IsReached};
ghost use Rattle.engine_core.specs.Stepping.{IsOutAt, IsRunAt};
ghost use Rattle.engine_core.specs.Driving.{ComesBack, RunsToExit, Steps};

use crate::answers::AdvanceFault;
use crate::engine::{Engine, ROOM};
use crate::run::Run;
use crate::run_events::{Progress, go_on_here};
use crate::setting::Setting;
use std::alloc::AllocError;

/// A run that did not come to its exit.
pub struct DriveFault {
    pub why: AdvanceFault,
    /// The run, where it stands.
    pub run: Run,
    /// R0 after the last stop that was recorded, 0 if there was none.
    pub r0: u64,
}

impl Engine {
    /// Lets a run that is out go on until it exits: R0 at its exit. At each of its stops it does what `Run::to_stop` and `go_on`
    /// would do by turns, and records the same, but faster: its right is tested once, and its instructions are executed in a
    /// machine of the engine's own. C4, which is not recorded, exactly where no run of that number is out in this engine, or its
    /// program or its machine is not the recorded one; programs are compared by their instructions. C4 hands the run back and
    /// changes nothing. Where memory is refused the run comes back in the machine to which it came, and what it did up to there
    /// stays recorded.
    pub fn drive(&mut self, run: Run) -> Result<u64, DriveFault>
        ensures ended { IfOk result (λ r0. RunsToExit self.old run r0 self.new) }
        ensures admitted { MatchResult result (λ _. IsOut self.old.world run) (λ fault. AdmitsUnlessTold fault.why (IsOut self.old.world run)) }
        ensures back { IfErr result (λ fault. ComesBack self.old run fault.why fault.run fault.r0 self.new) }
        ensures run { IsRun self.new }
    {
        let Some(place) = self.place_of_run(&run) else {
            return Err(DriveFault {
                why: AdvanceFault::NotOut,
                run,
                r0: 0,
            });
        };
        let mut left = self.budget_at(place);
        let mut r0 = 0;
        loop {
            let Ok(progress) = self.step(place) else {
                let run = self.back_at(run, place);
                return Err(DriveFault {
                    why: AdvanceFault::OutOfMemory,
                    run,
                    r0,
                });
            };
            if !progress.goes_on {
                self.spend(run);
                return Ok(progress.r0);
            }
            left -= progress.instructions;
            r0 = progress.r0;
        }
    }

    // Where the run stands, if it is out so.
    fn place_of_run(&self, run: &Run) -> Option<usize>
        ensures place { IfSome result (IsRunAt self.now.world.runs.list run.now) }
        ensures admitted { IsSome result ↔ IsOut self.now.world run.now }
        ensures reached { IsReached run.now }
        ensures run { IsRun self.now }
    {
        self.parts
            .runs
            .admit_run(run.number(), run.program(), None, run.machine())
    }

    // The most instructions that a run at this place executes in all.
    fn budget_at(&self, place: usize) -> u32
        requires { IsOutAt self.now.world.runs.list place }
        ensures { (it : LiveRun) → HasRunAt self.now.world.runs.list place it → result ≡ (queue_setup self.now.setup it.queue).budget }
    {
        self.config.program(self.parts.runs.queue(place)).budget()
    }

    // The run at this place goes on to its next stop. Where memory is refused nothing changes.
    fn step(&mut self, place: usize) -> Result<Progress, AllocError>
        requires { IsOutAt self.old.world.runs.list place }
        ensures steps { IfOk result (Steps self.old place self.new) }
        ensures refused { OnErr result (self.new ≡ self.old) }
        ensures run { IsRun self.new }
    {
        if self.history.reserve(ROOM).is_err() {
            return Err(AllocError);
        }
        let alloc = *self.history.allocator();
        let (progress, told) = go_on_here(
            alloc,
            &Setting {
                config: &self.config,
                over: &self.over,
            },
            &mut self.parts.transport,
            &mut self.parts.runs,
            place,
        )?;
        self.history.push_reserved(told);
        Ok(progress)
    }

    // The run in the machine that is recorded at this place.
    fn back_at(&self, run: Run, place: usize) -> Run
        requires out { IsOutAt self.now.world.runs.list place }
        requires program { (it : LiveRun) → HasRunAt self.now.world.runs.list place it → run.program.program ≡ it.program }
        ensures { (it : LiveRun) → HasRunAt self.now.world.runs.list place it → result ≡ record run { machine = it.machine } }
    {
        run.with_machine(self.parts.runs.machine(place))
    }

    // Spends the right to a run. The places of its machines are kept for runs to come.
    fn spend(&mut self, run: Run)
        ensures { self.new ≡ self.old }
    {
        self.parts.spend(run);
    }
}
