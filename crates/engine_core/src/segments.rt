// An advance of a run and a segment that stand apart. It relies on `methods` for a run at its stop, and on `engine_runs` for what
// is recorded of a run.

ghost use Rattle.std.specs.Prelude.{◌≡◌, IfOk, IfErr, MatchResult};
ghost use Rattle.bpf_accepted.specs.Verdict.{IsAccepted};
ghost use Rattle.world_calls.specs.declared.record.Record.TheVariants.{Advance};
ghost use Rattle.engine_core.specs.Answers.{stopped_at, r0_of, GoesOrEnds};
ghost use Rattle.engine_core.specs.EngineState.{IsRun, Records};
ghost use Rattle.engine_core.specs.Faults.{AdmitsUnlessTold};
ghost use Rattle.engine_core.specs.RunState.{IsOutAs};

use crate::answers::{AdvanceAnswer, AdvanceFault};
use crate::engine::Engine;
use crate::run::Run;
use interpreter::Segment;

impl Engine {
    /// Takes over what a run did (`go_on`), as a segment tells it that was executed apart. C4, which is not recorded, exactly
    /// where no run of that number is out in this engine, or the run's program, the segment's program or the segment's
    /// start is not the recorded one; programs are compared by their instructions. Every fault hands the run and the
    /// segment back and changes nothing. `go_on` is faster: here the segment's machine is copied, and compared once more.
    pub fn advance(
        &mut self,
        run: Run,
        segment: Segment,
    ) -> Result<AdvanceAnswer, (AdvanceFault, Run, Segment)>
        ensures answered { IfOk result (λ answer. Records self.old self.new (Advance run.number segment.steps (stopped_at segment.stop) (r0_of answer))) }
        ensures goes { IfOk result (GoesOrEnds self.old.setup self.old.world self.new.world run segment) }
        ensures admitted { MatchResult result (λ _. IsOutAs self.old.world.runs.list run.number run.program.program segment)
            (λ fault. AdmitsUnlessTold fault.0 (IsOutAs self.old.world.runs.list run.number run.program.program segment)) }
        ensures back { IfErr result (λ fault. (fault.1 ≡ run) × (fault.2 ≡ segment) × (self.new ≡ self.old)) }
        ensures run { IsRun self.new }
    {
        let kept = *run.machine();
        match self.at_start_of(run, &segment) {
            Err(run) => Err((AdvanceFault::NotOut, run, segment)),
            Ok(run) => match self.go_on(run.at_stop_of(&segment)) {
                Ok(answer) => Ok(answer),
                Err((fault, run)) => Err((fault, run.with_machine(&kept), segment)),
            },
        }
    }

    // The run in the machine where the segment begins, if that is its own or the recorded one, and both have one program;
    // else the run as it is, which is C4.
    fn at_start_of(&self, run: Run, segment: &Segment) -> Result<Run, Run>
        ensures start { IfOk result (λ there. (there ≡ record run { machine = segment.now.from }) × (run.program.program ≡ segment.now.program.program)) }
        ensures accepted { IsAccepted run.program }
        ensures other { IfErr result (λ back. (back ≡ run) × (IsOutAs self.now.world.runs.list run.number run.program.program segment.now → ⊥)) }
        ensures run { IsRun self.now }
    {
        let recorded = self.has_recorded(&run, segment);
        if !run.is_of(segment.program()) {
            return Err(run);
        }
        if run.machine().is_same(segment.from()) {
            return Ok(run);
        }
        if recorded {
            Ok(run.with_machine(segment.from()))
        } else {
            Err(run)
        }
    }
}
