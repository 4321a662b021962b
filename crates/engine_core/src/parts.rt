// The parts of an engine beside its configuration and its history: what an event needs of them, and what it makes of them.
// It relies on `engine_transport` for CCBs, queues, freezes and the clock, and on `engine_runs` for runs and tables.

ghost use Rattle.std.specs.Prelude.{◌≡◌};

use crate::answers::CompleteAnswer;
use crate::run::Run;
use ccb::CallRefusal;
use engine_runs::Runs;
use engine_transport::Transport;

/// What CAM keeps, and the runs of recovery programs.
#[derive(Drop)]
pub(crate) struct Parts {
    pub transport: Transport,
    pub runs: Runs,
}

impl Parts {
    /// Spends the right to a run. The places of its machines are kept for runs to come.
    pub(crate) fn spend(&mut self, run: Run)
        ensures { self.new ≡ self.old }
    {
        let (machine, next) = run.spent();
        self.runs.keep_place(machine);
        self.runs.keep_place(next);
    }

    /// Spends the right to the run that a completion started, if it started one.
    pub(crate) fn spend_started(&mut self, answer: Result<CompleteAnswer, CallRefusal>)
        ensures { self.new ≡ self.old }
    {
        match answer {
            Ok(CompleteAnswer::Started(run, _)) => self.spend(run),
            Ok(CompleteAnswer::Done) => {}
            Err(_) => {}
        }
    }

    /// Spends the right to a run that goes out again, if one does.
    pub(crate) fn spend_again(&mut self, answer: Result<Run, CallRefusal>)
        ensures { self.new ≡ self.old }
    {
        match answer {
            Ok(run) => self.spend(run),
            Err(_) => {}
        }
    }
}
