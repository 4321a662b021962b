// What the engine's methods answer beside their values. It relies on `world_calls` for refusals, and on `run` for runs.

ghost use Rattle.std.specs.Prelude.{◌≡◌};
ghost use Rattle.engine_core.specs.Answers.{r0_of};
ghost use Rattle.engine_core.specs.Faults.{given};

use crate::run::Run;
use thiserror::Error;
use world_calls::CallRefusal;

/// Why a call was not carried out.
#[derive(Clone, Copy, Debug, PartialEq, Eq, Error)]
pub enum CallFault {
    /// Memory was refused. The engine is as before.
    #[error("out of memory")]
    OutOfMemory,
    /// The call is refused, and the refusal is recorded.
    #[error("{0}")]
    Refused(CallRefusal),
}

/// What a call gives, or its refusal as a fault.
pub(crate) fn given<T>(answer: Result<T, CallRefusal>) -> Result<T, CallFault>
    ensures { result ≡ given answer }
{
    match answer {
        Ok(it) => Ok(it),
        Err(refusal) => Err(CallFault::Refused(refusal)),
    }
}

/// Why a freeze was not given back. The engine is as before.
#[derive(Clone, Copy, Debug, PartialEq, Eq, Error)]
pub enum ReleaseFault {
    /// Memory was refused.
    #[error("out of memory")]
    OutOfMemory,
    /// C6: no guest's freeze is the token's.
    #[error("C6")]
    NotHeld,
}

/// Why a run was not taken further.
#[derive(Clone, Copy, Debug, PartialEq, Eq, Error)]
pub enum AdvanceFault {
    /// Memory was refused. Of one stop nothing is taken over then.
    #[error("out of memory")]
    OutOfMemory,
    /// C4: no run of that number is out in this engine, or the run's program or machine, or that of the segment, is not the recorded
    /// one. The engine is as before.
    #[error("C4")]
    NotOut,
}

/// What a completion led to.
pub enum CompleteAnswer {
    /// The CCB is finished.
    Done,
    /// A run of the queue's program started, with the freeze of that number, or with none as number 0.
    Started(Run, u32),
}

/// What a segment led to, each with R0.
pub enum AdvanceAnswer {
    /// A helper call was answered, and the run goes on.
    Goes(Run, u64),
    /// The run exited.
    Ended(u64),
}

impl AdvanceAnswer {
    /// R0 after the stop.
    pub fn r0(&self) -> u64
        ensures { result ≡ r0_of self.now }
    {
        match self {
            AdvanceAnswer::Goes(_, r0) | AdvanceAnswer::Ended(r0) => *r0,
        }
    }
}
