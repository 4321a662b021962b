// What the engine replies to a call. It relies on `run` for runs, on `world_calls` for refusals, and on `freeze_ledger` for
// tokens.

ghost use Rattle.std.specs.Prelude.{◌≡◌};
ghost use Rattle.engine_core.specs.Replies.{given_start, is_recorded};

use crate::run::Run;
use ccb::CcbId;
use freeze_ledger::FreezeToken;
use world_calls::{CallRefusal, Start, Version};

/// What a call gives that was carried out.
pub enum Success {
    /// The number of the CCB that was submitted or started.
    Ccb(CcbId),
    /// The CCB that was started, with what was advised for this start: if CCBs have an advice.
    Advised(Start),
    /// The CCB is finished.
    Done,
    /// The CCB is withdrawn.
    Withdrawn,
    /// A run started, with the freeze of that number, or with none as number 0.
    Started(Run, u32),
    /// A helper call was answered with that R0, and the run goes on.
    Goes(Run, u64),
    /// The run exited with that R0.
    Ended(u64),
    /// The right to give the new freeze back.
    Freeze(FreezeToken),
    /// How many freezes the place has after one was given back.
    Left(u32),
    /// How many freezes went since their timers were due.
    Removed(u32),
    /// The run is parked.
    Parked,
    /// The run that goes on, with the machine that it had.
    Resumed(Run),
}

/// What a call owned that was not carried out.
pub enum Returned {
    /// It owned nothing.
    Nothing,
    Run(Run),
    Token(FreezeToken),
}

/// The engine's reply to a call.
pub enum Reply {
    /// The call was carried out, and is recorded.
    Success(Success),
    /// It was refused, and that is recorded. It changed nothing else.
    Refused(CallRefusal),
    /// C4 or C6: the run is not out, or the token is no guest's. The engine is as before.
    NotAdmitted(Returned),
    /// Memory was refused. The engine is as before.
    OutOfMemory(Returned),
}

impl Reply {
    /// Whether it is recorded: the call was carried out, or refused.
    pub fn is_recorded(&self) -> bool
        ensures { result ≡ is_recorded self.now }
    {
        match self {
            Reply::Success(_) | Reply::Refused(_) => true,
            Reply::NotAdmitted(_) | Reply::OutOfMemory(_) => false,
        }
    }

    /// Spends what it gives, or what came back.
    pub fn forfeit(self) {
        match self {
            Reply::Success(given) => given.forfeit(),
            Reply::NotAdmitted(back) | Reply::OutOfMemory(back) => back.forfeit(),
            Reply::Refused(_) => {}
        }
    }
}

impl Success {
    /// What a start gives in a vocabulary.
    pub(crate) fn of_start(version: Version, start: Start) -> Self
        ensures { result ≡ given_start version start }
    {
        match version {
            Version::One => Success::Ccb(start.ccb),
            Version::Two => Success::Ccb(start.ccb),
            Version::Three => Success::Advised(start),
        }
    }

    /// Spends what it gives.
    pub fn forfeit(self) {
        match self {
            Success::Started(run, _) | Success::Goes(run, _) | Success::Resumed(run) =>
                run.forfeit(),
            Success::Freeze(token) => token.forfeit(),
            Success::Ccb(_)
            | Success::Advised(_)
            | Success::Done
            | Success::Withdrawn
            | Success::Ended(_)
            | Success::Left(_)
            | Success::Removed(_)
            | Success::Parked => {}
        }
    }
}

impl Returned {
    /// Spends what came back.
    pub fn forfeit(self) {
        match self {
            Returned::Nothing => {}
            Returned::Run(run) => run.forfeit(),
            Returned::Token(token) => token.forfeit(),
        }
    }
}
