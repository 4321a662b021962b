// A call of the engine as a value, with all that it owns or is lent. It relies on `run` for runs, on `stopped` for what a run did,
// and on `freeze_ledger` for tokens.

ghost use Rattle.std.specs.Prelude.{◌≡◌};
ghost use Rattle.engine_core.specs.Replies.{owned};

use crate::reply::Returned;
use crate::run::Run;
use crate::stopped::Stopped;
use ccb::{CcbId, Completion, Place, QueueId};
use freeze_ledger::FreezeToken;

/// A call of the engine. What it owns comes back where it is not carried out.
pub enum Event<'a> {
    /// A CCB is submitted to a queue, with a priority, how often it may be tried again, and its class, which is taken as 0 if CCBs have
    /// none.
    Submit {
        queue: QueueId,
        priority: u32,
        retries: u32,
        class: u32,
    },
    /// A queue starts a CCB.
    Dispatch {
        queue: QueueId,
    },
    /// A device is done with a CCB.
    Complete {
        completion: &'a Completion,
    },
    /// The host does not want a CCB any more.
    Withdraw {
        ccb: CcbId,
    },
    /// A run came to its next stop.
    Advance {
        run: Stopped,
    },
    /// The clock is read, in milliseconds.
    Clock {
        reading: u64,
    },
    /// A guest, by the number that it chose, freezes a place.
    GuestFreeze {
        place: Place,
        guest: u32,
    },
    /// A guest gives a freeze back.
    GuestRelease {
        token: FreezeToken,
    },
    /// A run is parked.
    Park {
        run: Run,
    },
    /// The run of that number, which is parked, goes on.
    Resume {
        run: u32,
    },
}

impl Event<'_> {
    /// What it owns.
    pub fn owned(self) -> Returned
        ensures { result ≡ owned self.entry }
    {
        match self {
            Event::Advance { run } => Returned::Run(run.back()),
            Event::Park { run } => Returned::Run(run),
            Event::GuestRelease { token } => Returned::Token(token),
            Event::Submit {
                queue: _,
                priority: _,
                retries: _,
                class: _,
            }
            | Event::Dispatch { queue: _ }
            | Event::Complete { completion: _ }
            | Event::Withdraw { ccb: _ }
            | Event::Clock { reading: _ }
            | Event::GuestFreeze { place: _, guest: _ }
            | Event::Resume { run: _ } => Returned::Nothing,
        }
    }

    /// Spends what it owns and changes no engine: it is for an event that nobody is asked about.
    pub fn forfeit(self) {
        self.owned().forfeit();
    }
}
