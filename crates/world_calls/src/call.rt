// What an engine may be asked for, but for an advance, which is many events. It relies on `completion_record` for what a
// device reports.

use crate::completion_record::CompletionRecord;
use ccb::{CcbId, Place, QueueId};

/// A call of the engine.
#[derive(Debug, Drop)]
pub enum Call {
    /// A CCB is submitted to a queue. The lowest priority number starts first; it may be tried again so many times. Where CCBs have
    /// a class, and there alone, the submission says it.
    Submit {
        queue: QueueId,
        priority: u32,
        retries: u32,
        class: Option<u32>,
    },
    /// A queue starts a CCB.
    Dispatch {
        queue: QueueId,
    },
    /// A device is done with a CCB.
    Complete {
        completion: CompletionRecord,
    },
    /// The host does not want a CCB that waits any more. It ends with the code of REQ_ABORTED.
    Withdraw {
        ccb: CcbId,
    },
    /// A guest, by the number that it chose, freezes a place.
    GuestFreeze {
        place: Place,
        guest: u32,
    },
    /// A guest gives the freeze of that number back.
    GuestRelease {
        freeze: u32,
    },
    /// The clock is read, in milliseconds.
    Clock {
        reading: u64,
    },
    /// The run of that number is parked: it takes no step until it is resumed.
    Park {
        run: u32,
    },
    /// The run of that number, which is parked, is out again.
    Resume {
        run: u32,
    },
}
