// What an engine's history is made of: one record for each answered call. It relies on `call` and `call_answer`, and on
// `traced_bytes` and `helpers` for where a run stops.

use crate::call::Call;
use crate::call_answer::CallAnswer;
use crate::traced_bytes::TracedBytes;
use helpers::Helper;
use std::mem::size_of;

/// Where a run stopped, as the history tells it.
#[derive(Debug, Drop)]
pub enum StoppedAt {
    /// A call of this helper, of which no more is told.
    Helper(Helper),
    /// A call of this helper, which put these bytes into the history.
    Trace(Helper, TracedBytes),
    /// A call of this helper, which finishes the run's CCB, with its final code, 0 to 63.
    Finish(Helper, u8),
    /// The outermost exit.
    Exit,
}

/// One call with its answer.
#[derive(Debug, Drop)]
pub enum Record {
    /// A call that is one event.
    Called {
        answer: CallAnswer,
        call: Call,
    },
    /// A run went on by so many instructions, 1 to 65,536: private ones, and as the last of them the helper call
    /// or exit at which it stopped, with what R0 was after the call or at the exit.
    Advance {
        run: u32,
        instructions: u32,
        stop: StoppedAt,
        r0: u64,
    },
}

// A history has many records: what is large stands apart.
const _: () = prove!(size_of::<Record>() == 40);
