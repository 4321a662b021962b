// What an engine takes over from the engine before it, line by line. It relies on `ccb` for the names of CCBs and queues, and on
// `freeze_ledger` for freezes.

use ccb::{CcbId, QueueId};
use freeze_ledger::Freeze;

/// A CCB that is taken over. Nothing is left of an earlier completion.
#[derive(Clone, Copy)]
pub struct CarriedCcb {
    pub number: CcbId,
    pub queue: QueueId,
    pub priority: u32,
    pub retries: u32,
    /// What the host said that the command is, or 0.
    pub class: u32,
    /// How often it was started, up to the largest u32.
    pub attempts: u32,
    /// What is advised for its next start, or 0.
    pub advice: u32,
    /// Whether a device works on it. Else it waits.
    pub is_active: bool,
}

/// One line of what is taken over. The lines stand in the order of these variants.
#[derive(Clone, Copy)]
pub enum CarriedLine {
    /// The greatest numbers of CCBs, freezes and runs that were given, 0 before the first.
    Numbers { ccb: u32, freeze: u32, run: u32 },
    /// What the clock read last, in milliseconds, 0 before the first reading.
    Clock { reading: u64 },
    /// How many of a queue's CCBs may be active for another one to start: a line for each queue, in the order of their numbers.
    Openings { queue: u32, openings: u32 },
    /// A word that is not 0, of a table and an index, in their order.
    Word { table: u32, index: u32, word: u64 },
    /// A CCB, in the order of their numbers.
    Ccb(CarriedCcb),
    /// A freeze that a timer or a guest holds, in the order of their numbers.
    Freeze(Freeze),
}
