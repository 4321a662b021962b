// What may be asked of a queue's policy: a failure of a CCB, and how things stand when it fails. It relies on `ccb` for statuses, and on `base`
// for sense bytes.
#![tactic(auto)]

use base::ShortBytes;
use ccb::{CamStatus, QueueId};

/// A CCB of a queue is active, and fails so.
#[derive(Clone, Copy, Debug)]
pub struct Failure {
    pub queue: QueueId,
    pub status: CamStatus,
    pub scsi: u8,
    pub sense: ShortBytes,
    /// How often the CCB may still be tried again.
    pub retries: u32,
    /// What the host said that the command is; 0 if it said nothing.
    pub class: u32,
    /// How often it was started.
    pub attempts: u32,
    /// What the clock reads, in milliseconds.
    pub clock: u64,
}

/// A word of a table.
#[derive(Clone, Copy, Debug)]
pub struct TableWord {
    pub table: u32,
    pub index: u32,
    pub word: u64,
}

/// What is asked of a policy: what it does with the failure.
#[derive(Debug, Drop)]
pub struct Question {
    pub failure: Failure,
    /// Words of tables, each at most once and in any order. All other words are those with which the manifest has the tables begin.
    pub words: Vec<TableWord>,
}
