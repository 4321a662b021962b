// The columns of a summary that count records. It relies on `tally` for counting, and on `first` for the queues of CCBs and runs.

ghost use Rattle.std.specs.Prelude.{◌≡◌, ◌*◌, ◌≤◌, IfOk, slice_index_or};
ghost use Rattle.show_counts.specs.Columns.{AreCounts, cell_of, queue_of, queue_of_run, second_told};
ghost use Rattle.show_counts.specs.Told.{completion, failure, finish, helper_call, start, submission, zero_answer};
ghost use Rattle.show_counts.specs.declared.counts.TheConstants.{CODES, HELPERS};

use crate::cells::{Found, Rows};
use crate::first::{ccbs_of, runs_of};
use crate::tally::tally;
use crate::told::Tells;
use base_chunked_list::ChunkedList;
use std::alloc::{AllocError, Global};
use world_calls::{CarriedLine, Record};

/// How many columns a table of status codes or of final codes has: a code is below it.
pub const CODES: u32 = 64;

/// How many a table of helpers has: a helper's number, from 1, is below it.
pub const HELPERS: u32 = helpers::HELPERS.len() as u32 + 1;

/// How many records are so, for each queue in the order of the queues' numbers; of those with columns the cell of a column `c` in the
/// row of queue `q` is at `q` times the number of columns, plus `c`.
#[derive(Drop)]
pub struct Counts {
    /// Submissions to the queue that were answered by a CCB.
    pub submissions: Vec<u64>,
    /// Starts of the queue that were answered by a CCB.
    pub starts: Vec<u64>,
    /// By the code of the status: completions of the queue's CCBs that were answered by their end or by a run.
    pub completions: Vec<u64>,
    /// Completions of the queue's CCBs that were answered by a run.
    pub recoveries: Vec<u64>,
    /// By the final code: calls of the queue's runs that finished a CCB.
    pub finishes: Vec<u64>,
    /// By the helper's number: calls of the queue's runs.
    pub calls: Vec<u64>,
    /// The same, as far as they were answered 0.
    pub zeros: Vec<u64>,
}

/// Counts the records of a trace with these carried lines, for so many queues. The queue of a CCB is the one with which it was carried over,
/// or else that of the first submission which was answered by its number; the CCB of a run is that of the first completion which was
/// answered by the run's. A record of another queue is not counted. While it counts it takes memory for each CCB and each run, however
/// great their numbers are.
pub fn count_records(
    alloc: Global,
    queues: u32,
    lines: &[CarriedLine],
    records: &ChunkedList<Record>,
) -> Result<Counts, AllocError>
    ensures submissions { IfOk result (λ it. AreCounts (λ r. second_told (submission r)) queues records.now.items it.submissions.items) }
    ensures starts { IfOk result (λ it. AreCounts (λ r. second_told (start r)) queues records.now.items it.starts.items) }
    ensures completions { IfOk result (λ it. AreCounts (λ r. cell_of CODES (queue_of lines.now records.now.items) (completion r)) (queues * CODES) records.now.items it.completions.items) }
    ensures recoveries { IfOk result (λ it. AreCounts (λ r. cell_of 1 (queue_of lines.now records.now.items) (failure r)) queues records.now.items it.recoveries.items) }
    ensures finishes { IfOk result (λ it. AreCounts (λ r. cell_of CODES (queue_of_run lines.now records.now.items) (finish r)) (queues * CODES) records.now.items it.finishes.items) }
    ensures calls { IfOk result (λ it. AreCounts (λ r. cell_of HELPERS (queue_of_run lines.now records.now.items) (helper_call r)) (queues * HELPERS) records.now.items it.calls.items) }
    ensures zeros { IfOk result (λ it. AreCounts (λ r. cell_of HELPERS (queue_of_run lines.now records.now.items) (zero_answer r)) (queues * HELPERS) records.now.items it.zeros.items) }
{
    let ccbs = ccbs_of(alloc, lines, records)?;
    let runs = runs_of(alloc, records)?;
    let found = Found {
        ccbs: &ccbs,
        runs: &runs,
    };
    let rows = queues as usize;
    let codes = rows * CODES as usize;
    let helpers = rows * HELPERS as usize;
    Ok(Counts {
        submissions: tally(
            alloc,
            Tells::Submission,
            Rows::Told,
            found,
            1,
            rows,
            records,
        )?,
        starts: tally(alloc, Tells::Start, Rows::Told, found, 1, rows, records)?,
        completions: tally(
            alloc,
            Tells::Completion,
            Rows::OfCcb,
            found,
            CODES,
            codes,
            records,
        )?,
        recoveries: tally(alloc, Tells::Failure, Rows::OfCcb, found, 1, rows, records)?,
        finishes: tally(
            alloc,
            Tells::Finish,
            Rows::OfRun,
            found,
            CODES,
            codes,
            records,
        )?,
        calls: tally(
            alloc,
            Tells::HelperCall,
            Rows::OfRun,
            found,
            HELPERS,
            helpers,
            records,
        )?,
        zeros: tally(
            alloc,
            Tells::ZeroAnswer,
            Rows::OfRun,
            found,
            HELPERS,
            helpers,
            records,
        )?,
    })
}

impl Counts {
    /// What a table of counts has at a place; 0 after the last.
    pub fn at(counts: &[u64], place: usize) -> u64
        ensures { result ≡ slice_index_or counts.now place 0 }
    {
        match counts.get(place) {
            Some(count) => *count,
            None => 0,
        }
    }
}
