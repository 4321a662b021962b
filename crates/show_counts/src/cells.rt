// In which cell of a table with a row for each queue a record stands. It relies on `told` for what a record tells.

ghost use Rattle.std.specs.Prelude.{◌≡◌, ◌+◌, ◌*◌, ◌^◌, ◌≤◌, None};
ghost use Rattle.show_counts.specs.Columns.{at, at_both, cell, cell_by, cell_of, second_told};

use std::collections::BTreeMap;

/// By what the row of a record is found.
#[derive(Clone, Copy, PartialEq, Eq)]
pub(crate) enum Rows {
    /// The second number that it tells is the queue.
    Told,
    /// The first is a CCB, whose queue it is.
    OfCcb,
    /// The first is a run, the queue of whose CCB it is.
    OfRun,
}

/// Of which queue each CCB is, and of which CCB each run, by their numbers.
#[derive(Clone, Copy)]
pub(crate) struct Found<'a> {
    pub(crate) ccbs: &'a BTreeMap<u32, u32>,
    pub(crate) runs: &'a BTreeMap<u32, u32>,
}

/// What a table has at a number.
#[tactic(auto, unfolding(crate::specs::Columns::at))]
pub(crate) fn at(table: &BTreeMap<u32, u32>, number: u32) -> Option<u32>
    ensures { result ≡ at table.now number }
{
    table.get(&number).copied()
}

// The queue of a run.
fn at_both(found: Found<'_>, run: u32) -> Option<u32>
    ensures { result ≡ at_both found.entry.ccbs.now found.entry.runs.now run }
{
    match at(found.runs, run) {
        Some(ccb) => at(found.ccbs, ccb),
        None => None,
    }
}

// The cell of a column, in the row of a queue.
fn cell(columns: u32, queue: Option<u32>, column: u32) -> Option<usize>
    ensures { result ≡ cell columns queue column }
{
    match queue {
        Some(queue) => {
            if column < columns {
                Some(queue as usize * columns as usize + column as usize)
            } else {
                None
            }
        }
        None => None,
    }
}

/// The cell of what a record tells, in a table with so many columns.
pub(crate) fn cell_by(
    rows: Rows,
    found: Found<'_>,
    columns: u32,
    pair: Option<(u32, u32)>,
) -> Option<usize>
    ensures { result ≡ cell_by rows found.entry.ccbs.now found.entry.runs.now columns pair }
{
    let Some((first, second)) = pair else {
        return None;
    };
    match rows {
        Rows::Told => Some(second as usize),
        Rows::OfCcb => cell(columns, at(found.ccbs, first), second),
        Rows::OfRun => cell(columns, at_both(found, first), second),
    }
}
