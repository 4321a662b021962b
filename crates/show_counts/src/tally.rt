// Counts records by the cell in which each stands. It relies on `cells` for that.

ghost use Rattle.std.specs.Prelude.{◌≡◌, ◌+◌, ◌^◌, ◌<◌, ◌≤◌, ℕ, IfOk, length, slice_index_or, if◌then◌else◌};
ghost use Rattle.show_counts.specs.Columns.{AreCounts, cell_by, is_at};
ghost use Rattle.show_counts.specs.Told.{told_by};

use crate::cells::{Found, Rows, cell_by};
use crate::told::Tells;
use base_chunked_list::ChunkedList;
use std::alloc::{AllocError, Global};
use world_calls::Record;

/// How many records stand in each of so many cells.
pub(crate) fn tally(
    alloc: Global,
    tells: Tells,
    rows: Rows,
    found: Found<'_>,
    columns: u32,
    cells: usize,
    records: &ChunkedList<Record>,
) -> Result<Vec<u64>, AllocError>
    ensures { IfOk result (λ counts. AreCounts (λ it. cell_by rows found.entry.ccbs.now found.entry.runs.now columns (told_by tells it)) cells records.now.items counts.items) }
{
    let mut counts = vec![in alloc; 0u64; cells]?;
    let _all = records.len();
    for record in records.iter() {
        count(
            &mut counts,
            cell_by(rows, found, columns, tells.told(record)),
        );
    }
    Ok(counts)
}

// Counts one more in that cell, if there is one.
fn count(counts: &mut [u64], cell: Option<usize>)
    requires { (place : ℕ) → place < length counts.old → slice_index_or counts.old place 0 + 1 < 2 ^ 64 }
    ensures { (place : ℕ) → place < length counts.old → slice_index_or counts.new place 0 ≡ slice_index_or counts.old place 0 + (if is_at place cell then 1 else 0) }
{
    if let Some(place) = cell
        && place < counts.len()
    {
        counts[place] += 1;
    }
}
