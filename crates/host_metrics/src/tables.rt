// Tables of counters, each at its cell. It relies on nothing.

ghost use Rattle.std.specs.Prelude.{◌≡◌, ◌<◌, ℕ, IfOk, false, length, replicate, slice_index_or, if◌then◌else◌};
ghost use Rattle.host_metrics.specs.Notes.{is_at};
ghost use Rattle.host_metrics.specs.Counted.{GrowsTo};

use std::alloc::{AllocError, Global};

/// A table of so many cells, each 0.
pub(crate) fn zeros(alloc: Global, cells: usize) -> Result<Vec<u64>, AllocError>
    ensures { IfOk result (λ table. table.items ≡ replicate cells 0) }
{
    vec![in alloc; 0u64; cells]
}

/// Counts so many more in that cell, if there is one.
pub(crate) fn add(table: &mut Vec<u64>, cell: Option<usize>, more: u64)
    ensures many { length table.new.items ≡ length table.old.items }
    ensures each { (place : ℕ) → place < length table.old.items → GrowsTo (slice_index_or table.old.items place 0) (if is_at place cell then more else 0) (slice_index_or table.new.items place 0) }
{
    if let Some(place) = cell
        && place < table.len()
    {
        table[place] = grown(table[place], more);
    }
}

/// Counts so many more in each cell that is marked.
pub(crate) fn add_marked(table: &mut Vec<u64>, marks: &[bool], more: u64)
    ensures many { length table.new.items ≡ length table.old.items }
    ensures each { (place : ℕ) → place < length table.old.items → GrowsTo (slice_index_or table.old.items place 0) (if slice_index_or marks.now place false then more else 0) (slice_index_or table.new.items place 0) }
{
    for place in 0..table.len() {
        if is_marked(marks, place) {
            table[place] = grown(table[place], more);
        }
    }
}

fn is_marked(marks: &[bool], place: usize) -> bool
    ensures { result ≡ slice_index_or marks.now place false }
{
    match marks.get(place) {
        Some(mark) => *mark,
        None => false,
    }
}

/// A counter with so many more. It stays at its most.
pub(crate) fn grown(count: u64, more: u64) -> u64
    ensures { GrowsTo count more result }
{
    count.saturating_add(more)
}

/// What stands at a place; 0 after the last.
pub(crate) fn at(table: &[u64], place: usize) -> u64
    ensures { result ≡ slice_index_or table.now place 0 }
{
    match table.get(place) {
        Some(count) => *count,
        None => 0,
    }
}
