// What is told first of each number of which anything is told, as a table. It relies on `told` for what a line or a record tells.

ghost use Rattle.std.specs.Prelude.{◌≡◌, ℕ, IfOk, OnOk};
ghost use Rattle.show_counts.specs.Columns.{at, carried_queue, ccb_of, first_told, or_later, queue_of, told_of};
ghost use Rattle.show_counts.specs.Told.{told_by};

use crate::told::{Tells, carried};
use base_chunked_list::ChunkedList;
use std::alloc::{AllocError, Global};
use std::collections::BTreeMap;
use world_calls::{CarriedLine, Record};

/// The queue of each CCB that these lines carry over, or that a record submits.
pub(crate) fn ccbs_of(
    alloc: Global,
    lines: &[CarriedLine],
    records: &ChunkedList<Record>,
) -> Result<BTreeMap<u32, u32>, AllocError>
    ensures { IfOk result (λ table. (number : ℕ) → at table number ≡ queue_of lines.now records.now.items number) }
{
    let mut table = queues_of(alloc, lines)?;
    add_first_told(&mut table, Tells::Submission, records)?;
    Ok(table)
}

/// The CCB of each run that a record begins.
pub(crate) fn runs_of(
    alloc: Global,
    records: &ChunkedList<Record>,
) -> Result<BTreeMap<u32, u32>, AllocError>
    ensures { IfOk result (λ table. (number : ℕ) → at table number ≡ ccb_of records.now.items number) }
{
    let mut table = BTreeMap::new(alloc);
    add_first_told(&mut table, Tells::Recovery, records)?;
    Ok(table)
}

// The queue of each CCB that these lines carry over, by its number.
fn queues_of(alloc: Global, lines: &[CarriedLine]) -> Result<BTreeMap<u32, u32>, AllocError>
    ensures { IfOk result (λ table. (number : ℕ) → at table number ≡ carried_queue number lines.now) }
{
    let mut table = BTreeMap::new(alloc);
    for line in lines {
        keep(&mut table, carried(line))?;
    }
    Ok(table)
}

// Adds by each number what the first record tells of it that tells anything, where the table has nothing of that number yet.
fn add_first_told(
    table: &mut BTreeMap<u32, u32>,
    tells: Tells,
    records: &ChunkedList<Record>,
) -> Result<(), AllocError>
    ensures { OnOk result ((number : ℕ) → at table.new number ≡ or_later (at table.old number) (first_told (told_by tells) number records.now.items)) }
{
    for record in records.iter() {
        keep(table, tells.told(record))?;
    }
    Ok(())
}

// Keeps what is told, where nothing is kept of that number.
#[tactic(auto, unfolding(crate::specs::Columns::at))]
fn keep(table: &mut BTreeMap<u32, u32>, pair: Option<(u32, u32)>) -> Result<(), AllocError>
    ensures { OnOk result ((number : ℕ) → at table.new number ≡ or_later (at table.old number) (told_of number pair)) }
{
    let Some((first, second)) = pair else {
        return Ok(());
    };
    if !table.contains_key(&first) {
        let _ = table.insert(first, second)?;
    }
    Ok(())
}
