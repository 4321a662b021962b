// The decisions of a sense key as rows: one for all codes that no other row names, and one for each range of others. A code is an ASC and an
// ASCQ, as 256 times the one and the other. It relies on nothing.

ghost use Rattle.std.specs.Prelude.{◌≡◌, ◌<◌, ◌≤◌, ◌+◌, ◌*◌, ◌/◌, ◌%◌, ◌++◌, ◌∷◌, [], ℕ, IfOk, MatchBool, OnOk, length, slice_index, slice_set};
ghost use Rattle.show_decision.specs.Rows.{AddsCode, AreCounts, AreRowsOf, GoesOn, IsUsual};

use std::alloc::{AllocError, Global};

/// How many codes a key has.
pub(crate) const CODES: usize = 65_536;

/// Codes of one ASC from an ASCQ to another one, of which one thing was decided, by its number.
#[derive(Clone, Copy)]
pub(crate) struct Row {
    pub(crate) asc: u8,
    pub(crate) first: u8,
    pub(crate) last: u8,
    pub(crate) decision: usize,
}

/// What is decided of most codes; of two that are as many, that with the lower number.
pub(crate) fn most_frequent(
    alloc: Global,
    decisions: &[usize],
    count: usize,
) -> Result<usize, AllocError>
    requires few { length decisions.now ≤ CODES }
    requires each { (code : ℕ) → code < length decisions.now → slice_index decisions.now code < count }
    ensures { IfOk result (IsUsual decisions.now) }
{
    let counts = counts_of(alloc, decisions, count)?;
    Ok(greatest(&counts))
}

// How many codes each decision has.
fn counts_of(alloc: Global, decisions: &[usize], count: usize) -> Result<Vec<usize>, AllocError>
    requires few { length decisions.now ≤ CODES }
    requires each { (code : ℕ) → code < length decisions.now → slice_index decisions.now code < count }
    ensures { IfOk result (λ counts. AreCounts decisions.now count counts.items) }
{
    let mut counts = vec![in alloc; 0usize; count]?;
    for code in 0..decisions.len() {
        add_one(&mut counts, decisions[code]);
    }
    Ok(counts)
}

// Counts a code of that decision.
fn add_one(counts: &mut Vec<usize>, decision: usize)
    requires within { decision < length counts.old.items }
    requires few { slice_index counts.old.items decision < CODES }
    ensures { counts.new.items ≡ slice_set counts.old.items decision (slice_index counts.old.items decision + 1) }
{
    counts[decision] += 1;
}

// The place of the greatest of these, the first of them.
fn greatest(counts: &[usize]) -> usize
    ensures { (place : ℕ) → slice_index counts.now place ≤ slice_index counts.now result }
{
    let mut most = 0;
    let mut place = 0;
    for next in 0..counts.len() {
        if counts[next] > most {
            most = counts[next];
            place = next;
        }
    }
    place
}

/// The rows of all codes of which another thing was decided than the usual one, in the order of the codes.
pub(crate) fn rows(alloc: Global, decisions: &[usize], usual: usize) -> Result<Vec<Row>, AllocError>
    requires { length decisions.now ≤ CODES }
    ensures { IfOk result (λ rows. AreRowsOf decisions.now usual (length decisions.now) rows.items) }
{
    let mut rows = Vec::new(alloc);
    for code in 0..decisions.len() {
        if decisions[code] != usual {
            add(&mut rows, code, decisions[code])?;
        }
    }
    Ok(rows)
}

// Adds a code of which that was decided.
fn add(rows: &mut Vec<Row>, code: usize, decision: usize) -> Result<(), AllocError>
    requires { code < CODES }
    ensures { OnOk result (AddsCode rows.old.items code decision rows.new.items) }
{
    match rows.pop() {
        Some(row) => add_after(rows, row, code, decision),
        None => push(rows, row_of(code, decision)),
    }
}

// Adds a row, with that code in it if the row goes on with it, and else with a row for the code after it.
fn add_after(rows: &mut Vec<Row>, row: Row, code: usize, decision: usize) -> Result<(), AllocError>
    requires { code < CODES }
    ensures { OnOk result (AddsCode (rows.old.items ++ row ∷ []) code decision rows.new.items) }
{
    if goes_on(row, code, decision) {
        return push(rows, longer(row, code));
    }
    push(rows, row)?;
    push(rows, row_of(code, decision))
}

// Whether the code comes right after those of the row, with the same decision.
fn goes_on(row: Row, code: usize, decision: usize) -> bool
    ensures { MatchBool result (GoesOn row code decision) (GoesOn row code decision → ⊥) }
{
    if row.decision != decision {
        return false;
    }
    if row.asc as usize != code / 256 {
        return false;
    }
    if row.first > row.last {
        return false;
    }
    row.last as usize + 1 == code % 256
}

// The row, with the codes up to that one.
fn longer(row: Row, code: usize) -> Row
    ensures { result ≡ record row { last = code % 256 } }
{
    Row {
        last: (code % 256) as u8,
        ..row
    }
}

// A row for one code.
fn row_of(code: usize, decision: usize) -> Row
    requires { code < CODES }
    ensures { result ≡ record { asc = code / 256; first = code % 256; last = code % 256; decision = decision } }
{
    let asc = (code / 256) as u8;
    let ascq = (code % 256) as u8;
    Row {
        asc,
        first: ascq,
        last: ascq,
        decision,
    }
}

fn push(rows: &mut Vec<Row>, row: Row) -> Result<(), AllocError>
    ensures { OnOk result (rows.new.items ≡ rows.old.items ++ row ∷ []) }
{
    rows.push(row)?;
    Ok(())
}
