// A path by which control comes to a check, of those that were shown: back from the check, each time by the way that says most of
// what is known there of the registers that matter. It relies on `log`, and on `static_path` for that it is one.

ghost use Rattle.std.specs.Prelude.{◌≡◌, map, IfOk, IfSome};
ghost use Rattle.explain_path.specs.Logs.{EndsAt, slot_at};
ghost use Rattle.explain_path.specs.Passes.{IsPath};

use crate::log::{Arrival, Log};
use crate::registers::{Registers, written_by};
use crate::static_path::is_static_path;
use bpf_insn::Program;
use std::alloc::{AllocError, Global};

/// A path: its checks by their numbers, and their slots, from slot 0 on. The last is the one to which it leads.
#[derive(Drop)]
pub struct Path {
    pub checks: Vec<usize>,
    pub slots: Vec<usize>,
}

/// A path to the check of that number, by the ways that say most of these registers. `None` where what was kept of the
/// program's pass is no static path of this program.
pub fn path_to(
    alloc: Global,
    program: &Program,
    log: &Log,
    number: usize,
    matter: Registers,
) -> Result<Option<Path>, AllocError>
    ensures path { IfOk result (λ found. IfSome found (λ path. IsPath program.now path.slots.items)) }
    ensures last { IfOk result (λ found. IfSome found (λ path. EndsAt number path.checks.items)) }
    ensures slots { IfOk result (λ found. IfSome found (λ path. path.slots.items ≡ map (slot_at log.now.sightings) path.checks.items)) }
{
    let checks = checks_to(alloc, program, log, number, matter)?;
    let slots = slots_of(alloc, log, &checks)?;
    if is_static_path(alloc, program, &slots)? {
        Ok(Some(Path { checks, slots }))
    } else {
        Ok(None)
    }
}

// The checks on the way to that one, from the first.
fn checks_to(
    alloc: Global,
    program: &Program,
    log: &Log,
    number: usize,
    matter: Registers,
) -> Result<Vec<usize>, AllocError>
    ensures { IfOk result (λ checks. EndsAt number checks.items) }
{
    let mut checks = Vec::new(alloc);
    checks.push(number)?;
    let mut matter = matter;
    let mut at = number;
    for _check in 0..number {
        let Some(before) = before(log, at, matter) else {
            break;
        };
        at = before;
        matter = mattering(program, log, at, matter);
        checks.push(at)?;
    }
    checks.reverse();
    Ok(checks)
}

// The check before that one; a function's first has that of its call before it.
fn before(log: &Log, at: usize, matter: Registers) -> Option<usize> {
    match most_telling(log.arrivals_at(at), matter) {
        Some(from) => Some(from),
        None => at.checked_sub(1),
    }
}

// The check from which that way comes that says most of what all say: of several such ways the one that was shown first.
fn most_telling(arrivals: &[Arrival], matter: Registers) -> Option<usize> {
    let mut found = None;
    let mut most = 0u32;
    for arrival in arrivals {
        let telling = worth(*arrival, matter);
        if telling >= most {
            found = Some(arrival.from);
            most = telling;
        }
    }
    found
}

// What a way says of the registers that matter counts for more than all else, and then what it says of the stack.
fn worth(arrival: Arrival, matter: Registers) -> u32 {
    let telling = arrival.alike.common(matter).count();
    telling
        .saturating_mul(32)
        .saturating_add(if arrival.stack_alike { 16 } else { 0 })
        .saturating_add(arrival.alike.count())
}

// Which registers matter before an instruction, where these do after it.
fn mattering(program: &Program, log: &Log, at: usize, matter: Registers) -> Registers {
    let Some(sighting) = log.sightings().get(at) else {
        return matter;
    };
    let Some(insn) = program.fetch(sighting.slot) else {
        return matter;
    };
    match written_by(insn) {
        Some(reg) if matter.has(reg) => matter.without(reg).union(Registers::read_by(insn)),
        _ => matter,
    }
}

// The slots of these checks.
fn slots_of(alloc: Global, log: &Log, checks: &[usize]) -> Result<Vec<usize>, AllocError>
    ensures { IfOk result (λ slots. slots.items ≡ map (slot_at log.now.sightings) checks.now) }
{
    let mut slots = Vec::with_capacity(alloc, checks.len())?;
    for check in checks {
        slots.push(slot_at(log, *check))?;
    }
    Ok(slots)
}

// The slot of the check of that number, or the greatest number.
fn slot_at(log: &Log, check: usize) -> usize
    ensures { result ≡ slot_at log.now.sightings check }
{
    match log.sightings().get(check) {
        Some(sighting) => sighting.slot,
        None => usize::MAX,
    }
}
