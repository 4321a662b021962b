// A whole manifest, read once into what it says: each entry from its table, and of all faults of the form the lowest.
// It relies on `entries` for one entry, and on `engine_config` for how many there may be.

ghost use Rattle.std.specs.Prelude.{◌≡◌, ◌++◌, Some, None, map, filter_map, codes, IfOk, IfErr};
ghost use Rattle.toml.specs.View.{view};
ghost use Rattle.manifest_form.specs.Document.{integer_at};
ghost use Rattle.manifest_form.specs.Entries.{up_to, is_first, is_integer, is_second, number_of_controllers, controllers_of, queue_of, program_of, plan_of, table_of, version_of};
ghost use Rattle.manifest_form.specs.Faults.{lower, lowest_among, queue_fault, table_fault, program_fault, document_fault, form_fault, has_arrays, document_has_keys, document_has_form, document_has_ranges, is_later};
ghost use Rattle.manifest_form.specs.Seen.{queue_seen, program_seen, plan_seen, table_seen, IfFault};

use crate::document::{array, elements, has, has_keys, integer};
use crate::entries::{FormError, ProgramEntry, QueueEntry, TableEntry, program, queue, table};
use crate::form_fault::{FormFault, note};
use base::OrMemory;
use engine_config::MAX_CONTROLLERS;
use std::alloc::{AllocError, Global};
use toml::Value;
use world_calls::Version;

/// What a manifest says, entry by entry, in the text's order.
#[derive(Drop)]
pub struct Plan<'a> {
    /// The version by whose rules it is judged.
    pub version: Version,
    /// How many controllers there are, 1 to 8; `None` in version 1.
    pub controllers: Option<u8>,
    pub queues: Vec<QueueEntry<'a>>,
    pub tables: Vec<TableEntry>,
    pub programs: Vec<ProgramEntry<'a>>,
}

/// What a manifest says, or the lowest fault of its form.
pub fn read(alloc: Global, manifest: &Value) -> Result<Plan<'_>, FormError>
    ensures says { IfOk result (λ plan. plan_seen plan ≡ plan_of (view manifest.now)) }
    ensures lawful { IfOk result (λ _. form_fault (view manifest.now) ≡ None) }
    ensures fault { IfErr result (IfFault (λ fault. form_fault (view manifest.now) ≡ Some fault)) }
{
    let mut lowest = document_fault(manifest);
    let version = version(manifest);
    let controllers = controllers(manifest);
    let queues = queues(alloc, elements(manifest, "queue"), controllers, &mut lowest)?;
    let tables = tables(alloc, elements(manifest, "table"), version, &mut lowest)?;
    let programs = programs(alloc, elements(manifest, "program"), &mut lowest)?;
    match lowest {
        None => Ok(Plan {
            version,
            controllers,
            queues,
            tables,
            programs,
        }),
        Some(fault) => Err(OrMemory::Fault(fault)),
    }
}

// The fault of what is no entry: the keys, their types, the version, and how many controllers there are.
fn document_fault(manifest: &Value) -> Option<FormFault>
    ensures { result ≡ document_fault (view manifest.now) }
{
    if !document_has_keys(manifest) {
        return Some(FormFault::Key);
    }
    if !document_has_form(manifest) {
        return Some(FormFault::Form);
    }
    if !document_has_ranges(manifest) {
        return Some(FormFault::Range);
    }
    None
}

// The version by whose rules the manifest is judged: 1 and 2 by these integers alone, and else 3.
#[tactic(auto, unfolding(crate::specs::Entries::version_of))]
fn version(manifest: &Value) -> Version
    ensures { result ≡ version_of (view manifest.now) }
{
    if is_first(manifest) {
        Version::One
    } else if is_second(manifest) {
        Version::Two
    } else {
        Version::Three
    }
}

// Whether the manifest is of version 1, by the integer 1 alone.
#[tactic(auto, unfolding(crate::specs::Entries::is_first))]
fn is_first(manifest: &Value) -> bool
    ensures { result ≡ is_first (view manifest.now) }
{
    matches!(integer(manifest, "version"), Some(1))
}

fn document_has_keys(manifest: &Value) -> bool
    ensures { result ≡ document_has_keys (view manifest.now) }
{
    if is_first(manifest) {
        has_keys(manifest, &["version", "queue", "program"], &["table"])
    } else {
        has_keys(
            manifest,
            &["version", "controllers", "queue", "program"],
            &["table"],
        )
    }
}

fn document_has_form(manifest: &Value) -> bool
    ensures { result ≡ document_has_form (view manifest.now) }
{
    has_arrays(manifest)
        && integer(manifest, "version").is_some()
        && (is_first(manifest) || integer(manifest, "controllers").is_some())
}

fn document_has_ranges(manifest: &Value) -> bool
    ensures { result ≡ document_has_ranges (view manifest.now) }
{
    is_first(manifest) || (is_later(manifest) && number_of_controllers(manifest).is_some())
}

fn is_later(manifest: &Value) -> bool
    ensures { result ≡ is_later (view manifest.now) }
{
    is_second(manifest) || is_third(manifest)
}

fn is_third(manifest: &Value) -> bool
    ensures { result ≡ is_integer 3 (integer_at (codes "version") (view manifest.now)) }
{
    matches!(integer(manifest, "version"), Some(3))
}

fn is_second(manifest: &Value) -> bool
    ensures { result ≡ is_second (view manifest.now) }
{
    matches!(integer(manifest, "version"), Some(2))
}

// How many controllers there are: no number in version 1, and 0 where it is out of its range.
#[tactic(auto, unfolding(crate::specs::Entries::controllers_of))]
pub(crate) fn controllers(manifest: &Value) -> Option<u8>
    ensures { result ≡ controllers_of (view manifest.now) }
{
    if is_first(manifest) {
        None
    } else {
        Some(number_of_controllers(manifest).unwrap_or(0))
    }
}

fn number_of_controllers(manifest: &Value) -> Option<u8>
    ensures { result ≡ number_of_controllers (view manifest.now) }
{
    up_to_8(integer(manifest, "controllers")?)
}

fn up_to_8(number: i64) -> Option<u8>
    ensures { result ≡ up_to 8 (Some number) }
{
    match u8::try_from(number) {
        Ok(number) if 0 < number && number <= MAX_CONTROLLERS => Some(number),
        _ => None,
    }
}

fn has_arrays(manifest: &Value) -> bool
    ensures { result ≡ has_arrays (view manifest.now) }
{
    array(manifest, "queue").is_some()
        && array(manifest, "program").is_some()
        && (!has(manifest, "table") || array(manifest, "table").is_some())
}

// The queues that have no fault; of the faults the lowest is noted.
fn queues<'a>(
    alloc: Global,
    entries: &'a [Value],
    controllers: Option<u8>,
    lowest: &mut Option<FormFault>,
) -> Result<Vec<QueueEntry<'a>>, AllocError>
    ensures says { IfOk result (λ queues. lowest.new ≡ None → map queue_seen queues.items ≡ filter_map (queue_of controllers) (map view entries.now)) }
    ensures fault { IfOk result (λ _. lowest.new ≡ lower lowest.old (lowest_among (queue_fault controllers) (map view entries.now))) }
{
    let mut queues = Vec::new(alloc);
    for entry in entries {
        match queue(entry, controllers) {
            Ok(queue) => queues.push(queue)?,
            Err(fault) => note(lowest, fault),
        }
    }
    Ok(queues)
}

// The tables, likewise.
fn tables(
    alloc: Global,
    entries: &[Value],
    version: Version,
    lowest: &mut Option<FormFault>,
) -> Result<Vec<TableEntry>, AllocError>
    ensures says { IfOk result (λ tables. lowest.new ≡ None → map table_seen tables.items ≡ filter_map (table_of version) (map view entries.now)) }
    ensures fault { IfOk result (λ _. lowest.new ≡ lower lowest.old (lowest_among (table_fault version) (map view entries.now))) }
{
    let mut tables = Vec::new(alloc);
    for entry in entries {
        match table(alloc, version, entry) {
            Ok(table) => tables.push(table)?,
            Err(OrMemory::OutOfMemory) => return Err(AllocError),
            Err(OrMemory::Fault(fault)) => note(lowest, fault),
        }
    }
    Ok(tables)
}

// The programs, likewise.
fn programs<'a>(
    alloc: Global,
    entries: &'a [Value],
    lowest: &mut Option<FormFault>,
) -> Result<Vec<ProgramEntry<'a>>, AllocError>
    ensures says { IfOk result (λ programs. lowest.new ≡ None → map program_seen programs.items ≡ filter_map program_of (map view entries.now)) }
    ensures fault { IfOk result (λ _. lowest.new ≡ lower lowest.old (lowest_among program_fault (map view entries.now))) }
{
    let mut programs = Vec::new(alloc);
    for entry in entries {
        match program(alloc, entry) {
            Ok(program) => programs.push(program)?,
            Err(OrMemory::OutOfMemory) => return Err(AllocError),
            Err(OrMemory::Fault(fault)) => note(lowest, fault),
        }
    }
    Ok(programs)
}
