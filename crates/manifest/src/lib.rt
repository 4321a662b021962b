// The manifest: TOML that is parsed untyped with `toml`, and read once into what it says. It relies on
// `manifest_form` for what a manifest has to be, on `programs` for what its programs are, and on `setup` for its queues.
#![tactic(auto)]

ghost use Rattle.std.specs.Prelude.{◌≡◌, ◌≤◌, Some, None, map, length, string_bytes, IfOk, IfErr};
ghost use Rattle.toml.specs.Parse.{parse_document};
ghost use Rattle.toml.specs.View.{view, table_view};
ghost use Rattle.manifest_form.specs.Entries.{plan_of};
ghost use Rattle.manifest.specs.Meaning.{AreShort, Means, HasFault, HasProgramFault, IsSetUp, helpers_with, lowest_fault};
ghost use Rattle.manifest.specs.Migration.{HasMigrationFault, IsMigrated};
ghost use Rattle.manifest.specs.declared.fault.ManifestFault.TheVariants as ManifestFault;
ghost use Rattle.manifest_form.specs.Migration.{comes_after};
ghost use Rattle.manifest_form.specs.Seen.{plan_seen, queue_seen, table_seen, IfFault};
ghost use Rattle.manifest.specs.Seen.{named_seen, named, IsLawfulPlan};

mod fault;
mod migration;
mod programs;
mod setup;

use base::OrMemory;
use engine_config::Config;
pub use fault::{ManifestError, ManifestFault};
use helpers::{HelperLimits, HelperSet, TableLengths};
use manifest_form::{
    FormFault, Plan, QueueEntry, TableEntry, has_lawful_names, has_lawful_numbers,
};
pub use programs::NamedProgram;
use std::alloc::{AllocError, Global};
use toml::{Table, Value};
use world_calls::Version;

/// What a manifest says.
#[derive(Drop)]
pub struct Manifest {
    pub config: Config,
    /// All programs in the text's order, also those that no queue names.
    pub programs: Vec<NamedProgram>,
}

/// Reads a manifest and verifies its programs. An error for want of memory says nothing of the text, and a fault is the one that
/// `HasFault` names: the lowest, and of M7 and M8 that of the first program with one.
pub fn read(alloc: Global, text: &str) -> Result<Manifest, ManifestError>
    // What is read is what the text means.
    ensures found { IfOk result (λ manifest. Means text.now manifest.config (map named_seen manifest.programs.items)) }
    // No run of its programs executes more instructions than a program may have, written out.
    ensures short { IfOk result (λ manifest. AreShort manifest.config.queues) }
    // Which fault it is.
    ensures fault { IfErr result (IfFault (HasFault text.now)) }
{
    let document = Value::Table(parse(alloc, text)?);
    let plan = plan(alloc, &document)?;
    set_up(alloc, plan)
}

/// The text of a later version that says what a text of a lower version says. One of version 1 gets one controller, which is number 0,
/// over all its queues. The text is read and its programs are verified first: its faults are those of `read`, and then M9, if its version
/// is not lower. The table alone stays: comments and layout are not kept.
pub fn migrate(alloc: Global, text: &str, to: Version) -> Result<String, ManifestError>
    // What is written is a manifest again, and says the same in the later version.
    ensures migrated { IfOk result (λ migrated. IsMigrated to text.now (string_bytes migrated)) }
    // Which fault it is.
    ensures fault { IfErr result (IfFault (HasMigrationFault to text.now)) }
{
    let document = Value::Table(parse(alloc, text)?);
    let plan = plan(alloc, &document)?;
    let version = plan.version;
    let _manifest = set_up(alloc, plan)?;
    if comes_after(version, to) {
        Ok(migration::print(alloc, &document, to)?)
    } else {
        Err(OrMemory::Fault(ManifestFault::Migrated))
    }
}

// Whether the second version is the later one.
fn comes_after(from: Version, to: Version) -> bool
    ensures { result ≡ comes_after from to }
{
    match from {
        Version::One => !matches!(to, Version::One),
        Version::Two => matches!(to, Version::Three),
        Version::Three => false,
    }
}

// A plan set up.
fn set_up(alloc: Global, plan: Plan<'_>) -> Result<Manifest, ManifestError>
    requires { IsLawfulPlan (plan_seen plan) }
    ensures found { IfOk result (λ manifest. IsSetUp (plan_seen plan.entry) manifest.config (map named_seen manifest.programs.items)) }
    ensures fault { IfErr result (IfFault (HasProgramFault (plan_seen plan.entry))) }
{
    let Plan {
        version,
        controllers,
        queues,
        tables,
        programs,
    } = plan;
    let limits = HelperLimits {
        helpers: helpers_with(version),
        queues: count(&queues),
        table_lengths: TableLengths::new(lengths(alloc, &tables)?),
    };
    let programs = programs::read(alloc, &programs, &limits)?;
    let config = setup::config(
        alloc,
        version,
        controllers,
        tables,
        &queues,
        limits,
        &programs,
    )?;
    Ok(Manifest { config, programs })
}

// The helpers that the programs may call.
fn helpers_with(version: Version) -> HelperSet
    ensures { result ≡ helpers_with version }
{
    match version {
        Version::One => HelperSet::Queues,
        Version::Two => HelperSet::Controllers,
        Version::Three => HelperSet::Classes,
    }
}

// How many words each table has.
fn lengths(alloc: Global, tables: &[TableEntry]) -> Result<Vec<u16>, AllocError>
    ensures { IfOk result (λ lengths. lengths.items ≡ map (λ table. table.size) (map table_seen tables.now)) }
{
    let mut lengths = Vec::with_capacity(alloc, tables.len())?;
    for table in tables {
        lengths.push(table.length)?;
    }
    Ok(lengths)
}

// The text as TOML.
fn parse(alloc: Global, text: &str) -> Result<Table, ManifestError>
    ensures parsed { IfOk result (λ table. parse_document text.now ≡ Some (table_view table)) }
    ensures fault { IfErr result (IfFault (λ fault. (fault ≡ ManifestFault.Text) × (parse_document text.now ≡ None))) }
{
    match toml::table_from_str(alloc, text) {
        Ok(table) => Ok(table),
        Err(error) if error.is_memory() => Err(OrMemory::OutOfMemory),
        Err(_) => Err(OrMemory::Fault(ManifestFault::Text)),
    }
}

// What the document says, if it has none of M2 to M6.
fn plan(alloc: Global, document: &Value) -> Result<Plan<'_>, ManifestError>
    ensures says { IfOk result (λ plan. plan_seen plan ≡ plan_of (view document.now)) }
    ensures lawful { IfOk result (λ _. lowest_fault (view document.now) ≡ None) }
    ensures fault { IfErr result (IfFault (λ fault. lowest_fault (view document.now) ≡ Some fault)) }
{
    match manifest_form::read(alloc, document) {
        Ok(plan) if !has_lawful_numbers(&plan) => Err(OrMemory::Fault(ManifestFault::Number)),
        Ok(plan) if !has_lawful_names(&plan) => Err(OrMemory::Fault(ManifestFault::Name)),
        Ok(plan) => Ok(plan),
        Err(OrMemory::OutOfMemory) => Err(OrMemory::OutOfMemory),
        Err(OrMemory::Fault(fault)) => Err(OrMemory::Fault(named(fault))),
    }
}

fn named(fault: FormFault) -> ManifestFault
    ensures { result ≡ named fault }
{
    match fault {
        FormFault::Key => ManifestFault::Key,
        FormFault::Form => ManifestFault::Form,
        FormFault::Range => ManifestFault::Range,
    }
}

// How many queues there are.
fn count(queues: &[QueueEntry<'_>]) -> u32
    requires { length queues.now ≤ 64 }
    ensures { result ≡ length queues.now }
{
    queues.len() as u32
}
