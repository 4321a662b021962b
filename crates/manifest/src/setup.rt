// The configuration of a manifest whose programs are accepted: each queue with its openings, its controller and the program that
// it names.

ghost use Rattle.std.specs.Prelude.{◌≡◌, List, [], ◌∷◌, ◌++◌, Some, None, unwrap_or, map, find, option_copied, string_bytes, bytes_eq, length, IsSome, IfOk, IfErr, OnOk};
ghost use Rattle.std.specs.Arc.{arc_value};
ghost use Rattle.std.specs.List.{AllByRecursion, AllZip};
ghost use Rattle.engine_config.specs.Configured.{alone_of, firsts_of, under_of};
ghost use Rattle.table_store.specs.Tables.{tables_with};
ghost use Rattle.world_calls.specs.declared.trace.Version.TheVariants.{One, Three, Two};
ghost use Rattle.manifest_form.specs.Entries.{TableLine};
ghost use Rattle.manifest.specs.Meaning.{setup_of, is_named};
ghost use Rattle.manifest_form.specs.Seen.{queue_seen, table_seen};
ghost use Rattle.manifest.specs.Seen.{named_seen, AreNamed, IsGivenFor, IsItsVerdict, IsReady};

use crate::programs::NamedProgram;
use bpf_accepted::Accepted;
use engine_config::Config;
use helpers::HelperLimits;
use manifest_form::{QueueEntry, TableEntry};
use std::alloc::{AllocError, Global};
use std::sync::Arc;
use world_calls::Version;

/// The configuration of these queues, under so many controllers, or without any, and of these tables. The queues' programs are among
/// those that were accepted under the limits.
pub fn config(
    alloc: Global,
    version: Version,
    controllers: Option<u8>,
    tables: Vec<TableEntry>,
    queues: &[QueueEntry<'_>],
    limits: HelperLimits,
    programs: &[NamedProgram],
) -> Result<Config, AllocError>
    requires { IsReady limits version controllers (map table_seen tables.items) (map queue_seen queues.now) (map named_seen programs.now) }
    ensures limits { IfOk result (λ config. config.limits ≡ limits) }
    ensures controllers { IfOk result (λ config. config.controllers ≡ unwrap_or controllers 0) }
    ensures tables { IfOk result (λ config. config.tables ≡ tables_with limits.table_lengths (map (λ table. table.words) (map table_seen tables.items))) }
    ensures queues { IfOk result (λ config. map (setup_of (map named_seen programs.now)) (map queue_seen queues.now) ≡ map Some config.queues) }
    ensures alone { IfOk result (λ config. config.carried ≡ None) }
{
    let controllers = controllers.unwrap_or(0);
    match version {
        Version::One => alone(alloc, queues, limits, programs),
        Version::Two => under(alloc, queues, controllers, limits, programs),
        Version::Three => classed(alloc, tables, queues, controllers, limits, programs),
    }
}

fn alone(
    alloc: Global,
    queues: &[QueueEntry<'_>],
    limits: HelperLimits,
    programs: &[NamedProgram],
) -> Result<Config, AllocError>
    requires { (tables : List TableLine) × IsReady limits One None tables (map queue_seen queues.now) (map named_seen programs.now) }
    ensures limits { IfOk result (λ config. config.limits ≡ limits) }
    ensures controllers { IfOk result (λ config. config.controllers ≡ 0) }
    ensures tables { IfOk result (λ config. config.tables ≡ tables_with limits.table_lengths []) }
    ensures queues { IfOk result (λ config. map (setup_of (map named_seen programs.now)) (map queue_seen queues.now) ≡ map Some config.queues) }
    ensures alone { IfOk result (λ config. config.carried ≡ None) }
{
    let given = given_alone(alloc, queues, programs)?;
    let Some(config) = Config::new(limits, given) else {
        unreachable!()
    };
    Ok(config)
}

fn under(
    alloc: Global,
    queues: &[QueueEntry<'_>],
    controllers: u8,
    limits: HelperLimits,
    programs: &[NamedProgram],
) -> Result<Config, AllocError>
    requires { (tables : List TableLine) × IsReady limits Two (Some controllers) tables (map queue_seen queues.now) (map named_seen programs.now) }
    ensures limits { IfOk result (λ config. config.limits ≡ limits) }
    ensures controllers { IfOk result (λ config. config.controllers ≡ controllers) }
    ensures tables { IfOk result (λ config. config.tables ≡ tables_with limits.table_lengths []) }
    ensures queues { IfOk result (λ config. map (setup_of (map named_seen programs.now)) (map queue_seen queues.now) ≡ map Some config.queues) }
    ensures alone { IfOk result (λ config. config.carried ≡ None) }
{
    let given = given_under(alloc, queues, programs)?;
    let Some(config) = Config::with_controllers(limits, controllers, given) else {
        unreachable!()
    };
    Ok(config)
}

fn classed(
    alloc: Global,
    tables: Vec<TableEntry>,
    queues: &[QueueEntry<'_>],
    controllers: u8,
    limits: HelperLimits,
    programs: &[NamedProgram],
) -> Result<Config, AllocError>
    requires { IsReady limits Three (Some controllers) (map table_seen tables.items) (map queue_seen queues.now) (map named_seen programs.now) }
    ensures limits { IfOk result (λ config. config.limits ≡ limits) }
    ensures controllers { IfOk result (λ config. config.controllers ≡ controllers) }
    ensures tables { IfOk result (λ config. config.tables ≡ tables_with limits.table_lengths (map (λ table. table.words) (map table_seen tables.items))) }
    ensures queues { IfOk result (λ config. map (setup_of (map named_seen programs.now)) (map queue_seen queues.now) ≡ map Some config.queues) }
    ensures alone { IfOk result (λ config. config.carried ≡ None) }
{
    let given = given_under(alloc, queues, programs)?;
    let firsts = first_words(alloc, tables)?;
    let Some(config) = Config::with_classes(limits, controllers, firsts, given) else {
        unreachable!()
    };
    Ok(config)
}

// The first words of each table.
fn first_words(alloc: Global, tables: Vec<TableEntry>) -> Result<Vec<Vec<u64>>, AllocError>
    ensures { IfOk result (λ lists. firsts_of lists.items ≡ map (λ table. table.words) (map table_seen tables.items)) }
{
    let mut lists = Vec::with_capacity(alloc, tables.len())?;
    for table in tables {
        lists.push(table.words)?;
    }
    Ok(lists)
}

fn given_alone(
    alloc: Global,
    queues: &[QueueEntry<'_>],
    programs: &[NamedProgram],
) -> Result<Vec<(u8, Arc<Accepted>)>, AllocError>
    requires known { AreNamed (map named_seen programs.now) (map queue_seen queues.now) }
    requires alone { AllByRecursion (λ queue. queue.controller ≡ 0) (map queue_seen queues.now) }
    ensures { IfOk result (λ given. AllZip (IsGivenFor (map named_seen programs.now)) (map queue_seen queues.now) (map alone_of given.items)) }
{
    let mut all = Vec::new(alloc);
    for queue in queues {
        all.push((queue.openings, its_program(queue, programs)?))?;
    }
    Ok(all)
}

fn given_under(
    alloc: Global,
    queues: &[QueueEntry<'_>],
    programs: &[NamedProgram],
) -> Result<Vec<(u8, u8, Arc<Accepted>)>, AllocError>
    requires { AreNamed (map named_seen programs.now) (map queue_seen queues.now) }
    ensures { IfOk result (λ given. AllZip (IsGivenFor (map named_seen programs.now)) (map queue_seen queues.now) (map under_of given.items)) }
{
    let mut all = Vec::new(alloc);
    for queue in queues {
        all.push((
            queue.openings,
            queue.controller,
            its_program(queue, programs)?,
        ))?;
    }
    Ok(all)
}

// The program that the queue names, shared.
fn its_program(
    queue: &QueueEntry<'_>,
    programs: &[NamedProgram],
) -> Result<Arc<Accepted>, AllocError>
    requires { IsSome (find (is_named queue.now.program.now) (map named_seen programs.now)) }
    ensures { IfOk result (λ program. IsItsVerdict (map named_seen programs.now) (queue_seen queue.now) (arc_value program)) }
{
    let Some(named) = named_program(queue.program, programs) else {
        unreachable!()
    };
    Ok(Arc::try_clone(&named.accepted)?)
}

fn named_program<'a>(name: &str, programs: &'a [NamedProgram]) -> Option<&'a NamedProgram>
    ensures { option_copied result ≡ find (λ program. bytes_eq (string_bytes program.name) name.now) programs.now }
{
    programs
        .iter()
        .find(|program| program.name.as_str() == name)
}
