// The subcommand `live`, as `clap` is given it, and the words after it, read as a plan. It relies on `usage` for paths, and on
// `show_usage` for flags.

ghost use Rattle.std.specs.Prelude.{◌≡◌, IfOk, MatchBool, Some, codes, false, option_map, string_bytes};
ghost use Rattle.clap.specs.Words.{first_of, found_of, rows_of};
ghost use Rattle.cli_line.specs.FoundPlan.{HasManner, IsGiven, PlansAlone, PlansBehind};
ghost use Rattle.cli_line.specs.RunCommand.{IsCommand, live_command, manner_command};

use crate::plans::{Manner, Plan};
use crate::show_usage::{flag, option};
use crate::usage::given_manifest;
use clap::{ArgMatches, Command};
use std::alloc::{AllocError, Global};

/// The subcommand `live` by itself.
pub fn live_command<'a>(alloc: Global) -> Result<Command<'a>, AllocError>
    ensures { IfOk result (IsCommand live_command) }
{
    let journal = option(
        alloc,
        "journal",
        "DIR",
        "Keeps the trace in that folder, and goes on from what it has",
    );
    let sync = flag(
        alloc,
        "sync",
        "With a journal: what is answered outlasts a stop of the machine",
    );
    let metrics = option(
        alloc,
        "metrics",
        "FILE",
        "Writes what is counted into that file, for Prometheus, once a second at most",
    );
    manner_command(alloc)?
        .arg(journal)?
        .arg(sync)?
        .arg(metrics)?
        .arg(given_manifest(alloc))
}

// The subcommand with the flags that say how lines are carried out.
fn manner_command<'a>(alloc: Global) -> Result<Command<'a>, AllocError>
    ensures { IfOk result (IsCommand manner_command) }
{
    let clock = flag(
        alloc,
        "clock",
        "Reads the machine's clock before each line, and when a timer is due",
    );
    let step = flag(
        alloc,
        "step",
        "A run goes on where a line says so: step R, drive R, park R, resume R",
    );
    let ack = flag(
        alloc,
        "ack",
        "Answers each line by a line of its own, after all that it led to",
    );
    Command::new(alloc, "live")
        .about("Carries out the lines of standard input as they come, and prints the trace")
        .arg(clock)?
        .arg(step)?
        .arg(ack)
}

/// The plan of what clap found after `live`: with a journal, or by itself.
pub(crate) fn live_plan(alloc: Global, live: &ArgMatches) -> Result<Option<Plan>, AllocError>
    ensures { IfOk result (PlansBehind (codes "live") (rows_of (found_of live.now))) }
{
    let manner = manner_of(alloc, live)?;
    let Some(folder) = live.get_str("journal") else {
        return plan_alone(alloc, live, manner);
    };
    let folder = String::from_str(alloc, folder)?;
    let manifest = manifest_of(alloc, live)?;
    Ok(Some(Plan::Journal(manner, is_given(live, "sync"), folder, manifest)))
}

// How lines are carried out, and where what is counted goes.
fn manner_of(alloc: Global, live: &ArgMatches) -> Result<Manner, AllocError>
    ensures { IfOk result (HasManner (rows_of (found_of live.now))) }
{
    let metrics = metrics_of(alloc, live)?;
    Ok(Manner {
        is_clocked: is_given(live, "clock"),
        is_stepped: is_given(live, "step"),
        is_told: is_given(live, "ack"),
        metrics,
    })
}

// The file for what is counted, where one is given.
fn metrics_of(alloc: Global, live: &ArgMatches) -> Result<Option<String>, AllocError>
    ensures { IfOk result (λ metrics. first_of (codes "metrics") (rows_of (found_of live.now)) ≡ option_map string_bytes metrics) }
{
    match live.get_str("metrics") {
        Some(metrics) => Ok(Some(String::from_str(alloc, metrics)?)),
        None => Ok(None),
    }
}

// The manifest, where one is given.
fn manifest_of(alloc: Global, live: &ArgMatches) -> Result<Option<String>, AllocError>
    ensures { IfOk result (λ manifest. first_of (codes "MANIFEST") (rows_of (found_of live.now)) ≡ option_map string_bytes manifest) }
{
    match live.get_str("MANIFEST") {
        Some(manifest) => Ok(Some(String::from_str(alloc, manifest)?)),
        None => Ok(None),
    }
}

// The plan of an engine without a journal: none where there is no manifest, or the journal is to be synced that is not there.
fn plan_alone(alloc: Global, live: &ArgMatches, manner: Manner) -> Result<Option<Plan>, AllocError>
    ensures { IfOk result (PlansAlone (rows_of (found_of live.now)) manner) }
{
    if is_given(live, "sync") {
        return Ok(None);
    }
    let Some(manifest) = live.get_str("MANIFEST") else {
        return Ok(None);
    };
    Ok(Some(Plan::Live(manner, String::from_str(alloc, manifest)?)))
}

/// Whether a flag is given: it is found as the word `true`.
pub(crate) fn is_given(found: &ArgMatches, name: &str) -> bool
    ensures { MatchBool result (IsGiven name.now (rows_of (found_of found.now))) (IsGiven name.now (rows_of (found_of found.now)) → ⊥) }
{
    match found.get_str(name) {
        Some(word) => is_true(word),
        None => false,
    }
}

/// Whether a flag is given that was found as that word.
pub fn is_true(word: &str) -> bool
    ensures { MatchBool result (word.now ≡ codes "true") (word.now ≡ codes "true" → ⊥) }
{
    match word {
        "true" => true,
        _ => false,
    }
}
