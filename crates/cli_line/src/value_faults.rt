// What is wrong with words that `clap` lets through: an option's word that is no number or no version, what is missing after `live`, and a
// command of the other program. It relies on `usage` and `living` for the commands, whose usage stands below the fault.

ghost use Rattle.std.specs.Prelude.{◌≡◌, IfOk};
ghost use Rattle.clap.specs.Words.{kind_of};
ghost use Rattle.cli_line.specs.UsageFault.{IsValueFault};

use crate::living::live_command;
use crate::usage::{camr_command, migrate_command, run_command};
use crate::words::workers_in;
use clap::error::ErrorKind;
use clap::{ArgMatches, Error};
use cli_text_page::ForeignText;
use std::alloc::{AllocError, Global};

/// What is wrong with the words that clap let through.
pub(crate) fn no_plan(alloc: Global, matches: &ArgMatches) -> Error
    ensures { IsValueFault result }
{
    let fault = match matches.subcommand() {
        Some((name @ ("explain" | "show" | "decide" | "try"), _)) => other_program(alloc, name),
        Some(("live", live)) => live_fault(alloc, live.get_str("MANIFEST").is_some()),
        Some(("migrate", migrate)) => version_fault(alloc, migrate.get_str("to").unwrap_or("")),
        Some((_, run)) => option_fault(
            alloc,
            run.get_str("workers").unwrap_or(""),
            run.get_str("watch").unwrap_or(""),
        ),
        None => option_fault(alloc, "", ""),
    };
    match fault {
        Ok(fault) => fault,
        Err(error) => Error::from(error),
    }
}

// A command that the other program carries out.
fn other_program(alloc: Global, name: &str) -> Result<Error, AllocError>
    ensures { IfOk result (λ e. kind_of e ≡ ErrorKind.ValueValidation) }
{
    let text = format!(in alloc; "the program camr_inspect carries out '{name}'")?;
    camr_command(alloc)?.error(ErrorKind::ValueValidation, text.as_str())
}

// What is missing after `live` where there is no journal: it is to be synced, or else the manifest is not there.
fn live_fault(alloc: Global, has_manifest: bool) -> Result<Error, AllocError>
    ensures { IfOk result (λ e. kind_of e ≡ ErrorKind.ValueValidation) }
{
    let missing = if has_manifest {
        "the following required arguments were not provided:\n  --journal <DIR>"
    } else {
        "the following required arguments were not provided:\n  <MANIFEST>"
    };
    live_command(alloc)?
        .bin_name("camr live")?
        .error(ErrorKind::ValueValidation, missing)
}

// The word of the option of `migrate` is no version that a manifest is written anew in.
fn version_fault(alloc: Global, word: &str) -> Result<Error, AllocError>
    ensures { IfOk result (λ e. kind_of e ≡ ErrorKind.ValueValidation) }
{
    let text = format!(in alloc;
        "invalid value '{}' for '--to <VERSION>': it is `2` or `3`",
        ForeignText(word)
    )?;
    migrate_command(alloc)?
        .bin_name("camr migrate")?
        .error(ErrorKind::ValueValidation, text.as_str())
}

// What is wrong with the word of an option of `run`: clap has refused each other that is no number from 1 to 16.
fn option_fault(alloc: Global, workers: &str, watch: &str) -> Result<Error, AllocError>
    ensures { IfOk result (λ e. kind_of e ≡ ErrorKind.ValueValidation) }
{
    match workers_in(workers) {
        None => number_fault(alloc, workers),
        Some(_) => watch_fault(alloc, watch),
    }
}

fn number_fault(alloc: Global, word: &str) -> Result<Error, AllocError>
    ensures { IfOk result (λ e. kind_of e ≡ ErrorKind.ValueValidation) }
{
    let text = format!(in alloc;
        "invalid value '{}' for '--workers <N>': invalid digit found in string",
        ForeignText(word)
    )?;
    run_fault(alloc, text.as_str())
}

fn watch_fault(alloc: Global, word: &str) -> Result<Error, AllocError>
    ensures { IfOk result (λ e. kind_of e ≡ ErrorKind.ValueValidation) }
{
    let text = format!(in alloc;
        "invalid value '{}' for '--watch[=<WHEN>]': it is `terminal` or `lines`",
        ForeignText(word)
    )?;
    run_fault(alloc, text.as_str())
}

fn run_fault(alloc: Global, text: &str) -> Result<Error, AllocError>
    ensures { IfOk result (λ e. kind_of e ≡ ErrorKind.ValueValidation) }
{
    run_command(alloc)?
        .bin_name("camr run")?
        .error(ErrorKind::ValueValidation, text)
}
