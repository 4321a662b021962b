// The words after `try`, read as a plan. It relies on `cli_line` for what `clap` is given of them, and on `trace_lines` for how a number is spelled.

ghost use Rattle.std.specs.Prelude.{◌≡◌, IfOk, MatchOption, codes};
ghost use Rattle.clap.specs.Words.{found_of, kind_of, rows_of};
ghost use Rattle.cli_inspect_line.specs.FoundPlan.{PlansBehind};
ghost use Rattle.cli_inspect_line.specs.Trying.{HasSeed, HasTrace, LacksSeed};

use crate::plans::Plan;
use clap::error::ErrorKind;
use clap::{ArgMatches, Error};
use cli_line::try_command;
use cli_text_page::ForeignText;
use std::alloc::{AllocError, Global};
use trace_lines::long_number;

/// The plan of what clap found after `try`, and none if its seed is no number.
pub(crate) fn try_plan(alloc: Global, tried: &ArgMatches) -> Result<Option<Plan>, AllocError>
    ensures { IfOk result (PlansBehind (codes "try") (rows_of (found_of tried.now))) }
{
    let Some(manifest) = tried.get_str("MANIFEST") else {
        return Ok(None);
    };
    let Some(disks) = tried.get_str("DISKS") else {
        return Ok(None);
    };
    let Some(seed) = seed_given(tried) else {
        return Ok(None);
    };
    let trace = trace_given(alloc, tried)?;
    let manifest = String::from_str(alloc, manifest)?;
    let disks = String::from_str(alloc, disks)?;
    Ok(Some(Plan::Try(seed, trace, manifest, disks)))
}

// The seed, if one is given, and none at all if it is no number.
fn seed_given(tried: &ArgMatches) -> Option<Option<u64>>
    ensures { MatchOption result (LacksSeed (rows_of (found_of tried.now))) (HasSeed (rows_of (found_of tried.now))) }
{
    match tried.get_str("seed") {
        Some(word) => match long_number(word) {
            Some(seed) => Some(Some(seed)),
            None => None,
        },
        None => Some(None),
    }
}

// The path of the file for the trace, if one is given.
fn trace_given(alloc: Global, tried: &ArgMatches) -> Result<Option<String>, AllocError>
    ensures { IfOk result (HasTrace (rows_of (found_of tried.now))) }
{
    match tried.get_str("trace") {
        Some(path) => {
            let path = String::from_str(alloc, path)?;
            Ok(Some(path))
        }
        None => Ok(None),
    }
}

/// What is wrong after `try`.
pub(crate) fn try_fault(alloc: Global, tried: &ArgMatches) -> Result<Error, AllocError>
    ensures { IfOk result (λ e. kind_of e ≡ ErrorKind.ValueValidation) }
{
    let word = tried.get_str("seed").unwrap_or("");
    let text = format!(in alloc;
        "invalid value '{}' for '--seed': it is a number below 18446744073709551616, in decimal digits",
        ForeignText(word)
    )?;
    try_command(alloc)?
        .bin_name("camr try")?
        .error(ErrorKind::ValueValidation, text.as_str())
}
