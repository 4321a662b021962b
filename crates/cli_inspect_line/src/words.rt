// The words after the program's name, read as a plan. It relies on `cli_line` for what `clap` makes of them, on `showing` for
// those after `show`, on `deciding` for those after `decide`, and on `trying` for those after `try`.

ghost use Rattle.std.specs.Prelude.{◌≡◌, ◌≤◌, [], IfErr, IfOk, codes, map, string_bytes};
ghost use Rattle.clap.specs.Words.{fault_of, found_of, kind_of, rows_of, subcommand_of, subcommand_rows_of};
ghost use Rattle.cli_line.specs.RunCommand.{camr_command};
ghost use Rattle.cli_line.specs.RunLine.{spelled_out};
ghost use Rattle.cli_line.specs.UsageFault.{Gives, IsValueFault};
ghost use Rattle.cli_inspect_line.specs.Files.{stdin_reads};
ghost use Rattle.cli_inspect_line.specs.FoundPlan.{HasFound, IsOfFiles, IsOfWord, IsRefused, IsUnplanned, PlansBehind, PlansFound};
ghost use Rattle.cli_inspect_line.specs.InspectLines.{ArePlain, Asked, IsAsked, line_of};

use crate::deciding::{decide_fault, decide_plan};
use crate::plans::Plan;
use crate::showing::{show_fault, show_plan};
use crate::trying::{try_fault, try_plan};
use clap::error::ErrorKind;
use clap::{ArgMatches, Error};
use cli_line::{UsageFault, camr_command, matches, read_twice, spelled_out};
use explain_codes::Code;
use std::alloc::{AllocError, Global};

/// Reads the words after the program's name. A word after `explain` that stands there alone and is a code is that code. A line is refused
/// for want of memory, and otherwise only for one of these reasons:
///
/// - `clap` refuses it.
/// - A number or another word that it found is none.
/// - Two things are asked for that exclude each other.
/// - It would read standard input more than once.
/// - Another program carries it out.
pub fn plan(alloc: Global, words: &[String]) -> Result<Plan, UsageFault>
    ensures found { IfOk result (HasFound (subcommand_of camr_command (map spelled_out (map string_bytes words.now)))) }
    ensures once { IfOk result (λ plan. stdin_reads plan ≤ 1) }
    ensures gives { (asked : Asked)
        → map string_bytes words.now ≡ line_of asked → ArePlain asked
        → Gives (IsAsked asked) result }
    ensures refuses { IfErr result (IsRefused (map spelled_out (map string_bytes words.now))) }
{
    match asked_for(alloc, words) {
        Ok(plan) => read_once(alloc, plan),
        Err(fault) => Err(fault),
    }
}

// The plan, unless it reads standard input more than once.
fn read_once(alloc: Global, plan: Plan) -> Result<Plan, UsageFault>
    ensures same { IfOk result (λ it. (it ≡ plan) × (stdin_reads plan ≤ 1)) }
    ensures twice { IfErr result (λ e. IsValueFault e × (2 ≤ stdin_reads plan)) }
{
    if plan.stdin_reads() > 1 {
        Err(read_twice(alloc, word_of(&plan)))
    } else {
        Ok(plan)
    }
}

// The word of the subcommand whose plan may read standard input more than once.
fn word_of(plan: &Plan) -> &'static str {
    match plan {
        Plan::ExplainFile(..) => "explain",
        Plan::Try(..) => "try",
        _ => "show",
    }
}

// The plan that the words ask for, whatever stands for its files.
fn asked_for(alloc: Global, words: &[String]) -> Result<Plan, UsageFault>
    ensures found { IfOk result (HasFound (subcommand_of camr_command (map spelled_out (map string_bytes words.now)))) }
    ensures gives { (asked : Asked)
        → map string_bytes words.now ≡ line_of asked → ArePlain asked
        → Gives (IsAsked asked) result }
    ensures clear { IfOk result (λ _. fault_of camr_command (map spelled_out (map string_bytes words.now)) ≡ []) }
    ensures refuses { IfErr result (IsUnplanned (map spelled_out (map string_bytes words.now))) }
{
    let spelled = spelled_out(alloc, words)?;
    let matches = matches(alloc, &spelled)?;
    match planned(alloc, &matches)? {
        Some(plan) => Ok(plan),
        None => Err(no_plan(alloc, &matches)),
    }
}

// The plan of what clap found, and none if a number is none, or if it is another program's.
fn planned(alloc: Global, matches: &ArgMatches) -> Result<Option<Plan>, AllocError>
    ensures { IfOk result (PlansFound (subcommand_rows_of matches.now)) }
{
    match matches.subcommand() {
        Some((name, found)) => plan_behind(alloc, name, found),
        None => Ok(None),
    }
}

// The plan of what clap found after a word.
fn plan_behind(alloc: Global, name: &str, found: &ArgMatches) -> Result<Option<Plan>, AllocError>
    ensures { IfOk result (PlansBehind name.now (rows_of (found_of found.now))) }
{
    match name {
        "explain" => explain_plan(alloc, found),
        "show" => show_plan(alloc, found),
        "decide" => decide_plan(alloc, found),
        "try" => try_plan(alloc, found),
        _ => Ok(None),
    }
}

// The plan of what clap found after `explain`.
fn explain_plan(alloc: Global, explain: &ArgMatches) -> Result<Option<Plan>, AllocError>
    ensures { IfOk result (PlansBehind (codes "explain") (rows_of (found_of explain.now))) }
{
    let Some(word) = explain.get_str("WORD") else {
        return Ok(None);
    };
    match explain.get_str("FILE") {
        Some(file) => {
            let plan = file_plan(alloc, word, file)?;
            Ok(Some(plan))
        }
        None => {
            let plan = word_plan(alloc, word)?;
            Ok(Some(plan))
        }
    }
}

// The plan for a manifest and a scenario or a trace.
fn file_plan(alloc: Global, manifest: &str, file: &str) -> Result<Plan, AllocError>
    ensures { IfOk result (λ plan. IsOfFiles manifest.now file.now plan) }
{
    let manifest = String::from_str(alloc, manifest)?;
    let file = String::from_str(alloc, file)?;
    Ok(Plan::ExplainFile(manifest, file))
}

// The plan for a word alone.
fn word_plan(alloc: Global, word: &str) -> Result<Plan, AllocError>
    ensures { IfOk result (λ plan. IsOfWord word.now plan) }
{
    match Code::of(word) {
        Some(code) => Ok(Plan::ExplainCode(code)),
        None => Ok(Plan::Explain(String::from_str(alloc, word)?)),
    }
}

// What is wrong with the words that clap let through.
fn no_plan(alloc: Global, matches: &ArgMatches) -> Error
    ensures { IsValueFault result }
{
    let fault = match matches.subcommand() {
        Some(("show", show)) => show_fault(alloc, show),
        Some(("decide", decide)) => decide_fault(alloc, decide),
        Some(("try", tried)) => try_fault(alloc, tried),
        Some((name, _)) => other_program(alloc, name),
        None => other_program(alloc, ""),
    };
    match fault {
        Ok(fault) => fault,
        Err(error) => Error::from(error),
    }
}

// A command that the other program carries out.
fn other_program(alloc: Global, name: &str) -> Result<Error, AllocError>
    ensures { IfOk result (λ e. kind_of e ≡ ErrorKind.ValueValidation) }
{
    let text = format!(in alloc; "the program camr carries out '{name}'")?;
    camr_command(alloc)?.error(ErrorKind::ValueValidation, text.as_str())
}
