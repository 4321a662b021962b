// The words after the program's name, read as a plan. It relies on `usage` for what `clap` is given of them, on `clap` for the rest but
// the form of a number, and on `cli_text_page` for how words are shown.

ghost use Rattle.std.specs.Prelude.{◌≡◌, ◌≤◌, ◌⊎◌, [], IfErr, IfOk, MatchOption, codes, map, string_bytes};
ghost use Rattle.clap.specs.Words.{FailsBy, Text, fault_of, found_of, kind_of, rows_of};
ghost use Rattle.clap.specs.Words.{subcommand_of, subcommand_rows_of};
ghost use Rattle.cli_line.specs.Files.{stdin_reads};
ghost use Rattle.cli_line.specs.FoundPlan.{HasFound, IsRefused, IsUnplanned, PlansBehind, PlansFound, ReadsVersion, ReadsWatch, ReadsWorkers};
ghost use Rattle.cli_line.specs.FileLines.{ArePlain, Asked, IsAsked, line_of};
ghost use Rattle.cli_line.specs.RunCommand.{camr_command};
ghost use Rattle.cli_line.specs.RunLine.{GivesRun, HasLawfulNumber, IsLawfulNumber, IsPlain};
ghost use Rattle.cli_line.specs.RunLine.{RunLine, Spells, SpellsNoLawfulNumber, spelled_out, version_word, watch_word};
ghost use Rattle.cli_line.specs.UsageFault.{Gives, IsValueFault};

use crate::living::{is_given, live_command, live_plan};
use crate::plans::{LaterVersion, MAX_WORKERS, MIN_WORKERS, Plan, Watch};
use crate::show_usage::show_command;
use crate::try_usage::try_command;
use crate::usage::{camr_command, explain_command, replay_command, run_command, shown_command};
use crate::value_faults::no_plan;
use clap::error::ErrorKind;
use clap::{ArgMatches, Command, Error};
use cli_text_page::escaped;
use std::alloc::{AllocError, Global};

/// Why the words are no plan: a mistake in them, or a request for help. Its text is for the user, and
/// `exit_code` is the status to end with.
pub type UsageFault = Error;

/// Reads the words after the program's name. A line that asks for a run gives that run, or an error where its number is none from
/// 1 to 16 in decimal digits alone or memory is refused; one that asks for anything else gives that, or an error where memory is
/// refused. `--watch` by itself stands for `--watch=terminal`. Whatever the words are, a run has 1 to 16 workers, reports its sums when
/// the word that `clap` found says, is strict exactly if the flag is given, and has the paths that it found in their places. `-` is
/// standard input in place of one file: no plan reads it more than once. A line is refused only if `clap` refuses it,
/// if a number or a word that it found is none, if it would read standard input more than once, or if another program carries it out;
/// and for want of memory.
pub fn plan(alloc: Global, words: &[String]) -> Result<Plan, UsageFault>
    ensures found { IfOk result (HasFound (subcommand_of camr_command (map spelled_out (map string_bytes words.now)))) }
    ensures bounded { IfOk result HasLawfulNumber }
    ensures once { IfOk result (λ plan. stdin_reads plan ≤ 1) }
    ensures lines { (number manifest scenario : Text)
        → RunLine (map string_bytes words.now) number manifest scenario
        → IsPlain number → IsPlain manifest → IsPlain scenario
        → GivesRun number manifest scenario result }
    ensures gives { (asked : Asked)
        → map string_bytes words.now ≡ line_of asked → ArePlain asked
        → Gives (IsAsked asked) result }
    ensures refuses { IfErr result (IsRefused (map spelled_out (map string_bytes words.now))) }
{
    match asked_for(alloc, words) {
        Ok(plan) => read_once(alloc, plan),
        Err(fault) => Err(fault),
    }
}

// The plan, unless it reads standard input more than once.
fn read_once(alloc: Global, plan: Plan) -> Result<Plan, UsageFault>
    ensures same { IfOk result (λ it. (it ≡ plan) × (stdin_reads plan ≤ 1)) }
    ensures twice { IfErr result (λ e. IsValueFault e × (2 ≤ stdin_reads plan)) }
{
    if plan.stdin_reads() > 1 {
        Err(read_twice(alloc, word_of(&plan)))
    } else {
        Ok(plan)
    }
}

// The plan that the words ask for, whatever stands for its files.
fn asked_for(alloc: Global, words: &[String]) -> Result<Plan, UsageFault>
    ensures found { IfOk result (HasFound (subcommand_of camr_command (map spelled_out (map string_bytes words.now)))) }
    ensures bounded { IfOk result HasLawfulNumber }
    ensures lines { (number manifest scenario : Text)
        → RunLine (map string_bytes words.now) number manifest scenario
        → IsPlain number → IsPlain manifest → IsPlain scenario
        → GivesRun number manifest scenario result }
    ensures gives { (asked : Asked)
        → map string_bytes words.now ≡ line_of asked → ArePlain asked
        → Gives (IsAsked asked) result }
    ensures clear { IfOk result (λ _. fault_of camr_command (map spelled_out (map string_bytes words.now)) ≡ []) }
    ensures refuses { IfErr result (IsUnplanned (map spelled_out (map string_bytes words.now))) }
{
    let spelled = spelled_out(alloc, words)?;
    let matches = matches(alloc, &spelled)?;
    match planned(alloc, &matches)? {
        Some(plan) => Ok(plan),
        None => Err(no_plan(alloc, &matches)),
    }
}

// The word of the subcommand whose plan may read standard input more than once.
fn word_of(plan: &Plan) -> &'static str {
    match plan {
        Plan::Live(..) | Plan::Journal(..) => "live",
        Plan::Replay(..) => "replay",
        _ => "run",
    }
}

/// The words, with `--watch` by itself spelled out.
pub fn spelled_out<'a>(alloc: Global, words: &'a [String]) -> Result<Vec<&'a str>, AllocError>
    ensures { IfOk result (λ spelled. map (λ word. word.now) spelled.items ≡ map spelled_out (map string_bytes words.entry.now)) }
{
    let mut spelled = Vec::with_capacity(alloc, words.len())?;
    for word in words {
        spelled.push(spelled_word(word.as_str()))?;
    }
    Ok(spelled)
}

fn spelled_word(word: &str) -> &str
    ensures { result.now ≡ spelled_out word.entry.now }
{
    if word == "--watch" {
        "--watch=terminal"
    } else {
        word
    }
}

/// The fault of a line with a word that is not UTF-8, or want of memory.
pub fn not_utf8(alloc: Global) -> UsageFault
    ensures { IsValueFault result }
{
    match utf8_fault(alloc) {
        Ok(fault) => fault,
        Err(error) => Error::from(error),
    }
}

fn utf8_fault(alloc: Global) -> Result<Error, AllocError>
    ensures { IfOk result (λ e. kind_of e ≡ ErrorKind.ValueValidation) }
{
    camr_command(alloc)?.error(
        ErrorKind::ValueValidation,
        "a word of the command line is not UTF-8",
    )
}

/// The fault of a line of that subcommand in which `-` stands for two files, or for one of `live`, which reads its lines there; or want
/// of memory.
pub fn read_twice(alloc: Global, subcommand: &str) -> UsageFault
    ensures { IsValueFault result }
{
    match twice_fault(alloc, subcommand) {
        Ok(fault) => fault,
        Err(error) => Error::from(error),
    }
}

fn twice_fault(alloc: Global, subcommand: &str) -> Result<Error, AllocError>
    ensures { IfOk result (λ e. kind_of e ≡ ErrorKind.ValueValidation) }
{
    let text = match subcommand {
        "live" => "'-' stands for standard input, where live reads its lines",
        _ => "'-' stands for standard input, which only one file can be read from",
    };
    let name = format!(in alloc; "camr {subcommand}")?;
    command_of(alloc, subcommand)?
        .bin_name(name.as_str())?
        .error(ErrorKind::ValueValidation, text)
}

// That subcommand, of those that may read standard input more than once.
fn command_of<'a>(alloc: Global, subcommand: &str) -> Result<Command<'a>, AllocError> {
    match subcommand {
        "run" => run_command(alloc),
        "live" => live_command(alloc),
        "replay" => replay_command(alloc),
        "explain" => explain_command(alloc),
        "try" => try_command(alloc),
        _ => show_command(alloc),
    }
}

/// What clap makes of the words. If it refuses them, what it says of them is said of the words as they are shown.
pub fn matches<'a>(alloc: Global, words: &'a [&'a str]) -> Result<ArgMatches<'a>, Error>
    ensures rows { IfOk result (λ m.
        subcommand_rows_of m ≡ subcommand_of camr_command (map (λ word. word.now) words.entry.now)) }
    ensures faults { FailsBy (fault_of camr_command (map (λ word. word.now) words.entry.now)) result }
{
    match parsed(alloc, words) {
        Ok(matches) => Ok(matches),
        Err(fault) => Err(retold(alloc, words, fault.kind())),
    }
}

fn parsed<'a>(alloc: Global, words: &'a [&'a str]) -> Result<ArgMatches<'a>, Error>
    ensures rows { IfOk result (λ m.
        subcommand_rows_of m ≡ subcommand_of camr_command (map (λ word. word.now) words.entry.now)) }
    ensures faults { FailsBy (fault_of camr_command (map (λ word. word.now) words.entry.now)) result }
{
    camr_command(alloc)?.try_get_matches_from(words)
}

// The fault of that kind which the words have, told of them as they are shown.
fn retold(alloc: Global, words: &[&str], kind: ErrorKind) -> Error
    ensures { (kind_of result ≡ kind) ⊎ (kind_of result ≡ ErrorKind.OutOfMemory) }
{
    match fault_of_shown(alloc, words, kind) {
        Ok(fault) => fault,
        Err(error) => Error::from(error),
    }
}

// What `clap` says of the words as they are shown. An escape is of no form that a word alone has, so they are refused as the words are;
// if they were not, what is told names none of them.
fn fault_of_shown(alloc: Global, words: &[&str], kind: ErrorKind) -> Result<Error, AllocError>
    ensures { IfOk result (λ e. kind_of e ≡ kind) }
{
    let shown = shown_words(alloc, words)?;
    match fault_in(alloc, shown.as_slice())? {
        Some(fault) => of_kind(alloc, fault, kind),
        None => nameless_fault(alloc, kind),
    }
}

fn shown_words(alloc: Global, words: &[&str]) -> Result<Vec<String>, AllocError> {
    let mut shown = Vec::with_capacity(alloc, words.len())?;
    for word in words {
        shown.push(escaped(alloc, word)?)?;
    }
    Ok(shown)
}

// What `clap` finds wrong with the words.
fn fault_in(alloc: Global, words: &[String]) -> Result<Option<Error>, AllocError> {
    match shown_command(alloc)?.try_get_matches_from(words) {
        Ok(_matches) => Ok(None),
        Err(fault) => Ok(Some(fault)),
    }
}

fn of_kind(alloc: Global, fault: Error, kind: ErrorKind) -> Result<Error, AllocError>
    ensures { IfOk result (λ e. kind_of e ≡ kind) }
{
    if fault.kind() == kind {
        Ok(fault)
    } else if fault.kind() == ErrorKind::OutOfMemory {
        Err(AllocError)
    } else {
        nameless_fault(alloc, kind)
    }
}

fn nameless_fault(alloc: Global, kind: ErrorKind) -> Result<Error, AllocError>
    ensures { IfOk result (λ e. kind_of e ≡ kind) }
{
    camr_command(alloc)?.error(kind, "the words are no command line")
}

// The plan of what clap found, and none where a number of workers is no plain one.
fn planned(alloc: Global, matches: &ArgMatches) -> Result<Option<Plan>, AllocError>
    ensures { IfOk result (PlansFound (subcommand_rows_of matches.now)) }
{
    match matches.subcommand() {
        Some((name, found)) => plan_behind(alloc, name, found),
        None => Ok(None),
    }
}

// The plan of what clap found after a word.
fn plan_behind(alloc: Global, name: &str, found: &ArgMatches) -> Result<Option<Plan>, AllocError>
    ensures { IfOk result (PlansBehind name.now (rows_of (found_of found.now))) }
{
    match name {
        "asm" => asm_plan(alloc, found),
        "dis" => dis_plan(alloc, found),
        "check" => check_plan(alloc, found),
        "migrate" => migrate_plan(alloc, found),
        "replay" => replay_plan(alloc, found),
        "audit" => audit_plan(alloc, found),
        "run" => run_plan(alloc, found),
        "live" => live_plan(alloc, found),
        _ => Ok(None),
    }
}

// The plan of what clap found after `asm`.
fn asm_plan(alloc: Global, asm: &ArgMatches) -> Result<Option<Plan>, AllocError>
    ensures { IfOk result (PlansBehind (codes "asm") (rows_of (found_of asm.now))) }
{
    let Some(text) = asm.get_str("IN") else {
        return Ok(None);
    };
    let Some(program) = asm.get_str("OUT") else {
        return Ok(None);
    };
    let text = String::from_str(alloc, text)?;
    let program = String::from_str(alloc, program)?;
    Ok(Some(Plan::Asm(text, program)))
}

// The plan of what clap found after `dis`.
fn dis_plan(alloc: Global, dis: &ArgMatches) -> Result<Option<Plan>, AllocError>
    ensures { IfOk result (PlansBehind (codes "dis") (rows_of (found_of dis.now))) }
{
    let Some(program) = dis.get_str("FILE") else {
        return Ok(None);
    };
    Ok(Some(Plan::Dis(String::from_str(alloc, program)?)))
}

// The plan of what clap found after `check`.
fn check_plan(alloc: Global, check: &ArgMatches) -> Result<Option<Plan>, AllocError>
    ensures { IfOk result (PlansBehind (codes "check") (rows_of (found_of check.now))) }
{
    let Some(manifest) = check.get_str("MANIFEST") else {
        return Ok(None);
    };
    Ok(Some(Plan::Check(String::from_str(alloc, manifest)?)))
}

// The plan of what clap found after `migrate`.
fn migrate_plan(alloc: Global, migrate: &ArgMatches) -> Result<Option<Plan>, AllocError>
    ensures { IfOk result (PlansBehind (codes "migrate") (rows_of (found_of migrate.now))) }
{
    let Some(to) = version_given(migrate) else {
        return Ok(None);
    };
    let Some(manifest) = migrate.get_str("IN") else {
        return Ok(None);
    };
    let Some(migrated) = migrate.get_str("OUT") else {
        return Ok(None);
    };
    let manifest = String::from_str(alloc, manifest)?;
    let migrated = String::from_str(alloc, migrated)?;
    Ok(Some(Plan::Migrate(to, manifest, migrated)))
}

fn version_given(migrate: &ArgMatches) -> Option<LaterVersion>
    ensures { ReadsVersion (rows_of (found_of migrate.now)) result }
{
    let Some(word) = migrate.get_str("to") else {
        return None;
    };
    version_in(word)
}

// The version that a manifest is written anew in, by the option's word.
fn version_in(word: &str) -> Option<LaterVersion>
    ensures { MatchOption result ((to : LaterVersion) → word.now ≡ version_word to → ⊥) (λ to. word.now ≡ version_word to) }
{
    match word {
        "2" => Some(LaterVersion::Two),
        "3" => Some(LaterVersion::Three),
        _ => None,
    }
}

// The plan of what clap found after `replay`.
fn replay_plan(alloc: Global, replay: &ArgMatches) -> Result<Option<Plan>, AllocError>
    ensures { IfOk result (PlansBehind (codes "replay") (rows_of (found_of replay.now))) }
{
    let Some(manifest) = replay.get_str("MANIFEST") else {
        return Ok(None);
    };
    let Some(trace) = replay.get_str("TRACE") else {
        return Ok(None);
    };
    let manifest = String::from_str(alloc, manifest)?;
    let trace = String::from_str(alloc, trace)?;
    Ok(Some(Plan::Replay(manifest, trace)))
}

// The plan of what clap found after `audit`.
fn audit_plan(alloc: Global, audit: &ArgMatches) -> Result<Option<Plan>, AllocError>
    ensures { IfOk result (PlansBehind (codes "audit") (rows_of (found_of audit.now))) }
{
    let Some(folder) = audit.get_str("DIR") else {
        return Ok(None);
    };
    Ok(Some(Plan::Audit(String::from_str(alloc, folder)?)))
}

// The plan of what clap found after `run`.
fn run_plan(alloc: Global, run: &ArgMatches) -> Result<Option<Plan>, AllocError>
    ensures { IfOk result (PlansBehind (codes "run") (rows_of (found_of run.now))) }
{
    let Some(workers) = workers_given(run) else {
        return Ok(None);
    };
    let Some(watch) = watch_given(run) else {
        return Ok(None);
    };
    let Some(manifest) = run.get_str("MANIFEST") else {
        return Ok(None);
    };
    let Some(scenario) = run.get_str("SCENARIO") else {
        return Ok(None);
    };
    let manifest = String::from_str(alloc, manifest)?;
    let scenario = String::from_str(alloc, scenario)?;
    if is_given(run, "strict") {
        return Ok(Some(Plan::Strict(workers, watch, manifest, scenario)));
    }
    Ok(Some(Plan::Run(workers, watch, manifest, scenario)))
}

fn workers_given(run: &ArgMatches) -> Option<u8>
    ensures { ReadsWorkers (rows_of (found_of run.now)) result }
{
    let Some(word) = run.get_str("workers") else {
        return None;
    };
    workers_in(word)
}

/// The number of workers that a word spells. Clap tests the range too, for the text that it shows, but takes a
/// plus sign before the digits.
pub(crate) fn workers_in(word: &str) -> Option<u8>
    ensures { MatchOption result (SpellsNoLawfulNumber word.now)
        (λ n. Spells word.now n × IsLawfulNumber n) }
{
    if word.starts_with('+') {
        return None;
    }
    match word.parse::<u8>() {
        Ok(workers) if MIN_WORKERS <= workers && workers <= MAX_WORKERS => Some(workers),
        _ => None,
    }
}

fn watch_given(run: &ArgMatches) -> Option<Watch>
    ensures { ReadsWatch (rows_of (found_of run.now)) result }
{
    let Some(word) = run.get_str("watch") else {
        return None;
    };
    watch_in(word)
}

// When sums are told, by the option's word.
fn watch_in(word: &str) -> Option<Watch>
    ensures { MatchOption result ((watch : Watch) → word.now ≡ watch_word watch → ⊥) (λ watch. word.now ≡ watch_word watch) }
{
    match word {
        "never" => Some(Watch::Never),
        "terminal" => Some(Watch::Terminal),
        "lines" => Some(Watch::Lines),
        _ => None,
    }
}
