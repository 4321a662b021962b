// The words after `show`, read as a plan. It relies on `cli_line` for what `clap` is given of them, and on `cli_text_page` for how a word is
// shown.

ghost use Rattle.std.specs.Prelude.{◌≡◌, ◌≤◌, ◌↔◌, ℕ, IsTrue, Option, MatchBool, MatchOption, None, IfOk, IfSome, codes, string_bytes};
ghost use Rattle.clap.specs.Words.{first_of, found_of, kind_of, rows_of};
ghost use Rattle.cli_line.specs.RunLine.{Spells};
ghost use Rattle.base.specs.Hexadecimal.{byte_in};
ghost use Rattle.cli_inspect_line.specs.ReportedWords.{refused_in, sense_in};
ghost use Rattle.cli_inspect_line.specs.FoundPlan.{AsksDrawing, AsksJson, AsksNoDrawing, AsksSummary, HasForm, Finds, FindsNumber, HasFilter, IsUpTo, IsWithin, PlansBehind, PlansShow};
ghost use Rattle.cli_inspect_line.specs.InspectLines.{everything};

use crate::plans::{Drawing, Form, Plan};
use crate::reported::{refused_in, sense_in};
use base::hexadecimal::byte_of;
use clap::error::ErrorKind;
use clap::{ArgMatches, Error};
use cli_line::{is_true, show_command};
use cli_text_page::ForeignText;
use show_events::{Filter, RefusedFilter, SenseFilter};
use std::alloc::{AllocError, Global};

/// The greatest number of a queue.
const LAST_QUEUE: u64 = 63;

/// The greatest number of a CCB, a run or a freeze.
const LAST_NUMBER: u64 = 4_294_967_295;

/// The greatest clock reading, in milliseconds.
const LAST_READING: u64 = 18_446_744_073_709_551_615;

/// The plan of what clap found after `show`, and none if a number or another word is none, or if two things are asked that exclude each other.
pub(crate) fn show_plan(alloc: Global, show: &ArgMatches) -> Result<Option<Plan>, AllocError>
    ensures { IfOk result (PlansBehind (codes "show") (rows_of (found_of show.now))) }
{
    let Some(manifest) = show.get_str("MANIFEST") else {
        return Ok(None);
    };
    let Some(trace) = show.get_str("TRACE") else {
        return Ok(None);
    };
    let Some(filter) = filter_given(show) else {
        return Ok(None);
    };
    let manifest = String::from_str(alloc, manifest)?;
    let trace = String::from_str(alloc, trace)?;
    match (show.get_str("svg"), show.get_str("perfetto")) {
        (None, None) => Ok(printed(show, filter, manifest, trace)),
        (Some(output), None) => drawn(alloc, show, filter, Drawing::Svg, manifest, trace, output),
        (None, Some(output)) => drawn(
            alloc,
            show,
            filter,
            Drawing::Perfetto,
            manifest,
            trace,
            output,
        ),
        (Some(_), Some(_)) => Ok(None),
    }
}

// The plan for what is printed: the account of those events, or the counts of all.
fn printed(show: &ArgMatches, filter: Filter, manifest: String, trace: String) -> Option<Plan>
    ensures { AsksNoDrawing (rows_of (found_of show.now))
        → PlansShow (rows_of (found_of show.now)) filter (string_bytes manifest) (string_bytes trace) result }
{
    let form = form_asked(show);
    if !asks_summary(show) {
        return Some(Plan::Show(form, filter, manifest, trace));
    }
    if is_everything(&filter) {
        Some(Plan::Summarise(form, manifest, trace))
    } else {
        None
    }
}

// The plan for a drawing of all events, which has no other form.
fn drawn(
    alloc: Global,
    show: &ArgMatches,
    filter: Filter,
    drawing: Drawing,
    manifest: String,
    trace: String,
    output: &str,
) -> Result<Option<Plan>, AllocError>
    ensures { IfOk result (λ planned. AsksDrawing (rows_of (found_of show.now)) drawing output.now
        → PlansShow (rows_of (found_of show.now)) filter (string_bytes manifest) (string_bytes trace) planned) }
{
    if asks_json(show) {
        return Ok(None);
    }
    if asks_summary(show) {
        return Ok(None);
    }
    if is_everything(&filter) {
        let output = String::from_str(alloc, output)?;
        Ok(Some(Plan::Draw(drawing, manifest, trace, output)))
    } else {
        Ok(None)
    }
}

fn form_asked(show: &ArgMatches) -> Form
    ensures { HasForm (rows_of (found_of show.now)) result }
{
    if asks_json(show) {
        Form::Json
    } else {
        Form::Words
    }
}

fn asks_json(show: &ArgMatches) -> bool
    ensures { MatchBool result (AsksJson (rows_of (found_of show.now))) (AsksJson (rows_of (found_of show.now)) → ⊥) }
{
    match show.get_str("json") {
        Some(word) => is_true(word),
        None => false,
    }
}

fn asks_summary(show: &ArgMatches) -> bool
    ensures { MatchBool result (AsksSummary (rows_of (found_of show.now))) (AsksSummary (rows_of (found_of show.now)) → ⊥) }
{
    match show.get_str("summary") {
        Some(word) => is_true(word),
        None => false,
    }
}

fn is_everything(filter: &Filter) -> bool
    ensures { IsTrue result ↔ (filter.now ≡ everything) }
{
    filter.ccb.is_none()
        && filter.queue.is_none()
        && filter.run.is_none()
        && filter.freeze.is_none()
        && filter.from.is_none()
        && filter.to.is_none()
        && filter.status.is_none()
        && filter.sense.is_none()
        && filter.refused.is_none()
}

// Which events are asked for, and none if a number or another word is none.
fn filter_given(show: &ArgMatches) -> Option<Filter>
    ensures found { MatchOption result ((filter : Filter) → IsWithin filter → HasFilter (rows_of (found_of show.now)) filter → ⊥)
        (HasFilter (rows_of (found_of show.now))) }
    ensures bounded { IfSome result IsWithin }
{
    let ccb = given(show, "ccb", LAST_NUMBER)?;
    let queue = given(show, "queue", LAST_QUEUE)?;
    let run = given(show, "run", LAST_NUMBER)?;
    let freeze = given(show, "freeze", LAST_NUMBER)?;
    let from = given(show, "from", LAST_READING)?;
    let to = given(show, "to", LAST_READING)?;
    let status = status_given(show)?;
    let sense = sense_given(show)?;
    let refused = refused_given(show)?;
    Some(Filter {
        ccb: in_word(ccb),
        queue: in_byte(queue),
        run: in_word(run),
        freeze: in_word(freeze),
        from,
        to,
        status,
        sense,
        refused,
    })
}

// The SCSI status that is asked for, if one is; none if its word is none.
fn status_given(show: &ArgMatches) -> Option<Option<u8>>
    ensures { MatchOption result ((status : Option ℕ) → Finds byte_in (codes "status") (rows_of (found_of show.now)) status → ⊥)
        (Finds byte_in (codes "status") (rows_of (found_of show.now))) }
{
    match show.get_str("status") {
        None => Some(None),
        Some(word) => match byte_of(word) {
            Some(status) => Some(Some(status)),
            None => None,
        },
    }
}

// The sense data that is asked for, if any is; none if its word names none.
fn sense_given(show: &ArgMatches) -> Option<Option<SenseFilter>>
    ensures { MatchOption result ((sense : Option SenseFilter) → Finds sense_in (codes "sense") (rows_of (found_of show.now)) sense → ⊥)
        (Finds sense_in (codes "sense") (rows_of (found_of show.now))) }
{
    match show.get_str("sense") {
        None => Some(None),
        Some(word) => match sense_in(word) {
            Some(sense) => Some(Some(sense)),
            None => None,
        },
    }
}

// The refusals that are asked for, if any are; none if the word names none.
fn refused_given(show: &ArgMatches) -> Option<Option<RefusedFilter>>
    ensures { MatchOption result ((refused : Option RefusedFilter) → Finds refused_in (codes "refused") (rows_of (found_of show.now)) refused → ⊥)
        (Finds refused_in (codes "refused") (rows_of (found_of show.now))) }
{
    match show.get_str("refused") {
        None => Some(None),
        Some(word) => match refused_in(word) {
            Some(refused) => Some(Some(refused)),
            None => None,
        },
    }
}

// The number under that name, if there is one; none if a word there spells none up to the greatest.
fn given(show: &ArgMatches, name: &str, greatest: u64) -> Option<Option<u64>>
    ensures found { MatchOption result ((number : Option ℕ) → IsUpTo greatest number → FindsNumber name.now (rows_of (found_of show.now)) number → ⊥)
        (FindsNumber name.now (rows_of (found_of show.now))) }
    ensures bounded { IfSome result (IsUpTo greatest) }
{
    match show.get_str(name) {
        None => Some(None),
        Some(word) => match number_in(word, greatest) {
            Some(number) => Some(Some(number)),
            None => None,
        },
    }
}

// The number that a word spells in decimal digits alone, if it is not above the greatest.
fn number_in(word: &str, greatest: u64) -> Option<u64>
    ensures { MatchOption result ((n : ℕ) → Spells word.now n → n ≤ greatest → ⊥) (λ n. Spells word.now n × (n ≤ greatest)) }
{
    if word.starts_with('+') {
        return None;
    }
    match word.parse::<u64>() {
        Ok(number) if number <= greatest => Some(number),
        _ => None,
    }
}

fn in_word(number: Option<u64>) -> Option<u32>
    requires { IfSome number (λ n. n ≤ LAST_NUMBER) }
    ensures { result ≡ number }
{
    match number {
        Some(number) => Some(number as u32),
        None => None,
    }
}

fn in_byte(number: Option<u64>) -> Option<u8>
    requires { IfSome number (λ n. n ≤ LAST_QUEUE) }
    ensures { result ≡ number }
{
    match number {
        Some(number) => Some(number as u8),
        None => None,
    }
}

/// What is wrong after `show`.
pub(crate) fn show_fault(alloc: Global, show: &ArgMatches) -> Result<Error, AllocError>
    ensures { IfOk result (λ e. kind_of e ≡ ErrorKind.ValueValidation) }
{
    for name in ["ccb", "queue", "run", "freeze", "from", "to"] {
        let greatest = match name {
            "queue" => LAST_QUEUE,
            "from" | "to" => LAST_READING,
            _ => LAST_NUMBER,
        };
        let word = show.get_str(name).unwrap_or("0");
        if number_in(word, greatest).is_none() {
            let text = format!(in alloc;
                "invalid value '{}' for '--{name}': it is 0 to {greatest}, in decimal digits",
                ForeignText(word)
            )?;
            return fault(alloc, text.as_str());
        }
    }
    let Some((name, form)) = misspelt(show) else {
        return fault(alloc, excluded(show));
    };
    let word = show.get_str(name).unwrap_or("");
    let text = format!(in alloc;
        "invalid value '{}' for '--{name}': it is {form}",
        ForeignText(word)
    )?;
    fault(alloc, text.as_str())
}

// What is said of things that exclude each other. Of JSON it is said if the picture would do without.
fn excluded(show: &ArgMatches) -> &'static str {
    if show.get_str("perfetto").is_some() {
        return "--perfetto goes neither with --json, --summary or --svg nor with the options that choose events";
    }
    match (show.get_str("svg"), filter_given(show)) {
        (Some(_), Some(filter))
            if asks_json(show) && !asks_summary(show) && is_everything(&filter) => {
            "--json and --svg do not go with each other"
        }
        _ =>
            "--summary and --svg go neither with each other nor with the options that choose events",
    }
}

// The first option about what was reported whose word is none, with what it has to be.
fn misspelt(show: &ArgMatches) -> Option<(&'static str, &'static str)> {
    if status_given(show).is_none() {
        Some(("status", "two lower case hexadecimal digits, as 28"))
    } else if sense_given(show).is_none() {
        Some((
            "sense",
            "6, 6/29 or 6/29/00: a key, ASC and ASCQ in lower case hexadecimal digits",
        ))
    } else if refused_given(show).is_none() {
        Some((
            "refused",
            "a code with which calls are refused, as Q2, or any",
        ))
    } else {
        None
    }
}

fn fault(alloc: Global, text: &str) -> Result<Error, AllocError>
    ensures { IfOk result (λ e. kind_of e ≡ ErrorKind.ValueValidation) }
{
    show_command(alloc)?
        .bin_name("camr show")?
        .error(ErrorKind::ValueValidation, text)
}
