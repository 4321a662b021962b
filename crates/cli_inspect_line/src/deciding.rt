// The words after `decide`, read as a plan. It relies on `cli_line` for what `clap` is given of them, on `trace_lines` for how each of them is
// spelled, and on `cli_text_page` for how a word is shown.

ghost use Rattle.std.specs.Prelude.{◌≡◌, ◌++◌, ◌∷◌, [], ℕ, List, MatchBool, MatchOption, IfOk, OnOk, codes, map};
ghost use Rattle.clap.specs.Words.{found_of, kind_of, rows_of};
ghost use Rattle.ccb.specs.declared.cam_status.CamStatus.{CamStatus as TheStatus};
ghost use Rattle.show_question.specs.declared.Failure.{Failure as TheFailure};
ghost use Rattle.show_question.specs.declared.TableWord.{TableWord as TheWord};
ghost use Rattle.trace_lines.specs.Texts.{byte_text, field_text, long_number_text, number_text, sense_text, status_text};
ghost use Rattle.trace_lines.specs.Written.{Reads};
ghost use Rattle.trace_lines.specs.declared.value.Value.{Value as TheValue};
ghost use Rattle.cli_inspect_line.specs.Deciding.{AreWords, AsksAll, HasExtent, HasFailure, IsSpelled, IsWordText, texts_given};
ghost use Rattle.cli_inspect_line.specs.FoundPlan.{PlansBehind};

use crate::plans::{Extent, Plan};
use base::ShortBytes;
use ccb::{CamStatus, QueueId};
use clap::error::ErrorKind;
use clap::{ArgMatches, Error};
use cli_line::{decide_command, is_true};
use cli_text_page::ForeignText;
use show_question::{Failure, Question, TableWord};
use std::alloc::{AllocError, Global};
use trace_lines::{
    Kind, Value, byte_in, bytes_in, long_number, long_number_in, number_in, status_in,
};

/// The plan of what clap found after `decide`, and none if a word is not spelled as it has to be.
pub(crate) fn decide_plan(alloc: Global, decide: &ArgMatches) -> Result<Option<Plan>, AllocError>
    ensures { IfOk result (PlansBehind (codes "decide") (rows_of (found_of decide.now))) }
{
    let Some(manifest) = decide.get_str("MANIFEST") else {
        return Ok(None);
    };
    let Some(failure) = failure_given(decide) else {
        return Ok(None);
    };
    let Some(words) = words_given(alloc, decide)? else {
        return Ok(None);
    };
    let manifest = String::from_str(alloc, manifest)?;
    let question = Question { failure, words };
    Ok(Some(Plan::Decide(extent_asked(decide), question, manifest)))
}

// Of what it is asked.
fn extent_asked(decide: &ArgMatches) -> Extent
    ensures { HasExtent (rows_of (found_of decide.now)) result }
{
    if asks_all(decide) {
        Extent::AllSense
    } else {
        Extent::One
    }
}

fn asks_all(decide: &ArgMatches) -> bool
    ensures { MatchBool result (AsksAll (rows_of (found_of decide.now))) (AsksAll (rows_of (found_of decide.now)) → ⊥) }
{
    match decide.get_str("all-sense") {
        Some(word) => is_true(word),
        None => false,
    }
}

// The failure that is given, and none if a word is not spelled as it has to be.
fn failure_given(decide: &ArgMatches) -> Option<Failure>
    ensures { MatchOption result ((failure : TheFailure) → HasFailure (rows_of (found_of decide.now)) failure → ⊥)
        (HasFailure (rows_of (found_of decide.now))) }
{
    let queue = number_given(decide, "QUEUE")?;
    let status = status_given(decide)?;
    let scsi = byte_given(decide)?;
    let sense = sense_given(decide)?;
    let retries = number_given(decide, "retries")?;
    let class = number_given(decide, "class")?;
    let attempts = number_given(decide, "attempts")?;
    let clock = clock_given(decide)?;
    Some(Failure {
        queue: QueueId(queue),
        status,
        scsi,
        sense,
        retries,
        class,
        attempts,
        clock,
    })
}

// What the word under that name says as a field of that kind.
fn value_given(decide: &ArgMatches, name: &str, kind: Kind) -> Option<Value>
    ensures { MatchOption result ((value : TheValue) → IsSpelled (field_text kind) name.now (rows_of (found_of decide.now)) value → ⊥)
        (IsSpelled (field_text kind) name.now (rows_of (found_of decide.now))) }
{
    match decide.get_str(name) {
        Some(word) => kind.read(word),
        None => None,
    }
}

fn number_given(decide: &ArgMatches, name: &str) -> Option<u32>
    ensures { MatchOption result ((number : ℕ) → IsSpelled number_text name.now (rows_of (found_of decide.now)) number → ⊥)
        (IsSpelled number_text name.now (rows_of (found_of decide.now))) }
{
    number_in(value_given(decide, name, Kind::Number))
}

fn clock_given(decide: &ArgMatches) -> Option<u64>
    ensures { MatchOption result ((number : ℕ) → IsSpelled long_number_text (codes "clock") (rows_of (found_of decide.now)) number → ⊥)
        (IsSpelled long_number_text (codes "clock") (rows_of (found_of decide.now))) }
{
    long_number_in(value_given(decide, "clock", Kind::LongNumber))
}

fn status_given(decide: &ArgMatches) -> Option<CamStatus>
    ensures { MatchOption result ((status : TheStatus) → IsSpelled status_text (codes "STATUS") (rows_of (found_of decide.now)) status → ⊥)
        (IsSpelled status_text (codes "STATUS") (rows_of (found_of decide.now))) }
{
    status_in(value_given(decide, "STATUS", Kind::Status))
}

fn byte_given(decide: &ArgMatches) -> Option<u8>
    ensures { MatchOption result ((byte : ℕ) → IsSpelled byte_text (codes "SCSI") (rows_of (found_of decide.now)) byte → ⊥)
        (IsSpelled byte_text (codes "SCSI") (rows_of (found_of decide.now))) }
{
    byte_in(value_given(decide, "SCSI", Kind::Byte))
}

fn sense_given(decide: &ArgMatches) -> Option<ShortBytes>
    ensures { MatchOption result ((sense : List ℕ) → IsSpelled sense_text (codes "SENSE") (rows_of (found_of decide.now)) sense → ⊥)
        (IsSpelled sense_text (codes "SENSE") (rows_of (found_of decide.now))) }
{
    bytes_in(value_given(decide, "SENSE", Kind::Sense))
}

// The words of tables that are given, and none if one is not spelled as it has to be.
fn words_given(alloc: Global, decide: &ArgMatches) -> Result<Option<Vec<TableWord>>, AllocError>
    ensures { IfOk result (λ read. MatchOption read ((words : List TheWord) → AreWords (texts_given (rows_of (found_of decide.now))) words → ⊥)
        (λ words. AreWords (texts_given (rows_of (found_of decide.now))) words.items)) }
{
    match decide.get_strs("word") {
        Some(texts) => words_in(alloc, texts),
        None => Ok(Some(Vec::new(alloc))),
    }
}

fn words_in(alloc: Global, texts: &[&str]) -> Result<Option<Vec<TableWord>>, AllocError>
    ensures { IfOk result (λ read. MatchOption read ((words : List TheWord) → AreWords (map (λ text. text.now) texts.now) words → ⊥)
        (λ words. AreWords (map (λ text. text.now) texts.now) words.items)) }
{
    let mut words = Vec::new(alloc);
    for text in texts {
        match table_word(text) {
            Some(word) => add(&mut words, word)?,
            None => return Ok(None),
        }
    }
    Ok(Some(words))
}

fn add(words: &mut Vec<TableWord>, word: TableWord) -> Result<(), AllocError>
    ensures { OnOk result (words.new.items ≡ words.old.items ++ word ∷ []) }
{
    words.push(word)?;
    Ok(())
}

// The word of a table that a word says: `K:I=W`, each in decimal digits.
fn table_word(text: &str) -> Option<TableWord>
    ensures { MatchOption result ((it : TheWord) → IsWordText text.now it → ⊥) (IsWordText text.now) }
{
    let (table, rest) = text.split_once(':')?;
    let (index, word) = rest.split_once('=')?;
    Some(TableWord {
        table: short_number(table)?,
        index: short_number(index)?,
        word: long_number(word)?,
    })
}

fn short_number(word: &str) -> Option<u32>
    ensures { Reads number_text word.now result }
{
    number_in(Kind::Number.read(word))
}

/// What is wrong after `decide`.
pub(crate) fn decide_fault(alloc: Global, decide: &ArgMatches) -> Result<Error, AllocError>
    ensures { IfOk result (λ e. kind_of e ≡ ErrorKind.ValueValidation) }
{
    let fault = first_misspelt(decide);
    let text = format!(in alloc;
        "invalid value '{}' for '{}': it is {}",
        ForeignText(fault.word),
        fault.shown,
        fault.form
    )?;
    decide_command(alloc)?
        .bin_name("camr decide")?
        .error(ErrorKind::ValueValidation, text.as_str())
}

/// How a number is spelled.
const NUMBER: &str = "a number below 4294967296, in decimal digits";

/// A word that is not spelled as it has to be, how what it stands for is shown, and how that is spelled.
#[derive(Clone, Copy)]
struct Misspelt<'a> {
    word: &'a str,
    shown: &'static str,
    form: &'static str,
}

// The first word that is not spelled as it has to be.
fn first_misspelt<'a>(decide: &ArgMatches<'a>) -> Misspelt<'a> {
    if number_given(decide, "QUEUE").is_none() {
        return fault_at(decide, "QUEUE", "<QUEUE>", NUMBER);
    }
    if status_given(decide).is_none() {
        let form = "the two lower case hexadecimal digits of a CAM status, as 0b";
        return fault_at(decide, "STATUS", "<STATUS>", form);
    }
    if byte_given(decide).is_none() {
        let form = "two lower case hexadecimal digits, as 02";
        return fault_at(decide, "SCSI", "<SCSI>", form);
    }
    if sense_given(decide).is_none() {
        let form = "1 to 64 bytes, each two lower case hexadecimal digits, or - for none";
        return fault_at(decide, "SENSE", "<SENSE>", form);
    }
    misspelt_option(decide)
}

// The first one of an option that is not.
fn misspelt_option<'a>(decide: &ArgMatches<'a>) -> Misspelt<'a> {
    if number_given(decide, "retries").is_none() {
        return fault_at(decide, "retries", "--retries", NUMBER);
    }
    if number_given(decide, "class").is_none() {
        return fault_at(decide, "class", "--class", NUMBER);
    }
    if number_given(decide, "attempts").is_none() {
        return fault_at(decide, "attempts", "--attempts", NUMBER);
    }
    if clock_given(decide).is_none() {
        let form = "a number below 18446744073709551616, in decimal digits";
        return fault_at(decide, "clock", "--clock", form);
    }
    Misspelt {
        word: faulty_word(decide),
        shown: "--word",
        form: "a table, an index and a word in decimal digits, as 0:3=5",
    }
}

fn fault_at<'a>(
    decide: &ArgMatches<'a>,
    name: &str,
    shown: &'static str,
    form: &'static str,
) -> Misspelt<'a> {
    Misspelt {
        word: decide.get_str(name).unwrap_or(""),
        shown,
        form,
    }
}

// The first word of a table that is not spelled as it has to be.
fn faulty_word<'a>(decide: &ArgMatches<'a>) -> &'a str {
    if let Some(texts) = decide.get_strs("word") {
        for text in texts {
            if table_word(text).is_none() {
                return text;
            }
        }
    }
    ""
}
