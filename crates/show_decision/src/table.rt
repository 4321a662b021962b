// What is decided of all sense data, as a table by ranges of sense key, ASC and ASCQ. It relies on `host_decision` for a run of each, on `words` for
// decisions, on `decisions` and `rows` for the ranges, and on `writing` for the rows.

ghost use Rattle.std.specs.Prelude.{◌≡◌, ◌<◌, ℕ, List, IfErr, IfOk, OnOk, map, string_bytes};
ghost use Rattle.std.specs.Io.KnownBytes.{Appends};
ghost use Rattle.host_decision.specs.Asked.{AreLinesOf};
ghost use Rattle.show_decision.specs.Numbered.{AreApart, AreFound};
ghost use Rattle.show_decision.specs.Table.{AddsDecided, AreDecided, AreKeyTexts, HasTable, IsKeyText, IsTabled, IsUntabled, failure_of, heading_of, response_of};
ghost use Rattle.show_decision.specs.Told.{IsTextOf};

use crate::decisions::Decisions;
use crate::rows::{CODES, most_frequent, rows};
use crate::sense::{is_known, response_of, sense_of};
use crate::words::put_decision;
use crate::writing::{Heading, write_key_rows};
use base::OrMemory;
use cli_text_page::Page;
use engine_config::Config;
use host_decision::{DecisionError, Undecided, decision_on, lines};
use show_question::{Failure, Question};
use std::alloc::{AllocError, Global};
use std::io;
use std::io::{ErrorKind, Write};
use world_calls::CarriedLine;

/// How many sense keys there are.
const KEYS: u8 = 16;

/// Writes what the queue's policy decides, from an engine in which one CCB is active, of each sense key, ASC and ASCQ: a row for all of a key
/// that no later row names, and one for each range of others. The response code is that of the sense data of the question, and so is all
/// else. If an engine cannot take what is asked, nothing goes out but that is answered. It fails if memory is refused, as such an error, or
/// if the writer does; some rows may be out then.
pub fn decide_all<W: Write>(
    alloc: Global,
    config: &Config,
    question: &Question,
    out: &mut W,
) -> io::Result<Option<Undecided>>
    ensures { IfOk result (IsTabled config.now question.now (W.contents out.old) (W.contents out.new)) }
{
    match Table::open(alloc, config, question) {
        Ok(table) => {
            table.write_keys(out)?;
            Ok(None)
        }
        Err(OrMemory::Fault(fault)) => Ok(Some(fault)),
        Err(OrMemory::OutOfMemory) => Err(io::Error::from(AllocError)),
    }
}

/// What all decisions of a table are made from: the lines with which an engine begins, and the failure but for its sense data, of which the
/// response code is the same.
#[derive(Drop)]
struct Table<'a> {
    alloc: Global,
    config: &'a Config,
    lines: Vec<CarriedLine>,
    failure: Failure,
    response: u8,
}

impl<'a> Table<'a> {
    // That of a question.
    fn open(alloc: Global, config: &'a Config, question: &Question) -> Result<Self, DecisionError>
        ensures possible { IfOk result (λ _. HasTable config.now question.now) }
        ensures lines { IfOk result (λ it. AreLinesOf config.now question.now it.lines.items) }
        ensures same { IfOk result (λ it. it.config.now ≡ config.now) }
        ensures failure { IfOk result (λ it. it.failure ≡ question.now.failure) }
        ensures response { IfOk result (λ it. it.response ≡ response_of question.now) }
        ensures refused { IfErr result (IsUntabled config.now question.now) }
    {
        let lines = lines(alloc, config, question)?;
        let sense = question.failure.sense;
        let response = response_of(sense.as_slice());
        if !is_known(response) {
            return Err(OrMemory::Fault(Undecided::Sense));
        }
        Ok(Table {
            alloc,
            config,
            lines,
            failure: question.failure,
            response,
        })
    }

    // Writes the rows of all keys.
    fn write_keys<W: Write>(&self, out: &mut W) -> io::Result<()>
        ensures { OnOk result ((text : List ℕ) × AreKeyTexts self.now.config.now self.now.lines.items self.now.failure self.now.response KEYS text
            × Appends (W.contents out.old) (W.contents out.new) text) }
    {
        for key in 0..KEYS {
            self.write_key(key, out)?;
        }
        Ok(())
    }

    // Writes the rows of a key.
    fn write_key<W: Write>(&self, key: u8, out: &mut W) -> io::Result<()>
        requires { key < KEYS }
        ensures { OnOk result ((text : List ℕ) × IsKeyText self.now.config.now self.now.lines.items self.now.failure self.now.response key text
            × Appends (W.contents out.old) (W.contents out.new) text) }
    {
        let decisions = self.decisions_of(key)?;
        let usual = most_frequent(self.alloc, &decisions.numbers, decisions.texts.len())?;
        let rows = rows(self.alloc, &decisions.numbers, usual)?;
        let heading = self.heading(key);
        write_key_rows(self.alloc, heading, &decisions, usual, &rows, out)
    }

    // What the rows of a key begin with.
    fn heading(&self, key: u8) -> Heading
        ensures { result ≡ heading_of self.now.failure self.now.response key }
    {
        Heading {
            status: self.failure.status,
            scsi: self.failure.scsi,
            response: self.response,
            key,
        }
    }

    // What is decided of each code of a key.
    fn decisions_of(&self, key: u8) -> io::Result<Decisions>
        ensures apart { IfOk result (λ it. AreApart (map string_bytes it.texts.items)) }
        ensures decided { IfOk result (λ it. AreDecided self.now.config.now self.now.lines.items self.now.failure self.now.response key CODES it.numbers.items
            (map string_bytes it.texts.items)) }
    {
        match self.decisions(key) {
            Ok(decisions) => Ok(decisions),
            Err(OrMemory::OutOfMemory) => Err(io::Error::from(AllocError)),
            Err(OrMemory::Fault(_)) => Err(io::Error::from(ErrorKind::InvalidInput)),
        }
    }

    fn decisions(&self, key: u8) -> Result<Decisions, DecisionError>
        ensures apart { IfOk result (λ it. AreApart (map string_bytes it.texts.items)) }
        ensures decided { IfOk result (λ it. AreDecided self.now.config.now self.now.lines.items self.now.failure self.now.response key CODES it.numbers.items
            (map string_bytes it.texts.items)) }
    {
        let mut decisions = Decisions::new(self.alloc)?;
        for code in 0..CODES {
            self.add(key, code, &mut decisions)?;
        }
        Ok(decisions)
    }

    // Adds what is decided of a code.
    fn add(&self, key: u8, code: usize, decisions: &mut Decisions) -> Result<(), DecisionError>
        requires few { code < CODES }
        requires found { AreFound decisions.old.places (map string_bytes decisions.old.texts.items) }
        ensures found { OnOk result (AreFound decisions.new.places (map string_bytes decisions.new.texts.items)) }
        ensures adds { OnOk result (AddsDecided self.now.config.now self.now.lines.items (failure_of self.now.failure self.now.response key code)
            decisions.old.numbers.items (map string_bytes decisions.old.texts.items) decisions.new.numbers.items (map string_bytes decisions.new.texts.items)) }
    {
        let text = self.decided(key, code)?;
        decisions.push(text)?;
        Ok(())
    }

    // What is decided of a code.
    fn decided(&self, key: u8, code: usize) -> Result<String, DecisionError>
        requires { code < CODES }
        ensures { IfOk result (λ text. IsTextOf self.now.config.now self.now.lines.items (failure_of self.now.failure self.now.response key code) (string_bytes text)) }
    {
        let failure = self.failure_at(key, code);
        let decided = decision_on(self.alloc, self.config, &self.lines, &failure)?;
        let mut page = Page::new(self.alloc);
        put_decision(
            &decided.decision,
            failure.retries,
            &decided.ran.records,
            &mut page,
        );
        Ok(page.finish()?)
    }

    // The failure with the sense data of a code.
    fn failure_at(&self, key: u8, code: usize) -> Failure
        requires { code < CODES }
        ensures { result ≡ failure_of self.now.failure self.now.response key code }
    {
        let asc = (code / 256) as u8;
        let ascq = (code % 256) as u8;
        Failure {
            sense: sense_of(self.response, key, asc, ascq),
            ..self.failure
        }
    }
}
