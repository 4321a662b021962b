// Prints and reads what a line is answered, by its row. It relies on `table` for rows, on `text`, and on `printing` and `reading` for numbers.

ghost use Rattle.std.specs.Prelude.{◌≡◌, ◌+◌, ◌≤◌, ◌++◌, length, MatchOption};
ghost use Rattle.ccb.specs.CallRefusalText.{call_refusal_text};
ghost use Rattle.trace_lines.specs.Answers.{advised_answer_text, advised_text, answer_text, code_told, form_text, named_number_text, refusal_text, started_text};
ghost use Rattle.trace_lines.specs.declared.table.Form.TheVariants.{Completed, Start};
ghost use Rattle.trace_lines.specs.Written.{IsPut, KeepsFront, Puts, Reads};

use crate::no_text::NoText;
use crate::printing::{NUMBER, print_number};
use crate::reading::{first_word, number};
use crate::table::{Form, Row};
use crate::text::{ROOM, Text};
use ccb::CcbId;
use world_calls::{CallAnswer, CallRefusal};

/// How long an answer may be.
pub const ANSWER: usize = 40;

impl Row {
    /// Puts what a call of this line is answered. An answer of another form, and a refusal that no such call is given, have no
    /// text.
    pub fn print_answer(&self, answer: CallAnswer, text: &mut Text) -> Result<(), NoText>
        requires room { length text.old + ANSWER ≤ ROOM }
        ensures text { Puts (answer_text self.now answer) text.old result text.new }
        ensures front { KeepsFront text.old result text.new }
        ensures few { length text.new ≤ length text.old + ANSWER }
    {
        match answer {
            CallAnswer::Refused(refusal) => {
                if !self.may_be(refusal) {
                    return Err(NoText);
                }
                text.put(&code_of(refusal));
                Ok(())
            }
            _ => self.form.print(answer, text),
        }
    }
}

// The code of a refusal, a letter and a digit.
fn code_of(refusal: CallRefusal) -> [u8; 2]
    ensures { result ≡ call_refusal_text refusal }
{
    let row = refusal.row();
    [row.letter, row.digit]
}

impl Form {
    // What is no refusal.
    fn print(self, answer: CallAnswer, text: &mut Text) -> Result<(), NoText>
        requires room { length text.old + ANSWER ≤ ROOM }
        ensures text { Puts (form_text self answer) text.old result text.new }
        ensures front { KeepsFront text.old result text.new }
        ensures few { length text.new ≤ length text.old + ANSWER }
    {
        match (self, answer) {
            (Form::Ccb, CallAnswer::Ccb(ccb)) => print_named("ccb ", ccb.0, text),
            (Form::Start, CallAnswer::Ccb(ccb)) => print_named("ccb ", ccb.0, text),
            (Form::Start, CallAnswer::Advised(ccb, advice)) => print_advised(ccb.0, advice, text),
            (Form::Completed, CallAnswer::Done) => text.put(b"done"),
            (Form::Completed, CallAnswer::Started { run, freeze }) => {
                print_started(run, freeze, text)
            }
            (Form::Freeze, CallAnswer::Freeze(freeze)) => print_named("freeze ", freeze, text),
            (Form::Left, CallAnswer::Left(count)) => print_number(count, text),
            (Form::Went, CallAnswer::Removed(count)) => print_number(count, text),
            (Form::Ok, CallAnswer::Ok) => text.put(b"ok"),
            _ => return Err(NoText),
        }
        Ok(())
    }
}

// A run, and its freeze.
fn print_started(run: u32, freeze: u32, text: &mut Text)
    requires room { length text.old + ANSWER ≤ ROOM }
    ensures text { IsPut (started_text (run, freeze)) text.old text.new }
    ensures few { length text.new ≤ length text.old + ANSWER }
{
    print_named("run ", run, text);
    print_named(" freeze ", freeze, text);
}

// A CCB, and what is advised at its start.
fn print_advised(ccb: u32, advice: u32, text: &mut Text)
    requires room { length text.old + ANSWER ≤ ROOM }
    ensures text { IsPut (advised_text (ccb, advice)) text.old text.new }
    ensures few { length text.new ≤ length text.old + ANSWER }
{
    print_named("ccb ", ccb, text);
    print_named(" advice ", advice, text);
}

// A number after its name, which is short.
fn print_named(name: &str, number: u32, text: &mut Text)
    requires short { length name.now ≤ 8 }
    requires room { length text.old + 18 ≤ ROOM }
    ensures text { IsPut (named_number_text name.now number) text.old text.new }
    ensures few { length text.new ≤ length text.old + length name.now + NUMBER }
{
    text.put(name.as_bytes());
    print_number(number, text);
}

impl Row {
    /// What a call of this line is answered that is spelled so.
    pub fn read_answer(&self, text: &str) -> Option<CallAnswer>
        ensures { Reads (answer_text self.now) text.now result }
    {
        match self.refusal_told(text) {
            Some(refusal) => Some(CallAnswer::Refused(refusal)),
            None => self.form.read(text),
        }
    }

    fn refusal_told(&self, text: &str) -> Option<CallRefusal>
        ensures { Reads (refusal_text self.now) text.now result }
    {
        let refusal = refusal_of(text)?;
        if self.may_be(refusal) {
            Some(refusal)
        } else {
            None
        }
    }
}

impl Form {
    // What is no refusal.
    fn read(self, text: &str) -> Option<CallAnswer>
        ensures { Reads (form_text self) text.now result }
    {
        match self {
            Form::Ccb => Some(CallAnswer::Ccb(CcbId(named_number("ccb ", text)?))),
            Form::Start => begun(text),
            Form::Completed => completed(text),
            Form::Freeze => Some(CallAnswer::Freeze(named_number("freeze ", text)?)),
            Form::Left => Some(CallAnswer::Left(number(text)?)),
            Form::Went => Some(CallAnswer::Removed(number(text)?)),
            Form::Ok => {
                if text == "ok" {
                    Some(CallAnswer::Ok)
                } else {
                    None
                }
            }
            Form::R0 => None,
        }
    }
}

fn begun(text: &str) -> Option<CallAnswer>
    ensures { Reads (form_text Start) text.now result }
{
    match named_number("ccb ", text) {
        Some(ccb) => Some(CallAnswer::Ccb(CcbId(ccb))),
        None => with_advice(text),
    }
}

fn with_advice(text: &str) -> Option<CallAnswer>
    ensures { Reads advised_answer_text text.now result }
{
    let (ccb, advice) = advised(text)?;
    Some(CallAnswer::Advised(CcbId(ccb), advice))
}

// A CCB, and what is advised at its start.
fn advised(text: &str) -> Option<(u32, u32)>
    ensures { Reads advised_text text.now result }
{
    let (ccb, rest) = first_word(behind("ccb ", text)?);
    Some((number(ccb)?, named_number(" advice ", rest)?))
}

fn completed(text: &str) -> Option<CallAnswer>
    ensures { Reads (form_text Completed) text.now result }
{
    if text == "done" {
        return Some(CallAnswer::Done);
    }
    let (run, freeze) = started(text)?;
    Some(CallAnswer::Started { run, freeze })
}

// A run, and its freeze.
fn started(text: &str) -> Option<(u32, u32)>
    ensures { Reads started_text text.now result }
{
    let (run, rest) = first_word(behind("run ", text)?);
    Some((number(run)?, named_number(" freeze ", rest)?))
}

// A number after its name.
fn named_number(name: &str, text: &str) -> Option<u32>
    ensures { Reads (named_number_text name.now) text.now result }
{
    number(behind(name, text)?)
}

// What follows that front.
fn behind<'a>(front: &str, text: &'a str) -> Option<&'a str>
    ensures { MatchOption result ((rest : _) → ¬ (text.now ≡ front.now ++ rest)) (λ rest. text.now ≡ front.now ++ rest.now) }
{
    text.strip_prefix(front)
}

// The refusal of that code.
fn refusal_of(text: &str) -> Option<CallRefusal>
    ensures { Reads code_told text.now result }
{
    CallRefusal::coded(text)
}
