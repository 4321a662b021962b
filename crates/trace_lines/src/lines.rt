// Prints and reads a line's word and fields by its row. It relies on `table` for rows, and on `printing` and `reading` for fields.

ghost use Rattle.std.specs.Prelude.{◌≡◌, ◌+◌, ◌≤◌, ◌==◌, ◌&&◌, length, None, Some};
ghost use Rattle.trace_lines.specs.Lines.{fields_text, line_text, may_lack, slot_text};
ghost use Rattle.trace_lines.specs.Reading.{IsCutFor, ReadsFields, ReadsLine, ReadsSlot};
ghost use Rattle.trace_lines.specs.Written.{KeepsFront, Puts};

use crate::kind::{Kind, Slots};
use crate::no_text::NoText;
use crate::printing::FIELD;
use crate::reading::{behind_blank, first_word};
use crate::text::{ROOM, Text};
use crate::value::Value;
use crate::word::Word;

/// How long up to four fields may be, each after a blank, and a word with these.
pub const FIELDS: usize = 644;

pub const LINE: usize = 653;

/// Puts a line's word and what its fields hold, each after a blank, unless it has no spelling as that line.
pub fn print_line(word: Word, held: &Slots<Value>, text: &mut Text) -> Result<(), NoText>
    requires room { length text.old + LINE ≤ ROOM }
    ensures text { Puts (line_text word held.now) text.old result text.new }
    ensures front { KeepsFront text.old result text.new }
    ensures few { length text.new ≤ length text.old + LINE }
{
    text.put(word.text().as_bytes());
    print_fields(&word.row().fields, held, text)
}

/// Puts what fields hold, each after a blank, unless it has no spelling as these fields.
#[tactic(auto, unfolding(crate::specs::Lines::fields_text))]
pub fn print_fields(
    fields: &Slots<Kind>,
    held: &Slots<Value>,
    text: &mut Text,
) -> Result<(), NoText>
    requires room { length text.old + FIELDS ≤ ROOM }
    ensures text { Puts (fields_text fields.now held.now) text.old result text.new }
    ensures front { KeepsFront text.old result text.new }
    ensures few { length text.new ≤ length text.old + FIELDS }
{
    print_slot(fields.first, held.first, text)?;
    print_slot(fields.second, held.second, text)?;
    print_slot(fields.third, held.third, text)?;
    print_slot(fields.fourth, held.fourth, text)
}

fn print_slot(kind: Option<Kind>, value: Option<Value>, text: &mut Text) -> Result<(), NoText>
    requires room { length text.old + FIELD + 1 ≤ ROOM }
    ensures text { Puts (slot_text kind value) text.old result text.new }
    ensures front { KeepsFront text.old result text.new }
    ensures few { length text.new ≤ length text.old + FIELD + 1 }
{
    match (kind, value) {
        (Some(kind), Some(value)) => {
            text.push(b' ');
            kind.print(value, text)
        }
        (Some(kind), None) => left_out(kind, text),
        (None, None) => Ok(()),
        (None, Some(_)) => Err(NoText),
    }
}

// A field that is left out puts nothing, and has no spelling unless it may be left out.
fn left_out(kind: Kind, text: &Text) -> Result<(), NoText>
    ensures text { Puts (slot_text (Some kind) None) text.now result text.now }
    ensures front { KeepsFront text.now result text.now }
{
    if kind.may_lack() { Ok(()) } else { Err(NoText) }
}

/// The word and what the fields hold of the line that is spelled so.
pub fn read_line(text: &str) -> Option<(Word, Slots<Value>)>
    ensures { ReadsLine text.now result }
{
    let (name, rest) = first_word(text);
    let word = Word::named(name)?;
    Some((word, read_fields(&word.row().fields, rest)?))
}

/// What fields hold that are spelled so, each after a blank.
pub fn read_fields(fields: &Slots<Kind>, text: &str) -> Option<Slots<Value>>
    ensures { ReadsFields fields.now text.now result }
{
    let mut held = Slots {
        first: None,
        second: None,
        third: None,
        fourth: None,
    };
    let text = read_slot(fields.first, text, &mut held.first)?;
    let text = read_slot(fields.second, text, &mut held.second)?;
    let text = read_slot(fields.third, text, &mut held.third)?;
    let text = read_slot(fields.fourth, text, &mut held.fourth)?;
    if !text.is_empty() {
        return None;
    }
    Some(held)
}

// Reads what a field holds that stands in front, and answers what is after it.
fn read_slot<'a>(kind: Option<Kind>, text: &'a str, held: &mut Option<Value>) -> Option<&'a str>
    ensures { ReadsSlot kind text.now held.new result }
{
    let Some(kind) = kind else {
        *held = None;
        return Some(text);
    };
    if lacks(kind, text) {
        *held = None;
        return Some(text);
    }
    let (word, rest) = cut(kind, behind_blank(text)?);
    *held = Some(kind.read(word)?);
    Some(rest)
}

// Whether the line ends before a field of this kind, as it may.
fn lacks(kind: Kind, text: &str) -> bool
    ensures { result ≡ (may_lack kind && (length text.now == 0)) }
{
    kind.may_lack() && text.is_empty()
}

// The front of a text that is a field of this kind: all of it where nothing follows such a field.
fn cut(kind: Kind, text: &str) -> (&str, &str)
    ensures { IsCutFor kind text.now result.0.now result.1.now }
{
    match kind {
        Kind::Stop => (text, ""),
        Kind::Class => (text, ""),
        _ => first_word(text),
    }
}
