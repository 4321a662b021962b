// Prints a line after what stands in a text. It relies on `trace_lines` for numbers.

ghost use Rattle.std.specs.Prelude.{◌≡◌, ◌+◌, ◌*◌, ◌≤◌, ◌↔◌, ◌∷◌, [], Some, false, IsErr, IsTrue, OnErr, length, map};
ghost use Rattle.std.specs.Fmt.{option_append};
ghost use Rattle.trace_lines.specs.Texts.{long_number_text, number_text};
ghost use Rattle.trace_lines.specs.Written.{IsPut, Puts};
ghost use Rattle.world_calls.specs.declared.carried_line.CarriedLine.TheVariants as lines;
ghost use Rattle.carried_lines.specs.declared.kind.Kind.TheVariants as kinds;
ghost use Rattle.carried_lines.specs.CarriedText.{after_blanks, carried_text, classed_ccb_fields, has_neither, is_by_run, is_classed, is_unspelled, kind_text, place_fields, plain_ccb_fields, state_word};

use crate::kind::Kind;
use ccb::Place;
use freeze_ledger::{Freeze, Holder};
use trace_lines::{LONG_NUMBER, NoText, ROOM, Text, has_classes, print_long_number, print_number};
use world_calls::{CarriedCcb, CarriedLine, Version};

/// The most bytes of a line's text, without its line feed.
pub const CARRIED: usize = 88;

/// Appends the text of a line of a version, without a line feed, to `text`: at most `CARRIED` bytes. The result is an error exactly if the
/// line says that a run holds a freeze, or has a class or an advice in a version without them, since such a line has no text; then nothing is
/// appended.
pub fn print_carried(version: Version, line: &CarriedLine, text: &mut Text) -> Result<(), NoText>
    requires room { length text.old + CARRIED ≤ ROOM }
    ensures text { Puts (carried_text version line.now) text.old result text.new }
    ensures refused { IsErr result ↔ IsTrue (is_unspelled version line.now) }
    ensures unchanged { OnErr result (text.new ≡ text.old) }
    ensures few { length text.new ≤ length text.old + CARRIED }
{
    match line {
        CarriedLine::Numbers { ccb, freeze, run } => {
            put_line(Kind::Numbers, &[*ccb, *freeze, *run], text);
            Ok(())
        }
        CarriedLine::Clock { reading } => {
            put_line(Kind::Clock, &[], text);
            put_long_number(*reading, text);
            Ok(())
        }
        CarriedLine::Openings { queue, openings } => {
            put_line(Kind::Openings, &[*queue, *openings], text);
            Ok(())
        }
        CarriedLine::Word { table, index, word } => {
            put_line(Kind::Word, &[*table, *index], text);
            put_long_number(*word, text);
            Ok(())
        }
        CarriedLine::Ccb(ccb) => print_ccb(version, ccb, text),
        CarriedLine::Freeze(freeze) => print_freeze(version, freeze, text),
    }
}

fn print_ccb(version: Version, ccb: &CarriedCcb, text: &mut Text) -> Result<(), NoText>
    requires room { length text.old + CARRIED ≤ ROOM }
    ensures text { Puts (carried_text version (lines.Ccb ccb.now)) text.old result text.new }
    ensures refused { IsErr result ↔ IsTrue (is_classed version ccb.now) }
    ensures unchanged { OnErr result (text.new ≡ text.old) }
    ensures few { length text.new ≤ length text.old + CARRIED }
{
    if is_classed(version, ccb) {
        return Err(NoText);
    }
    put_ccb(version, ccb, text);
    Ok(())
}

// Whether a CCB has a class or an advice where none has.
fn is_classed(version: Version, ccb: &CarriedCcb) -> bool
    ensures { result ≡ is_classed version ccb.now }
{
    !has_classes(version) && !has_neither(ccb)
}

// A CCB, which has a class or an advice only where CCBs have them.
fn put_ccb(version: Version, ccb: &CarriedCcb, text: &mut Text)
    requires room { length text.old + CARRIED ≤ ROOM }
    requires spelled { is_classed version ccb.now ≡ false }
    ensures text { IsPut (carried_text version (lines.Ccb ccb.now)) text.old text.new }
    ensures few { length text.new ≤ length text.old + CARRIED }
{
    if has_classes(version) {
        put_classed(ccb, text);
    } else {
        put_plain(ccb, text);
    }
}

// Whether a CCB has no class and no advice.
fn has_neither(ccb: &CarriedCcb) -> bool
    ensures { result ≡ has_neither ccb.now.class ccb.now.advice }
{
    ccb.class == 0 && ccb.advice == 0
}

// A CCB with its class and its advice.
fn put_classed(ccb: &CarriedCcb, text: &mut Text)
    requires room { length text.old + CARRIED ≤ ROOM }
    ensures text { IsPut (option_append (Some (kind_text kinds.Ccb)) (after_blanks (classed_ccb_fields ccb.now))) text.old text.new }
    ensures few { length text.new ≤ length text.old + CARRIED }
{
    let numbers = [
        ccb.number.0,
        ccb.queue.0,
        ccb.priority,
        ccb.retries,
        ccb.attempts,
        ccb.class,
        ccb.advice,
    ];
    put_line(Kind::Ccb, &numbers, text);
    put_word(state_word(ccb.is_active), text);
}

// A CCB without them.
fn put_plain(ccb: &CarriedCcb, text: &mut Text)
    requires room { length text.old + CARRIED ≤ ROOM }
    ensures text { IsPut (option_append (Some (kind_text kinds.Ccb)) (after_blanks (plain_ccb_fields ccb.now))) text.old text.new }
    ensures few { length text.new ≤ length text.old + CARRIED }
{
    let numbers = [
        ccb.number.0,
        ccb.queue.0,
        ccb.priority,
        ccb.retries,
        ccb.attempts,
    ];
    put_line(Kind::Ccb, &numbers, text);
    put_word(state_word(ccb.is_active), text);
}

// The word for whether a device works on a CCB.
fn state_word(is_active: bool) -> &'static str
    ensures word { result.now ≡ state_word is_active }
    ensures short { length result.now ≤ 7 }
{
    if is_active { "active" } else { "waiting" }
}

fn print_freeze(version: Version, freeze: &Freeze, text: &mut Text) -> Result<(), NoText>
    requires room { length text.old + CARRIED ≤ ROOM }
    ensures text { Puts (carried_text version (lines.Freeze freeze.now)) text.old result text.new }
    ensures refused { IsErr result ↔ IsTrue (is_by_run freeze.now.holder) }
    ensures unchanged { OnErr result (text.new ≡ text.old) }
    ensures few { length text.new ≤ length text.old + CARRIED }
{
    match freeze.holder {
        Holder::Run(_) => Err(NoText),
        Holder::Timer(due) => {
            put_frozen(freeze.number, freeze.place, text);
            put_word("timer", text);
            put_long_number(due, text);
            Ok(())
        }
        Holder::Guest(guest) => {
            put_frozen(freeze.number, freeze.place, text);
            put_word("guest", text);
            put_numbers(&[guest], text);
            Ok(())
        }
    }
}

// The number of a freeze, and what is frozen.
fn put_frozen(number: u32, place: Place, text: &mut Text)
    requires room { length text.old + 40 ≤ ROOM }
    ensures text { IsPut (option_append (Some (kind_text kinds.Freeze)) (after_blanks (number_text number ∷ place_fields place))) text.old text.new }
    ensures few { length text.new ≤ length text.old + 39 }
{
    put_line(Kind::Freeze, &[number], text);
    put_word(place.kind_word(), text);
    put_numbers(&[place.number()], text);
}

// The word of a line, and fields that are numbers.
fn put_line(kind: Kind, numbers: &[u32], text: &mut Text)
    requires room { length text.old + 8 + 11 * length numbers.now ≤ ROOM }
    ensures text { IsPut (option_append (Some (kind_text kind)) (after_blanks (map number_text numbers.now))) text.old text.new }
    ensures few { length text.new ≤ length text.old + length (kind_text kind) + 11 * length numbers.now }
{
    text.put(kind.word().as_bytes());
    put_numbers(numbers, text);
}

// Fields that are numbers below 2^32.
fn put_numbers(numbers: &[u32], text: &mut Text)
    requires room { length text.old + 11 * length numbers.now ≤ ROOM }
    ensures text { IsPut (after_blanks (map number_text numbers.now)) text.old text.new }
    ensures few { length text.new ≤ length text.old + 11 * length numbers.now }
{
    for number in numbers {
        text.push(b' ');
        print_number(*number, text);
    }
}

// A field that is a number below 2^64.
fn put_long_number(number: u64, text: &mut Text)
    requires room { length text.old + LONG_NUMBER + 1 ≤ ROOM }
    ensures text { IsPut (after_blanks (long_number_text number ∷ [])) text.old text.new }
    ensures few { length text.new ≤ length text.old + LONG_NUMBER + 1 }
{
    text.push(b' ');
    print_long_number(number, text);
}

// A field that is a word.
fn put_word(word: &str, text: &mut Text)
    requires room { length text.old + 1 + length word.now ≤ ROOM }
    ensures text { IsPut (after_blanks (Some word.now ∷ [])) text.old text.new }
    ensures few { length text.new ≤ length text.old + 1 + length word.now }
{
    text.push(b' ');
    text.put(word.as_bytes());
}
