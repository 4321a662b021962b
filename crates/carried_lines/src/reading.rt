// Reads a line by its word, one function for each word. It relies on `fields`.

ghost use Rattle.std.specs.Prelude.{◌≡◌};
ghost use Rattle.trace_lines.specs.Versions.{has_classes};
ghost use Rattle.trace_lines.specs.Written.{Reads};
ghost use Rattle.carried_lines.specs.CarriedText.{carried_text};
ghost use Rattle.carried_lines.specs.FieldReading.{ReadsAs};
ghost use Rattle.carried_lines.specs.LineReading.{ReadsFields, ccb_in, class_in, clock_in, freeze_in, freeze_parts, guest_in, holder_in, numbers_in, openings_in, place_in, place_named, place_parts, state_in, state_of, timer_in, word_in};

use crate::fields::{field, first_word, long_number_field, number_field};
use crate::kind::Kind;
use ccb::{CcbId, Place, QueueId};
use freeze_ledger::{Freeze, Holder};
use trace_lines::has_classes;
use world_calls::{CarriedCcb, CarriedLine, Version};

/// Reads the line of a version that has this text, which has no line feed: its word and its fields, with exactly one blank between any two of them, and
/// numbers in decimal digits without a sign and without leading zeros. The result is `None` exactly if no line of the version has this text. A word that
/// is 0 is read as any other: `Order` refuses its line.
pub fn read_carried(version: Version, text: &str) -> Option<CarriedLine>
    ensures { Reads (carried_text version) text.now result }
{
    let (word, fields) = first_word(text);
    let kind = Kind::named(word)?;
    read_fields(version, kind, fields)
}

// The line of a kind that has these fields.
fn read_fields(version: Version, kind: Kind, text: &str) -> Option<CarriedLine>
    ensures { ReadsFields version kind text.now result }
{
    match kind {
        Kind::Numbers => numbers(text),
        Kind::Clock => clock(text),
        Kind::Openings => openings(text),
        Kind::Word => table_word(text),
        Kind::Ccb => ccb(version, text),
        Kind::Freeze => match freeze(text) {
            Some(freeze) => Some(CarriedLine::Freeze(freeze)),
            None => None,
        },
    }
}

#[tactic(auto, unfolding(crate::specs::LineReading::numbers_in, crate::specs::FieldReading::ended))]
fn numbers(text: &str) -> Option<CarriedLine>
    ensures { result ≡ numbers_in text.now }
{
    let (ccb, text) = number_field(text)?;
    let (freeze, text) = number_field(text)?;
    let (run, text) = number_field(text)?;
    if !text.is_empty() {
        return None;
    }
    Some(CarriedLine::Numbers { ccb, freeze, run })
}

#[tactic(auto, unfolding(crate::specs::LineReading::clock_in, crate::specs::FieldReading::ended))]
fn clock(text: &str) -> Option<CarriedLine>
    ensures { result ≡ clock_in text.now }
{
    let (reading, text) = long_number_field(text)?;
    if !text.is_empty() {
        return None;
    }
    Some(CarriedLine::Clock { reading })
}

#[tactic(auto, unfolding(crate::specs::LineReading::openings_in, crate::specs::FieldReading::ended))]
fn openings(text: &str) -> Option<CarriedLine>
    ensures { result ≡ openings_in text.now }
{
    let (queue, text) = number_field(text)?;
    let (openings, text) = number_field(text)?;
    if !text.is_empty() {
        return None;
    }
    Some(CarriedLine::Openings { queue, openings })
}

#[tactic(auto, unfolding(crate::specs::LineReading::word_in, crate::specs::FieldReading::ended))]
fn table_word(text: &str) -> Option<CarriedLine>
    ensures { result ≡ word_in text.now }
{
    let (table, text) = number_field(text)?;
    let (index, text) = number_field(text)?;
    let (word, text) = long_number_field(text)?;
    if !text.is_empty() {
        return None;
    }
    Some(CarriedLine::Word { table, index, word })
}

#[tactic(auto, unfolding(crate::specs::LineReading::ccb_in))]
fn ccb(version: Version, text: &str) -> Option<CarriedLine>
    ensures { result ≡ ccb_in version text.now }
{
    let (number, text) = number_field(text)?;
    let (queue, text) = number_field(text)?;
    let (priority, text) = number_field(text)?;
    let (retries, text) = number_field(text)?;
    let (attempts, text) = number_field(text)?;
    let (class, advice, text) = class_field(version, text)?;
    let is_active = state(text)?;
    Some(CarriedLine::Ccb(CarriedCcb {
        number: CcbId(number),
        queue: QueueId(queue),
        priority,
        retries,
        class,
        attempts,
        advice,
        is_active,
    }))
}

// The class and the advice of a CCB, which are 0 in a version without them, and what is after them.
#[tactic(auto, unfolding(crate::specs::LineReading::class_in))]
fn class_field(version: Version, text: &str) -> Option<(u32, u32, &str)>
    ensures { ReadsAs (λ x. ((x.0, x.1), x.2.now)) result (class_in (has_classes version) text.now) }
{
    if !has_classes(version) {
        return Some((0, 0, text));
    }
    let (class, text) = number_field(text)?;
    let (advice, text) = number_field(text)?;
    Some((class, advice, text))
}

// Whether a device works on a CCB, which is the last field.
#[tactic(auto, unfolding(crate::specs::LineReading::state_in, crate::specs::FieldReading::ended))]
fn state(text: &str) -> Option<bool>
    ensures { result ≡ state_in text.now }
{
    let (word, rest) = field(text)?;
    let is_active = state_of(word)?;
    if !rest.is_empty() {
        return None;
    }
    Some(is_active)
}

fn state_of(word: &str) -> Option<bool>
    ensures { result ≡ state_of word.now }
{
    if word == "active" {
        Some(true)
    } else if word == "waiting" {
        Some(false)
    } else {
        None
    }
}

#[tactic(auto, unfolding(crate::specs::LineReading::freeze_in))]
fn freeze(text: &str) -> Option<Freeze>
    ensures { ReadsAs freeze_parts result (freeze_in text.now) }
{
    let (number, text) = number_field(text)?;
    match place(text) {
        Some((place, text)) => {
            let holder = holder(text)?;
            Some(Freeze {
                number,
                place,
                holder,
            })
        }
        None => None,
    }
}

// What is frozen, and what is after it.
#[tactic(auto, unfolding(crate::specs::LineReading::place_in))]
fn place(text: &str) -> Option<(Place, &str)>
    ensures { ReadsAs (λ x. (place_parts x.0, x.1.now)) result (place_in text.now) }
{
    let (word, rest) = field(text)?;
    let (number, rest) = number_field(rest)?;
    let place = place_named(word, number)?;
    Some((place, rest))
}

fn place_named(word: &str, number: u32) -> Option<Place>
    ensures { ReadsAs place_parts result (place_named word.now number) }
{
    if word == "queue" {
        Some(Place::Device(QueueId(number)))
    } else if word == "controller" {
        Some(Place::Controller(number))
    } else {
        None
    }
}

// Who holds a freeze, which comes last.
#[tactic(auto, unfolding(crate::specs::LineReading::holder_in))]
fn holder(text: &str) -> Option<Holder>
    ensures { result ≡ holder_in text.now }
{
    let (word, rest) = field(text)?;
    if word == "timer" {
        timer(rest)
    } else if word == "guest" {
        guest(rest)
    } else {
        None
    }
}

#[tactic(auto, unfolding(crate::specs::LineReading::timer_in, crate::specs::FieldReading::ended))]
fn timer(text: &str) -> Option<Holder>
    ensures { result ≡ timer_in text.now }
{
    let (due, text) = long_number_field(text)?;
    if !text.is_empty() {
        return None;
    }
    Some(Holder::Timer(due))
}

#[tactic(auto, unfolding(crate::specs::LineReading::guest_in, crate::specs::FieldReading::ended))]
fn guest(text: &str) -> Option<Holder>
    ensures { result ≡ guest_in text.now }
{
    let (guest, text) = number_field(text)?;
    if !text.is_empty() {
        return None;
    }
    Some(Holder::Guest(guest))
}
