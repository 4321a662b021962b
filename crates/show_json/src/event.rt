// The object of an event: when, where, what, and with which values. It relies on `show_events` for events, on `kinds` for their words, and on
// `show_account` for why a call is refused.

use crate::json::Json;
use crate::kinds::{helper_of, kind_of};
use crate::reported::{
    put_advice, put_any_advice, put_class, put_code, put_helper, put_place, put_scsi_status,
    put_sense, put_status,
};
use helpers::HelperEffect;
use show_account::put_why_not;
use show_events::{Cause, Event, Happening, Programs, Subject, Values};

/// The key of how many openings a queue has.
pub const OPENINGS: &str = "openings";

/// Puts what an event is about, and its values, as members of an object.
pub fn put_facts(event: &Event, json: &mut Json) {
    put_subject(&event.subject, json);
    put_values(event, json);
}

/// Puts the line of an event.
pub(crate) fn put_event(event: &Event, programs: &Programs<'_>, json: &mut Json) {
    json.begin();
    json.digits("time", event.clock);
    json.word("kind", kind_of(event.happening));
    put_subject(&event.subject, json);
    if let Some(helper) = helper_of(event) {
        json.begin_at("helper");
        put_helper(helper, json);
        json.end();
    }
    put_values(event, json);
    if matches!(
        event.happening,
        Happening::Failed | Happening::FailedAtLimit
    ) {
        let program = programs.of(event.queue().unwrap_or(u32::MAX));
        json.foreign("program", programs.name(program));
    }
    if event.happening.is_refused() {
        put_refusal(event, json);
    }
    json.end();
    json.line();
}

// What it is about, as far as it is about that.
fn put_subject(subject: &Subject, json: &mut Json) {
    if let Some(place) = subject.place {
        put_place(place, json);
    }
    put_some("ccb", subject.ccb, json);
    put_some("run", subject.run, json);
    put_some("freeze", subject.freeze, json);
}

fn put_some(key: &str, number: Option<u32>, json: &mut Json) {
    if let Some(number) = number {
        json.number(key, u64::from(number));
    }
}

// Why a call is refused: the code, and the words of the account.
fn put_refusal(event: &Event, json: &mut Json) {
    json.begin_at("refusal");
    json.shown("code", &event.values.refusal);
    put_why_not(event, json.begin_words("cause"));
    json.end_words();
    json.end();
}

// The values of the event, by what happened.
fn put_values(event: &Event, json: &mut Json) {
    let values = &event.values;
    match event.happening {
        Happening::Submitted => {
            json.number("priority", values.numbers[0]);
            json.number("retries", values.numbers[1]);
            put_class(values.numbers[2], json);
        }
        Happening::Started => {
            json.number("attempt", values.numbers[0]);
            json.digits("waited", values.numbers[1]);
            put_advice(values.numbers[2], json);
        }
        Happening::Withdrawn => {
            json.digits("waited", values.numbers[0]);
            put_final(values.code, json);
        }
        Happening::NotStartedFrozen | Happening::NotFrozenByRun | Happening::FrozenByRun => {
            json.number("frozen", u64::from(values.frozen));
        }
        Happening::Completed
        | Happening::Failed
        | Happening::FailedAtLimit
        | Happening::NotCompleted => put_completion(event, json),
        Happening::FrozenByGuest
        | Happening::NotFrozenByGuest
        | Happening::GivenBackByGuest
        | Happening::TimerCame
        | Happening::GivenBackByRun => put_freeze(event, json),
        Happening::NotRead => json.digits("reading", values.numbers[0]),
        Happening::LeftToTimer => json.digits("due", values.numbers[0]),
        Happening::Helped(effect) => put_numbers(effect, values, json),
        Happening::Requeued | Happening::Finished | Happening::Traced | Happening::Ended => {
            put_step(event, json);
        }
        _ => {}
    }
}

// What a completion reports, how long the CCB was active, and how often its place is frozen then.
fn put_completion(event: &Event, json: &mut Json) {
    put_status("status", event.values.status, json);
    if let Some(status) = event.scsi_status() {
        json.begin_at("scsi_status");
        put_scsi_status(status, json);
        json.end();
    }
    put_sense(event.sense(), json);
    if event.happening.is_completion() {
        json.digits("active", event.values.numbers[0]);
    }
    if let Happening::Failed = event.happening {
        json.number("frozen", u64::from(event.values.frozen));
    }
}

// How often a place is frozen after a freeze came or went, how long the freeze was there, and whose it was.
fn put_freeze(event: &Event, json: &mut Json) {
    let values = &event.values;
    let is_guests = matches!(
        event.happening,
        Happening::FrozenByGuest | Happening::NotFrozenByGuest | Happening::GivenBackByGuest
    );
    if is_guests {
        json.number("guest", u64::from(values.guest));
    }
    if event.happening.is_refused() {
        return;
    }
    json.number("frozen", u64::from(values.frozen));
    match event.happening {
        Happening::FrozenByGuest => {}
        _ => json.digits("held", values.numbers[0]),
    }
    if let Happening::TimerCame = event.happening {
        put_cause(values.cause, json);
    }
}

// Why there was a freeze: a failure with its CCB, its run and its status, or a guest; or that it was carried over.
fn put_cause(cause: Cause, json: &mut Json) {
    json.begin_at("cause");
    match cause {
        Cause::Failure { ccb, status, run } => {
            json.number("ccb", u64::from(ccb));
            json.number("run", u64::from(run));
            put_status("status", status, json);
        }
        Cause::Guest(guest) => json.number("guest", u64::from(guest)),
        Cause::CarriedOver => json.flag("carried_over", true),
    }
    json.end();
}

// What a helper read or wrote. Tables and indices are those of the manifest, and openings are below 256.
fn put_numbers(effect: HelperEffect, values: &Values, json: &mut Json) {
    let [first, second, third, answer, before] = values.numbers;
    match effect {
        HelperEffect::GetWord => {
            put_place_of_word(first, second, json);
            json.digits("word", answer);
        }
        HelperEffect::PutWord => {
            put_place_of_word(first, second, json);
            json.digits("word_before", answer);
            json.digits("word", third);
        }
        HelperEffect::AddWord => {
            put_place_of_word(first, second, json);
            json.digits("word_before", before);
            json.digits("added", third);
            json.digits("word", answer);
        }
        HelperEffect::TellQueue => {
            json.number("frozen", u64::from(values.frozen));
            json.number("active", first);
            json.number("waiting", second);
            json.number(OPENINGS, third);
        }
        HelperEffect::SetOpenings => {
            json.number("openings_before", answer);
            json.number(OPENINGS, first);
        }
        HelperEffect::Advise => put_any_advice(first, json),
        HelperEffect::TellClock => json.digits("r0", answer),
        _ => json.number("frozen", u64::from(values.frozen)),
    }
}

fn put_place_of_word(table: u64, index: u64, json: &mut Json) {
    json.number("table", table);
    json.number("index", index);
}

// The final code of a CCB.
fn put_final(code: u8, json: &mut Json) {
    json.begin_at("final");
    put_code(code, json);
    json.end();
}

// What else a run did.
fn put_step(event: &Event, json: &mut Json) {
    let values = &event.values;
    match event.happening {
        Happening::Requeued => {
            json.number("retries_before", values.numbers[0]);
            json.number("retries", values.numbers[1]);
        }
        Happening::Finished => put_final(values.code, json),
        Happening::Traced => {
            json.bytes("bytes", values.bytes.as_slice());
            json.ascii("text", values.bytes.as_slice());
        }
        Happening::Ended => {
            json.number("instructions", values.numbers[0]);
            json.digits("r0", values.numbers[1]);
        }
        _ => {}
    }
}
