// What is told by a code and its name, as an object that has both: statuses, final codes, sense codes and helpers. It relies on `show_account` and
// `show_sense` for the names, and on `json` for the page.

use crate::json::Json;
use ccb::{CamStatus, Place};
use freeze_ledger::Holder;
use helpers::Helper;
use show_account::{advice_name, name_of_code, status_name};
use show_sense::{SenseCode, scsi_status_name, sense_code, sense_key_name};

/// Puts the members of a final code or of a CAM status: its two digits, and the name of the status that it is.
pub fn put_code(code: u8, json: &mut Json) {
    json.bytes("code", &[code]);
    json.word("name", name_of_code(code));
}

// Puts the class of a CCB, if it has one.
pub(crate) fn put_class(class: u64, json: &mut Json) {
    if class != 0 {
        json.number("class", class);
    }
}

// Puts what was advised, if anything was.
pub(crate) fn put_advice(word: u64, json: &mut Json) {
    if word != 0 {
        put_any_advice(word, json);
    }
}

// Puts a word of advice: its number, and its usual name if it has one.
pub(crate) fn put_any_advice(word: u64, json: &mut Json) {
    json.begin_at("advice");
    put_advice_word(word, json);
    json.end();
}

/// Puts the members of a word of advice: its number and its usual name, which is empty if it has none.
pub fn put_advice_word(word: u64, json: &mut Json) {
    json.number("number", word);
    json.word("name", advice_name(word));
}

// Puts a CAM status under a key.
pub(crate) fn put_status(key: &str, status: CamStatus, json: &mut Json) {
    json.begin_at(key);
    json.bytes("code", &[status.code()]);
    json.word("name", status_name(status));
    json.end();
}

/// Puts the members of a SCSI status: its two digits and its name.
pub fn put_scsi_status(status: u8, json: &mut Json) {
    json.bytes("code", &[status]);
    json.word("name", scsi_status_name(status));
}

/// Puts the members of a sense code: whether the error is deferred, the sense key as a digit and by its name, and ASC and ASCQ in two digits each.
pub fn put_sense_code(code: SenseCode, json: &mut Json) {
    json.flag("deferred", code.is_deferred);
    json.digit("key", code.key);
    json.word("key_name", sense_key_name(code.key));
    json.bytes("asc", &[code.asc]);
    json.bytes("ascq", &[code.ascq]);
}

// Puts sense data that came, if any did: its bytes, and the sense code if they are decoded.
pub(crate) fn put_sense(bytes: &[u8], json: &mut Json) {
    if bytes.is_empty() {
        return;
    }
    json.begin_at("sense");
    json.bytes("bytes", bytes);
    if let Some(code) = sense_code(bytes) {
        put_sense_code(code, json);
    }
    json.end();
}

/// Puts the number of a queue or of a controller, under the word for its kind.
pub fn put_place(place: Place, json: &mut Json) {
    json.number(place.kind_word(), u64::from(place.number()));
}

/// Puts who holds a freeze, as an object.
pub fn put_holder(holder: Option<Holder>, json: &mut Json) {
    json.begin_at("holder");
    match holder {
        Some(Holder::Run(run)) => json.number("run", u64::from(run)),
        Some(Holder::Timer(due)) => json.digits("timer_due", due),
        Some(Holder::Guest(guest)) => json.number("guest", u64::from(guest)),
        None => {}
    }
    json.end();
}

/// Puts the members of a helper: its number and its name.
pub fn put_helper(helper: Helper, json: &mut Json) {
    json.number("number", u64::from(helper.number()));
    json.word("name", helper.name());
}
