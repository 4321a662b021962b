// What was carried over, as members of an object. It relies on `world_calls` for the lines, and on `reported` for places and holders.

use crate::event::OPENINGS;
use crate::json::Json;
use crate::reported::{put_advice, put_class, put_holder, put_place};
use engine_config::Config;
use freeze_ledger::Freeze;
use world_calls::{CarriedCcb, CarriedLine};

/// Puts the object of what was carried over, a line.
pub(crate) fn put_carried_line(lines: &[CarriedLine], config: &Config, json: &mut Json) {
    json.begin();
    json.word("kind", "carried");
    put_carried(lines, config, json);
    json.end();
    json.line();
}

/// Puts its members: the greatest numbers that were given, the clock reading, and lists of openings, of words, of CCBs and of freezes. The
/// configuration is that of the trace.
pub fn put_carried(lines: &[CarriedLine], config: &Config, json: &mut Json) {
    put_first(lines, json);
    put_openings(lines, config, json);
    put_words(lines, json);
    put_ccbs(lines, json);
    put_freezes(lines, json);
}

// Of what there is one line each.
fn put_first(lines: &[CarriedLine], json: &mut Json) {
    for line in lines {
        match line {
            CarriedLine::Numbers { ccb, freeze, run } => {
                json.begin_at("numbers");
                json.number("ccb", u64::from(*ccb));
                json.number("freeze", u64::from(*freeze));
                json.number("run", u64::from(*run));
                json.end();
            }
            CarriedLine::Clock { reading } => json.digits("time", *reading),
            _ => {}
        }
    }
}

// The openings of each queue, beside those that the manifest has.
fn put_openings(lines: &[CarriedLine], config: &Config, json: &mut Json) {
    json.begin_list(OPENINGS);
    for line in lines {
        if let CarriedLine::Openings { queue, openings } = line {
            json.begin();
            json.number("queue", u64::from(*queue));
            json.number(OPENINGS, u64::from(*openings));
            if *queue < config.queues() {
                json.number("in_manifest", u64::from(config.openings(*queue)));
            }
            json.end();
        }
    }
    json.end_list();
}

fn put_words(lines: &[CarriedLine], json: &mut Json) {
    json.begin_list("words");
    for line in lines {
        if let CarriedLine::Word { table, index, word } = line {
            json.begin();
            json.number("table", u64::from(*table));
            json.number("index", u64::from(*index));
            json.digits("word", *word);
            json.end();
        }
    }
    json.end_list();
}

fn put_ccbs(lines: &[CarriedLine], json: &mut Json) {
    json.begin_list("ccbs");
    for line in lines {
        if let CarriedLine::Ccb(it) = line {
            put_ccb(it, json);
        }
    }
    json.end_list();
}

fn put_ccb(it: &CarriedCcb, json: &mut Json) {
    json.begin();
    json.number("ccb", u64::from(it.number.0));
    json.number("queue", u64::from(it.queue.0));
    json.number("priority", u64::from(it.priority));
    json.number("retries", u64::from(it.retries));
    put_class(u64::from(it.class), json);
    json.number("attempts", u64::from(it.attempts));
    put_advice(u64::from(it.advice), json);
    json.word("state", if it.is_active { "active" } else { "waiting" });
    json.end();
}

fn put_freezes(lines: &[CarriedLine], json: &mut Json) {
    json.begin_list("freezes");
    for line in lines {
        if let CarriedLine::Freeze(it) = line {
            put_freeze(it, json);
        }
    }
    json.end_list();
}

fn put_freeze(it: &Freeze, json: &mut Json) {
    json.begin();
    json.number("freeze", u64::from(it.number));
    put_place(it.place, json);
    put_holder(Some(it.holder), json);
    json.end();
}
