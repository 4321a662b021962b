// What is left at the end of a trace, as data: runs, freezes with their holders, and CCBs. It relies on `show_events` for the world, and on `show_json`
// for JSON.

use ccb::CcbId;
use engine_core::CcbState;
use show_events::{FreezeTimes, RunTimes, Walk};
use show_json::{Json, put_holder, put_place};

/// Puts what is left, as lists.
pub(crate) fn put_left(walk: &Walk<'_>, json: &mut Json) {
    json.begin_at("left");
    json.digits("time", walk.clock());
    json.begin_list("runs");
    put_runs(walk, json);
    json.end_list();
    json.begin_list("freezes");
    put_freezes(walk, json);
    json.end_list();
    json.begin_list("ccbs");
    put_ccbs(walk, json);
    json.end_list();
    json.end();
}

fn put_runs(walk: &Walk<'_>, json: &mut Json) {
    for (run, times) in walk.runs().iter() {
        put_run(walk, *run, times, json);
    }
}

fn put_freezes(walk: &Walk<'_>, json: &mut Json) {
    for (freeze, times) in walk.freezes().iter() {
        put_freeze(walk, *freeze, times, json);
    }
}

fn put_ccbs(walk: &Walk<'_>, json: &mut Json) {
    for (ccb, since) in walk.ccbs().iter() {
        put_ccb(walk, *ccb, *since, json);
    }
}

fn put_run(walk: &Walk<'_>, run: u32, times: &RunTimes, json: &mut Json) {
    let Some(it) = walk.engine().run(run) else {
        return;
    };
    json.begin();
    json.number("run", u64::from(run));
    json.number("ccb", u64::from(it.ccb.0));
    json.number("queue", u64::from(it.queue.0));
    json.word("state", if it.is_out { "out" } else { "parked" });
    json.digits("since", times.since);
    json.end();
}

fn put_freeze(walk: &Walk<'_>, freeze: u32, times: &FreezeTimes, json: &mut Json) {
    json.begin();
    json.number("freeze", u64::from(freeze));
    put_place(times.place, json);
    json.digits("since", times.since);
    put_holder(walk.holder(times.place, freeze), json);
    json.end();
}

fn put_ccb(walk: &Walk<'_>, ccb: u32, since: u64, json: &mut Json) {
    let Some(it) = walk.engine().ccb(CcbId(ccb)) else {
        return;
    };
    json.begin();
    json.number("ccb", u64::from(ccb));
    json.number("queue", u64::from(it.ccb().queue.0));
    json.word(
        "state",
        match it.state() {
            CcbState::Waiting => "waiting",
            CcbState::Active => "active",
            CcbState::InRecovery => "in_recovery",
        },
    );
    json.digits("since", since);
    json.end();
}
