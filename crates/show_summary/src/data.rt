// The summary of a whole trace as data: one object of JSON, with all that the summary for people has. It relies on `sums` for what it says, on
// `left_data` for what is left, and on `show_json` for JSON.

use crate::left_data::put_left;
use crate::places::{put_controllers, put_frozen, put_its_controller};
use crate::queues::{cell, finishes};
use crate::sums::Sums;
use ccb::{Place, QueueId};
use engine_config::Config;
use helpers::Helper;
use show_counts::{CODES, Counts, HELPERS};
use show_events::{NamedAccepted, Shown};
use show_json::{Json, put_carried, put_code, put_ending, put_helper};
use std::alloc::Global;
use std::io;
use std::io::Write;

/// Writes the summary of a trace of this configuration as one object, a line of it. Of the same trace it has the figures of `summarise`, and it
/// fails as that does.
pub fn write_summary<W: Write>(
    alloc: Global,
    config: &Config,
    named: &[NamedAccepted<'_>],
    shown: Shown<'_>,
    out: &mut W,
) -> io::Result<()> {
    let sums = Sums::of(alloc, config, named, shown)?;
    let mut json = Json::new(alloc);
    json.begin();
    json.word("kind", "summary");
    json.number("records", shown.trace.records.len() as u64);
    put_ending(shown, &mut json);
    if let Some(lines) = shown.carried {
        json.begin_at("carried");
        put_carried(lines, config, &mut json);
        json.end();
    }
    put_all(&sums, &mut json);
    json.end();
    json.line();
    json.write_to(out)
}

fn put_all(sums: &Sums<'_>, json: &mut Json) {
    sums.seen.refused.put(json);
    json.begin_list("queues");
    for queue in 0..sums.config.queues() {
        put_queue(sums, queue, json);
    }
    json.end_list();
    put_controllers(sums, sums.config.controllers(), json);
    json.begin_list("programs");
    for program in 0..sums.programs.len() {
        put_program(sums, program, json);
    }
    json.end_list();
    sums.seen.tried.put(json);
    sums.seen.advices.put(json);
    sums.seen.words.put(json);
    put_left(&sums.walk, json);
}

// The object of a queue.
fn put_queue(sums: &Sums<'_>, queue: u32, json: &mut Json) {
    json.begin();
    json.number("queue", u64::from(queue));
    json.foreign("program", sums.programs.name(sums.programs.of(queue)));
    put_counts(sums, queue, json);
    sums.seen.durations.put(queue, json);
    put_frozen("frozen", sums, Place::Device(QueueId(queue)), json);
    if sums.config.controllers() > 0 {
        put_its_controller(sums, queue, json);
    }
    sums.seen.openings.put(queue, json);
    put_at_end(sums, queue, json);
    json.end();
}

// What became of the queue's CCBs.
fn put_counts(sums: &Sums<'_>, queue: u32, json: &mut Json) {
    let counts = &sums.counts;
    let row = queue as usize;
    json.number("submissions", Counts::at(&counts.submissions, row));
    json.number("starts", Counts::at(&counts.starts, row));
    put_completions(sums, row, json);
    sums.seen.reports.put(queue, json);
    json.number("recoveries", Counts::at(&counts.recoveries, row));
    let requeues = cell(row, HELPERS, u32::from(Helper::Requeue.number()));
    json.number("requeues", Counts::at(&counts.calls, requeues));
    put_finishes(sums, row, json);
}

// The statuses with which CCBs were completed.
fn put_completions(sums: &Sums<'_>, queue: usize, json: &mut Json) {
    json.begin_list("completions");
    for code in 0..CODES {
        let count = Counts::at(&sums.counts.completions, cell(queue, CODES, code));
        put_count(code, count, json);
    }
    json.end_list();
}

// The codes with which runs finished CCBs, and that of those that were withdrawn.
fn put_finishes(sums: &Sums<'_>, queue: usize, json: &mut Json) {
    json.begin_list("finishes");
    for code in 0..CODES {
        put_count(code, finishes(sums, queue, code), json);
    }
    json.end_list();
}

// A code, with its name and how often it was, if it ever was.
fn put_count(code: u32, count: u64, json: &mut Json) {
    if count > 0 {
        json.begin();
        put_code(u8::try_from(code).unwrap_or(u8::MAX), json);
        json.number("count", count);
        json.end();
    }
}

// How many CCBs of the queue wait and are active at the end, and by how many freezes it is frozen.
fn put_at_end(sums: &Sums<'_>, queue: u32, json: &mut Json) {
    if let Some(info) = sums.walk.engine().queue_info(QueueId(queue)) {
        json.begin_at("at_the_end");
        json.number("waiting", u64::from(info.waiting));
        json.number("active", u64::from(info.active));
        json.number("freezes", u64::from(info.frozen));
        json.end();
    }
}

// The object of a program.
fn put_program(sums: &Sums<'_>, program: usize, json: &mut Json) {
    let mut runs = 0u64;
    for queue in 0..sums.config.queues() {
        if sums.programs.of(queue) == program {
            runs = runs.saturating_add(Counts::at(&sums.counts.recoveries, queue as usize));
        }
    }
    json.begin();
    json.foreign("program", sums.programs.name(program));
    let budget = sums.programs.budget(program);
    sums.seen.instructions.of(program).put(runs, budget, json);
    put_calls(sums, program, json);
    json.end();
}

// How often each helper was called by a program's runs, and how often it answered 0.
fn put_calls(sums: &Sums<'_>, program: usize, json: &mut Json) {
    json.begin_list("helpers");
    for number in 1..HELPERS {
        let calls = sum_of(sums, &sums.counts.calls, program, number);
        if calls > 0 {
            put_call(
                number,
                calls,
                sum_of(sums, &sums.counts.zeros, program, number),
                json,
            );
        }
    }
    json.end_list();
}

// How often the runs of a program did what is counted there of a helper.
fn sum_of(sums: &Sums<'_>, counts: &[u64], program: usize, helper: u32) -> u64 {
    let mut sum = 0u64;
    for queue in 0..sums.config.queues() {
        if sums.programs.of(queue) == program {
            sum = sum.saturating_add(Counts::at(counts, cell(queue as usize, HELPERS, helper)));
        }
    }
    sum
}

fn put_call(number: u32, calls: u64, zeros: u64, json: &mut Json) {
    if let Some(helper) = Helper::with_number(i32::try_from(number).unwrap_or(0)) {
        json.begin();
        put_helper(helper, json);
        json.number("calls", calls);
        json.number("answered_0", zeros);
        json.end();
    }
}
