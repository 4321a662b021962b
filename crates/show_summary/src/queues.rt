// What a summary says of a queue. It relies on `sums`, and on `show_account` for the names of statuses and codes.

use crate::places::{print_frozen, print_its_controller};
use crate::sums::Sums;
use ccb::{Place, QueueId};
use cli_text_page::Page;
use helpers::Helper;
use show_account::put_code;
use show_counts::{CODES, Counts, HELPERS};

/// Puts the table of a queue.
pub(crate) fn print_queue(sums: &Sums<'_>, queue: u32, page: &mut Page) {
    page.fill("queue {}, program ", &[u64::from(queue)]);
    page.foreign(sums.programs.name(sums.programs.of(queue)));
    print_completions(sums, queue, page);
    print_recoveries(sums, queue as usize, page);
    sums.seen.durations.print(queue, page);
    print_frozen(sums, Place::Device(QueueId(queue)), page);
    if sums.config.controllers() > 0 {
        print_its_controller(sums, queue, page);
    }
    page.text("  openings      ");
    sums.seen.openings.print(queue, page);
    print_left(sums, queue, page);
}

// What became of the queue's CCBs, up to their completions.
fn print_completions(sums: &Sums<'_>, queue: u32, page: &mut Page) {
    let counts = &sums.counts;
    let row = queue as usize;
    let submissions = Counts::at(&counts.submissions, row);
    let starts = Counts::at(&counts.starts, row);
    page.fill(
        "\n  submissions   {}\n  starts        {}\n  completions   ",
        &[submissions, starts],
    );
    print_statuses(sums, row, page);
    page.text("\n");
    sums.seen.reports.print(queue, page);
}

// What the queue's runs did.
fn print_recoveries(sums: &Sums<'_>, queue: usize, page: &mut Page) {
    let counts = &sums.counts;
    let recoveries = Counts::at(&counts.recoveries, queue);
    let requeues = cell(queue, HELPERS, u32::from(Helper::Requeue.number()));
    let requeues = Counts::at(&counts.calls, requeues);
    page.fill(
        "  recoveries    {}\n  requeues      {}\n  finishes      ",
        &[recoveries, requeues],
    );
    print_finishes(sums, queue, page);
    page.text("\n");
}

// How many CCBs of the queue wait and are active at the end.
fn print_left(sums: &Sums<'_>, queue: u32, page: &mut Page) {
    page.text("\n");
    if let Some(info) = sums.walk.engine().queue_info(QueueId(queue)) {
        page.fill(
            "  at the end    waiting {}, active {}, freezes {}\n",
            &[
                u64::from(info.waiting),
                u64::from(info.active),
                u64::from(info.frozen),
            ],
        );
    }
}

/// The place of a column in the row of a queue.
pub(crate) fn cell(queue: usize, columns: u32, column: u32) -> usize {
    queue
        .saturating_mul(columns as usize)
        .saturating_add(column as usize)
}

/// How many CCBs of a queue ended with that final code: by a run, or since they were withdrawn.
pub(crate) fn finishes(sums: &Sums<'_>, queue: usize, code: u32) -> u64 {
    let by_runs = Counts::at(&sums.counts.finishes, cell(queue, CODES, code));
    by_runs.saturating_add(sums.seen.withdrawals.ended_with(queue, code))
}

// The statuses with which CCBs were completed, each with its name and how often it was.
fn print_statuses(sums: &Sums<'_>, queue: usize, page: &mut Page) {
    let before = page.len();
    for code in 0..CODES {
        let count = Counts::at(&sums.counts.completions, cell(queue, CODES, code));
        print_code(code, count, before, page);
    }
    print_none(before, page);
}

// The codes with which CCBs ended otherwise, in the same way.
fn print_finishes(sums: &Sums<'_>, queue: usize, page: &mut Page) {
    let before = page.len();
    for code in 0..CODES {
        print_code(code, finishes(sums, queue, code), before, page);
    }
    print_none(before, page);
}

// A code in a list that begins after so many bytes, with its name and how often it was, if it ever was.
fn print_code(code: u32, count: u64, before: usize, page: &mut Page) {
    if count > 0 {
        page.text(if page.len() > before { ", " } else { "" });
        put_code(u8::try_from(code).unwrap_or(u8::MAX), page);
        page.fill(": {}", &[count]);
    }
}

// What stands in such a list if no code does.
fn print_none(before: usize, page: &mut Page) {
    page.text(if page.len() > before { "" } else { "none" });
}
